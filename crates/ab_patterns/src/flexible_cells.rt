//! Variables that may be replaced.
ghost use Rattle.std.specs.Prelude.{◌≡◌, ◌++◌, ◌∷◌, [], map, IfOk, OnOk, OnErr};
ghost use Rattle.std.specs.HashMap.{get};
ghost use Rattle.ab_norm.specs.ab_types.specs.Entries.{Table};
ghost use Rattle.ab_norm.specs.ab_store.specs.Trees.{Contents, head_reading};
ghost use Rattle.ab_norm.specs.ab_store.specs.Reading.{cell_variable};
ghost use Rattle.ab_unifiers.specs.Replacements as solve;
ghost use Rattle.ab_unifiers.specs.Unification as solving;
ghost use Rattle.ab_patterns.specs.Flexible as flexible;
ghost use Rattle.ab_patterns.specs.Flexible.{same_cell, others_than};

use ab_norm::store::{CellId, Head};
use std::alloc::{AllocError, Global};
use std::collections::HashMap;
use std::marker::Model;

/// Cells that may be replaced, in order of age. To add one, to take one out and to ask for one is a look-up each: a cell that
/// is taken out stays in the row, without a place there. Contracts see the list.
#[derive(Drop)]
pub struct FlexibleCells {
    row: Vec<CellId>,
    places: HashMap<CellId, usize>,
}

impl Model for FlexibleCells {
    ghost use Rattle.std.specs.HashMap.{get};
    ghost use Rattle.ab_patterns.specs.Flexible.{InAge, same_cell, listed_from, HavePlaces};

    ghost Value = { InAge };

    ghost view = { λ inside. record { items = listed_from (get same_cell inside.places) 0 inside.row.items } };

    ghost invariant = { λ inside. HavePlaces (get same_cell inside.places) inside.row.items };
}

impl FlexibleCells {
    /// The cells of a slice.
    pub fn from_slice(alloc: Global, cells: &[CellId]) -> Result<FlexibleCells, AllocError>
        ensures { IfOk result (λ made. made.items ≡ cells.now) }
    {
        let mut flexible = FlexibleCells {
            row: Vec::new(alloc),
            places: HashMap::new(alloc),
        };
        for cell in cells {
            flexible.push(*cell)?;
        }
        Ok(flexible)
    }

    /// The cells as a vector.
    pub fn to_vec(&self, alloc: Global) -> Result<Vec<CellId>, AllocError>
        ensures { IfOk result (λ cells. cells.items ≡ self.now.items) }
    {
        list_cells(alloc, &self.row, &self.places)
    }

    /// Adds a cell, the youngest. Where memory runs out the cells stay as they were.
    pub fn push(&mut self, cell: CellId) -> Result<(), AllocError>
        ensures items { OnOk result (self.new.items ≡ self.old.items ++ cell ∷ []) }
        ensures err { OnErr result (self.new.items ≡ self.old.items) }
    {
        let place = self.row.len();
        self.row.push(cell)?;
        if !self.places.contains_key(&cell) {
            self.places.insert(cell, place)?;
        }
        Ok(())
    }

    /// Takes a cell out.
    pub fn remove(&mut self, cell: CellId)
        ensures { self.new.items ≡ others_than cell self.old.items }
    {
        self.places.remove(&cell);
    }

    /// Whether the first cell comes before the second.
    pub fn is_older(&self, first: CellId, second: CellId) -> bool
        ensures { (types : Table) (store : Contents) →
            result ≡ solving.is_older (map (cell_variable types store) self.now.items) (cell_variable types store first) (cell_variable types store second) }
    {
        is_earlier(
            self.places.get(&first).copied(),
            self.places.get(&second).copied(),
        )
    }

    /// Whether the cell is one of these.
    fn has(&self, cell: CellId) -> bool
        ensures { (types : Table) (store : Contents) →
            result ≡ solve.holds (map (cell_variable types store) self.now.items) (cell_variable types store cell) }
    {
        self.places.contains_key(&cell)
    }
}

/// The cells of the row that count where they stand.
fn list_cells(
    alloc: Global,
    row: &[CellId],
    places: &HashMap<CellId, usize>,
) -> Result<Vec<CellId>, AllocError>
    ensures { IfOk result (λ cells. cells.items ≡ flexible.listed_from (get same_cell places.now) 0 row.now) }
{
    let mut cells = Vec::new(alloc);
    for (at, cell) in row.iter().enumerate() {
        if counts(places.get(cell).copied(), at) {
            cells.push(*cell)?;
        }
    }
    Ok(cells)
}

/// Whether a cell with this place counts where it stands.
fn counts(place: Option<usize>, at: usize) -> bool
    ensures { result ≡ flexible.counts place at }
{
    match place {
        None => false,
        Some(place) => place <= at,
    }
}

/// Whether the first place comes before the second, or there is no second.
fn is_earlier(first: Option<usize>, second: Option<usize>) -> bool
    ensures { result ≡ flexible.is_earlier first second }
{
    match (first, second) {
        (None, _) => false,
        (Some(_), None) => true,
        (Some(place), Some(other)) => place < other,
    }
}

/// Whether the head is one of these cells.
pub fn is_flexible(flexible: &FlexibleCells, head: Head) -> bool
    ensures { (types : Table) (store : Contents) →
        result ≡ solve.is_flexible (map (cell_variable types store) flexible.now.items) (head_reading types store head) }
{
    match head {
        Head::Cell(cell) => flexible.has(cell),
        Head::Const(_) | Head::Logic(_) | Head::Nominal(_, _) | Head::Index(_) => false,
    }
}
