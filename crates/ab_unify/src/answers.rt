//! What unification answers.
ghost use Rattle.std.specs.Prelude.{◌≡◌};

use ab_norm::store::CellId;
use std::marker::Model;

/// A list of cells. Contracts see it as the list.
#[derive(Drop)]
pub struct Cells {
    cells: Vec<CellId>,
}

impl Model for Cells {
    ghost use Rattle.std.specs.Prelude.{List};
    ghost use Rattle.ab_norm.specs.ab_store.specs.declared.node.CellId.{CellId};

    ghost Value = { List CellId };

    ghost view = { λ list. list.cells.items };
}

impl Cells {
    /// The cells of a vector, in its memory.
    pub fn from_vec(cells: Vec<CellId>) -> Cells
        ensures { result ≡ cells.items }
    {
        Cells { cells }
    }

    /// The cells as a vector, in the memory of the list.
    pub fn into_vec(self) -> Vec<CellId>
        ensures { result.items ≡ self }
    {
        self.cells
    }

    /// The cells as a slice.
    pub fn as_slice(&self) -> &[CellId]
        ensures { result.now ≡ self.now }
    {
        &self.cells
    }
}

/// The answer to a problem.
#[derive(Drop)]
pub enum Solved {
    /// Cells were bound, so that both sides of each equation are the same. Listed are the cells that were made, in the
    /// order of their making; some of them may be bound.
    Unified(Cells),
    /// No substitution makes both sides of each equation the same.
    Apart,
    /// No rule applies any more. The first equation that is left came from the given one of this number, from 0.
    Stuck(usize),
}
