//! What was added to a world behind kinds and constants, in order: definitions, clauses of the program, theorems.
ghost use Rattle.std.specs.Prelude.{◌≡◌, ◌⊎◌, ◌-◌, [], ◌∷◌, ◌++◌, take, length, OnOk, OnErr, slice_get, true, None, Some, All, if◌then◌else◌};
ghost use Rattle.std.specs.HashMap.{get};
ghost use Rattle.std.specs.Option.{option_map, option_copied};
ghost use Rattle.ab_logic.specs.Additions.{same_constant, is_among, as_theorem, as_block, as_clause, theorem_at_place, block_at_place, clause_at_place, entry_in, entries_of, places_in, block_kept, clause_places, noted, without_last};
ghost use Rattle.ab_logic.specs.declared.additions.Addition.TheVariants.{Theorem, Definition, Clause};

use crate::lists::Places;
use ab_store::TermId;
use ab_store::name::Name;
use ab_store::types::ConstId;
use ab_typing::{Block, ClauseTerm};
use indexmap::IndexMap;
use std::alloc::{AllocError, Global};
use std::collections::HashMap;
use std::marker::Model;

/// A theorem: its name, its formula, and the places of the theorems that it assumes, in growing order, counted from 0 in the
/// order in which theorems were added.
#[derive(Drop)]
pub struct TheoremEntry {
    pub name: Name,
    pub formula: TermId,
    pub assumed: Places,
}

/// What is added to a world.
#[derive(Drop)]
pub enum Addition {
    Theorem(TheoremEntry),
    Definition(Block),
    /// A clause of the program, and the constant at its head.
    Clause(ClauseTerm, ConstId),
}

impl Addition {
    /// The theorem, if it is one.
    fn theorem(&self) -> Option<&TheoremEntry>
        ensures { option_copied result ≡ as_theorem self.now }
    {
        match self {
            Addition::Theorem(entry) => Some(entry),
            Addition::Definition(_) => None,
            Addition::Clause(_, _) => None,
        }
    }

    /// The clause of the program, if it is one.
    fn clause(&self) -> Option<&ClauseTerm>
        ensures { option_copied result ≡ as_clause self.now }
    {
        match self {
            Addition::Theorem(_) => None,
            Addition::Definition(_) => None,
            Addition::Clause(clause, _) => Some(clause),
        }
    }

    /// The definition, if it is one of the predicate.
    fn block(&self, predicate: ConstId) -> Option<&Block>
        ensures { option_copied result ≡ as_block self.now predicate }
    {
        match self {
            Addition::Theorem(_) => None,
            Addition::Clause(_, _) => None,
            Addition::Definition(block) => {
                if block.predicates.as_slice().contains(&predicate) {
                    Some(block)
                } else {
                    None
                }
            }
        }
    }
}

/// What was added, and how many kinds and constants were declared before it.
#[derive(Drop)]
pub struct Added {
    pub(crate) what: Addition,
    pub(crate) before: usize,
}

/// Theorems, definitions and clauses of the program in order, looked up by name, by predicate and by head. Contracts see
/// the list.
#[derive(Drop)]
pub(crate) struct Additions {
    list: Vec<Added>,
    by_name: IndexMap<Name, usize>,
    by_predicate: HashMap<ConstId, usize>,
    by_head: HashMap<ConstId, Vec<usize>>,
}

impl Model for Additions {
    ghost use Rattle.std.specs.Prelude.{List};
    ghost use Rattle.std.specs.HashMap.{get};
    ghost use Rattle.ab_logic.specs.declared.additions.Added.{Added};

    ghost Value = { List Added };

    ghost use Rattle.ab_logic.specs.Additions.{same_constant, noted, IsFiled};

    ghost view = { λ a. a.list.items };

    ghost invariant = { λ a. IsFiled a.list.items a.by_name.entries (get same_constant a.by_predicate) (noted a.by_head) };
}

impl Additions {
    /// No addition.
    pub(crate) fn new(alloc: Global) -> Additions
        ensures { result ≡ [] }
    {
        Additions {
            list: Vec::new(alloc),
            by_name: IndexMap::new(alloc),
            by_predicate: HashMap::new(alloc),
            by_head: HashMap::new(alloc),
        }
    }

    /// Where memory for it comes from.
    pub(crate) fn alloc(&self) -> Global {
        *self.list.allocator()
    }

    /// How many additions there are.
    pub(crate) fn len(&self) -> usize
        ensures { result ≡ length self.now }
    {
        self.list.len()
    }

    /// What stands at this place of the list.
    pub(crate) fn at(&self, place: usize) -> Option<&Addition>
        ensures { option_copied result ≡ option_map (λ a. a.what) (slice_get self.now place) }
    {
        match self.list.get(place) {
            None => None,
            Some(added) => Some(&added.what),
        }
    }

    /// The clause of the program at this place of the list, if one stands there.
    pub(crate) fn clause_at(&self, place: usize) -> Option<&ClauseTerm>
        ensures { option_copied result ≡ clause_at_place self.now place }
    {
        match self.list.get(place) {
            None => None,
            Some(added) => added.what.clause(),
        }
    }

    /// The places of the clauses of the program with the constant at their head, in order.
    pub(crate) fn clause_places(&self, head: ConstId) -> &[usize]
        ensures { result.now ≡ clause_places self.now head }
    {
        match self.by_head.get(&head) {
            None => &[],
            Some(places) => places.as_slice(),
        }
    }

    /// How many theorems there are.
    pub(crate) fn theorems(&self) -> usize
        ensures { result ≡ length (entries_of self.now) }
    {
        self.by_name.len()
    }

    /// The theorem of this place among theorems.
    pub(crate) fn theorem_at(&self, place: usize) -> Option<&TheoremEntry>
        ensures { option_copied result ≡ slice_get (entries_of self.now) place }
    {
        match self.by_name.get_index(place) {
            None => None,
            Some((_, place)) => self.theorem_in(*place),
        }
    }

    /// The formula of the theorem of that name.
    pub(crate) fn formula(&self, name: &Name) -> Option<TermId>
        ensures { result ≡ option_map (λ e. e.formula) (entry_in self.now name.now) }
    {
        match self.theorem(name) {
            None => None,
            Some(entry) => Some(entry.formula),
        }
    }

    /// The places that the theorem of that name assumes; none where there is no such theorem.
    pub(crate) fn assumptions(&self, name: &Name) -> &[usize]
        ensures { result.now ≡ places_in (entry_in self.now name.now) }
    {
        match self.theorem(name) {
            None => &[],
            Some(entry) => entry.assumed.as_slice(),
        }
    }

    /// The theorem of that name.
    fn theorem(&self, name: &Name) -> Option<&TheoremEntry>
        ensures { option_copied result ≡ entry_in self.now name.now }
    {
        match self.by_name.get(name) {
            None => None,
            Some(place) => self.theorem_in(*place),
        }
    }

    /// The definition of the predicate.
    pub(crate) fn block(&self, predicate: ConstId) -> Option<&Block>
        ensures { option_copied result ≡ block_kept self.now predicate }
    {
        match self.by_predicate.get(&predicate) {
            None => None,
            Some(place) => self.block_in(*place, predicate),
        }
    }

    /// The theorem at this place of the list, if one stands there.
    fn theorem_in(&self, place: usize) -> Option<&TheoremEntry>
        ensures { option_copied result ≡ theorem_at_place self.now place }
    {
        match self.list.get(place) {
            None => None,
            Some(added) => added.what.theorem(),
        }
    }

    /// The definition at this place of the list, if one of the predicate stands there.
    fn block_in(&self, place: usize, predicate: ConstId) -> Option<&Block>
        ensures { option_copied result ≡ block_at_place self.now predicate place }
    {
        match self.list.get(place) {
            None => None,
            Some(added) => added.what.block(predicate),
        }
    }

    /// Puts a theorem, of whose name there is none, behind the others.
    pub(crate) fn add_theorem(
        &mut self,
        name: Name,
        formula: TermId,
        assumed: Places,
        before: usize,
    ) -> Result<(), AllocError>
        requires { entry_in self.old name ≡ None }
        ensures added { OnOk result (self.new ≡ self.old
            ++ record { what = Theorem (record { name = name; formula = formula; assumed = assumed }); before = before } ∷ []) }
        ensures err { OnErr result (self.new ≡ self.old) }
    {
        let entry = TheoremEntry {
            name: name.clone()?,
            formula,
            assumed,
        };
        let place = self.list.len();
        self.list.reserve(1)?;
        self.by_name.insert(name, place)?;
        let what = Addition::Theorem(entry);
        self.list.push_reserved(Added { what, before });
        Ok(())
    }

    /// Puts a definition, of whose predicates there is none, behind the others.
    pub(crate) fn add_definition(&mut self, block: Block, before: usize) -> Result<(), AllocError>
        requires { All (λ p. block_kept self.old p ≡ None) block.predicates }
        ensures added { OnOk result (self.new ≡ self.old ++ record { what = Definition block; before = before } ∷ []) }
        ensures err { OnErr result (self.new ≡ self.old) }
    {
        let place = self.list.len();
        self.list.reserve(1)?;
        file_all(&mut self.by_predicate, block.predicates.as_slice(), place)?;
        let what = Addition::Definition(block);
        self.list.push_reserved(Added { what, before });
        Ok(())
    }

    /// Puts a clause of the program, with the constant at its head, behind the others.
    pub(crate) fn add_clause(
        &mut self,
        clause: ClauseTerm,
        head: ConstId,
        before: usize,
    ) -> Result<(), AllocError>
        ensures added { OnOk result (self.new ≡ self.old ++ record { what = Clause clause head; before = before } ∷ []) }
        ensures err { OnErr result (self.new ≡ self.old) }
    {
        let alloc = self.alloc();
        let place = self.list.len();
        self.list.reserve(1)?;
        note_place(alloc, &mut self.by_head, head, place)?;
        let what = Addition::Clause(clause, head);
        self.list.push_reserved(Added { what, before });
        Ok(())
    }

    /// Keeps the first `len` additions, at the cost of those that go.
    pub(crate) fn truncate(&mut self, len: usize)
        ensures { self.new ≡ take len self.old }
    {
        for place in len..self.list.len() {
            let _ = place;
            self.drop_last();
        }
    }

    /// Drops the last addition.
    fn drop_last(&mut self)
        ensures { self.new ≡ take (length self.old - 1) self.old }
    {
        let Some(added) = self.list.pop() else {
            return;
        };
        match &added.what {
            Addition::Theorem(_) => {
                let _ = self.by_name.pop();
            }
            Addition::Definition(_) => {}
            Addition::Clause(_, head) => drop_place(&mut self.by_head, *head),
        }
    }
}

/// Notes the place for each of the predicates.
fn file_all(
    places: &mut HashMap<ConstId, usize>,
    predicates: &[ConstId],
    place: usize,
) -> Result<(), AllocError>
    ensures filed { OnOk result ((p : ConstId) → get same_constant places.new p
        ≡ (if is_among predicates.now p then Some place else (get same_constant places.old p))) }
    ensures part { (p : ConstId) → (get same_constant places.new p ≡ get same_constant places.old p)
        ⊎ ((get same_constant places.new p ≡ Some place) × (is_among predicates.now p ≡ true)) }
{
    for predicate in predicates {
        places.insert(*predicate, place)?;
    }
    Ok(())
}

/// Notes the place behind those of the constant.
fn note_place(
    alloc: Global,
    places: &mut HashMap<ConstId, Vec<usize>>,
    head: ConstId,
    place: usize,
) -> Result<(), AllocError>
    ensures noted { OnOk result ((p : ConstId) → noted places.new p ≡ noted places.old p ++ (if same_constant head p then (place ∷ []) else [])) }
    ensures err { OnErr result ((p : ConstId) → noted places.new p ≡ noted places.old p) }
{
    if let Some(found) = places.get_mut(&head) {
        found.push(place)?;
        return Ok(());
    }
    let first = vec![in alloc; place]?;
    places.insert(head, first)?;
    Ok(())
}

/// Drops the last of the constant's places.
fn drop_place(places: &mut HashMap<ConstId, Vec<usize>>, head: ConstId)
    ensures { (p : ConstId) → noted places.new p ≡ (if same_constant head p then (without_last (noted places.old p)) else (noted places.old p)) }
{
    if let Some(found) = places.get_mut(&head) {
        let _ = found.pop();
    }
}
