//! The nominal constants of an atom's arguments.
ghost use Rattle.std.specs.Prelude.{◌≡◌, ◌⊎◌, ℕ, ◌<◌, ◌≤◌, nat_lt, length, get_or, true, false, List, All, IfOk, OnOk};
ghost use Rattle.ab_term.specs.Names.{support, support_of_head, support_of_all};
ghost use Rattle.ab_norm.specs.ab_types.specs.Sound.{IsTable};
ghost use Rattle.ab_norm.specs.ab_store.specs.declared.node.CellEntry.{CellEntry};
ghost use Rattle.ab_norm.specs.ab_store.specs.Trees.{Holds, tree_of, head_in};
ghost use Rattle.ab_norm.specs.ab_store.specs.Naming.{HeadIsTyped, IsTypedBy};
ghost use Rattle.ab_norm.specs.declared.nominal.Nominal.{Nominal as ANominal};
ghost use Rattle.ab_norm.specs.Nominals.{nominal_of, HoldsNominal};
ghost use Rattle.ab_unifiers.specs.Choices as choices;
ghost use Rattle.ab_instances.specs.ListReadings.{names_read, given_at};
ghost use Rattle.ab_instances.specs.ConstantOrder.{has_been, noted, all_noted, AreNoted};

use crate::names::is_in;
use ab_norm::Nominal;
use ab_norm::store::{Head, Node, Store, TermId};
use ab_norm::types::TypeTable;
use ab_norm::types::laws::has_unique_ids;
use std::alloc::{AllocError, Global};
use std::collections::HashSet;

/// Terms that a walk has been through.
#[derive(Drop)]
pub(crate) struct Seen {
    terms: HashSet<TermId>,
}

impl Seen {
    /// Nothing is kept yet.
    fn new(alloc: Global) -> Seen
        ensures { (t : TermId) → has_been result t ≡ false }
    {
        Seen {
            terms: HashSet::new(alloc),
        }
    }

    /// Whether the term is kept.
    fn has(&self, term: TermId) -> bool
        ensures { result ≡ has_been self.now term }
    {
        self.terms.contains(&term)
    }

    /// Keeps the term.
    fn keep(&mut self, term: TermId) -> Result<(), AllocError>
        ensures { (t : TermId) → (has_been self.new t ≡ has_been self.old t) ⊎ (t ≡ term) }
    {
        self.terms.insert(term)?;
        Ok(())
    }
}

/// The constants that stand in the trees of the arguments, each once, in the order of their numbers.
pub fn constants_of(
    alloc: Global,
    types: &TypeTable,
    store: &Store,
    arguments: &[TermId],
) -> Result<Vec<Nominal>, AllocError>
    requires store { IsTypedBy types.now store.now }
    requires arguments { All (Holds store.now) arguments.now }
    ensures list { IfOk result (λ list. names_read types.now list.items ≡ choices.in_order (support_of_all (given_at types.now store.now arguments.now))) }
    ensures held { IfOk result (λ list. All (HoldsNominal types.now) list.items) }
{
    has_unique_ids(types);
    let mut found = Vec::new(alloc);
    let mut seen = Seen::new(alloc);
    note_all(types, store, arguments, &mut found, &mut seen)?;
    Ok(found)
}

/// Where the constant has its place by number: behind those whose number isn't greater, up to the first that is.
fn place_of(found: &[Nominal], a: Nominal) -> usize
    ensures within { result ≤ length found.now }
    ensures before { (k : ℕ) (d : ANominal) → k < result → nat_lt a.number (get_or found.now k d).number ≡ false }
    ensures after { (d : ANominal) → result < length found.now → nat_lt a.number (get_or found.now result d).number ≡ true }
{
    for place in 0..found.len() {
        if a.number < found[place].number {
            return place;
        }
    }
    found.len()
}

/// Puts the head into the list, where it is a nominal constant that isn't there.
fn note_head(types: &TypeTable, head: Head, found: &mut Vec<Nominal>) -> Result<(), AllocError>
    requires table { IsTable types.now }
    requires head { HeadIsTyped types.now head }
    requires found { All (HoldsNominal types.now) found.old.items }
    ensures notes { OnOk result ((cells : List CellEntry) → names_read types.now found.new.items
        ≡ all_noted (support_of_head (head_in types.now cells head)) (names_read types.now found.old.items)) }
    ensures held { OnOk result (All (HoldsNominal types.now) found.new.items) }
{
    if let Head::Nominal(number, ty) = head {
        let a = Nominal { number, ty };
        if !is_in(types, found, a) {
            let place = place_of(found, a);
            found.insert(place, a)?;
        }
    }
    Ok(())
}

/// Puts the constants of the term into the list, the last first.
#[cycle(noting)]
fn note(
    types: &TypeTable,
    store: &Store,
    id: TermId,
    found: &mut Vec<Nominal>,
    seen: &mut Seen,
) -> Result<(), AllocError>
    requires table { IsTable types.now }
    requires store { IsTypedBy types.now store.now }
    requires id { Holds store.now id }
    requires found { All (HoldsNominal types.now) found.old.items }
    requires seen { AreNoted types.now store.now (names_read types.now found.old.items) seen.old }
    ensures notes { OnOk result (names_read types.now found.new.items
        ≡ all_noted (support (tree_of types.now store.now id)) (names_read types.now found.old.items)) }
    ensures held { OnOk result (All (HoldsNominal types.now) found.new.items) }
    ensures seen { OnOk result (AreNoted types.now store.now (names_read types.now found.new.items) seen.new) }
{
    if !store.has_nominals(id) {
        return Ok(());
    }
    if seen.has(id) {
        return Ok(());
    }
    note_node(types, store, id, found, seen)?;
    seen.keep(id)?;
    Ok(())
}

/// Puts the constants of the term into the list, where they may not all be there.
#[cycle(noting)]
fn note_node(
    types: &TypeTable,
    store: &Store,
    id: TermId,
    found: &mut Vec<Nominal>,
    seen: &mut Seen,
) -> Result<(), AllocError>
    requires table { IsTable types.now }
    requires store { IsTypedBy types.now store.now }
    requires id { Holds store.now id }
    requires found { All (HoldsNominal types.now) found.old.items }
    requires seen { AreNoted types.now store.now (names_read types.now found.old.items) seen.old }
    ensures notes { OnOk result (names_read types.now found.new.items
        ≡ all_noted (support (tree_of types.now store.now id)) (names_read types.now found.old.items)) }
    ensures held { OnOk result (All (HoldsNominal types.now) found.new.items) }
    ensures seen { OnOk result (AreNoted types.now store.now (names_read types.now found.new.items) seen.new) }
{
    match store.view(id) {
        Node::Lam(_, _, body) => note(types, store, *body, found, seen),
        Node::Spine(head, args) => {
            note_all(types, store, args.as_slice(), found, seen)?;
            note_head(types, *head, found)
        }
    }
}

/// Puts the constants of the terms into the list, the last first.
#[cycle(noting)]
fn note_all(
    types: &TypeTable,
    store: &Store,
    ids: &[TermId],
    found: &mut Vec<Nominal>,
    seen: &mut Seen,
) -> Result<(), AllocError>
    requires table { IsTable types.now }
    requires store { IsTypedBy types.now store.now }
    requires ids { All (Holds store.now) ids.now }
    requires found { All (HoldsNominal types.now) found.old.items }
    requires seen { AreNoted types.now store.now (names_read types.now found.old.items) seen.old }
    ensures notes { OnOk result (names_read types.now found.new.items
        ≡ all_noted (support_of_all (given_at types.now store.now ids.now)) (names_read types.now found.old.items)) }
    ensures held { OnOk result (All (HoldsNominal types.now) found.new.items) }
    ensures seen { OnOk result (AreNoted types.now store.now (names_read types.now found.new.items) seen.new) }
{
    let count = ids.len();
    for done in 0..count {
        note(types, store, ids[count - 1 - done], found, seen)?;
    }
    Ok(())
}
