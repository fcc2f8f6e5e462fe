//! The nominal constants of a term.
ghost use Rattle.std.specs.Prelude.{◌≡◌, map, IfOk, OnOk, All, List};
ghost use Rattle.ab_term.specs.Names as names;
ghost use Rattle.ab_term.specs.Names.{IsSupport};
ghost use Rattle.ab_term.specs.Terms.{terms_of};
ghost use Rattle.ab_store.specs.ab_types.specs.Entries.{Table};
ghost use Rattle.ab_store.specs.declared.node.CellEntry.{CellEntry};
ghost use Rattle.ab_store.specs.Trees.{Holds, head_in, tree_of};
ghost use Rattle.ab_store.specs.Reading.{reading};
ghost use Rattle.ab_store.specs.ab_types.specs.Sound.{IsTable};
ghost use Rattle.ab_store.specs.Naming.{HeadIsTyped, IsTypedBy};
ghost use Rattle.ab_norm.specs.Nominals.{nominal_of, HoldsNominal};
ghost use Rattle.ab_norm.specs.GatheredNames.{Gathers, AllFound};

use crate::carried_terms::{carry_resolved, with_same_bindings};
use crate::memo::Seen;
use crate::nominal::Nominal;
use crate::resolved_copies::is_resolved;
use ab_store::types::TypeTable;
use ab_store::types::laws::has_unique_ids;
use ab_store::{Head, Node, Store, TermId};
use std::alloc::{AllocError, Global};
use std::collections::BTreeSet;

/// The nominal constants that stand in the term, each once, in the order of their numbers.
pub fn support(
    alloc: Global,
    types: &TypeTable,
    store: &Store,
    id: TermId,
) -> Result<Vec<Nominal>, AllocError>
    requires store { IsTypedBy types.now store.now }
    requires id { Holds store.now id }
    ensures reads { IfOk result (λ list. IsSupport (reading types.now store.now id) (map (nominal_of types.now) list.items)) }
    ensures held { IfOk result (λ list. All (HoldsNominal types.now) list.items) }
{
    has_unique_ids(types);
    if is_resolved(alloc, store, id)? {
        return names_of(alloc, types, store, id);
    }
    let mut apart = with_same_bindings(alloc, types, store)?;
    let plain = carry_resolved(alloc, types, store, &mut apart, id)?;
    names_of(alloc, types, &apart, plain)
}

/// The nominal constants of the term, where its bindings don't count.
fn names_of(
    alloc: Global,
    types: &TypeTable,
    store: &Store,
    id: TermId,
) -> Result<Vec<Nominal>, AllocError>
    requires types { IsTable types.now }
    requires store { IsTypedBy types.now store.now }
    requires id { Holds store.now id }
    ensures reads { IfOk result (λ list. IsSupport (tree_of types.now store.now id) (map (nominal_of types.now) list.items)) }
    ensures held { IfOk result (λ list. All (HoldsNominal types.now) list.items) }
{
    let _ = types;
    let mut found = BTreeSet::new(alloc);
    let mut seen = Seen::new(alloc);
    gather(store, id, &mut found, &mut seen)?;
    let count = found.len();
    list_constants(alloc, found, count)
}

/// Puts the head into the set, where it is a nominal constant.
fn note(head: Head, found: &mut BTreeSet<Nominal>) -> Result<(), AllocError>
    ensures gathers { OnOk result ((types : Table) (cells : List CellEntry) →
        Gathers types found.old.keys found.new.keys (names.support_of_head (head_in types cells head))) }
    ensures held { OnOk result ((types : Table) → HeadIsTyped types head → All (HoldsNominal types) found.old.keys → All (HoldsNominal types) found.new.keys) }
{
    if let Head::Nominal(number, ty) = head {
        found.insert(Nominal { number, ty })?;
    }
    Ok(())
}

/// Puts the nominal constants of the term into the set.
#[cycle(gathered)]
fn gather(
    store: &Store,
    id: TermId,
    found: &mut BTreeSet<Nominal>,
    seen: &mut Seen,
) -> Result<(), AllocError>
    requires id { Holds store.now id }
    requires seen { AllFound store.now found.old.keys seen.old }
    ensures gathers { OnOk result ((types : Table) →
        Gathers types found.old.keys found.new.keys (names.support (tree_of types store.now id))) }
    ensures held { OnOk result ((types : Table) → IsTypedBy types store.now → All (HoldsNominal types) found.old.keys → All (HoldsNominal types) found.new.keys) }
    ensures seen { OnOk result (AllFound store.now found.new.keys seen.new) }
{
    if !store.has_nominals(id) {
        return Ok(());
    }
    if seen.has(id) {
        return Ok(());
    }
    gather_node(store, id, found, seen)?;
    seen.keep(id)?;
    Ok(())
}

/// Puts the nominal constants of the term into the set, where they may not all be there.
#[cycle(gathered)]
fn gather_node(
    store: &Store,
    id: TermId,
    found: &mut BTreeSet<Nominal>,
    seen: &mut Seen,
) -> Result<(), AllocError>
    requires id { Holds store.now id }
    requires seen { AllFound store.now found.old.keys seen.old }
    ensures gathers { OnOk result ((types : Table) →
        Gathers types found.old.keys found.new.keys (names.support (tree_of types store.now id))) }
    ensures held { OnOk result ((types : Table) → IsTypedBy types store.now → All (HoldsNominal types) found.old.keys → All (HoldsNominal types) found.new.keys) }
    ensures seen { OnOk result (AllFound store.now found.new.keys seen.new) }
{
    match store.view(id) {
        Node::Lam(_, _, body) => gather(store, *body, found, seen),
        Node::Spine(head, args) => {
            note(*head, found)?;
            gather_all(store, args.as_slice(), found, seen)
        }
    }
}

/// Puts the nominal constants of the terms into the set.
#[cycle(gathered)]
fn gather_all(
    store: &Store,
    ids: &[TermId],
    found: &mut BTreeSet<Nominal>,
    seen: &mut Seen,
) -> Result<(), AllocError>
    requires ids { All (Holds store.now) ids.now }
    requires seen { AllFound store.now found.old.keys seen.old }
    ensures gathers { OnOk result ((types : Table) →
        Gathers types found.old.keys found.new.keys (names.support_of_all (terms_of (map (tree_of types store.now) ids.now)))) }
    ensures held { OnOk result ((types : Table) → IsTypedBy types store.now → All (HoldsNominal types) found.old.keys → All (HoldsNominal types) found.new.keys) }
    ensures seen { OnOk result (AllFound store.now found.new.keys seen.new) }
{
    for id in ids {
        gather(store, *id, found, seen)?;
    }
    Ok(())
}

/// The constants of the set, in their order.
fn list_constants(
    alloc: Global,
    mut found: BTreeSet<Nominal>,
    count: usize,
) -> Result<Vec<Nominal>, AllocError>
    ensures { IfOk result (λ list. list.items ≡ found.keys) }
{
    let mut list = Vec::with_capacity(alloc, count)?;
    while let Some(a) = found.pop_first() {
        list.push(a)?;
    }
    Ok(list)
}
