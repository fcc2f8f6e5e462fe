//! Which variables stand in a term.
ghost use Rattle.std.specs.Prelude.{◌≡◌, ◌↔◌, true, map, IfOk, OnOk, IsTrue, All, Contains};
ghost use Rattle.ab_term.specs.Variables.{variables_of_head};
ghost use Rattle.ab_store.specs.ab_types.specs.Entries.{Table};
ghost use Rattle.ab_store.specs.Trees.{Contents, Holds, tree_of, head_reading};
ghost use Rattle.ab_typing.specs.Cells.{variable_of};
ghost use Rattle.ab_formulas.specs.GoalTerms.{HoldsOnly};

use crate::visited_terms::{is_seen, see};
use ab_store::{CellId, Head, Node, Store, TermId};
use std::alloc::{AllocError, Global};
use std::collections::BTreeSet;

/// Whether each variable of the term is one of those listed. A part that is shared is looked at once.
pub fn holds_only(
    alloc: Global,
    store: &Store,
    id: TermId,
    variables: &[CellId],
) -> Result<bool, AllocError>
    requires { Holds store.now id }
    ensures { IfOk result (λ yes. (types : Table) →
        IsTrue yes ↔ HoldsOnly (map (variable_of types store.now) variables.now) (tree_of types store.now id)) }
{
    let mut seen = BTreeSet::new(alloc);
    holds(store, variables, &mut seen, id)
}

/// The same, where some terms are known to hold no other variable.
#[cycle(held)]
fn holds(
    store: &Store,
    variables: &[CellId],
    seen: &mut BTreeSet<TermId>,
    id: TermId,
) -> Result<bool, AllocError>
    requires id { Holds store.now id }
    requires seen { (types : Table) → All (λ t. HoldsOnly (map (variable_of types store.now) variables.now) (tree_of types store.now t)) seen.old.keys }
    ensures holds { IfOk result (λ yes. (types : Table) → (yes ≡ true) ↔ HoldsOnly (map (variable_of types store.now) variables.now) (tree_of types store.now id)) }
    ensures seen { OnOk result ((types : Table) → All (λ t. HoldsOnly (map (variable_of types store.now) variables.now) (tree_of types store.now t)) seen.new.keys) }
{
    if is_seen(seen, id) {
        return Ok(true);
    }
    if !node_holds(store, variables, seen, id)? {
        return Ok(false);
    }
    see(seen, id)?;
    Ok(true)
}

#[cycle(held)]
fn node_holds(
    store: &Store,
    variables: &[CellId],
    seen: &mut BTreeSet<TermId>,
    id: TermId,
) -> Result<bool, AllocError>
    requires id { Holds store.now id }
    requires seen { (types : Table) → All (λ t. HoldsOnly (map (variable_of types store.now) variables.now) (tree_of types store.now t)) seen.old.keys }
    ensures holds { IfOk result (λ yes. (types : Table) → (yes ≡ true) ↔ HoldsOnly (map (variable_of types store.now) variables.now) (tree_of types store.now id)) }
    ensures seen { OnOk result ((types : Table) → All (λ t. HoldsOnly (map (variable_of types store.now) variables.now) (tree_of types store.now t)) seen.new.keys) }
{
    match store.view(id) {
        Node::Lam(_, _, body) => holds(store, variables, seen, *body),
        Node::Spine(head, args) => {
            if !is_listed(*head, variables) {
                return Ok(false);
            }
            all_hold(store, variables, seen, args.as_slice())
        }
    }
}

#[cycle(held)]
fn all_hold(
    store: &Store,
    variables: &[CellId],
    seen: &mut BTreeSet<TermId>,
    ids: &[TermId],
) -> Result<bool, AllocError>
    requires ids { All (Holds store.now) ids.now }
    requires seen { (types : Table) → All (λ t. HoldsOnly (map (variable_of types store.now) variables.now) (tree_of types store.now t)) seen.old.keys }
    ensures hold { IfOk result (λ yes. (types : Table) → (yes ≡ true) ↔
        All (λ t. HoldsOnly (map (variable_of types store.now) variables.now) (tree_of types store.now t)) ids.now) }
    ensures seen { OnOk result ((types : Table) → All (λ t. HoldsOnly (map (variable_of types store.now) variables.now) (tree_of types store.now t)) seen.new.keys) }
{
    for id in ids {
        if !holds(store, variables, seen, *id)? {
            return Ok(false);
        }
    }
    Ok(true)
}

/// Whether the head is none but a listed variable, if it is one.
fn is_listed(head: Head, variables: &[CellId]) -> bool
    ensures { (types : Table) (store : Contents) → (result ≡ true) ↔
        All (Contains (map (variable_of types store) variables.now)) (variables_of_head (head_reading types store head)) }
{
    match head {
        Head::Cell(cell) => variables.contains(&cell),
        _ => true,
    }
}
