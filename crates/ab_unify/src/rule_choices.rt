//! The rule that applies to an equation with a flexible side.
ghost use Rattle.std.specs.Prelude.{◌≡◌, ◌↔◌, ℕ, ◌≤◌, List, map, All, IfOk, IfSome, None, true, false, Contains};
ghost use Rattle.ab_term.specs.Types.{Ty, kind};
ghost use Rattle.ab_term.specs.Terms.{variable, spine, terms_of};
ghost use Rattle.ab_term.specs.Typing.{TakeType};
ghost use Rattle.ab_norm.specs.ab_types.specs.Entries.{Table, signature};
ghost use Rattle.ab_norm.specs.ab_types.specs.Ids.{type_of};
ghost use Rattle.ab_norm.specs.ab_store.specs.declared.node.Head.TheVariants.{Cell};
ghost use Rattle.ab_norm.specs.ab_store.specs.Trees.{Contents, Holds, cell_of, tree_of, head_reading};
ghost use Rattle.ab_norm.specs.ab_store.specs.Reading.{cell_variable};
ghost use Rattle.ab_norm.specs.ab_store.specs.Bindings.{IsResolved};
ghost use Rattle.ab_norm.specs.ab_store.specs.Naming.{IsTypedBy, IsTerm};
ghost use Rattle.ab_patterns.specs.ab_unifiers.specs.Replacements as solve;
ghost use Rattle.ab_patterns.specs.ab_unifiers.specs.Unification.{rigid_heads};
ghost use Rattle.ab_unify.specs.Problem.{cells_read, variables_read};
ghost use Rattle.ab_unify.specs.StoreChanges.{Grows, IsFree};
ghost use Rattle.ab_unify.specs.Outcome.{Tells, last_rules};

use crate::flexible_rules::{Step, solve_one, solve_rigid, solve_two};
use ab_norm::store::{CellId, Head, Node, Store, TermId};
use ab_norm::types::{Steps, TypeTable};
use ab_patterns::{FlexibleCells, is_flexible};
use std::alloc::{AllocError, Global};

/// Whether the two cells are the same.
fn is_same_cell(a: CellId, b: CellId) -> bool
    ensures { (result ≡ true) ↔ (a ≡ b) }
{
    a == b
}

/// The cell that the head is, where it is one of these.
fn flexible_cell(flexible: &FlexibleCells, head: Head) -> Option<CellId>
    ensures some { IfSome result (λ c. (head ≡ Cell c) × Contains flexible.now.items c) }
    ensures none { result ≡ None → (types : Table) (store : Contents) → solve.is_flexible (map (cell_variable types store) flexible.now.items) (head_reading types store head) ≡ false }
{
    match head {
        Head::Cell(cell) => {
            if is_flexible(flexible, head) {
                Some(cell)
            } else {
                None
            }
        }
        Head::Const(_) | Head::Logic(_) | Head::Nominal(_, _) | Head::Index(_) => None,
    }
}

/// What the rules make of two flexible cells, each given its arguments.
fn solve_cells<L>(
    alloc: Global,
    types: &mut TypeTable,
    store: &mut Store,
    flexible: &mut FlexibleCells,
    first: CellId,
    args: &[TermId],
    second: CellId,
    more: &[TermId],
    steps: &mut Steps<L>,
) -> Result<Step, AllocError>
    requires store { IsTypedBy types.old store.old }
    requires free { All (IsFree store.old) flexible.old.items }
    requires first_listed { Contains flexible.old.items first }
    requires second_listed { Contains flexible.old.items second }
    requires args_held { All (Holds store.old) args.now }
    requires args_resolved { All (IsResolved store.old) args.now }
    requires more_held { All (Holds store.old) more.now }
    requires more_resolved { All (IsResolved store.old) more.now }
    requires typed { (G : List Ty) × (k : List ℕ) × TakeType (signature types.old) G (terms_of (map (tree_of types.old store.old) args.now)) (type_of types.old (cell_of store.old first).ty) (kind k)
        × TakeType (signature types.old) G (terms_of (map (tree_of types.old store.old) more.now)) (type_of types.old (cell_of store.old second).ty) (kind k) }
    ensures grows { Grows types.old store.old types.new store.new }
    ensures steps { steps.old ≤ steps.new }
    ensures tells { IfOk result (λ r. Tells types.old store.old flexible.old.items types.new store.new flexible.new.items r
        (last_rules (cells_read types.old store.old) (variables_read types.old store.old flexible.old.items)
        (spine (variable (cell_variable types.old store.old first)) (terms_of (map (tree_of types.old store.old) args.now)))
        (spine (variable (cell_variable types.old store.old second)) (terms_of (map (tree_of types.old store.old) more.now))))) }
{
    if is_same_cell(first, second) {
        return solve_one(alloc, types, store, flexible, first, args, more, steps);
    }
    if flexible.is_older(first, second) {
        return solve_two(
            alloc, types, store, flexible, first, args, second, more, steps,
        );
    }
    solve_two(
        alloc, types, store, flexible, second, more, first, args, steps,
    )
}

/// Two heads, each given its arguments, of which one at least is flexible.
fn solve_heads<L>(
    alloc: Global,
    types: &mut TypeTable,
    store: &mut Store,
    flexible: &mut FlexibleCells,
    place: usize,
    left: TermId,
    head: Head,
    args: &[TermId],
    right: TermId,
    other: Head,
    more: &[TermId],
    steps: &mut Steps<L>,
) -> Result<Step, AllocError>
    requires store { IsTypedBy types.old store.old }
    requires free { All (IsFree store.old) flexible.old.items }
    requires left { IsResolved store.old left }
    requires right { IsResolved store.old right }
    requires left_is { tree_of types.old store.old left ≡ spine (head_reading types.old store.old head) (terms_of (map (tree_of types.old store.old) args.now)) }
    requires right_is { tree_of types.old store.old right ≡ spine (head_reading types.old store.old other) (terms_of (map (tree_of types.old store.old) more.now)) }
    requires args_held { All (Holds store.old) args.now }
    requires more_held { All (Holds store.old) more.now }
    requires typed { (G : List Ty) × (A : Ty) × IsTerm types.old store.old G left A × IsTerm types.old store.old G right A }
    requires stuck { rigid_heads (variables_read types.old store.old flexible.old.items) place (tree_of types.old store.old left) (tree_of types.old store.old right) ≡ None }
    ensures grows { Grows types.old store.old types.new store.new }
    ensures steps { steps.old ≤ steps.new }
    ensures tells { IfOk result (λ r. Tells types.old store.old flexible.old.items types.new store.new flexible.new.items r
        (last_rules (cells_read types.old store.old) (variables_read types.old store.old flexible.old.items) (tree_of types.old store.old left) (tree_of types.old store.old right))) }
{
    let _ = place;
    match flexible_cell(flexible, head) {
        None => match flexible_cell(flexible, other) {
            None => Ok(Step::NoRule),
            Some(cell) => solve_rigid(alloc, types, store, flexible, cell, more, left, steps),
        },
        Some(first) => match flexible_cell(flexible, other) {
            None => solve_rigid(alloc, types, store, flexible, first, args, right, steps),
            Some(second) => solve_cells(
                alloc, types, store, flexible, first, args, second, more, steps,
            ),
        },
    }
}

/// The rule that applies to two terms, where none does that replaces no variable.
pub fn solve_flexible<L>(
    alloc: Global,
    types: &mut TypeTable,
    store: &mut Store,
    flexible: &mut FlexibleCells,
    place: usize,
    left: TermId,
    right: TermId,
    steps: &mut Steps<L>,
) -> Result<Step, AllocError>
    requires store { IsTypedBy types.old store.old }
    requires free { All (IsFree store.old) flexible.old.items }
    requires left { IsResolved store.old left }
    requires right { IsResolved store.old right }
    requires typed { (G : List Ty) × (A : Ty) × IsTerm types.old store.old G left A × IsTerm types.old store.old G right A }
    requires stuck { rigid_heads (variables_read types.old store.old flexible.old.items) place (tree_of types.old store.old left) (tree_of types.old store.old right) ≡ None }
    ensures grows { Grows types.old store.old types.new store.new }
    ensures steps { steps.old ≤ steps.new }
    ensures tells { IfOk result (λ r. Tells types.old store.old flexible.old.items types.new store.new flexible.new.items r
        (last_rules (cells_read types.old store.old) (variables_read types.old store.old flexible.old.items) (tree_of types.old store.old left) (tree_of types.old store.old right))) }
{
    match store.view(left).copy(alloc)? {
        Node::Lam(_, _, _) => Ok(Step::NoRule),
        Node::Spine(head, args) => match store.view(right).copy(alloc)? {
            Node::Lam(_, _, _) => Ok(Step::NoRule),
            Node::Spine(other, more) => solve_heads(
                alloc,
                types,
                store,
                flexible,
                place,
                left,
                head,
                args.as_slice(),
                right,
                other,
                more.as_slice(),
                steps,
            ),
        },
    }
}
