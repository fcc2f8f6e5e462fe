//! The rules that replace no variable.
ghost use Rattle.std.specs.Prelude.{◌≡◌, ◌↔◌, ◌++◌, ◌∷◌, [], Some, true, map, IfOk, OnOk, All};
ghost use Rattle.ab_term.specs.Terms.{spine, terms_of};
ghost use Rattle.ab_norm.specs.ab_types.specs.Entries.{Table};
ghost use Rattle.ab_norm.specs.ab_types.specs.Sound.{IsTable};
ghost use Rattle.ab_norm.specs.ab_store.specs.Trees.{Contents, Holds, tree_of, head_reading};
ghost use Rattle.ab_norm.specs.ab_store.specs.Naming.{IsTypedBy, HeadIsTyped};
ghost use Rattle.ab_unifiers.specs.Unification.{or_else, equal_sides, bodies as same_binder, rigid_heads, parts, paired};
ghost use Rattle.ab_norm.specs.ab_store.specs.Reading.{cell_variable};
ghost use Rattle.ab_norm.specs.ab_store.specs.Bindings.{IsResolved};
ghost use Rattle.ab_patterns.specs.EquationReadings.{equation_of, simple_of, HoldsEquation, HoldsParts, EquationIsResolved};

use crate::equality::are_same;
use crate::equation::Numbered;
use crate::flexible_cells::{FlexibleCells, is_flexible};
use ab_norm::store::{Head, Node, Store, TermId};
use ab_norm::types::TypeTable;
use std::alloc::{AllocError, Global};

/// What the rules that replace no variable make of an equation.
#[derive(Drop)]
pub enum Simple {
    /// None of them applies.
    NoRule,
    /// The sides can't become the same.
    Clash,
    /// These take its place.
    Parts(Vec<Numbered>),
}

/// The first of the rules on equal sides, abstractions and rigid heads that applies.
pub fn try_simple_rules(
    alloc: Global,
    types: &TypeTable,
    store: &Store,
    flexible: &FlexibleCells,
    equation: Numbered,
) -> Result<Simple, AllocError>
    requires store { IsTypedBy types.now store.now }
    requires equation { HoldsEquation store.now equation }
    requires resolved { EquationIsResolved store.now equation }
    ensures held { IfOk result (HoldsParts store.now) }
    ensures rule { IfOk result (λ r. simple_of types.now store.now r ≡
        or_else (equal_sides (equation_of types.now store.now equation))
        (or_else (same_binder equation.place (tree_of types.now store.now equation.left) (tree_of types.now store.now equation.right))
        (rigid_heads (map (cell_variable types.now store.now) flexible.now.items) equation.place (tree_of types.now store.now equation.left) (tree_of types.now store.now equation.right)))) }
{
    // no two ids of a table stand for one type
    let _ = types.len();
    if are_same(alloc, types, store, equation.left, equation.right)? {
        return Ok(Simple::Parts(Vec::new(alloc)));
    }
    match store.view(equation.left) {
        Node::Lam(_, _, body) => match store.view(equation.right) {
            Node::Lam(_, _, other) => bodies(alloc, equation.place, *body, *other),
            Node::Spine(_, _) => Ok(Simple::NoRule),
        },
        Node::Spine(head, args) => match store.view(equation.right) {
            Node::Lam(_, _, _) => Ok(Simple::NoRule),
            Node::Spine(other, more) => heads(
                alloc,
                flexible,
                equation.place,
                *head,
                args.as_slice(),
                *other,
                more.as_slice(),
            ),
        },
    }
}

/// The rule on two heads, neither of which may be replaced.
fn heads(
    alloc: Global,
    flexible: &FlexibleCells,
    place: usize,
    head: Head,
    args: &[TermId],
    other: Head,
    more: &[TermId],
) -> Result<Simple, AllocError>
    ensures held { IfOk result (λ r. (store : Contents) → All (Holds store) args.now → All (Holds store) more.now → HoldsParts store r) }
    ensures rule { IfOk result (λ r. (types : Table) (store : Contents) → IsTable types → HeadIsTyped types head → HeadIsTyped types other →
        simple_of types store r ≡ rigid_heads (map (cell_variable types store) flexible.now.items) place
        (spine (head_reading types store head) (terms_of (map (tree_of types store) args.now)))
        (spine (head_reading types store other) (terms_of (map (tree_of types store) more.now)))) }
{
    if is_flexible(flexible, head) {
        return Ok(Simple::NoRule);
    }
    if is_flexible(flexible, other) {
        return Ok(Simple::NoRule);
    }
    if is_same_head(head, other) {
        let mut parts = Vec::new(alloc);
        pair(place, args, more, &mut parts)?;
        Ok(Simple::Parts(parts))
    } else {
        Ok(Simple::Clash)
    }
}

/// The equation of the bodies of two abstractions.
fn bodies(alloc: Global, place: usize, left: TermId, right: TermId) -> Result<Simple, AllocError>
    ensures held { IfOk result (λ r. (store : Contents) → Holds store left → Holds store right → HoldsParts store r) }
    ensures rule { IfOk result (λ r. (types : Table) (store : Contents) → simple_of types store r ≡
        Some (parts (record { place = place; left = tree_of types store left; right = tree_of types store right } ∷ []))) }
{
    let mut parts = Vec::new(alloc);
    parts.push(Numbered { place, left, right })?;
    Ok(Simple::Parts(parts))
}

/// Adds the equations of these terms, one against one.
fn pair(
    place: usize,
    these: &[TermId],
    those: &[TermId],
    into: &mut Vec<Numbered>,
) -> Result<(), AllocError>
    ensures held { OnOk result ((store : Contents) → All (Holds store) these.now → All (Holds store) those.now →
        All (HoldsEquation store) into.old.items → All (HoldsEquation store) into.new.items) }
    ensures pairs { IfOk result (λ r. (types : Table) (store : Contents) →
        map (equation_of types store) into.new.items ≡
        map (equation_of types store) into.old.items ++ paired place (terms_of (map (tree_of types store) these.now)) (terms_of (map (tree_of types store) those.now))) }
{
    match these {
        [] => Ok(()),
        [first, rest @ ..] => match those {
            [] => Ok(()),
            [other, more @ ..] => {
                into.push(Numbered {
                    place,
                    left: *first,
                    right: *other,
                })?;
                pair(place, rest, more, into)
            }
        },
    }
}

/// Whether the two heads are the same.
pub(crate) fn is_same_head(a: Head, b: Head) -> bool
    ensures { (result ≡ true) ↔ (a ≡ b) }
{
    a == b
}
