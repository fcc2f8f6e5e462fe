//! The parts of a conclusion with marks at the atoms on which induction or coinduction goes.
ghost use Rattle.std.specs.Prelude.{◌≡◌, All, IfOk, map};
ghost use Rattle.ab_norm.specs.ab_types.specs.Entries.{Table};
ghost use Rattle.ab_term.specs.Logical.{implication};
ghost use Rattle.ab_term.specs.Terms.{logical, spine, term, no_terms};
ghost use Rattle.ab_norm.specs.ab_store.specs.Trees.{Holds, tree_of};
ghost use Rattle.ab_norm.specs.NodeGrowth.{AddsTerms};
ghost use Rattle.ab_logic.specs.Forms.{sign_of};
ghost use Rattle.ab_logic.specs.WorldGrowth.{Grows};
ghost use Rattle.ab_logic.specs.Worlds.{IsWorld, Holds as HoldsIn, read};
ghost use Rattle.ab_formulas.specs.BodyMarks.{with_mark};
ghost use Rattle.ab_theory.specs.Induction.{in_matrix, in_antecedent, in_consequent};
ghost use Rattle.ab_sequents.specs.Kinds.{marked_by};
ghost use Rattle.ab_sequents.specs.SizeViews.{part_at, part_marked};

use crate::body_marks::mark_formula;
use crate::formula_views::{Outer, look_at};
use crate::levels::Kind;
use ab_logic::{Sign, World};
use ab_norm::store::{Head, Logical, Node, Store, TermId};
use std::alloc::{AllocError, Global};

/// Which part under the prefix gets the mark.
#[derive(Clone, Copy)]
pub enum Part {
    /// The antecedent of this place, counted from 1.
    Antecedent(u32),
    /// What stands behind all antecedents.
    Consequent,
}

/// Which part gets the mark of the conclusion's part of this index: for induction the antecedent of its place, where it has
/// one.
pub(crate) fn part_at(kind: Kind, places: &[u32], index: usize) -> Option<Part>
    ensures { result ≡ part_at kind places.now index }
{
    match kind {
        Kind::Induction => match places.get(index) {
            Some(place) => Some(Part::Antecedent(*place)),
            None => None,
        },
        Kind::Coinduction => Some(Part::Consequent),
    }
}

/// The parts of a conclusion, each with the mark: for induction at the antecedents of these places, as many as have one.
pub fn marked_parts(
    alloc: Global,
    world: &mut World,
    kind: Kind,
    places: &[u32],
    sign: Sign,
    parts: &[TermId],
) -> Result<Vec<TermId>, AllocError>
    requires world { IsWorld world.old }
    requires parts { All (HoldsIn world.old) parts.now }
    ensures held { IfOk result (λ ts. All (HoldsIn world.new) ts.items) }
    ensures reads { IfOk result (λ ts. map (read world.new) ts.items ≡ marked_by kind places.now (sign_of sign) (map (read world.old) parts.now)) }
    ensures grows { Grows world.old world.new }
    ensures types { world.new.types ≡ world.old.types }
    ensures additions { world.new.additions ≡ world.old.additions }
{
    mark_each(alloc, &mut world.store, kind, places, sign, parts)
}

/// The same in a store.
fn mark_each(
    alloc: Global,
    store: &mut Store,
    kind: Kind,
    places: &[u32],
    sign: Sign,
    parts: &[TermId],
) -> Result<Vec<TermId>, AllocError>
    requires { All (Holds store.old) parts.now }
    ensures held { IfOk result (λ ts. All (Holds store.new) ts.items) }
    ensures reads { IfOk result (λ ts. (types : Table) → map (tree_of types store.new) ts.items
        ≡ marked_by kind places.now (sign_of sign) (map (tree_of types store.old) parts.now)) }
    ensures adds { AddsTerms store.old store.new }
{
    let mut made = Vec::new(alloc);
    for index in 0..parts.len() {
        let Some(part) = part_at(kind, places, index) else {
            return Ok(made);
        };
        made.push(mark_under(alloc, store, part, sign, parts[index])?)?;
    }
    Ok(made)
}

/// The formula, with the mark at the part under its prefix.
fn mark_under(
    alloc: Global,
    store: &mut Store,
    part: Part,
    sign: Sign,
    id: TermId,
) -> Result<TermId, AllocError>
    requires { Holds store.old id }
    ensures held { IfOk result (λ r. Holds store.new r) }
    ensures reads { IfOk result (λ r. (types : Table) → tree_of types store.new r
        ≡ in_matrix (part_marked part (sign_of sign)) (tree_of types store.old id)) }
    ensures adds { AddsTerms store.old store.new }
{
    let Outer::Under(head, abstraction) = look_at(store, id) else {
        return mark_part(alloc, store, part, sign, id);
    };
    match store.view(abstraction).copy(alloc)? {
        Node::Spine(_, _) => mark_part(alloc, store, part, sign, id),
        Node::Lam(ty, hint, body) => {
            let inner = mark_under(alloc, store, part, sign, body)?;
            let over = store.lam(ty, hint, inner)?;
            store.spine(head, Vec::from_array(alloc, [over])?)
        }
    }
}

/// The formula without a prefix, with the mark at the part.
fn mark_part(
    alloc: Global,
    store: &mut Store,
    part: Part,
    sign: Sign,
    id: TermId,
) -> Result<TermId, AllocError>
    requires { Holds store.old id }
    ensures held { IfOk result (λ r. Holds store.new r) }
    ensures reads { IfOk result (λ r. (types : Table) → tree_of types store.new r ≡ part_marked part (sign_of sign) (tree_of types store.old id)) }
    ensures adds { AddsTerms store.old store.new }
{
    match part {
        Part::Antecedent(place) => mark_antecedent(alloc, store, place, sign, id),
        Part::Consequent => mark_consequent(alloc, store, sign, id),
    }
}

/// The implication between the two.
fn arrow(
    alloc: Global,
    store: &mut Store,
    left: TermId,
    right: TermId,
) -> Result<TermId, AllocError>
    requires left { Holds store.old left }
    requires right { Holds store.old right }
    ensures held { IfOk result (λ r. Holds store.new r) }
    ensures reads { IfOk result (λ r. (types : Table) → tree_of types store.new r
        ≡ spine (logical implication) (term (tree_of types store.old left) (term (tree_of types store.old right) no_terms))) }
    ensures adds { AddsTerms store.old store.new }
{
    store.spine(
        Head::Logic(Logical::Arrow),
        Vec::from_array(alloc, [left, right])?,
    )
}

/// The formula, with the mark at the antecedent of this place.
fn mark_antecedent(
    alloc: Global,
    store: &mut Store,
    place: u32,
    sign: Sign,
    id: TermId,
) -> Result<TermId, AllocError>
    requires { Holds store.old id }
    ensures held { IfOk result (λ r. Holds store.new r) }
    ensures reads { IfOk result (λ r. (types : Table) → tree_of types store.new r
        ≡ in_antecedent (with_mark (sign_of sign)) place (tree_of types store.old id)) }
    ensures adds { AddsTerms store.old store.new }
{
    let Outer::Arrow(left, right) = look_at(store, id) else {
        return Ok(id);
    };
    if place == 0 {
        return Ok(id);
    }
    if place == 1 {
        let made = mark_formula(alloc, store, sign, left)?;
        return arrow(alloc, store, made, right);
    }
    let made = mark_antecedent(alloc, store, place - 1, sign, right)?;
    arrow(alloc, store, left, made)
}

/// The formula, with the mark behind all antecedents.
fn mark_consequent(
    alloc: Global,
    store: &mut Store,
    sign: Sign,
    id: TermId,
) -> Result<TermId, AllocError>
    requires { Holds store.old id }
    ensures held { IfOk result (λ r. Holds store.new r) }
    ensures reads { IfOk result (λ r. (types : Table) → tree_of types store.new r
        ≡ in_consequent (with_mark (sign_of sign)) (tree_of types store.old id)) }
    ensures adds { AddsTerms store.old store.new }
{
    let Outer::Arrow(left, right) = look_at(store, id) else {
        return mark_formula(alloc, store, sign, id);
    };
    let made = mark_consequent(alloc, store, sign, right)?;
    arrow(alloc, store, left, made)
}
