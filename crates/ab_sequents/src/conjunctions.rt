//! A conjunction of any shape: its parts, and the same conjunction of other parts.
ghost use Rattle.std.specs.Prelude.{◌≡◌, ◌<◌, ◌++◌, All, IfOk, IfSome, OnOk, drop, length, map, slice_get, unwrap_or};
ghost use Rattle.std.specs.Option.{option_map};
ghost use Rattle.ab_formulas.specs.Forms.{as_both};
ghost use Rattle.ab_norm.specs.ab_types.specs.Entries.{Table};
ghost use Rattle.ab_norm.specs.ab_store.specs.Trees.{Holds, tree_of};
ghost use Rattle.ab_norm.specs.NodeGrowth.{AddsTerms};
ghost use Rattle.ab_logic.specs.WorldGrowth.{Grows};
ghost use Rattle.ab_logic.specs.Worlds.{IsWorld, Holds as HoldsIn, read};
ghost use Rattle.ab_theory.specs.Conjuncts as plain;
ghost use Rattle.ab_sequents.specs.SizeViews.{halves_read};

use ab_logic::World;
use ab_norm::store::{Head, Logical, Node, Store, TermId};
use std::alloc::{AllocError, Global};

/// The halves of a conjunction, where the formula is one.
fn halves(store: &Store, id: TermId) -> Option<(TermId, TermId)>
    requires { Holds store.now id }
    ensures reads { (types : Table) → option_map (halves_read types store.now) result ≡ as_both (tree_of types store.now id) }
    ensures below { IfSome result (λ p. (p.0.0 < id.0) × (p.1.0 < id.0)) }
{
    let Node::Spine(head, args) = store.view(id) else {
        return None;
    };
    let Head::Logic(logical) = *head else {
        return None;
    };
    let Logical::And = logical else {
        return None;
    };
    let args = args.as_slice();
    if args.len() == 2 {
        Some((args[0], args[1]))
    } else {
        None
    }
}

/// The parts of the formula that are no conjunctions, in order.
pub fn conjuncts(alloc: Global, world: &World, formula: TermId) -> Result<Vec<TermId>, AllocError>
    requires { HoldsIn world.now formula }
    ensures held { IfOk result (λ parts. All (HoldsIn world.now) parts.items) }
    ensures reads { IfOk result (λ parts. map (read world.now) parts.items ≡ plain.conjuncts (read world.now formula)) }
{
    let mut parts = Vec::new(alloc);
    gather(&world.store, formula, &mut parts)?;
    Ok(parts)
}

/// Puts the parts of the formula that are no conjunctions behind these.
fn gather(store: &Store, id: TermId, parts: &mut Vec<TermId>) -> Result<(), AllocError>
    requires { Holds store.now id }
    ensures held { OnOk result (All (Holds store.now) parts.old.items → All (Holds store.now) parts.new.items) }
    ensures reads { OnOk result ((types : Table) → map (tree_of types store.now) parts.new.items
        ≡ map (tree_of types store.now) parts.old.items ++ plain.conjuncts (tree_of types store.now id)) }
{
    match halves(store, id) {
        None => Ok(parts.push(id)?),
        Some((left, right)) => {
            gather(store, left, parts)?;
            gather(store, right, parts)
        }
    }
}

/// The formula, with these in place of its parts.
pub fn with_parts(
    alloc: Global,
    world: &mut World,
    formula: TermId,
    parts: &[TermId],
) -> Result<TermId, AllocError>
    requires world { IsWorld world.old }
    requires formula { HoldsIn world.old formula }
    requires parts { All (HoldsIn world.old) parts.now }
    ensures held { IfOk result (HoldsIn world.new) }
    ensures reads { IfOk result (λ t. read world.new t ≡ plain.with_parts (map (read world.old) parts.now) (read world.old formula)) }
    ensures grows { Grows world.old world.new }
    ensures types { world.new.types ≡ world.old.types }
    ensures additions { world.new.additions ≡ world.old.additions }
{
    let mut place = 0;
    refill(alloc, &mut world.store, formula, parts, &mut place)
}

/// The formula, with the parts from this place on in place of its own. The place is then behind those.
fn refill(
    alloc: Global,
    store: &mut Store,
    id: TermId,
    parts: &[TermId],
    place: &mut usize,
) -> Result<TermId, AllocError>
    requires formula { Holds store.old id }
    requires parts { All (Holds store.old) parts.now }
    ensures held { IfOk result (λ r. Holds store.new r) }
    ensures reads { IfOk result (λ r. (types : Table) → tree_of types store.new r
        ≡ plain.with_parts (drop place.old (map (tree_of types store.old) parts.now)) (tree_of types store.old id)) }
    ensures behind { OnOk result ((types : Table) → drop place.new parts.now ≡ drop (length (plain.conjuncts (tree_of types store.old id))) (drop place.old parts.now)) }
    ensures adds { AddsTerms store.old store.new }
{
    match halves(store, id) {
        None => Ok(next_part(id, parts, place)),
        Some((left, right)) => {
            let first = refill(alloc, store, left, parts, place)?;
            let second = refill(alloc, store, right, parts, place)?;
            store.spine(
                Head::Logic(Logical::And),
                Vec::from_array(alloc, [first, second])?,
            )
        }
    }
}

/// The part of this place, or the one that is given where there is none. The place is then behind it.
fn next_part(given: TermId, parts: &[TermId], place: &mut usize) -> TermId
    ensures part { result ≡ unwrap_or (slice_get parts.now place.old) given }
    ensures behind { drop place.new parts.now ≡ drop 1 (drop place.old parts.now) }
{
    let here = *place;
    if here < parts.len() {
        *place = here + 1;
        parts[here]
    } else {
        given
    }
}
