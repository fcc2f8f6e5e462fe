//! What stands in front of a formula's result.
ghost use Rattle.std.specs.Prelude.{◌≡◌, ◌↔◌, ℕ, map, IsTrue, IfOk, All, Some};
ghost use Rattle.std.specs.Option.{option_map};
ghost use Rattle.ab_norm.specs.ab_types.specs.Ids.{HoldsType, type_of};
ghost use Rattle.ab_logic.specs.Worlds.{IsWorld, Holds, read};
ghost use Rattle.ab_theory.specs.Pieces as spec;
ghost use Rattle.ab_theory.specs.Pieces.{pieces, behind, AllServe};
ghost use Rattle.ab_uses.specs.GivenReadings.{HoldsIfAny};
ghost use Rattle.ab_uses.specs.Layers.{ServesIfAny};

use crate::next_parts::{Layer, is_named, look_at};
use ab_alternatives::sequents::marks_serve_in;
use ab_logic::World;
use ab_norm::name::Name;
use ab_norm::store::TermId;
use ab_norm::types::TypeId;
use std::alloc::AllocError;

/// How many antecedents the formula has, under its quantifiers `forall` and `nabla`.
pub fn antecedent_count(world: &World, formula: TermId) -> Result<usize, AllocError>
    requires world { IsWorld world.now }
    requires formula { Holds world.now formula }
    ensures count { IfOk result (λ n. n ≡ spec.antecedent_count (read world.now formula)) }
{
    let mut count: usize = 0;
    let mut rest = formula;
    'layers: loop {
        match look_at(&world.store, rest) {
            Layer::Universal(_, _, inner) => rest = inner,
            Layer::Nabla(_, inner) => rest = inner,
            Layer::Implication(_, behind) => {
                count += 1;
                rest = behind;
            }
            Layer::Last => return Ok(count),
        }
    }
}

/// The type of the outermost `forall` of that name, among those that are taken off up to the antecedent of the number.
pub fn type_named(world: &World, formula: TermId, count: usize, name: &Name) -> Option<TypeId>
    requires world { IsWorld world.now }
    requires formula { Holds world.now formula }
    ensures ty { option_map (type_of world.now.types) result ≡ spec.type_named name.now (pieces count (read world.now formula)) }
    ensures held { (A : TypeId) → result ≡ Some A → HoldsType world.now.types A }
{
    let mut left = count;
    let mut rest = formula;
    'layers: loop {
        match look_at(&world.store, rest) {
            Layer::Universal(ty, scope, inner) => {
                if is_named(&world.store, scope, name) {
                    return Some(ty);
                }
                rest = inner;
            }
            Layer::Nabla(_, inner) => rest = inner,
            Layer::Implication(_, behind) => {
                if left <= 1 {
                    return None;
                }
                left -= 1;
                rest = behind;
            }
            Layer::Last => return None,
        }
    }
}

/// What stands behind the antecedent of the number, under the binders around it.
pub fn formula_behind(world: &World, formula: TermId, count: usize) -> TermId
    requires world { IsWorld world.now }
    requires formula { Holds world.now formula }
    ensures reads { read world.now result ≡ behind count (read world.now formula) }
    ensures held { Holds world.now result }
{
    let mut left = count;
    let mut rest = formula;
    'layers: loop {
        match look_at(&world.store, rest) {
            Layer::Universal(_, _, inner) => rest = inner,
            Layer::Nabla(_, inner) => rest = inner,
            Layer::Implication(_, behind) => {
                if left == 0 {
                    return rest;
                }
                if left == 1 {
                    return behind;
                }
                left -= 1;
                rest = behind;
            }
            Layer::Last => return rest,
        }
    }
}

/// Whether the marks of the hypothesis' formula serve the antecedent, where one is given.
fn serves(world: &World, antecedent: TermId, hypothesis: Option<TermId>) -> bool
    requires antecedent { Holds world.now antecedent }
    requires hypothesis { HoldsIfAny world.now hypothesis }
    ensures serve { IsTrue result ↔ ServesIfAny (read world.now antecedent) (option_map (read world.now) hypothesis) }
{
    match hypothesis {
        Some(given) => marks_serve_in(world, antecedent, given),
        None => true,
    }
}

/// Whether the marks of the hypotheses' formulas serve the antecedents, where one is given.
pub fn all_serve(
    world: &World,
    formula: TermId,
    count: usize,
    hypotheses: &[Option<TermId>],
) -> bool
    requires world { IsWorld world.now }
    requires formula { Holds world.now formula }
    requires hypotheses { All (HoldsIfAny world.now) hypotheses.now }
    ensures serve { IsTrue result ↔ AllServe (pieces count (read world.now formula)) (map (option_map (read world.now)) hypotheses.now) }
{
    let mut left = count;
    let mut done: usize = 0;
    let mut rest = formula;
    'layers: loop {
        match look_at(&world.store, rest) {
            Layer::Universal(_, _, inner) => rest = inner,
            Layer::Nabla(_, inner) => rest = inner,
            Layer::Implication(antecedent, behind) => {
                if left == 0 || done == hypotheses.len() {
                    return true;
                }
                if !serves(world, antecedent, hypotheses[done]) {
                    return false;
                }
                if left == 1 {
                    return true;
                }
                left -= 1;
                done += 1;
                rest = behind;
            }
            Layer::Last => return true,
        }
    }
}
