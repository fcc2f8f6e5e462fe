//! The rules that give atoms of the conclusion sizes, one in each part: it is to be derived with these sizes, and holds where
//! they are smaller.
ghost use Rattle.std.specs.Prelude.{◌≡◌, All, IfOk, IfSome, MatchOption, map};
ghost use Rattle.ab_logic.specs.Forms.{sign_of};
ghost use Rattle.ab_logic.specs.SequentReadings.{HoldsSequent, sequent_of};
ghost use Rattle.ab_logic.specs.WorldGrowth.{Grows};
ghost use Rattle.ab_logic.specs.Worlds.{IsWorld, Holds, read, declarations_of};
ghost use Rattle.ab_logic.specs.declared.world.World.{World as AWorld};
ghost use Rattle.ab_theory.specs.Conjuncts.{conjuncts, with_parts};
ghost use Rattle.ab_sequents.specs.Kinds.{marked_by};
ghost use Rattle.ab_rules.specs.RuleAnswers.{Answers, label_of, row_at};
ghost use Rattle.ab_rules.specs.SizeSteps.{Assumes, AssumesNot, same_by, smaller_by, step_by};

use crate::premise_lists::one;
use crate::step::KernelFault;
use ab_equations::{Label, name_by};
use ab_logic::{Sequent, Sign, World};
use ab_norm::store::TermId;
use ab_sequents::{Kind, are_unmarked, conjuncts, marked_parts, next_level, with_parts};
use std::alloc::{AllocError, Global};

/// The parts of a formula as they are assumed, with the mark of what is smaller, and the formula as it is to be derived.
#[derive(Drop)]
struct Sizes {
    assumed: Vec<TermId>,
    derived: TermId,
}

/// The conclusion is to be derived where each part has a size, and each part holds where that is smaller: for induction by
/// the antecedents of these places. A level that passes the greatest number of 128 bits is want of memory.
pub fn give_sizes(
    alloc: Global,
    world: &mut World,
    kind: Kind,
    places: &[u32],
    given: &[Label],
    sequent: &Sequent,
) -> Result<Vec<Sequent>, KernelFault>
    requires world { IsWorld world.old }
    requires held { HoldsSequent world.old sequent.now }
    ensures answers { Answers world.new (row_at world.old (step_by kind places.now (map label_of given.now)) sequent.now) result }
    ensures grows { Grows world.old world.new }
    ensures declared { declarations_of world.new ≡ declarations_of world.old }
{
    let parts = conjuncts(alloc, world, sequent.conclusion)?;
    let Some(unmarked) = are_unmarked(world, kind, places, parts.as_slice()) else {
        return Err(KernelFault::RuleFails(1));
    };
    if !unmarked {
        return Err(KernelFault::RuleFails(2));
    }
    let Some(level) = next_level(world, kind, sequent) else {
        return Err(KernelFault::Memory(AllocError));
    };
    let sizes = sizes_of(
        alloc,
        world,
        kind,
        places,
        level,
        sequent.conclusion,
        parts.as_slice(),
    )?;
    let Some(premise) = assume_each(alloc, given, sizes.assumed.as_slice(), sequent.copy(alloc)?)?
    else {
        return Err(KernelFault::RuleFails(3));
    };
    Ok(one(alloc, premise.with_conclusion(sizes.derived))?)
}

/// The mark of what is smaller.
fn smaller(kind: Kind, level: u128) -> Sign
    ensures { sign_of result ≡ smaller_by kind level }
{
    match kind {
        Kind::Induction => Sign::Star(level),
        Kind::Coinduction => Sign::Plus(level),
    }
}

/// The mark of what has the size.
fn same(kind: Kind, level: u128) -> Sign
    ensures { sign_of result ≡ same_by kind level }
{
    match kind {
        Kind::Induction => Sign::At(level),
        Kind::Coinduction => Sign::Hash(level),
    }
}

/// The formula, whose parts these are, with marks of the level.
fn sizes_of(
    alloc: Global,
    world: &mut World,
    kind: Kind,
    places: &[u32],
    level: u128,
    formula: TermId,
    parts: &[TermId],
) -> Result<Sizes, AllocError>
    requires world { IsWorld world.old }
    requires formula { Holds world.old formula }
    requires parts { All (Holds world.old) parts.now }
    ensures assumed { IfOk result (λ s. All (Holds world.new) s.assumed.items ×
        (map (read world.new) s.assumed.items ≡ marked_by kind places.now (smaller_by kind level) (map (read world.old) parts.now))) }
    ensures derived { IfOk result (λ s. Holds world.new s.derived ×
        (read world.new s.derived ≡ with_parts (marked_by kind places.now (same_by kind level) (map (read world.old) parts.now)) (read world.old formula))) }
    ensures grows { Grows world.old world.new }
    ensures declared { declarations_of world.new ≡ declarations_of world.old }
{
    let derived = marked_parts(alloc, world, kind, places, same(kind, level), parts)?;
    let derived = with_parts(alloc, world, formula, derived.as_slice())?;
    let assumed = marked_parts(alloc, world, kind, places, smaller(kind, level), parts)?;
    Ok(Sizes { assumed, derived })
}

/// The goal with a hypothesis more for each of the formulas, named by these labels in order. There is none where one gets no
/// name, or there are more labels or fewer than formulas.
fn assume_each(
    alloc: Global,
    given: &[Label],
    formulas: &[TermId],
    sequent: Sequent,
) -> Result<Option<Sequent>, AllocError>
    ensures assumes { IfOk result (λ found. (w : AWorld) → MatchOption found
        (AssumesNot (map label_of given.now) (map (read w) formulas.now) (sequent_of w sequent))
        (λ s. Assumes (map label_of given.now) (map (read w) formulas.now) (sequent_of w sequent) (sequent_of w s))) }
    ensures held { IfOk result (λ found. (w : AWorld) → All (Holds w) formulas.now → HoldsSequent w sequent → IfSome found (HoldsSequent w)) }
{
    let mut goal = sequent;
    for index in 0..given.len() {
        if formulas.len() <= index {
            return Ok(None);
        }
        let Some(named) = name_by(alloc, &given[index], goal)? else {
            return Ok(None);
        };
        goal = named.sequent.with_hypothesis(named.name, formulas[index])?;
    }
    if given.len() < formulas.len() {
        Ok(None)
    } else {
        Ok(Some(goal))
    }
}
