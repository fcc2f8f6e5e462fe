//! Nominal constants for which terms are put: whether they may be replaced, and the formula then.
ghost use Rattle.std.specs.Prelude.{◌≡◌, ◌≢◌, ◌↔◌, ◌<◌, ◌≤◌, [], map, length, IfOk, IsTrue, All, AllPairs, Contains};
ghost use Rattle.ab_logic.specs.SequentReadings.{HoldsSequent, sequent_of};
ghost use Rattle.ab_logic.specs.Worlds.{IsWorld, Holds, read, declarations_of};
ghost use Rattle.ab_logic.specs.WorldGrowth.{Grows};
ghost use Rattle.ab_theory.specs.Contexts.{AllFit, MayBeReplaced, replace_constants};
ghost use Rattle.ab_rules.specs.RuleAnswers.{replacements, HoldsReplace};
ghost use Rattle.ab_kernel.specs.StandsAgain.{StandsAgain};

use ab_judgements::replace_constants;
use ab_logic::{Sequent, World};
use ab_norm::Nominal;
use ab_norm::store::TermId;
use ab_norm::types::Steps;
use ab_norm::types::laws::has_unique_ids;
use ab_rules::{Replace, formulas_of, support_in};
use ab_typing::fits;
use std::alloc::{AllocError, Global};

/// Whether the two are the same.
fn is_same(a: Nominal, b: Nominal) -> bool
    ensures { IsTrue result ↔ (a ≡ b) }
{
    a == b
}

/// Whether the constant is one of these.
fn is_among(constants: &[Nominal], a: Nominal) -> bool
    ensures { IsTrue result ↔ Contains constants.now a }
{
    for b in constants {
        if is_same(*b, a) {
            return true;
        }
    }
    false
}

/// Whether each of the constants is one of those.
fn are_among(constants: &[Nominal], those: &[Nominal]) -> bool
    ensures { IsTrue result ↔ All (Contains those.now) constants.now }
{
    for a in constants {
        if !is_among(those, *a) {
            return false;
        }
    }
    true
}

/// Whether the constant of that place stands at a later place too.
fn stands_again(constants: &[Nominal], place: usize) -> bool
    requires { place < length constants.now }
    ensures { IsTrue result ↔ StandsAgain constants.now place }
{
    for later in place + 1..constants.len() {
        if is_same(constants[later], constants[place]) {
            return true;
        }
    }
    false
}

/// Whether no constant stands twice.
fn are_different(constants: &[Nominal]) -> bool
    ensures { IsTrue result ↔ AllPairs (λ a b. a ≢ b) constants.now }
{
    for place in 0..constants.len() {
        if stands_again(constants, place) {
            return false;
        }
    }
    true
}

/// The constants that are replaced.
fn constants_of(alloc: Global, replaces: &[Replace]) -> Result<Vec<Nominal>, AllocError>
    ensures { IfOk result (λ list. list.items ≡ map (λ r. r.from) replaces.now) }
{
    let mut constants = Vec::new(alloc);
    for replace in replaces {
        constants.push(replace.from)?;
    }
    Ok(constants)
}

/// The terms that are put for them.
fn terms_of(alloc: Global, replaces: &[Replace]) -> Result<Vec<TermId>, AllocError>
    ensures { IfOk result (λ list. list.items ≡ map (λ r. r.to) replaces.now) }
{
    let mut terms = Vec::new(alloc);
    for replace in replaces {
        terms.push(replace.to)?;
    }
    Ok(terms)
}

/// Whether the constants differ, and stand in the formula.
pub(crate) fn may_be_replaced(
    alloc: Global,
    world: &World,
    formula: TermId,
    replaces: &[Replace],
) -> Result<bool, AllocError>
    requires world { IsWorld world.now }
    requires formula { Holds world.now formula }
    requires replaces { All (HoldsReplace world.now) replaces.now }
    ensures { IfOk result (λ yes. IsTrue yes ↔ MayBeReplaced (read world.now formula) (map (λ r. r.0) (replacements world.now replaces.now))) }
{
    has_unique_ids(&world.types);
    let constants = constants_of(alloc, replaces)?;
    if !are_different(&constants) {
        return Ok(false);
    }
    let there = support_in(alloc, world, formula)?;
    Ok(are_among(&constants, &there))
}

/// Whether each of the terms fits the goal beside those before it.
pub(crate) fn all_fit(
    alloc: Global,
    world: &World,
    sequent: &Sequent,
    replaces: &[Replace],
) -> Result<bool, AllocError>
    requires world { IsWorld world.now }
    requires held { HoldsSequent world.now sequent.now }
    requires replaces { All (HoldsReplace world.now) replaces.now }
    ensures { IfOk result (λ yes. IsTrue yes ↔ AllFit (declarations_of world.now) (sequent_of world.now sequent.now) [] (replacements world.now replaces.now)) }
{
    let mut before = formulas_of(alloc, sequent)?;
    for replace in replaces {
        let (types, store) = (&world.types, &world.store);
        let variables = sequent.variables.as_slice();
        let (term, ty) = (replace.to, replace.from.ty);
        if !fits(alloc, types, store, variables, &before, term, ty)? {
            return Ok(false);
        }
        before.push(term)?;
    }
    Ok(true)
}

/// The formula with the terms for the constants, all at once.
pub(crate) fn with_terms<L>(
    alloc: Global,
    world: &mut World,
    replaces: &[Replace],
    formula: TermId,
    steps: &mut Steps<L>,
) -> Result<TermId, AllocError>
    requires world { IsWorld world.old }
    requires replaces { All (HoldsReplace world.old) replaces.now }
    requires formula { Holds world.old formula }
    ensures held { IfOk result (Holds world.new) }
    ensures reads { IfOk result (λ t. read world.new t ≡ replace_constants (replacements world.old replaces.now) (read world.old formula)) }
    ensures grows { Grows world.old world.new }
    ensures types { world.new.types ≡ world.old.types }
    ensures additions { world.new.additions ≡ world.old.additions }
    ensures steps { steps.old ≤ steps.new }
{
    let constants = constants_of(alloc, replaces)?;
    let terms = terms_of(alloc, replaces)?;
    replace_constants(alloc, world, &constants, &terms, formula, steps)
}
