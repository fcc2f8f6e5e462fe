//! What is asked before a formula is used.
ghost use Rattle.std.specs.Prelude.{◌≤◌, ◌≡◌, ◌++◌, ◌∷◌, [], map, None, Err, IfOk, OnOk, IfSome, All, nat_lt, Option};
ghost use Rattle.std.specs.Option.{option_map, option_copied};
ghost use Rattle.ab_norm.specs.ab_types.specs.Ids.{HoldsType};
ghost use Rattle.ab_term.specs.Terms.{Read};
ghost use Rattle.ab_syntax.specs.Commands.{argument_of};
ghost use Rattle.ab_logic.specs.WorldGrowth.{Grows};
ghost use Rattle.ab_logic.specs.SequentReadings.{sequent_of, HoldsSequent};
ghost use Rattle.ab_formulas.specs.Sequents.{IsSequent};
ghost use Rattle.ab_logic.specs.Worlds.{IsWorld, Holds, read, declarations_of};
ghost use Rattle.ab_logic.specs.declared.world.World.{World as AWorld};
ghost use Rattle.ab_uses.specs.GivenReadings.{given_of, HoldsIfAny};
ghost use Rattle.ab_uses.specs.UseReadings.{aim_of, using_of, MayBeUsed};
ghost use Rattle.ab_effects.specs.ProofCommands.{missing, left_to_show};
ghost use Rattle.ab_meaning.specs.Refusals.{no_hypothesis};
ghost use Rattle.ab_effects.specs.Row.{leads};
ghost use Rattle.ab_effects.specs.FormulaUses as spec;
ghost use Rattle.ab_effects.specs.FormulaUses.{names_in, formulas_in};
ghost use Rattle.ab_theory.specs.UseAnswers.{IsUsedFor};
ghost use Rattle.ab_hypothesis.specs.ab_steps.specs.ProofEffects.{RefusedBy};
ghost use Rattle.ab_hypothesis.specs.ab_steps.specs.declared.fault.ProofCommandFault.{ProofCommandFault as AFault};
ghost use Rattle.ab_proofcmd.specs.Questions.{HoldsUse, Reads};

use ab_hypothesis::steps::{ProofCommandFault, not_pattern};
use ab_logic::{Sequent, World};
use ab_norm::name::Name;
use ab_norm::store::TermId;
use ab_norm::types::Steps;
use ab_syntax::Argument;
use ab_uses::{Aim, Found, GivenTerm, Use, find_use};
use std::alloc::{AllocError, Global};

/// What was asked, and is there.
#[derive(Drop)]
pub(crate) struct Asked {
    /// The formula that is used.
    pub(crate) formula: TermId,
    /// The terms that are given for its bound names.
    pub(crate) given: Vec<GivenTerm>,
    /// How it is used.
    pub(crate) found: Use,
}

/// The formula of the hypothesis of that name, or else of the theorem.
pub(crate) fn formula_named(world: &World, goal: &Sequent, name: &Name) -> Option<TermId>
    requires world { IsWorld world.now }
    requires goal { HoldsSequent world.now goal.now }
    ensures reads { option_map (read world.now) result ≡ spec.formula_named (declarations_of world.now) (sequent_of world.now goal.now) name.now }
    ensures held { IfSome result (Holds world.now) }
{
    match goal.look(name) {
        Some(formula) => Some(formula),
        None => world.theorem(name),
    }
}

/// The hypothesis, where it is named and isn't there.
fn missing_by<'a>(goal: &Sequent, argument: &'a Argument) -> Option<&'a Name>
    ensures { (w : AWorld) → option_map no_hypothesis (option_copied result) ≡ missing (names_in (argument_of argument.now ∷ [])) (sequent_of w goal.now) }
{
    match argument {
        Argument::Hole => None,
        Argument::Named(name) => { if goal.uses(name) { None } else { Some(name) } }
    }
}

/// The first hypothesis that is named and isn't there.
pub(crate) fn first_missing<'a>(goal: &Sequent, arguments: &'a [Argument]) -> Option<&'a Name>
    ensures { (w : AWorld) → option_map no_hypothesis (option_copied result) ≡ missing (names_in (map argument_of arguments.now)) (sequent_of w goal.now) }
{
    for argument in arguments {
        if let Some(name) = missing_by(goal, argument) {
            return Some(name);
        }
    }
    None
}

/// The formula of the hypothesis that is named, and nothing for a hole.
fn formula_met(goal: &Sequent, argument: &Argument) -> Option<TermId>
    ensures reads { (w : AWorld) → option_map (read w) result ∷ [] ≡ formulas_in (sequent_of w goal.now) (argument_of argument.now ∷ []) }
    ensures held { (w : AWorld) → HoldsSequent w goal.now → HoldsIfAny w result }
{
    match argument {
        Argument::Hole => None,
        Argument::Named(name) => goal.look(name),
    }
}

/// Puts the formulas of the hypotheses that are named behind the others, and nothing for a hole.
pub(crate) fn add_formulas(
    goal: &Sequent,
    arguments: &[Argument],
    formulas: &mut Vec<Option<TermId>>,
) -> Result<(), AllocError>
    ensures reads { OnOk result ((w : AWorld) → map (option_map (read w)) formulas.new.items ≡ map (option_map (read w)) formulas.old.items ++ formulas_in (sequent_of w goal.now) (map argument_of arguments.now)) }
    ensures held { OnOk result ((w : AWorld) → HoldsSequent w goal.now → All (HoldsIfAny w) formulas.old.items → All (HoldsIfAny w) formulas.new.items) }
{
    for argument in arguments {
        formulas.push(formula_met(goal, argument))?;
    }
    Ok(())
}

/// How the formula is used, or why it can't be.
pub(crate) fn use_of<L>(
    alloc: Global,
    world: &mut World,
    goal: &Sequent,
    formula: TermId,
    count: usize,
    given: &[GivenTerm],
    aim: &Aim,
    steps: &mut Steps<L>,
) -> Result<Use, ProofCommandFault>
    requires world { IsWorld world.old }
    requires goal { HoldsSequent world.old goal.now }
    requires sequent { IsSequent (declarations_of world.old) (sequent_of world.old goal.now) }
    requires formula { Holds world.old formula }
    requires given { All (λ g. Holds world.old g.value × HoldsType world.old.types g.ty) given.now }
    requires hypotheses { All (HoldsIfAny world.old) aim.now.hypotheses.items }
    requires conclusion { HoldsIfAny world.old aim.now.conclusion }
    requires usable { MayBeUsed (declarations_of world.old) (sequent_of world.old goal.now) (read world.old formula) count (map (given_of world.old) given.now) (aim_of world.old aim.now) }
    ensures held { IfOk result (HoldsUse world.new) }
    ensures found { IfOk result (λ u. (K : Read) × IsUsedFor (using_of world.old goal.now formula count given.now aim.now) K × Reads world.new (aim_of world.old aim.now).hypotheses u K) }
    ensures refused { (fault : AFault) → result ≡ Err fault → RefusedBy (left_to_show (using_of world.old goal.now formula count given.now aim.now) (λ K. leads [])) fault }
    ensures grows { Grows world.old world.new }
    ensures declared { declarations_of world.new ≡ declarations_of world.old }
    ensures steps { steps.old ≤ steps.new }
{
    match find_use(alloc, world, goal, formula, count, given, aim, steps)? {
        Found::Used(found) => Ok(found),
        Found::NoMatch => Err(ProofCommandFault::NoMatch),
        Found::NotPattern(place) => Err(not_pattern(place)),
        Found::Unresolved(name) => Err(ProofCommandFault::Unresolved(name)),
    }
}
