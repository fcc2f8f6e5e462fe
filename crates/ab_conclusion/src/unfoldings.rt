//! A conclusion that is a defined atom or a judgement is unfolded.
ghost use Rattle.std.specs.Prelude.{◌≡◌, ◌≢◌, ◌≤◌, [], Err, IfOk, OnOk, OnErr};
ghost use Rattle.ab_grammar.specs.CommandTrees as told;
ghost use Rattle.ab_logic.specs.WorldGrowth.{Grows};
ghost use Rattle.ab_formulas.specs.NewNames as plain;
ghost use Rattle.ab_logic.specs.Worlds.{IsWorld, declarations_of};
ghost use Rattle.ab_steps.specs.ab_kernel.specs.Layout.{history_of, IsProof, goals_of};
ghost use Rattle.ab_steps.specs.ProofEffects.{IsApplied, IsRefused};
ghost use Rattle.ab_steps.specs.Progress.{Follows};
ghost use Rattle.ab_steps.specs.declared.fault.ProofCommandFault.{ProofCommandFault};
ghost use Rattle.ab_conclusion.specs.UnfoldingChoice.{UnfoldsBy};

use ab_logic::World;
use ab_steps::kernel::judgements::alternatives::{Found, may_be_unfolded};
use ab_steps::kernel::judgements::{first_way, sign_of, subject_of};
use ab_steps::kernel::{Proof, Step};
use ab_steps::{Attempted, ProofCommandFault, attempt_solving, first_goal, not_pattern};
use ab_types::Steps;
use std::alloc::{AllocError, Global};

/// The place of the way in which the first goal's conclusion unfolds, or why it doesn't.
fn find_way<L>(
    alloc: Global,
    world: &mut World,
    proof: &Proof,
    steps: &mut Steps<L>,
) -> Result<usize, ProofCommandFault>
    requires world { IsWorld world.old }
    requires proof { IsProof world.old proof.now }
    requires open { goals_of world.old proof.now ≢ [] }
    ensures found { IfOk result (UnfoldsBy world.new proof.now) }
    ensures refused { (fault : ProofCommandFault) → result ≡ Err fault → (l : plain.Label) → IsRefused l told.unfold_goal world.old proof.now fault }
    ensures grows { Grows world.old world.new }
    ensures declared { declarations_of world.new ≡ declarations_of world.old }
    ensures steps { steps.old ≤ steps.new }
{
    let goal = first_goal(world, proof);
    let Some(subject) = subject_of(alloc, world, goal.conclusion)? else {
        return Err(ProofCommandFault::WrongShape);
    };
    if !may_be_unfolded(sign_of(&subject)) {
        return Err(ProofCommandFault::Mark);
    }
    match first_way(alloc, world, &subject, goal, steps)? {
        Found::Closed(place) => Ok(place),
        Found::Open(_, name) => Err(ProofCommandFault::Unresolved(name)),
        Found::Stuck(_, equation) => Err(not_pattern(equation)),
        Found::Nothing => Err(ProofCommandFault::NoMatch),
    }
}

/// Unfolds the first goal's conclusion in the way of this place.
fn unfold_by<L>(
    world: &mut World,
    proof: &mut Proof,
    place: usize,
    steps: &mut Steps<L>,
) -> Result<(), AllocError>
    requires world { IsWorld world.old }
    requires proof { IsProof world.old proof.old }
    requires open { goals_of world.old proof.old ≢ [] }
    requires unfolds { UnfoldsBy world.old proof.old place }
    ensures follows { Follows world.old proof.old world.new proof.new }
    ensures applied { OnOk result ((l : plain.Label) → IsApplied l told.unfold_goal world.old proof.old world.new proof.new) }
    ensures unchanged { OnErr result (history_of world.new proof.new ≡ history_of world.old proof.old) }
    ensures steps { steps.old ≤ steps.new }
{
    match attempt_solving(world, proof, 0, Step::DefRight(place), steps)? {
        Attempted::Taken(_) => Ok(()),
        Attempted::Failed(_) => unreachable!(),
        Attempted::Stuck(_) => unreachable!(),
    }
}

/// Puts the body of a clause or of a rule in the place of the first goal's conclusion, by the first way in which the conclusion
/// may hold. It is refused, and changes nothing, where the conclusion is no defined atom and no judgement whose rules are known,
/// its mark doesn't allow it, it may hold in no way, an equation of the first in which it may is outside the patterns, or a variable
/// that this brought stays open.
pub fn unfold<L>(
    alloc: Global,
    world: &mut World,
    proof: &mut Proof,
    steps: &mut Steps<L>,
) -> Result<(), ProofCommandFault>
    requires world { IsWorld world.old }
    requires proof { IsProof world.old proof.old }
    requires open { goals_of world.old proof.old ≢ [] }
    ensures follows { Follows world.old proof.old world.new proof.new }
    ensures applied { IfOk result (λ u. (l : plain.Label) → IsApplied l told.unfold_goal world.old proof.old world.new proof.new) }
    ensures refused { (fault : ProofCommandFault) → result ≡ Err fault → (l : plain.Label) → IsRefused l told.unfold_goal world.old proof.old fault }
    ensures unchanged { OnErr result (history_of world.new proof.new ≡ history_of world.old proof.old) }
    ensures steps { steps.old ≤ steps.new }
{
    let place = find_way(alloc, world, proof, steps)?;
    unfold_by(world, proof, place, steps)?;
    Ok(())
}
