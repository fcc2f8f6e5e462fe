//! A hypothesis is removed, is put behind the others once more, or is named anew there.
ghost use Rattle.std.specs.Prelude.{◌≤◌, ◌≡◌, List, Some, IfOk, OnOk, IsTrue, IsFalse};
ghost use Rattle.ab_term.specs.Terms.{Read};
ghost use Rattle.ab_logic.specs.Worlds.{IsWorld, Holds, read};
ghost use Rattle.ab_formulas.specs.NewNames.{NoName};
ghost use Rattle.ab_formulas.specs.Sequents.{Sequent as AGoal, formula_of, without};
ghost use Rattle.ab_equations.specs.Labels.{label_of};
ghost use Rattle.ab_steps.specs.ab_kernel.specs.Layout.{history_of, IsProof};
ghost use Rattle.ab_steps.specs.Progress.{IsAt, Follows};
ghost use Rattle.ab_hypothesis.specs.HypothesisProgress.{HasAt, CopiedTo, MovedTo};

use ab_equations::Label;
use ab_logic::World;
use ab_norm::name::Name;
use ab_norm::store::TermId;
use ab_norm::types::Steps;
use ab_steps::kernel::{Proof, Step};
use ab_steps::{attempt, surely};
use std::alloc::{AllocError, Global};

/// The formula of a hypothesis of the goal of this place.
pub(crate) fn formula_at(world: &World, proof: &Proof, place: usize, name: &Name) -> TermId
    requires proof { IsProof world.now proof.now }
    requires there { (F : Read) × HasAt world.now proof.now place name.now F }
    ensures reads { (before behind : List AGoal) (k : AGoal) → IsAt world.now proof.now place before k behind → formula_of k name.now ≡ Some (read world.now result) }
    ensures held { Holds world.now result }
{
    let _ = world;
    let Some(goal) = proof.goal(place) else {
        unreachable!();
    };
    let Some(formula) = goal.look(name) else {
        unreachable!();
    };
    formula
}

/// Removes a hypothesis of the goal of this place.
pub fn forget<L>(
    alloc: Global,
    world: &mut World,
    proof: &mut Proof,
    place: usize,
    name: &Name,
    steps: &mut Steps<L>,
) -> Result<(), AllocError>
    requires world { IsWorld world.old }
    requires proof { IsProof world.old proof.old }
    requires there { (F : Read) × HasAt world.old proof.old place name.now F }
    ensures follows { Follows world.old proof.old world.new proof.new }
    ensures forgotten { OnOk result ((before behind : List AGoal) (k : AGoal) → IsAt world.old proof.old place before k behind →
        IsAt world.new proof.new place before (without name.now k) behind) }
    ensures steps { steps.old ≤ steps.new }
{
    let name = name.copy(alloc)?;
    surely(world, proof, place, Step::Weaken(name), steps)
}

/// Puts the formula of a hypothesis behind the others once more, named by the label. It answers false, and changes
/// nothing, where the label gives no name.
pub(crate) fn copy<L>(
    alloc: Global,
    world: &mut World,
    proof: &mut Proof,
    place: usize,
    name: &Name,
    formula: TermId,
    label: Label,
    steps: &mut Steps<L>,
) -> Result<bool, AllocError>
    requires world { IsWorld world.old }
    requires proof { IsProof world.old proof.old }
    requires formula { Holds world.old formula }
    requires there { HasAt world.old proof.old place name.now (read world.old formula) }
    ensures follows { Follows world.old proof.old world.new proof.new }
    ensures copied { IfOk result (λ b. IsTrue b → (before behind : List AGoal) (k : AGoal) → IsAt world.old proof.old place before k behind →
        CopiedTo (label_of label) (read world.old formula) k world.new proof.new place before behind) }
    ensures unnamed { IfOk result (λ b. IsFalse b → (before behind : List AGoal) (k : AGoal) → IsAt world.old proof.old place before k behind →
        NoName (label_of label) k) }
    ensures unchanged { IfOk result (λ b. IsFalse b → history_of world.new proof.new ≡ history_of world.old proof.old) }
    ensures steps { steps.old ≤ steps.new }
{
    let closing = name.copy(alloc)?;
    let named = attempt(world, proof, place, Step::CutFormula(formula, label), steps)?;
    if named {
        surely(world, proof, place, Step::Initial(closing), steps)?;
        Ok(true)
    } else {
        Ok(false)
    }
}

/// Puts a hypothesis behind the others, and names it by the label. It answers false, and changes nothing, where the
/// label gives no name.
pub fn shift<L>(
    alloc: Global,
    world: &mut World,
    proof: &mut Proof,
    place: usize,
    name: &Name,
    formula: TermId,
    label: Label,
    steps: &mut Steps<L>,
) -> Result<bool, AllocError>
    requires world { IsWorld world.old }
    requires proof { IsProof world.old proof.old }
    requires formula { Holds world.old formula }
    requires there { HasAt world.old proof.old place name.now (read world.old formula) }
    ensures follows { Follows world.old proof.old world.new proof.new }
    ensures moved { IfOk result (λ b. IsTrue b → (before behind : List AGoal) (k : AGoal) → IsAt world.old proof.old place before k behind →
        MovedTo (label_of label) (read world.old formula) name.now k world.new proof.new place before behind) }
    ensures unnamed { IfOk result (λ b. IsFalse b → (before behind : List AGoal) (k : AGoal) → IsAt world.old proof.old place before k behind →
        NoName (label_of label) k) }
    ensures unchanged { IfOk result (λ b. IsFalse b → history_of world.new proof.new ≡ history_of world.old proof.old) }
    ensures steps { steps.old ≤ steps.new }
{
    let copied = copy(alloc, world, proof, place, name, formula, label, steps)?;
    if copied {
        forget(alloc, world, proof, place, name, steps)?;
        Ok(true)
    } else {
        Ok(false)
    }
}
