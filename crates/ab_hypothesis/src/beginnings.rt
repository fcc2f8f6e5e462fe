//! A hypothesis is put behind the others under a name of the command's own, before it is taken apart.
ghost use Rattle.std.specs.Prelude.{◌≤◌, ◌≡◌, ◌≢◌, [], ◌∷◌, List, IfOk};
ghost use Rattle.ab_formulas.specs.Sequents.{Sequent as AGoal};
ghost use Rattle.ab_logic.specs.Worlds.{IsWorld, Holds, read};
ghost use Rattle.ab_equations.specs.Labels.{label_of};
ghost use Rattle.ab_unify.specs.Problem.{cells_read};
ghost use Rattle.ab_theory.specs.Equations.{AreCells};
ghost use Rattle.ab_steps.specs.ab_kernel.specs.Layout.{IsProof, goals_of};
ghost use Rattle.ab_steps.specs.Progress.{Follows};
ghost use Rattle.ab_hypothesis.specs.OwnNames.{IsOwn};
ghost use Rattle.ab_hypothesis.specs.HypothesisProgress.{HasAt};
ghost use Rattle.ab_hypothesis.specs.CaseAnswers.{Begun};

use crate::goal_moves::{copy, shift};
use crate::own_names::own_name;
use ab_equations::Label;
use ab_logic::World;
use ab_norm::name::Name;
use ab_norm::store::TermId;
use ab_norm::types::Steps;
use ab_steps::first_goal;
use ab_steps::kernel::Proof;
use std::alloc::{AllocError, Global};

/// Puts the formula of a hypothesis of the first goal behind the others, under a name of the command's own, which is the
/// answer. The hypothesis goes, unless it is to be kept.
pub(crate) fn begin<L>(
    alloc: Global,
    world: &mut World,
    proof: &mut Proof,
    label: &Label,
    name: &Name,
    formula: TermId,
    keep: bool,
    steps: &mut Steps<L>,
) -> Result<Name, AllocError>
    requires world { IsWorld world.old }
    requires proof { IsProof world.old proof.old }
    requires open { goals_of world.old proof.old ≢ [] }
    requires formula { Holds world.old formula }
    requires there { HasAt world.old proof.old 0 name.now (read world.old formula) }
    ensures follows { Follows world.old proof.old world.new proof.new }
    ensures own { IfOk result (IsOwn (label_of label.now)) }
    ensures begun { IfOk result (λ own. Begun world.old proof.old world.new proof.new keep name.now own (read world.old formula)) }
    ensures steps { steps.old ≤ steps.new }
{
    let own = own_name(alloc, world, first_goal(world, proof), label)?;
    let given = own.copy(alloc)?;
    if keep {
        let copied = copy(
            alloc,
            world,
            proof,
            0,
            name,
            formula,
            Label::Given(given),
            steps,
        )?;
        if copied { Ok(own) } else { unreachable!() }
    } else {
        let moved = shift(
            alloc,
            world,
            proof,
            0,
            name,
            formula,
            Label::Given(given),
            steps,
        )?;
        if moved { Ok(own) } else { unreachable!() }
    }
}

/// The variables of the first goal are cells of the world.
pub(crate) fn first_over_cells(world: &World, proof: &Proof)
    requires proof { IsProof world.now proof.now }
    requires open { goals_of world.now proof.now ≢ [] }
    ensures { (s : AGoal) (rest : List AGoal) → goals_of world.now proof.now ≡ s ∷ rest →
        AreCells (cells_read world.now.types world.now.store) s }
{
    let _ = first_goal(world, proof);
}
