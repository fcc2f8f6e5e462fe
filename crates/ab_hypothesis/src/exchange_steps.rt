//! Nominal constants of the first goal change places, step by step.
ghost use Rattle.std.specs.Prelude.{◌≤◌, ◌≡◌, ◌≢◌, ◌∷◌, [], List, AllPairs, IfOk, OnOk, OnErr};
ghost use Rattle.ab_term.specs.Names as tree;
ghost use Rattle.ab_norm.specs.ab_types.specs.Ids.{HoldsType, type_of};
ghost use Rattle.ab_formulas.specs.Sequents.{Sequent as AGoal, proving, assuming, without};
ghost use Rattle.ab_logic.specs.Worlds.{IsWorld, Holds, read};
ghost use Rattle.ab_formulas.specs.Cycles.{cycle};
ghost use Rattle.ab_steps.specs.ab_kernel.specs.ab_rules.specs.Terms.{Adds};
ghost use Rattle.ab_steps.specs.ab_kernel.specs.Layout.{history_of, IsProof, goals_of};
ghost use Rattle.ab_steps.specs.Progress.{Follows};
ghost use Rattle.ab_hypothesis.specs.HypothesisProgress.{HasAt, MayCycleAt};

use crate::replacements::{change_conclusion, change_hypothesis};
use ab_logic::World;
use ab_norm::name::Name;
use ab_norm::store::TermId;
use ab_norm::types::{Steps, TypeId};
use ab_sequents::cycle;
use ab_steps::kernel::Proof;
use ab_steps::take_back;
use std::alloc::{AllocError, Global};

/// The formula in which each of the constants of these numbers and the type becomes the next, and the last the first.
fn permuted_formula(
    alloc: Global,
    world: &mut World,
    formula: TermId,
    ty: TypeId,
    numbers: &[u32],
) -> Result<TermId, AllocError>
    requires world { IsWorld world.old }
    requires formula { Holds world.old formula }
    requires ty { HoldsType world.old.types ty }
    requires different { AllPairs (λ m n. m ≢ n) numbers.now }
    ensures adds { Adds world.old world.new }
    ensures held { IfOk result (Holds world.new) }
    ensures reads { IfOk result (λ t. read world.new t ≡ tree.permute (cycle (type_of world.old.types ty) numbers.now) (read world.old formula)) }
{
    let by = cycle(alloc, ty, numbers)?;
    ab_norm::permute(alloc, &world.types, &mut world.store, formula, &by)
}

/// The conclusion of the first goal is permuted. It is as it was where there is no memory.
pub(crate) fn turn_conclusion<L>(
    alloc: Global,
    world: &mut World,
    proof: &mut Proof,
    conclusion: TermId,
    ty: TypeId,
    numbers: &[u32],
    steps: &mut Steps<L>,
) -> Result<(), AllocError>
    requires world { IsWorld world.old }
    requires proof { IsProof world.old proof.old }
    requires open { goals_of world.old proof.old ≢ [] }
    requires conclusion { Holds world.old conclusion }
    requires there { (s : AGoal) (rest : List AGoal) → goals_of world.old proof.old ≡ s ∷ rest → s.conclusion ≡ read world.old conclusion }
    requires ty { HoldsType world.old.types ty }
    requires cycles { MayCycleAt world.old proof.old numbers.now (type_of world.old.types ty) }
    ensures follows { Follows world.old proof.old world.new proof.new }
    ensures turned { OnOk result ((s : AGoal) (rest : List AGoal) → goals_of world.old proof.old ≡ s ∷ rest →
        goals_of world.new proof.new ≡ proving (tree.permute (cycle (type_of world.old.types ty) numbers.now) (read world.old conclusion)) s ∷ rest) }
    ensures unchanged { OnErr result (history_of world.new proof.new ≡ history_of world.old proof.old) }
    ensures steps { steps.old ≤ steps.new }
{
    let formula = permuted_formula(alloc, world, conclusion, ty, numbers)?;
    let count = proof.steps();
    match change_conclusion(alloc, world, proof, formula, steps) {
        Ok(()) => Ok(()),
        Err(fault) => {
            take_back(world, proof, count, steps);
            Err(fault)
        }
    }
}

/// The formula of a hypothesis of the first goal is permuted, and stands behind the others. It is as it was where there is no
/// memory.
pub(crate) fn turn_hypothesis<L>(
    alloc: Global,
    world: &mut World,
    proof: &mut Proof,
    name: &Name,
    hypothesis: TermId,
    ty: TypeId,
    numbers: &[u32],
    steps: &mut Steps<L>,
) -> Result<(), AllocError>
    requires world { IsWorld world.old }
    requires proof { IsProof world.old proof.old }
    requires open { goals_of world.old proof.old ≢ [] }
    requires hypothesis { Holds world.old hypothesis }
    requires there { HasAt world.old proof.old 0 name.now (read world.old hypothesis) }
    requires ty { HoldsType world.old.types ty }
    requires cycles { MayCycleAt world.old proof.old numbers.now (type_of world.old.types ty) }
    ensures follows { Follows world.old proof.old world.new proof.new }
    ensures turned { OnOk result ((s : AGoal) (rest : List AGoal) → goals_of world.old proof.old ≡ s ∷ rest →
        goals_of world.new proof.new
        ≡ assuming name.now (tree.permute (cycle (type_of world.old.types ty) numbers.now) (read world.old hypothesis)) (without name.now s) ∷ rest) }
    ensures unchanged { OnErr result (history_of world.new proof.new ≡ history_of world.old proof.old) }
    ensures steps { steps.old ≤ steps.new }
{
    let formula = permuted_formula(alloc, world, hypothesis, ty, numbers)?;
    let count = proof.steps();
    match change_hypothesis(alloc, world, proof, name, formula, steps) {
        Ok(()) => Ok(()),
        Err(fault) => {
            take_back(world, proof, count, steps);
            Err(fault)
        }
    }
}
