//! The steps of the kernel for a rule of a judgement.
ghost use Rattle.std.specs.Prelude.{◌≡◌, ◌≤◌, ℕ, All, Ok};
ghost use Rattle.ab_logic.specs.Worlds.{IsWorld};
ghost use Rattle.ab_steps.specs.ab_kernel.specs.Layout.{IsProof};
ghost use Rattle.ab_steps.specs.Progress.{Follows};
ghost use Rattle.ab_search.specs.GoalCounts.{GaveWayTo};
ghost use Rattle.ab_search.specs.declared.rule_steps.RuleTurn.TheVariants.{Gone, Closed, Empty};
ghost use Rattle.ab_search_paths.specs.Paths.{IsFormulaIn, IsTermIn, HoldsEntry, AreStandIns};

use crate::assumed_rows::close_by_row;
use crate::kernel_steps::goal_at;
use crate::rule_plans::{RulePlan, plan};
use crate::unfolding_steps::unfold;
use ab_logic::World;
use ab_norm::store::TermId;
use ab_norm::types::Steps;
use ab_search_paths::{Entry, RuleTaken, StandIn};
use ab_steps::kernel::Proof;
use std::alloc::{AllocError, Global};

/// What a rule comes to at the kernel.
#[derive(Clone, Copy)]
pub(crate) enum RuleTurn {
    /// It was taken, and with it so many ways of the path behind it.
    Gone(usize),
    /// The goal is closed, and so many ways of the path behind the rule were gone for it.
    Closed(usize),
    /// There is no such rule, since the list is `nil`.
    Empty,
}

/// Unfolds the conclusion of the goal of this place, which is like the formula, by the rule. Behind it the path goes on so.
pub(crate) fn take_rule<L>(
    alloc: Global,
    world: &mut World,
    proof: &mut Proof,
    place: usize,
    stand_ins: &[StandIn],
    formula: TermId,
    rule: &RuleTaken,
    behind: &[Entry],
    steps: &mut Steps<L>,
) -> Result<RuleTurn, AllocError>
    requires world { IsWorld world.old }
    requires proof { IsProof world.old proof.old }
    requires stand_ins { AreStandIns world.old stand_ins.now }
    requires formula { IsFormulaIn world.old formula }
    requires rule { All (IsTermIn world.old) rule.now.values.items }
    requires behind { All (HoldsEntry world.old) behind.now }
    ensures follows { Follows world.old proof.old world.new proof.new }
    ensures gone { (n : ℕ) → result ≡ Ok (Gone n) → GaveWayTo world.old proof.old world.new proof.new place 1 }
    ensures closed { (n : ℕ) → result ≡ Ok (Closed n) → GaveWayTo world.old proof.old world.new proof.new place 0 }
    ensures empty { result ≡ Ok Empty → proof.new ≡ proof.old }
    ensures steps { steps.old ≤ steps.new }
{
    let goal = goal_at(proof, place)?;
    let made = plan(alloc, world, goal, stand_ins, formula, rule, behind, steps)?;
    match made {
        RulePlan::Nothing => Ok(RuleTurn::Empty),
        RulePlan::Unfold(unfolding, ways) => {
            unfold(world, proof, place, &unfolding, steps)?;
            Ok(RuleTurn::Gone(ways))
        }
        RulePlan::Assume(row) => {
            close_by_row(alloc, world, proof, place, &row, steps)?;
            Ok(RuleTurn::Closed(row.found.ways.saturating_add(1)))
        }
    }
}
