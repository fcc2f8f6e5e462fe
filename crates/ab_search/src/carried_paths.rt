//! The path to an answer is carried out, goal by goal.
ghost use Rattle.std.specs.Prelude.{◌≡◌, ◌<◌, ◌≤◌, ◌+◌, ℕ, [], length, All, IfOk, OnOk};
ghost use Rattle.ab_logic.specs.Worlds.{IsWorld};
ghost use Rattle.ab_logic.specs.declared.world.World.{World as AWorld};
ghost use Rattle.ab_theory.specs.Derivations.{debts_of};
ghost use Rattle.ab_steps.specs.ab_kernel.specs.ab_rules.specs.RuleAnswers.{step_of, HoldsStep};
ghost use Rattle.ab_steps.specs.ab_kernel.specs.Layout.{IsProof};
ghost use Rattle.ab_steps.specs.Progress.{Follows};
ghost use Rattle.ab_search.specs.GoalCounts.{GaveWayTo, FirstGaveWay};
ghost use Rattle.ab_search_paths.specs.Paths.{HoldsEntry, HoldsTaken, AreStandIns};
ghost use Rattle.ab_search_paths.specs.declared.entries.Taken.TheVariants.{Rule};

use crate::empty_lists::close_by_empty_list;
use crate::kernel_steps::{label_at, take};
use crate::opened_hypotheses::close_by;
use crate::quantifier_steps::{take_term, take_variable};
use crate::rule_steps::{RuleTurn, take_rule};
use crate::unfolding_steps::{take_clause, take_layer};
use ab_logic::World;
use ab_norm::types::Steps;
use ab_search_paths::{Entry, RuleTaken, StandIn, Taken};
use ab_steps::kernel::{Proof, Step};
use std::alloc::{AllocError, Global};

/// An open goal of the kernel that a goal of the path is like: its place, and how many of the variables have come up on its branch.
#[derive(Clone, Copy)]
struct Pending {
    place: usize,
    stand_ins: usize,
}

/// How far the path is carried out: the goals that are pending, the next one last, and what stands in for the variables that came up
/// on the branch of the last one.
#[derive(Drop)]
struct Progress {
    pending: Vec<Pending>,
    stand_ins: Vec<StandIn>,
}

impl Progress {
    /// The goal of this place is pending, on the branch that is gone now.
    fn wait(&mut self, place: usize) -> Result<(), AllocError>
        ensures pending { OnOk result (length self.new.pending.items ≡ length self.old.pending.items + 1) }
        ensures stand_ins { self.new.stand_ins ≡ self.old.stand_ins }
    {
        self.pending.push(Pending {
            place,
            stand_ins: self.stand_ins.len(),
        })?;
        Ok(())
    }

    /// The place of the next goal, whose branch is gone from now on.
    fn next(&mut self) -> Result<usize, AllocError>
        ensures pending { OnOk result (length self.old.pending.items ≡ length self.new.pending.items + 1) }
        ensures place { IfOk result (λ place. place ≤ length self.new.pending.items) }
        ensures stand_ins { (w : AWorld) → AreStandIns w self.old.stand_ins.items → AreStandIns w self.new.stand_ins.items }
    {
        match self.pending.pop() {
            Some(next) if next.place <= self.pending.len() => {
                self.stand_ins.truncate(next.stand_ins);
                Ok(next.place)
            }
            _ => Err(AllocError),
        }
    }
}

/// Takes a conjunction apart. Of its parts the right one comes first, if this is so.
fn take_both<L>(
    world: &mut World,
    proof: &mut Proof,
    progress: &mut Progress,
    place: usize,
    right_first: bool,
    steps: &mut Steps<L>,
) -> Result<(), AllocError>
    requires world { IsWorld world.old }
    requires proof { IsProof world.old proof.old }
    requires place { place ≤ length progress.old.pending.items }
    requires stand_ins { AreStandIns world.old progress.old.stand_ins.items }
    ensures follows { Follows world.old proof.old world.new proof.new }
    ensures gave_way { OnOk result (FirstGaveWay world.old proof.old world.new proof.new (length progress.old.pending.items + 1) (length progress.new.pending.items)) }
    ensures stand_ins { AreStandIns world.new progress.new.stand_ins.items }
    ensures steps { steps.old ≤ steps.new }
{
    take(world, proof, place, Step::AndRight, 2, steps)?;
    progress.wait(place)?;
    progress.wait(if right_first { place + 1 } else { place })
}

/// Takes a step that leaves one goal, which is pending then.
fn take_one<L>(
    world: &mut World,
    proof: &mut Proof,
    progress: &mut Progress,
    place: usize,
    step: Step,
    steps: &mut Steps<L>,
) -> Result<(), AllocError>
    requires world { IsWorld world.old }
    requires proof { IsProof world.old proof.old }
    requires place { place ≤ length progress.old.pending.items }
    requires stand_ins { AreStandIns world.old progress.old.stand_ins.items }
    requires step { HoldsStep world.old step }
    requires free { debts_of (step_of world.old step) ≡ [] }
    ensures follows { Follows world.old proof.old world.new proof.new }
    ensures gave_way { OnOk result (FirstGaveWay world.old proof.old world.new proof.new (length progress.old.pending.items + 1) (length progress.new.pending.items)) }
    ensures stand_ins { AreStandIns world.new progress.new.stand_ins.items }
    ensures steps { steps.old ≤ steps.new }
{
    take(world, proof, place, step, 1, steps)?;
    progress.wait(place)
}

/// How many goals the way leaves.
fn goals_left(taken: &Taken) -> usize {
    match taken {
        Taken::Truth | Taken::Equality | Taken::Hypothesis(_) => 0,
        Taken::Both(_) => 2,
        _ => 1,
    }
}

/// How many entries of the path there are until so many goals are closed.
fn entries_until_closed(path: &[Entry], goals: usize) -> usize {
    let mut left = goals;
    for place in 0..path.len() {
        if left == 0 {
            return place;
        }
        left = (left - 1).saturating_add(goals_left(&path[place].taken));
    }
    path.len()
}

/// Carries a rule of a judgement out, and what belongs to it of the path behind it: of so many entries. If the rule is that by the list
/// and the list is `nil`, something is assumed to be in it.
fn take_rule_with<L>(
    alloc: Global,
    world: &mut World,
    proof: &mut Proof,
    progress: &mut Progress,
    place: usize,
    entry: &Entry,
    rule: &RuleTaken,
    behind: &[Entry],
    steps: &mut Steps<L>,
) -> Result<usize, AllocError>
    requires world { IsWorld world.old }
    requires proof { IsProof world.old proof.old }
    requires place { place ≤ length progress.old.pending.items }
    requires stand_ins { AreStandIns world.old progress.old.stand_ins.items }
    requires entry { HoldsEntry world.old entry.now }
    requires rule { HoldsTaken world.old (Rule rule.now) }
    requires behind { All (HoldsEntry world.old) behind.now }
    ensures follows { Follows world.old proof.old world.new proof.new }
    ensures gave_way { OnOk result (FirstGaveWay world.old proof.old world.new proof.new (length progress.old.pending.items + 1) (length progress.new.pending.items)) }
    ensures stand_ins { AreStandIns world.new progress.new.stand_ins.items }
    ensures steps { steps.old ≤ steps.new }
{
    let formula = entry.conclusion;
    let known = &progress.stand_ins;
    match take_rule(
        alloc, world, proof, place, known, formula, rule, behind, steps,
    )? {
        RuleTurn::Gone(ways) => {
            progress.wait(place)?;
            Ok(ways)
        }
        RuleTurn::Closed(ways) => Ok(ways),
        RuleTurn::Empty => {
            close_by_empty_list(alloc, world, proof, place, steps)?;
            Ok(entries_until_closed(behind, 1))
        }
    }
}

/// Takes the steps of a way that puts a term or a variable in, or that unfolds by a clause or a layer, at the goal of this place.
fn put_in_or_unfold<L>(
    alloc: Global,
    world: &mut World,
    proof: &mut Proof,
    stand_ins: &mut Vec<StandIn>,
    place: usize,
    entry: &Entry,
    steps: &mut Steps<L>,
) -> Result<(), AllocError>
    requires world { IsWorld world.old }
    requires proof { IsProof world.old proof.old }
    requires stand_ins { AreStandIns world.old stand_ins.old.items }
    requires entry { HoldsEntry world.old entry.now }
    ensures follows { Follows world.old proof.old world.new proof.new }
    ensures gave_way { OnOk result (GaveWayTo world.old proof.old world.new proof.new place 1) }
    ensures stand_ins { AreStandIns world.new stand_ins.new.items }
    ensures steps { steps.old ≤ steps.new }
{
    let formula = entry.conclusion;
    match &entry.taken {
        Taken::Term(term) => take_term(
            alloc, world, proof, place, stand_ins, formula, *term, steps,
        ),
        Taken::Variable(cell, names) => take_variable(
            alloc, world, proof, place, stand_ins, formula, *cell, names, steps,
        ),
        Taken::Clause(clause) => take_clause(
            alloc, world, proof, place, stand_ins, formula, clause, steps,
        ),
        _ => take_layer(world, proof, place, steps),
    }
}

/// Carries a way out that puts a term or a variable in, or that unfolds by a clause or a layer: one goal is pending then.
fn take_more<L>(
    alloc: Global,
    world: &mut World,
    proof: &mut Proof,
    progress: &mut Progress,
    place: usize,
    entry: &Entry,
    steps: &mut Steps<L>,
) -> Result<(), AllocError>
    requires world { IsWorld world.old }
    requires proof { IsProof world.old proof.old }
    requires place { place ≤ length progress.old.pending.items }
    requires stand_ins { AreStandIns world.old progress.old.stand_ins.items }
    requires entry { HoldsEntry world.old entry.now }
    ensures follows { Follows world.old proof.old world.new proof.new }
    ensures gave_way { OnOk result (FirstGaveWay world.old proof.old world.new proof.new (length progress.old.pending.items + 1) (length progress.new.pending.items)) }
    ensures stand_ins { AreStandIns world.new progress.new.stand_ins.items }
    ensures steps { steps.old ≤ steps.new }
{
    let known = &mut progress.stand_ins;
    put_in_or_unfold(alloc, world, proof, known, place, entry, steps)?;
    progress.wait(place)
}

/// Carries a way out that is one step of the kernel, or that closes the goal of this place by a hypothesis.
fn take_simple<L>(
    alloc: Global,
    world: &mut World,
    proof: &mut Proof,
    progress: &mut Progress,
    place: usize,
    entry: &Entry,
    steps: &mut Steps<L>,
) -> Result<(), AllocError>
    requires world { IsWorld world.old }
    requires proof { IsProof world.old proof.old }
    requires place { place ≤ length progress.old.pending.items }
    requires stand_ins { AreStandIns world.old progress.old.stand_ins.items }
    requires entry { HoldsEntry world.old entry.now }
    ensures follows { Follows world.old proof.old world.new proof.new }
    ensures gave_way { OnOk result (FirstGaveWay world.old proof.old world.new proof.new (length progress.old.pending.items + 1) (length progress.new.pending.items)) }
    ensures stand_ins { AreStandIns world.new progress.new.stand_ins.items }
    ensures steps { steps.old ≤ steps.new }
{
    match &entry.taken {
        Taken::Truth => take(world, proof, place, Step::TrueRight, 0, steps),
        Taken::Equality => take(world, proof, place, Step::EqualRight, 0, steps),
        Taken::Hypothesis(number) => close_by(alloc, world, proof, place, *number, steps),
        Taken::Both(right_first) => take_both(world, proof, progress, place, *right_first, steps),
        Taken::Left => take_one(world, proof, progress, place, Step::OrRight(true), steps),
        Taken::Right => take_one(world, proof, progress, place, Step::OrRight(false), steps),
        Taken::Assuming => {
            let step = Step::ArrowRight(label_at(alloc, world, proof, place)?);
            take_one(world, proof, progress, place, step, steps)
        }
        Taken::Constant => take_one(world, proof, progress, place, Step::NablaRight, steps),
        _ => take_more(alloc, world, proof, progress, place, entry, steps),
    }
}

/// Carries the way of the first entry out at the next goal, and tells how many of those behind it went with it.
fn take_entry<L>(
    alloc: Global,
    world: &mut World,
    proof: &mut Proof,
    progress: &mut Progress,
    entry: &Entry,
    behind: &[Entry],
    steps: &mut Steps<L>,
) -> Result<usize, AllocError>
    requires world { IsWorld world.old }
    requires proof { IsProof world.old proof.old }
    requires stand_ins { AreStandIns world.old progress.old.stand_ins.items }
    requires entry { HoldsEntry world.old entry.now }
    requires behind { All (HoldsEntry world.old) behind.now }
    ensures follows { Follows world.old proof.old world.new proof.new }
    ensures gave_way { OnOk result (FirstGaveWay world.old proof.old world.new proof.new (length progress.old.pending.items) (length progress.new.pending.items)) }
    ensures stand_ins { AreStandIns world.new progress.new.stand_ins.items }
    ensures steps { steps.old ≤ steps.new }
{
    let place = progress.next()?;
    match &entry.taken {
        Taken::Rule(rule) => {
            take_rule_with(
                alloc, world, proof, progress, place, entry, rule, behind, steps,
            )
        }
        _ => {
            take_simple(alloc, world, proof, progress, place, entry, steps)?;
            Ok(0)
        }
    }
}

/// Carries the entry of this place out, if none before it had it go with its own: those before `gone` did. Tells how far the path is
/// gone then.
fn take_at<L>(
    alloc: Global,
    world: &mut World,
    proof: &mut Proof,
    progress: &mut Progress,
    path: &[Entry],
    place: usize,
    gone: usize,
    steps: &mut Steps<L>,
) -> Result<usize, AllocError>
    requires world { IsWorld world.old }
    requires proof { IsProof world.old proof.old }
    requires stand_ins { AreStandIns world.old progress.old.stand_ins.items }
    requires path { All (HoldsEntry world.old) path.now }
    requires place { place < length path.now }
    ensures follows { Follows world.old proof.old world.new proof.new }
    ensures gave_way { OnOk result (FirstGaveWay world.old proof.old world.new proof.new (length progress.old.pending.items) (length progress.new.pending.items)) }
    ensures stand_ins { AreStandIns world.new progress.new.stand_ins.items }
    ensures steps { steps.old ≤ steps.new }
{
    if place < gone {
        return Ok(gone);
    }
    let behind = &path[place + 1..];
    let entry = &path[place];
    let with = take_entry(alloc, world, proof, progress, entry, behind, steps)?;
    Ok((place + 1).saturating_add(with))
}

/// Carries the path out at the first goal, which is closed then.
pub(crate) fn carry_out<L>(
    alloc: Global,
    world: &mut World,
    proof: &mut Proof,
    path: &[Entry],
    steps: &mut Steps<L>,
) -> Result<(), AllocError>
    requires world { IsWorld world.old }
    requires proof { IsProof world.old proof.old }
    requires path { All (HoldsEntry world.old) path.now }
    ensures follows { Follows world.old proof.old world.new proof.new }
    ensures gave_way { OnOk result (FirstGaveWay world.old proof.old world.new proof.new 1 0) }
    ensures steps { steps.old ≤ steps.new }
{
    let mut progress = Progress {
        pending: Vec::new(alloc),
        stand_ins: Vec::new(alloc),
    };
    progress.wait(0)?;
    let mut gone = 0;
    for place in 0..path.len() {
        gone = take_at(alloc, world, proof, &mut progress, path, place, gone, steps)?;
    }
    if progress.pending.is_empty() {
        Ok(())
    } else {
        Err(AllocError)
    }
}
