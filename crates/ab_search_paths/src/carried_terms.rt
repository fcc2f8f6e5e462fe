//! Terms of the path, as the kernel's goal has them.
ghost use Rattle.std.specs.Prelude.{◌≡◌, ◌≢◌, ◌≤◌, length, map, All, AllPairs, Contains, IfOk};
ghost use Rattle.ab_term.specs.Terms as tree;
ghost use Rattle.ab_norm.specs.Nominals.{nominal_of, HoldsNominal};
ghost use Rattle.ab_logic.specs.SequentReadings.{HoldsSequent};
ghost use Rattle.ab_logic.specs.Worlds.{IsWorld, Holds};
ghost use Rattle.ab_search_paths.specs.Likenesses.{IsLikeness};
ghost use Rattle.ab_search_paths.specs.MoreTerms.{GotTerms};
ghost use Rattle.ab_search_paths.specs.Paths.{AreStandIns};

use crate::likeness::{Likeness, StandIn, put_in};
use ab_logic::{Sequent, World};
use ab_norm::store::TermId;
use ab_norm::types::{Steps, TypeTable};
use ab_norm::{Nominal, permute};
use ab_walk::next_ways::judgements::alternatives::goal_constants;
use ab_walk::next_ways::judgements::alternatives::instances::{constants_of, outside};
use ab_walk::next_ways::ways::{new_constant, permutation_of};
use std::alloc::{AllocError, Global};

/// The likeness, and for each of the other constants a new one, that isn't held nor is anything else sent to it.
fn with_new(
    alloc: Global,
    types: &TypeTable,
    like: &Likeness,
    others: &[Nominal],
    held: &[Nominal],
) -> Result<Likeness, AllocError>
    requires like { IsLikeness types.now like.now }
    requires others { All (HoldsNominal types.now) others.now }
    requires held { All (HoldsNominal types.now) held.now }
    requires once { AllPairs (λ a b. a ≢ b) (map (nominal_of types.now) others.now) }
    requires apart { (a : tree.Nominal) → Contains (map (nominal_of types.now) others.now) a → ¬ Contains (map (nominal_of types.now) like.now.names.items) a }
    ensures like { IfOk result (IsLikeness types.now) }
{
    let mut known = Vec::from_slice(alloc, held)?;
    known.extend_from_slice(&like.targets)?;
    let mut names = Vec::from_slice(alloc, &like.names)?;
    let mut targets = Vec::from_slice(alloc, &like.targets)?;
    for a in others {
        let new = new_constant(alloc, types, &known, a.ty)?;
        known.push(new)?;
        names.push(*a)?;
        targets.push(new)?;
    }
    Ok(Likeness { names, targets })
}

/// The likeness, and for each other constant of the terms a new one, that neither the goal holds nor anything else is sent to.
fn what_is_sent(
    alloc: Global,
    world: &World,
    like: &Likeness,
    goal: &Sequent,
    terms: &[TermId],
) -> Result<Likeness, AllocError>
    requires world { IsWorld world.now }
    requires like { IsLikeness world.now.types like.now }
    requires goal { HoldsSequent world.now goal.now }
    requires terms { All (Holds world.now) terms.now }
    ensures like { IfOk result (IsLikeness world.now.types) }
{
    let all = constants_of(alloc, &world.types, &world.store, terms)?;
    let others = outside(alloc, &world.types, &all, &like.names)?;
    let held = goal_constants(alloc, world, goal)?;
    with_new(alloc, &world.types, like, &others, &held)
}

/// The term, which holds the likeness's constants alone, with what they are in the kernel's goal.
pub fn permuted_term(
    alloc: Global,
    world: &mut World,
    like: &Likeness,
    term: TermId,
) -> Result<TermId, AllocError>
    requires world { IsWorld world.old }
    requires like { IsLikeness world.old.types like.now }
    requires term { Holds world.old term }
    ensures held { IfOk result (Holds world.new) }
    ensures got { GotTerms world.old world.new }
{
    let by = permutation_of(alloc, &world.types, &like.names, &like.targets)?;
    permute(alloc, &world.types, &mut world.store, term, &by)
}

/// The terms, which hold the likeness's constants alone, with what they are in the kernel's goal.
fn all_permuted(
    alloc: Global,
    world: &mut World,
    like: &Likeness,
    terms: &[TermId],
) -> Result<Vec<TermId>, AllocError>
    requires world { IsWorld world.old }
    requires like { IsLikeness world.old.types like.now }
    requires terms { All (Holds world.old) terms.now }
    ensures held { IfOk result (λ list. All (Holds world.new) list.items) }
    ensures count { IfOk result (λ list. length list.items ≡ length terms.now) }
    ensures got { GotTerms world.old world.new }
{
    let mut list = Vec::new(alloc);
    for term in terms {
        list.push(permuted_term(alloc, world, like, *term)?)?;
    }
    Ok(list)
}

/// The terms of the path, as they are at the kernel's goal: with what stands in for variables, and with the goal's constants.
pub fn carry_terms<L>(
    alloc: Global,
    world: &mut World,
    stand_ins: &[StandIn],
    like: &Likeness,
    goal: &Sequent,
    terms: &[TermId],
    steps: &mut Steps<L>,
) -> Result<Vec<TermId>, AllocError>
    requires world { IsWorld world.old }
    requires stand_ins { AreStandIns world.old stand_ins.now }
    requires like { IsLikeness world.old.types like.now }
    requires goal { HoldsSequent world.old goal.now }
    requires terms { All (Holds world.old) terms.now }
    ensures held { IfOk result (λ list. All (Holds world.new) list.items) }
    ensures count { IfOk result (λ list. length list.items ≡ length terms.now) }
    ensures got { GotTerms world.old world.new }
    ensures steps { steps.old ≤ steps.new }
{
    let here = put_in(alloc, world, stand_ins, terms, steps)?;
    let sent = what_is_sent(alloc, world, like, goal, &here)?;
    all_permuted(alloc, world, &sent, &here)
}
