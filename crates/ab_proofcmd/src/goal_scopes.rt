//! What an expression may name in a goal.
ghost use Rattle.std.specs.Prelude.{◌≡◌, ◌++◌, List, map, IfOk, OnOk, All};
ghost use Rattle.ab_term.specs.Names.{IsSupport};
ghost use Rattle.ab_norm.specs.Nominals.{nominal_of, HoldsNominal};
ghost use Rattle.ab_norm.specs.declared.nominal.Nominal.{Nominal as AName};
ghost use Rattle.ab_logic.specs.SequentReadings.{sequent_of, HoldsSequent};
ghost use Rattle.ab_formulas.specs.Sequents.{goal_names, names_of};
ghost use Rattle.ab_logic.specs.Worlds.{IsWorld, Holds, read};
ghost use Rattle.ab_proofcmd.specs.GivenTerms.{HoldsGiven, values_in};
ghost use Rattle.ab_proofcmd.specs.GoalScopes.{HaveSame, IsScopeOf, AddsSupport};

use ab_infer::scopes::Scope;
use ab_logic::{Sequent, World};
use ab_norm::store::TermId;
use ab_norm::{Nominal, support};
use ab_uses::GivenTerm;
use std::alloc::{AllocError, Global};

/// Puts the nominal constants of the formula behind the others.
fn add_support(
    alloc: Global,
    world: &World,
    formula: TermId,
    found: &mut Vec<Nominal>,
) -> Result<(), AllocError>
    requires world { IsWorld world.now }
    requires formula { Holds world.now formula }
    ensures adds { OnOk result (AddsSupport world.now (read world.now formula) found.old.items found.new.items) }
{
    let names = support(alloc, &world.types, &world.store, formula)?;
    found.extend_from_slice(&names)
}

/// The nominal constants of the goal, those of one formula behind those of another.
fn constants_of(alloc: Global, world: &World, goal: &Sequent) -> Result<Vec<Nominal>, AllocError>
    requires world { IsWorld world.now }
    requires held { HoldsSequent world.now goal.now }
    ensures same { IfOk result (λ found. HaveSame (goal_names (sequent_of world.now goal.now)) (map (nominal_of world.now.types) found.items)) }
    ensures held { IfOk result (λ found. All (HoldsNominal world.now.types) found.items) }
{
    let mut found = Vec::new(alloc);
    add_support(alloc, world, goal.conclusion, &mut found)?;
    for h in goal.hypotheses.as_slice() {
        add_support(alloc, world, h.formula, &mut found)?;
    }
    Ok(found)
}

/// The nominal constants of the goal, and those of the terms that are given behind them.
fn constants_beside(
    alloc: Global,
    world: &World,
    goal: &Sequent,
    given: &[GivenTerm],
) -> Result<Vec<Nominal>, AllocError>
    requires world { IsWorld world.now }
    requires held { HoldsSequent world.now goal.now }
    requires given { All (HoldsGiven world.now) given.now }
    ensures same { IfOk result (λ found. HaveSame (goal_names (sequent_of world.now goal.now) ++ names_of (values_in world.now given.now)) (map (nominal_of world.now.types) found.items)) }
    ensures held { IfOk result (λ found. All (HoldsNominal world.now.types) found.items) }
{
    let mut found = constants_of(alloc, world, goal)?;
    for term in given {
        add_support(alloc, world, term.value, &mut found)?;
    }
    Ok(found)
}

/// The scope in which the expressions of a proof command are read, where these terms were given before.
pub(crate) fn scope_of(
    alloc: Global,
    world: &World,
    goal: &Sequent,
    given: &[GivenTerm],
) -> Result<Scope, AllocError>
    requires world { IsWorld world.now }
    requires held { HoldsSequent world.now goal.now }
    requires given { All (HoldsGiven world.now) given.now }
    ensures { IfOk result (IsScopeOf world.now goal.now (goal_names (sequent_of world.now goal.now) ++ names_of (values_in world.now given.now))) }
{
    let nominals = constants_beside(alloc, world, goal, given)?;
    let variables = goal.variables.copy(alloc)?.into_vec();
    Ok(Scope {
        variables,
        nominals,
        in_proof: true,
    })
}
