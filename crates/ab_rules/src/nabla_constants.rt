//! The nominal constant that is put for the name of a `nabla`.
ghost use Rattle.std.specs.Prelude.{◌≡◌, ◌≢◌, ◌↔◌, ◌⊎◌, ℕ, ◌≤◌, IfOk, OnOk, IsTrue, true, false, Contains, [], length};
ghost use Rattle.ab_term.specs.Terms as tree;
ghost use Rattle.ab_term.specs.Names.{support};
ghost use Rattle.ab_term.specs.Substitution.{instance};
ghost use Rattle.ab_norm.specs.ab_types.specs.Ids.{HoldsType, type_of};
ghost use Rattle.ab_norm.specs.ab_types.specs.Sound.{IsTable};
ghost use Rattle.ab_norm.specs.Nominals.{nominal_of, HoldsNominal};
ghost use Rattle.ab_logic.specs.Worlds.{IsWorld, Holds, read};
ghost use Rattle.ab_logic.specs.SequentReadings.{sequent_of, HoldsSequent};
ghost use Rattle.ab_formulas.specs.Sequents.{goal_names};
ghost use Rattle.ab_formulas.specs.NewNames.{IsLeast};
ghost use Rattle.ab_theory.specs.Rules.{MayName, name_term};
ghost use Rattle.ab_rules.specs.UsedNumbers.{Gains, Excluded, Blocked, IsAbsent};
ghost use Rattle.ab_rules.specs.Terms.{Adds};

use crate::questions::support_in;
use crate::rule_terms::{instance_of, name_term};
use ab_logic::{Sequent, World};
use ab_norm::Nominal;
use ab_norm::store::TermId;
use ab_norm::types::{Steps, TypeId};
use std::alloc::{AllocError, Global};

/// Whether the constant's number is not to be used.
fn counts(name: Nominal, ty: TypeId, all: bool) -> bool
    ensures { IsTrue result ↔ (IsTrue all ⊎ (name.ty ≢ ty)) }
{
    if all { true } else { name.ty != ty }
}

/// Notes the constant's number, where it is not to be used.
fn note(name: Nominal, ty: TypeId, all: bool, numbers: &mut Vec<u128>) -> Result<(), AllocError>
    ensures { OnOk result (Gains numbers.old.items numbers.new.items (λ n. (name.number ≡ n) × (IsTrue all ⊎ (name.ty ≢ ty)))) }
{
    if counts(name, ty, all) {
        numbers.push(name.number)?;
    }
    Ok(())
}

/// Notes the numbers of the constants: of all, or of those at another type.
fn exclude(
    names: &[Nominal],
    ty: TypeId,
    all: bool,
    numbers: &mut Vec<u128>,
) -> Result<(), AllocError>
    ensures { OnOk result (Gains numbers.old.items numbers.new.items (Excluded all ty names.now)) }
{
    for name in names {
        note(*name, ty, all, numbers)?;
    }
    Ok(())
}

/// Notes the numbers of the formula's constants: of all, or of those at another type.
fn exclude_in(
    alloc: Global,
    world: &World,
    formula: TermId,
    ty: TypeId,
    all: bool,
    numbers: &mut Vec<u128>,
) -> Result<(), AllocError>
    requires world { IsWorld world.now }
    requires formula { Holds world.now formula }
    requires ty { HoldsType world.now.types ty }
    ensures { OnOk result (Gains numbers.old.items numbers.new.items
        (Blocked all (type_of world.now.types ty) (support (read world.now formula)))) }
{
    // no two ids of a table stand for one type
    let _ = world.types.len();
    let names = support_in(alloc, world, formula)?;
    exclude(&names, ty, all, numbers)?;
    Ok(())
}

/// The numbers that are not to be used for a `nabla` name of the type in the formula, which is one of the goal.
fn excluded_numbers(
    alloc: Global,
    world: &World,
    sequent: &Sequent,
    formula: TermId,
    ty: TypeId,
) -> Result<Vec<u128>, AllocError>
    requires world { IsWorld world.now }
    requires sequent { HoldsSequent world.now sequent.now }
    requires formula { Holds world.now formula }
    requires ty { HoldsType world.now.types ty }
    ensures { IfOk result (λ v. Gains [] v.items (λ n.
        Blocked true (type_of world.now.types ty) (support (read world.now formula)) n
        ⊎ Blocked false (type_of world.now.types ty) (goal_names (sequent_of world.now sequent.now)) n)) }
{
    let mut numbers = Vec::new(alloc);
    exclude_in(alloc, world, formula, ty, true, &mut numbers)?;
    exclude_in(alloc, world, sequent.conclusion, ty, false, &mut numbers)?;
    for h in sequent.hypotheses.as_slice() {
        exclude_in(alloc, world, h.formula, ty, false, &mut numbers)?;
    }
    Ok(numbers)
}

/// Whether the number is one of these.
fn has(numbers: &[u128], number: u128) -> bool
    ensures { IsTrue result ↔ Contains numbers.now number }
{
    numbers.contains(&number)
}

/// The least number from 1 on that is none of these.
fn least_absent(numbers: &[u128]) -> u128
    ensures { IsLeast (IsAbsent numbers.now) result }
{
    let mut number = 1;
    while has(numbers, number) {
        number += 1;
    }
    number
}

/// The least number that may be used for a `nabla` name of the type in the formula, which is one of the goal.
pub(crate) fn least_name(
    alloc: Global,
    world: &World,
    sequent: &Sequent,
    formula: TermId,
    ty: TypeId,
) -> Result<u128, AllocError>
    requires world { IsWorld world.now }
    requires sequent { HoldsSequent world.now sequent.now }
    requires formula { Holds world.now formula }
    requires ty { HoldsType world.now.types ty }
    requires among { (a : tree.Nominal) → Contains (support (read world.now formula)) a → Contains (goal_names (sequent_of world.now sequent.now)) a }
    ensures { IfOk result (IsLeast (MayName (sequent_of world.now sequent.now) (read world.now formula) (type_of world.now.types ty))) }
{
    let numbers = excluded_numbers(alloc, world, sequent, formula, ty)?;
    Ok(least_absent(&numbers))
}

/// The body of a `nabla` with the nominal constant.
pub(crate) fn with_name<L>(
    alloc: Global,
    world: &mut World,
    body: TermId,
    name: Nominal,
    steps: &mut Steps<L>,
) -> Result<TermId, AllocError>
    requires world { IsWorld world.old }
    requires body { Holds world.old body }
    requires name { HoldsNominal world.old.types name }
    ensures adds { Adds world.old world.new }
    ensures held { IfOk result (Holds world.new) }
    ensures reads { IfOk result (λ t. read world.new t ≡ instance (read world.old body) (name_term (nominal_of world.old.types name))) }
    ensures steps { steps.old ≤ steps.new }
{
    let constant = name_term(alloc, world, name)?;
    instance_of(alloc, world, body, &[constant], steps)
}
