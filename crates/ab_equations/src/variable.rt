//! Names for new variables.
ghost use Rattle.std.specs.Prelude.{◌≡◌, ℕ, ◌+◌, ◌<◌, ◌≤◌, ◌++◌, ◌↔◌, ◌⊎◌, ◌^◌, IfOk, IsTrue, IsFalse, map, Contains, length};
ghost use Rattle.std.specs.Fmt.{decimal};
ghost use Rattle.ab_formulas.specs.Declarations.{Declarations, constant_names};
ghost use Rattle.ab_formulas.specs.NewNames.{IsFreeName, IsNamedFor, IsNominalName, IsLeast};
ghost use Rattle.ab_logic.specs.Worlds.{CameInOrder, declarations_of};
ghost use Rattle.ab_logic.specs.SequentReadings.{sequent_of, HoldsSequent};
ghost use Rattle.ab_formulas.specs.FreeStems.{variable_names, taken_names, IsNumberFree, EndsInNoDigit, MayBeFrom};
ghost use Rattle.ab_formulas.specs.Sequents.{Sequent as ASequent};

use crate::nominal::is_nominal_name;
use crate::stem::stem;
use ab_logic::{Sequent, World};
use ab_norm::name::Name;
use std::alloc::{AllocError, Global};

/// Whether a variable of the goal has the name.
fn is_variable(world: &World, sequent: &Sequent, name: &Name) -> bool
    requires { HoldsSequent world.now sequent.now }
    ensures { IsTrue result ↔ Contains (variable_names (sequent_of world.now sequent.now)) name.now }
{
    for cell in sequent.variables.as_slice() {
        if *world.store.cell_name(*cell) == *name {
            return true;
        }
    }
    false
}

/// Whether a constant is declared under the name.
fn is_constant(world: &World, name: &Name) -> bool
    requires { CameInOrder world.now.types 0 world.now.additions }
    ensures { IsTrue result ↔ Contains (constant_names (declarations_of world.now)) name.now }
{
    world.types.look(name).is_some()
}

/// Whether a new variable of the goal may have the name.
fn is_free(world: &World, sequent: &Sequent, name: &Name) -> bool
    requires order { CameInOrder world.now.types 0 world.now.additions }
    requires held { HoldsSequent world.now sequent.now }
    ensures free { IsTrue result → IsFreeName (declarations_of world.now) (sequent_of world.now sequent.now) name.now }
    ensures taken { IsFalse result → Contains (taken_names (declarations_of world.now) (sequent_of world.now sequent.now)) name.now ⊎ IsNominalName name.now }
{
    if is_variable(world, sequent, name) {
        return false;
    }
    if is_constant(world, name) {
        return false;
    }
    !is_nominal_name(name)
}

/// The stem with the number.
fn numbered_stem(alloc: Global, stem: &Name, number: u128) -> Result<Name, AllocError>
    ensures { IfOk result (λ name. name ≡ stem.now ++ decimal number) }
{
    let text = format!(in alloc; "{}{}", stem.as_str(), number)?;
    Name::from_text(alloc, text.as_str())
}

/// The first number that makes the stem free: those below the first one that is tried don't.
fn first_free(
    alloc: Global,
    world: &World,
    sequent: &Sequent,
    stem: &Name,
    first: u128,
    last: u128,
) -> Result<Name, AllocError>
    requires order { CameInOrder world.now.types 0 world.now.additions }
    requires held { HoldsSequent world.now sequent.now }
    requires start { MayBeFrom (declarations_of world.now) (sequent_of world.now sequent.now) stem.now first }
    requires room { first + length (taken_names (declarations_of world.now) (sequent_of world.now sequent.now)) ≤ last }
    requires small { last < 2 ^ 100 }
    ensures { IfOk result (λ name. (n : ℕ) × IsLeast (IsNumberFree (declarations_of world.now) (sequent_of world.now sequent.now) stem.now) n × (name ≡ stem.now ++ decimal n)) }
{
    for number in first..last + 1 {
        let name = numbered_stem(alloc, stem, number)?;
        if is_free(world, sequent, &name) {
            return Ok(name);
        }
    }
    unreachable!()
}

/// The first number that is tried: behind `n` any number of up to nine digits makes the name of a nominal constant.
fn first_number(stem: &Name) -> u128
    requires { EndsInNoDigit stem.now }
    ensures first { (D : Declarations) (s : ASequent) → MayBeFrom D s stem.now result }
    ensures small { result ≤ 1000000000 }
{
    if stem.as_str() == "n" {
        1_000_000_000
    } else {
        1
    }
}

/// The name of a new variable of the goal that asks for the hint: the hint itself, where it is free, and else its stem
/// with the first number that makes it free.
pub fn variable_name(
    alloc: Global,
    world: &World,
    sequent: &Sequent,
    hint: &Name,
) -> Result<Name, AllocError>
    requires order { CameInOrder world.now.types 0 world.now.additions }
    requires held { HoldsSequent world.now sequent.now }
    ensures { IfOk result (λ name. IsNamedFor (declarations_of world.now) (sequent_of world.now sequent.now) hint.now name) }
{
    if is_free(world, sequent, hint) {
        return hint.copy(alloc);
    }
    let stem = stem(alloc, hint)?;
    let first = first_number(&stem);
    let taken = sequent.variables.as_slice().len() as u128 + world.types.len() as u128;
    first_free(alloc, world, sequent, &stem, first, first + taken)
}
