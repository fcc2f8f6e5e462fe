//! At which types constants of some numbers stand.
ghost use Rattle.std.specs.Prelude.{ℕ, List, [], ◌∷◌, ◌++◌, ◌↔◌, ◌≡◌, Contains, IfOk, IsTrue};
ghost use Rattle.ab_term.specs.Names.{support};
ghost use Rattle.ab_norm.specs.ab_types.specs.Entries.{Table};
ghost use Rattle.ab_norm.specs.ab_types.specs.Ids.{HoldsType};
ghost use Rattle.ab_norm.specs.ab_types.specs.Sound.{IsTable};
ghost use Rattle.ab_norm.specs.Nominals.{nominal_of, HoldsNominal};
ghost use Rattle.ab_logic.specs.SequentReadings.{sequent_of, HoldsSequent};
ghost use Rattle.ab_formulas.specs.Sequents.{goal_names};
ghost use Rattle.ab_logic.specs.Worlds.{IsWorld, Holds, read};
ghost use Rattle.ab_term.specs.Terms as tree;
ghost use Rattle.ab_sequents.specs.NameTypes.{IsStanding, IsCommon};
ghost use Rattle.ab_sequents.specs.declared.name_types.Standing.TheVariants.{At};

use crate::cycles::are_different;
use ab_logic::{Sequent, World};
use ab_norm::store::TermId;
use ab_norm::types::laws::has_unique_ids;
use ab_norm::types::{TypeId, TypeTable};
use ab_norm::{Nominal, support};
use std::alloc::{AllocError, Global};

/// At which types constants of some numbers stand.
#[derive(Clone, Copy)]
pub enum Standing {
    /// At none: no constant has one of the numbers.
    Nowhere,
    /// At this one alone.
    At(TypeId),
    /// At two or more.
    Mixed,
}

/// Whether the number is one of these.
fn is_among(number: u128, numbers: &[u32]) -> bool
    ensures { IsTrue result ↔ Contains numbers.now number }
{
    for one in numbers {
        if u128::from(*one) == number {
            return true;
        }
    }
    false
}

/// At which type one constant stands, if it has one of the numbers.
fn standing_of(constant: Nominal, numbers: &[u32]) -> Standing
    ensures { (types : Table) → HoldsNominal types constant →
        IsStanding types numbers.now (nominal_of types constant ∷ []) result }
{
    if is_among(constant.number, numbers) {
        Standing::At(constant.ty)
    } else {
        Standing::Nowhere
    }
}

/// At which types constants stand that stand among the first or among the second.
fn join_types(types: &TypeTable, first: Standing, second: Standing) -> Standing
    ensures { (ns : List ℕ) (cs ds : List tree.Nominal) → IsStanding types.now ns cs first → IsStanding types.now ns ds second →
        IsStanding types.now ns (cs ++ ds) result }
{
    match first {
        Standing::Nowhere => second,
        Standing::Mixed => Standing::Mixed,
        Standing::At(one) => joined_to_one(types, one, second),
    }
}

/// Whether the two types are one.
fn are_same(one: TypeId, other: TypeId) -> bool
    ensures { IsTrue result ↔ (one ≡ other) }
{
    one == other
}

/// The same, where the first stand at one type.
fn joined_to_one(types: &TypeTable, one: TypeId, second: Standing) -> Standing
    ensures { (ns : List ℕ) (cs ds : List tree.Nominal) → IsStanding types.now ns cs (At one) → IsStanding types.now ns ds second →
        IsStanding types.now ns (cs ++ ds) result }
{
    has_unique_ids(types);
    match second {
        Standing::Nowhere => Standing::At(one),
        Standing::Mixed => Standing::Mixed,
        Standing::At(other) => {
            if are_same(one, other) {
                Standing::At(one)
            } else {
                Standing::Mixed
            }
        }
    }
}

/// At which types constants of the numbers stand in the formula.
fn standing_under(
    alloc: Global,
    world: &World,
    formula: TermId,
    numbers: &[u32],
) -> Result<Standing, AllocError>
    requires world { IsWorld world.now }
    requires formula { Holds world.now formula }
    ensures { IfOk result (IsStanding world.now.types numbers.now (support (read world.now formula))) }
{
    let constants = support(alloc, &world.types, &world.store, formula)?;
    let mut standing = Standing::Nowhere;
    for constant in &constants {
        let one = standing_of(*constant, numbers);
        standing = join_types(&world.types, standing, one);
    }
    Ok(standing)
}

/// At which types constants of the numbers stand in the goal.
fn standing_in(
    alloc: Global,
    world: &World,
    goal: &Sequent,
    numbers: &[u32],
) -> Result<Standing, AllocError>
    requires world { IsWorld world.now }
    requires goal { HoldsSequent world.now goal.now }
    ensures { IfOk result (IsStanding world.now.types numbers.now (goal_names (sequent_of world.now goal.now))) }
{
    let mut standing = standing_under(alloc, world, goal.conclusion, numbers)?;
    for h in goal.hypotheses.as_slice() {
        let one = standing_under(alloc, world, h.formula, numbers)?;
        standing = join_types(&world.types, standing, one);
    }
    Ok(standing)
}

/// At which type constants of the numbers stand in the goal, where they may change places. `Mixed`: they may not, since a
/// number is given twice, or they stand at two types.
pub fn common_type(
    alloc: Global,
    world: &World,
    goal: &Sequent,
    numbers: &[u32],
) -> Result<Standing, AllocError>
    requires world { IsWorld world.now }
    requires goal { HoldsSequent world.now goal.now }
    ensures { IfOk result (IsCommon world.now.types numbers.now (goal_names (sequent_of world.now goal.now))) }
{
    if are_different(numbers) {
        standing_in(alloc, world, goal, numbers)
    } else {
        Ok(Standing::Mixed)
    }
}
