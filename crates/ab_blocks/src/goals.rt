//! What is printed of the goals of a proof.
ghost use Rattle.std.specs.Prelude.{◌≡◌, ◌++◌, drop, map, OnOk};
ghost use Rattle.ab_logic.specs.Worlds.{IsWorld};
ghost use Rattle.ab_states.specs.ab_kernel.specs.Layout.{IsProof, goals_of};
ghost use Rattle.ab_formulas.specs.NamedGoals.{named};
ghost use Rattle.ab_blocks.specs.Blocks.{others_from, goals_shown};

use ab_logic::World;
use ab_print::{show_goal, show_other};
use ab_states::kernel::Proof;
use std::alloc::{AllocError, Global};

/// Appends the goals behind the current one.
fn write_others(
    alloc: Global,
    world: &World,
    proof: &Proof,
    out: &mut Vec<u8>,
) -> Result<(), AllocError>
    requires world { IsWorld world.now }
    requires proof { IsProof world.now proof.now }
    ensures { OnOk result (out.new.items ≡ out.old.items ++ others_from 2 (drop 1 (map named (goals_of world.now proof.now)))) }
{
    for place in 1..proof.open_goals() {
        let Some(goal) = proof.goal(place) else {
            unreachable!()
        };
        show_other(alloc, world, place + 1, goal.conclusion, out)?;
    }
    Ok(())
}

/// Appends the current goal and, where they are asked for, those behind it.
pub(crate) fn write_goals(
    alloc: Global,
    world: &World,
    proof: &Proof,
    all: bool,
    out: &mut Vec<u8>,
) -> Result<(), AllocError>
    requires world { IsWorld world.now }
    requires proof { IsProof world.now proof.now }
    ensures { OnOk result (out.new.items ≡ out.old.items ++ goals_shown all (map named (goals_of world.now proof.now))) }
{
    match proof.current() {
        None => Ok(()),
        Some(current) => {
            show_goal(alloc, world, current, out)?;
            if all {
                write_others(alloc, world, proof, out)
            } else {
                Ok(())
            }
        }
    }
}
