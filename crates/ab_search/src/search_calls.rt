//! Search: a goal is searched by its tree, and an answer is carried out.
ghost use Rattle.std.specs.Prelude.{◌≡◌, ◌≢◌, ◌≤◌, ℕ, [], Err, OnOk, OnErr};
ghost use Rattle.ab_logic.specs.Worlds.{IsWorld};
ghost use Rattle.ab_steps.specs.ab_kernel.specs.Layout.{history_of, IsProof, goals_of};
ghost use Rattle.ab_steps.specs.Progress.{Follows};
ghost use Rattle.ab_search_paths.specs.Frames.{HoldsPath};
ghost use Rattle.ab_search.specs.GoalCounts.{FirstGaveWay};
ghost use Rattle.ab_search.specs.Searched.{IsClosed, IsNotFound, IsOutside, MissesNone};

use crate::carried_paths::carry_out;
use crate::fault::SearchFault;
use ab_logic::World;
use ab_norm::types::Steps;
use ab_search_paths::final_path;
use ab_search_paths::walk::{Frame, Told, search as walk};
use ab_steps::kernel::Proof;
use ab_steps::{first_goal, take_back};
use std::alloc::{AllocError, Global};

/// Closes the first goal by the path.
fn close<L>(
    alloc: Global,
    world: &mut World,
    proof: &mut Proof,
    path: &[Frame],
    steps: &mut Steps<L>,
) -> Result<(), AllocError>
    requires world { IsWorld world.old }
    requires proof { IsProof world.old proof.old }
    requires path { HoldsPath world.old.types world.old.store path.now }
    ensures follows { Follows world.old proof.old world.new proof.new }
    ensures gave_way { OnOk result (FirstGaveWay world.old proof.old world.new proof.new 1 0) }
    ensures unchanged { OnErr result (history_of world.new proof.new ≡ history_of world.old proof.old) }
    ensures steps { steps.old ≤ steps.new }
{
    let entries = final_path(alloc, world, path, steps)?;
    let standing = proof.steps();
    match carry_out(alloc, world, proof, &entries, steps) {
        Ok(()) => Ok(()),
        Err(fault) => {
            take_back(world, proof, standing, steps);
            Err(fault)
        }
    }
}

/// Closes the first goal, where the search of it to the depth has an answer. A search that has none changes nothing.
pub fn search<L>(
    alloc: Global,
    world: &mut World,
    proof: &mut Proof,
    depth: u32,
    steps: &mut Steps<L>,
) -> Result<(), SearchFault>
    requires world { IsWorld world.old }
    requires proof { IsProof world.old proof.old }
    requires open { goals_of world.old proof.old ≢ [] }
    ensures follows { Follows world.old proof.old world.new proof.new }
    ensures closed { OnOk result (IsClosed world.old proof.old depth world.new proof.new) }
    ensures not_found { result ≡ Err SearchFault.NotFound → IsNotFound world.old proof.old depth }
    ensures complete { result ≡ Err SearchFault.NotFound → MissesNone world.old proof.old depth }
    ensures not_pattern { (n : ℕ) → result ≡ Err (SearchFault.NotPattern n) → IsOutside world.old proof.old depth n }
    ensures unchanged { OnErr result (history_of world.new proof.new ≡ history_of world.old proof.old) }
    ensures steps { steps.old ≤ steps.new }
{
    let mut path = Vec::new(alloc);
    let goal = first_goal(world, proof);
    match walk(alloc, world, goal, depth as usize, &mut path, steps)? {
        Told::Not(Some(place), _) => match place.checked_add(1) {
            Some(number) => Err(SearchFault::NotPattern(number)),
            None => Err(SearchFault::Memory(AllocError)),
        },
        Told::Not(None, _) => Err(SearchFault::NotFound),
        Told::Found => {
            close(alloc, world, proof, &path, steps)?;
            Ok(())
        }
    }
}
