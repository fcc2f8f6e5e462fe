//! The way by a hypothesis and a map of its constants.
ghost use Rattle.std.specs.Prelude.{◌≡◌, ◌≢◌, ◌≤◌, ◌∷◌, [], map, All, AllPairs, IfOk};
ghost use Rattle.ab_term.specs.Names.{permute, support};
ghost use Rattle.ab_unifiers.specs.Choices.{in_order};
ghost use Rattle.ab_norm.specs.Nominals.{HoldsNominal};
ghost use Rattle.ab_formulas.specs.Marks.{erased};
ghost use Rattle.ab_instances.specs.ListReadings.{names_read};
ghost use Rattle.ab_logic.specs.WorldGrowth.{Grows};
ghost use Rattle.ab_logic.specs.Worlds.{IsWorld, read, declarations_of};
ghost use Rattle.ab_search_trees.specs.Maps.{mapping};
ghost use Rattle.ab_search_trees.specs.Ways.{equating};
ghost use Rattle.ab_search_ways.specs.GoalReadings.{HoldsGoal, IsFormulaIn};
ghost use Rattle.ab_search_ways.specs.MadeWays.{MakesWay};

use crate::goal::Goal;
use crate::hypothesis_sides::sides;
use crate::way::Way;
use ab_logic::World;
use ab_norm::Nominal;
use ab_norm::store::{CellId, TermId};
use ab_norm::types::Steps;
use ab_sequents::marks_serve_in;
use std::alloc::{AllocError, Global};

/// The way by the hypothesis and the map that sends its constants, which are these in order, to the targets: it is made equal to
/// the conclusion, past marks, and its marks are to serve.
pub fn way_by_hypothesis<L>(
    alloc: Global,
    world: &mut World,
    flexible: &[CellId],
    goal: &Goal,
    hypothesis: TermId,
    names: &[Nominal],
    targets: &[Nominal],
    steps: &mut Steps<L>,
) -> Result<Way, AllocError>
    requires world { IsWorld world.old }
    requires goal { HoldsGoal world.old goal.now }
    requires conclusion { IsFormulaIn world.old goal.now.conclusion }
    requires hypothesis { IsFormulaIn world.old hypothesis }
    requires all { names_read world.old.types names.now ≡ in_order (support (read world.old hypothesis)) }
    requires names { All (HoldsNominal world.old.types) names.now }
    requires targets { All (HoldsNominal world.old.types) targets.now }
    requires different { AllPairs (λ a b. a ≢ b) (names_read world.old.types targets.now) }
    requires types { map (λ a. a.type) (names_read world.old.types targets.now) ≡ map (λ b. b.type) (names_read world.old.types names.now) }
    ensures made { IfOk result (MakesWay world.old flexible.now goal.now
        (λ now g. let B = read world.old hypothesis in equating (declarations_of world.old) now g
        (permute (mapping (in_order (support B)) (names_read world.old.types targets.now)) (erased B)) (erased g.conclusion) ((g.conclusion, B) ∷ [])) world.new) }
    ensures grows { Grows world.old world.new }
    ensures declared { declarations_of world.new ≡ declarations_of world.old }
    ensures steps { steps.old ≤ steps.new }
{
    let serves = marks_serve_in(world, goal.conclusion, hypothesis);
    let equation = sides(
        alloc,
        &world.types,
        &mut world.store,
        hypothesis,
        names,
        targets,
        goal.conclusion,
        steps,
    )?;
    Ok(Way {
        flexible: Vec::from_slice(alloc, flexible)?,
        equations: Vec::from_array(alloc, [equation])?,
        serves,
        goals: Vec::new(alloc),
    })
}
