//! All cases of a goal by one of its atoms.
ghost use Rattle.std.specs.Prelude.{◌≡◌, ◌≤◌, [], ℕ, Ok, map, All, IfOk};
ghost use Rattle.std.proofs.Common.{Vec as AVec, Global as AllocGlobal};
ghost use Rattle.ab_term.specs.Types.{prop};
ghost use Rattle.ab_term.specs.Typing.{HasType};
ghost use Rattle.ab_term.specs.Terms.{constant, spine};
ghost use Rattle.ab_unify.specs.Problem.{cells_read};
ghost use Rattle.ab_formulas.specs.Declarations.{signature_in};
ghost use Rattle.ab_formulas.specs.Formulas.{IsFormula};
ghost use Rattle.ab_logic.specs.WorldGrowth.{Grows};
ghost use Rattle.ab_formulas.specs.NewNames.{IsNamedFor};
ghost use Rattle.ab_formulas.specs.Sequents.{IsSequent, formulas_of};
ghost use Rattle.ab_logic.specs.Worlds.{IsWorld, declarations_of};
ghost use Rattle.ab_logic.specs.SequentReadings.{HoldsSequent, sequent_of};
ghost use Rattle.ab_logic.specs.declared.sequent.Sequent.{Sequent as AGoal};
ghost use Rattle.ab_theory.specs.Splits.{Split, IsUnsplit};
ghost use Rattle.ab_theory.specs.Analysis.{cases_of};
ghost use Rattle.ab_alternatives.specs.AtomReadings.{defined_read, HoldsDefined};
ghost use Rattle.ab_alternatives.specs.declared.all_cases.Splitting.TheVariants.{Goals, Stuck};

use crate::atoms::DefinedAtom;
use crate::clause_cases::try_clause;
use crate::constants::constants_in;
use ab_logic::{Sequent, World};
use ab_norm::name::Name;
use ab_norm::types::Steps;
use std::alloc::{AllocError, Global};

/// What comes of splitting a goal into cases.
#[derive(Drop)]
pub enum Splitting {
    /// The goals, one for each case that arises, in order.
    Goals(Vec<Sequent>),
    /// The equation of this number, counted from 0, is outside the patterns, in the first case that has such an equation.
    Stuck(usize),
}

/// The goal, split into its cases by the atom, which is one of its formulas. `rest` is what stays of the goal; in each case
/// the clause's body is assumed there under the name. Cells are bound meanwhile, and none is in the end.
pub fn split<L>(
    alloc: Global,
    world: &mut World,
    atom: &DefinedAtom,
    goal: &Sequent,
    rest: &Sequent,
    name: &Name,
    steps: &mut Steps<L>,
) -> Result<Splitting, AllocError>
    requires world { IsWorld world.old }
    requires goal { HoldsSequent world.old goal.now }
    requires sequent { IsSequent (declarations_of world.old) (sequent_of world.old goal.now) }
    requires rest { HoldsSequent world.old rest.now }
    requires formulas { All (IsFormula (signature_in (declarations_of world.old))) (formulas_of (sequent_of world.old rest.now)) }
    requires same { (sequent_of world.old rest.now).variables ≡ (sequent_of world.old goal.now).variables }
    requires atom { HoldsDefined world.old atom.now }
    requires typed { HasType (signature_in (declarations_of world.old)) []
        (spine (constant (defined_read world.old atom.now).predicate) (defined_read world.old atom.now).arguments) prop }
    ensures goals { (gs : AVec AGoal AllocGlobal) → result ≡ Ok (Goals gs) → Split (IsNamedFor (declarations_of world.old)) (cells_read world.old.types world.old.store)
        (cases_of (sequent_of world.old goal.now) (sequent_of world.old rest.now) name.now (defined_read world.old atom.now)) (map (sequent_of world.new) gs.items) }
    ensures held { (gs : AVec AGoal AllocGlobal) → result ≡ Ok (Goals gs) → All (HoldsSequent world.new) gs.items }
    ensures stuck { (i : ℕ) → result ≡ Ok (Stuck i) → IsUnsplit (IsNamedFor (declarations_of world.old)) (cells_read world.old.types world.old.store)
        (cases_of (sequent_of world.old goal.now) (sequent_of world.old rest.now) name.now (defined_read world.old atom.now)) i }
    ensures grows { Grows world.old world.new }
    ensures declared { declarations_of world.new ≡ declarations_of world.old }
    ensures steps { steps.old ≤ steps.new }
{
    let constants = constants_in(alloc, world, atom, goal)?;
    let mut goals = Vec::new(alloc);
    for clause in atom.block.clauses.as_slice() {
        if let Some(place) = try_clause(
            alloc, world, atom, &constants, clause, goal, rest, name, &mut goals, steps,
        )? {
            return Ok(Splitting::Stuck(place));
        }
    }
    Ok(Splitting::Goals(goals))
}
