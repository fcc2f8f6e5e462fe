//! A goal is split by a subject of it.
ghost use Rattle.std.specs.Prelude.{◌≡◌, ◌≤◌, ℕ, Ok, Some, map, All};
ghost use Rattle.std.proofs.Common.{Vec as AVec, Global as AllocGlobal};
ghost use Rattle.ab_unify.specs.Problem.{cells_read};
ghost use Rattle.ab_formulas.specs.Declarations.{signature_in};
ghost use Rattle.ab_formulas.specs.Formulas.{IsFormula};
ghost use Rattle.ab_formulas.specs.NewNames.{IsNamedFor};
ghost use Rattle.ab_formulas.specs.Sequents.{IsSequent, formulas_of};
ghost use Rattle.ab_logic.specs.WorldGrowth.{Grows};
ghost use Rattle.ab_logic.specs.Worlds.{IsWorld, declarations_of};
ghost use Rattle.ab_logic.specs.SequentReadings.{HoldsSequent, sequent_of};
ghost use Rattle.ab_logic.specs.declared.sequent.Sequent.{Sequent as AGoal};
ghost use Rattle.ab_theory.specs.Splits.{Split, IsUnsplit};
ghost use Rattle.ab_theory.specs.Subjects.{Subject as APlainSubject, cases_by};
ghost use Rattle.ab_alternatives.specs.declared.all_cases.Splitting.TheVariants.{Goals, Stuck};
ghost use Rattle.ab_judgements.specs.SubjectReadings.{subject_read, HoldsSubject, HasRules};
ghost use Rattle.ab_judgements.specs.SubjectAnswers.{IsSubjectIn};

use crate::rule_cases::split_judgement;
use crate::subjects::Subject;
use ab_alternatives::{Splitting, split};
use ab_logic::{Sequent, World};
use ab_norm::name::Name;
use ab_norm::types::Steps;
use std::alloc::{AllocError, Global};

/// The goal, split into its cases by the subject, which is that of one of its formulas. `rest` is what stays of the goal; in
/// each case what holds there is assumed under the name. Cells are bound meanwhile, and none is in the end.
pub fn split_subject<L>(
    alloc: Global,
    world: &mut World,
    subject: &Subject,
    goal: &Sequent,
    rest: &Sequent,
    name: &Name,
    steps: &mut Steps<L>,
) -> Result<Splitting, AllocError>
    requires world { IsWorld world.old }
    requires goal { HoldsSequent world.old goal.now }
    requires sequent { IsSequent (declarations_of world.old) (sequent_of world.old goal.now) }
    requires rest { HoldsSequent world.old rest.now }
    requires formulas { All (IsFormula (signature_in (declarations_of world.old))) (formulas_of (sequent_of world.old rest.now)) }
    requires same { (sequent_of world.old rest.now).variables ≡ (sequent_of world.old goal.now).variables }
    requires subject { HoldsSubject world.old subject.now }
    requires rules { HasRules world.old subject.now }
    requires of_goal { IsSubjectIn world.old goal.now subject.now }
    ensures goals { (x : APlainSubject) (gs : AVec AGoal AllocGlobal) → subject_read world.old subject.now ≡ Some x → result ≡ Ok (Goals gs) →
        Split (IsNamedFor (declarations_of world.old)) (cells_read world.old.types world.old.store)
        (cases_by (sequent_of world.old goal.now) (sequent_of world.old rest.now) name.now x) (map (sequent_of world.new) gs.items) }
    ensures held { (gs : AVec AGoal AllocGlobal) → result ≡ Ok (Goals gs) → All (HoldsSequent world.new) gs.items }
    ensures stuck { (x : APlainSubject) (i : ℕ) → subject_read world.old subject.now ≡ Some x → result ≡ Ok (Stuck i) →
        IsUnsplit (IsNamedFor (declarations_of world.old)) (cells_read world.old.types world.old.store)
        (cases_by (sequent_of world.old goal.now) (sequent_of world.old rest.now) name.now x) i }
    ensures grows { Grows world.old world.new }
    ensures declared { declarations_of world.new ≡ declarations_of world.old }
    ensures steps { steps.old ≤ steps.new }
{
    match subject {
        Subject::Atom(atom) => split(alloc, world, atom, goal, rest, name, steps),
        Subject::Judgement(judgement) => {
            split_judgement(alloc, world, judgement, goal, rest, name, steps)
        }
    }
}
