//! A conclusion is unfolded by the way of a place.
ghost use Rattle.std.specs.Prelude.{◌≡◌, ◌≤◌, ℕ, slice_get, Ok, Some, None};
ghost use Rattle.ab_unify.specs.Problem.{cells_read};
ghost use Rattle.ab_alternatives.specs.ab_equations.specs.declared.cases.CaseSolution.TheVariants.{Unified, Apart, Stuck};
ghost use Rattle.ab_formulas.specs.Sequents.{IsSequent};
ghost use Rattle.ab_logic.specs.WorldGrowth.{Grows};
ghost use Rattle.ab_logic.specs.Worlds.{IsWorld, declarations_of};
ghost use Rattle.ab_logic.specs.SequentReadings.{HoldsSequent, sequent_of};
ghost use Rattle.ab_logic.specs.declared.sequent.Sequent.{Sequent as AGoal};
ghost use Rattle.ab_theory.specs.Splits.{NeverArises, IsOpen};
ghost use Rattle.ab_theory.specs.Subjects.{Subject as APlainSubject, Way as AWay, ways_of};
ghost use Rattle.ab_judgements.specs.SubjectReadings.{subject_read, HoldsSubject, HasRules};
ghost use Rattle.ab_judgements.specs.SubjectAnswers.{IsConcluded, IsUnfoldedBy};

use crate::rule_unfoldings::unfold_judgement_at;
use crate::subjects::Subject;
use ab_alternatives::equations::CaseSolution;
use ab_alternatives::unfold_at;
use ab_logic::{Sequent, World};
use ab_norm::types::Steps;
use std::alloc::{AllocError, Global};

/// The goal with its conclusion unfolded in the way of this place, counted from 0, if there are so many. The subject is the
/// conclusion's. No cell is bound.
pub fn unfold_subject_at<L>(
    alloc: Global,
    world: &mut World,
    subject: &Subject,
    goal: &Sequent,
    place: usize,
    steps: &mut Steps<L>,
) -> Result<Option<CaseSolution>, AllocError>
    requires world { IsWorld world.old }
    requires goal { HoldsSequent world.old goal.now }
    requires sequent { IsSequent (declarations_of world.old) (sequent_of world.old goal.now) }
    requires subject { HoldsSubject world.old subject.now }
    requires rules { HasRules world.old subject.now }
    requires conclusion { IsConcluded world.old goal.now subject.now }
    ensures none { (x : APlainSubject) → subject_read world.old subject.now ≡ Some x → result ≡ Ok None →
        slice_get (ways_of (sequent_of world.old goal.now) x) place ≡ None }
    ensures unified { (x : APlainSubject) (g : AGoal) → subject_read world.old subject.now ≡ Some x → result ≡ Ok (Some (Unified g)) →
        (y : AWay) × (slice_get (ways_of (sequent_of world.old goal.now) x) place ≡ Some y)
        × IsUnfoldedBy (cells_read world.old.types world.old.store) (sequent_of world.old goal.now) y (sequent_of world.new g) }
    ensures held { (g : AGoal) → result ≡ Ok (Some (Unified g)) → HoldsSequent world.new g }
    ensures apart { (x : APlainSubject) → subject_read world.old subject.now ≡ Some x → result ≡ Ok (Some Apart) →
        (y : AWay) × (slice_get (ways_of (sequent_of world.old goal.now) x) place ≡ Some y) × NeverArises (y.case (cells_read world.old.types world.old.store)) }
    ensures stuck { (x : APlainSubject) (i : ℕ) → subject_read world.old subject.now ≡ Some x → result ≡ Ok (Some (Stuck i)) →
        (y : AWay) × (slice_get (ways_of (sequent_of world.old goal.now) x) place ≡ Some y) × IsOpen (y.case (cells_read world.old.types world.old.store)) i }
    ensures grows { Grows world.old world.new }
    ensures declared { declarations_of world.new ≡ declarations_of world.old }
    ensures steps { steps.old ≤ steps.new }
{
    match subject {
        Subject::Atom(atom) => unfold_at(alloc, world, atom, goal, place, steps),
        Subject::Judgement(judgement) => {
            unfold_judgement_at(alloc, world, judgement, goal, place, steps)
        }
    }
}
