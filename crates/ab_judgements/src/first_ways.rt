//! The first way in which a conclusion unfolds.
ghost use Rattle.std.specs.Prelude.{◌≡◌, ◌≤◌, Some, IfOk};
ghost use Rattle.ab_unify.specs.Problem.{cells_read};
ghost use Rattle.ab_formulas.specs.Sequents.{IsSequent};
ghost use Rattle.ab_logic.specs.WorldGrowth.{Grows};
ghost use Rattle.ab_logic.specs.Worlds.{IsWorld, declarations_of};
ghost use Rattle.ab_logic.specs.SequentReadings.{HoldsSequent, sequent_of};
ghost use Rattle.ab_theory.specs.Subjects.{Subject as APlainSubject};
ghost use Rattle.ab_judgements.specs.SubjectReadings.{subject_read, HoldsSubject, HasRules};
ghost use Rattle.ab_judgements.specs.SubjectAnswers.{IsConcluded, FindsWay};

use crate::rule_matches::first_rule;
use crate::subjects::Subject;
use ab_alternatives::{Found, first_unfolding};
use ab_logic::{Sequent, World};
use ab_norm::types::Steps;
use std::alloc::{AllocError, Global};

/// The first way in which the goal's conclusion may unfold, and whether it does. The subject is the conclusion's. The world's
/// cells are as they were then.
pub fn first_way<L>(
    alloc: Global,
    world: &mut World,
    subject: &Subject,
    goal: &Sequent,
    steps: &mut Steps<L>,
) -> Result<Found, AllocError>
    requires world { IsWorld world.old }
    requires goal { HoldsSequent world.old goal.now }
    requires sequent { IsSequent (declarations_of world.old) (sequent_of world.old goal.now) }
    requires subject { HoldsSubject world.old subject.now }
    requires rules { HasRules world.old subject.now }
    requires conclusion { IsConcluded world.old goal.now subject.now }
    ensures found { IfOk result (λ found. (x : APlainSubject) → subject_read world.old subject.now ≡ Some x →
        FindsWay (cells_read world.old.types world.old.store) (sequent_of world.old goal.now) x found) }
    ensures cells { cells_read world.new.types world.new.store ≡ cells_read world.old.types world.old.store }
    ensures grows { Grows world.old world.new }
    ensures declared { declarations_of world.new ≡ declarations_of world.old }
    ensures steps { steps.old ≤ steps.new }
{
    match subject {
        Subject::Atom(atom) => first_unfolding(alloc, world, atom, goal, steps),
        Subject::Judgement(judgement) => first_rule(alloc, world, judgement, steps),
    }
}
