//! The alternatives of whatever a formula is.
ghost use Rattle.std.specs.Prelude.{◌≡◌, ◌≤◌, Some, None, Err, IfOk};
ghost use Rattle.ab_unify.specs.Problem.{cells_read};
ghost use Rattle.ab_formulas.specs.Declarations.{signature_in};
ghost use Rattle.ab_formulas.specs.Formulas.{IsFormula};
ghost use Rattle.ab_formulas.specs.Sequents.{IsSequent};
ghost use Rattle.ab_logic.specs.SequentReadings.{HoldsSequent, sequent_of};
ghost use Rattle.ab_logic.specs.WorldGrowth.{Grows};
ghost use Rattle.ab_logic.specs.Worlds.{IsWorld, Holds, read, declarations_of};
ghost use Rattle.ab_theory.specs.Subjects as plain;
ghost use Rattle.ab_judgements.specs.SubjectReadings.{subject_read, HoldsSubject, HasRules};
ghost use Rattle.ab_analyses.specs.Alternatives.{alternatives_of, side_of};
ghost use Rattle.ab_analyses.specs.AlternativeReadings.{AreMade};

use crate::answers::{Alternative, AtomFault};
use crate::atoms::atom_alternatives;
use crate::judgements::judgement_alternatives;
use ab_judgements::{Subject, subject_of};
use ab_logic::{Sequent, World};
use ab_norm::store::TermId;
use ab_norm::types::Steps;
use std::alloc::{AllocError, Global};

/// The alternatives of the subject, which is that of the formula.
fn subject_alternatives<L>(
    alloc: Global,
    world: &mut World,
    goal: &Sequent,
    formula: TermId,
    subject: Subject,
    on_left: bool,
    steps: &mut Steps<L>,
) -> Result<Vec<Alternative>, AllocError>
    requires world { IsWorld world.old }
    requires goal { HoldsSequent world.old goal.now }
    requires sequent { IsSequent (declarations_of world.old) (sequent_of world.old goal.now) }
    requires formula { IsFormula (signature_in (declarations_of world.old)) (read world.old formula) }
    requires subject { HoldsSubject world.old subject }
    requires rules { HasRules world.old subject }
    requires of_formula { subject_read world.old subject ≡ plain.subject_of (declarations_of world.old) (read world.old formula) }
    ensures list { IfOk result (λ list. (x : plain.Subject) × (plain.subject_of (declarations_of world.old) (read world.old formula) ≡ Some x)
        × AreMade world.new list.items (alternatives_of (side_of on_left) (sequent_of world.old goal.now) x) (cells_read world.old.types world.old.store)) }
    ensures grows { Grows world.old world.new }
    ensures declared { declarations_of world.new ≡ declarations_of world.old }
    ensures steps { steps.old ≤ steps.new }
{
    let _ = formula;
    match subject {
        Subject::Atom(atom) => atom_alternatives(alloc, world, goal, atom, on_left, steps),
        Subject::Judgement(judgement) => { judgement_alternatives(alloc, world, &judgement, steps) }
    }
}

/// The alternatives in the goal of the defined atom or the judgement that the formula is, in order: an atom has one for each clause of
/// its predicate and each choice of constants for the clause's names, a judgement one for each rule by which it may hold. On the
/// left the goal's variables are raised over new constants, on the right they stay. There are none, and the answer is `NoAtom`,
/// exactly where the formula is no defined atom and no judgement, or a judgement whose goal, or an atom of whose formula in focus, isn't
/// determined. No cell is bound.
pub fn alternatives<L>(
    alloc: Global,
    world: &mut World,
    goal: &Sequent,
    formula: TermId,
    on_left: bool,
    steps: &mut Steps<L>,
) -> Result<Vec<Alternative>, AtomFault>
    requires world { IsWorld world.old }
    requires goal { HoldsSequent world.old goal.now }
    requires sequent { IsSequent (declarations_of world.old) (sequent_of world.old goal.now) }
    requires there { Holds world.old formula }
    requires formula { IsFormula (signature_in (declarations_of world.old)) (read world.old formula) }
    ensures list { IfOk result (λ list. (x : plain.Subject) × (plain.subject_of (declarations_of world.old) (read world.old formula) ≡ Some x)
        × AreMade world.new list.items (alternatives_of (side_of on_left) (sequent_of world.old goal.now) x) (cells_read world.old.types world.old.store)) }
    ensures no_atom { result ≡ Err AtomFault.NoAtom → plain.subject_of (declarations_of world.old) (read world.old formula) ≡ None }
    ensures grows { Grows world.old world.new }
    ensures declared { declarations_of world.new ≡ declarations_of world.old }
    ensures steps { steps.old ≤ steps.new }
{
    let Some(subject) = subject_of(alloc, world, formula)? else {
        return Err(AtomFault::NoAtom);
    };
    let list = subject_alternatives(alloc, world, goal, formula, subject, on_left, steps)?;
    Ok(list)
}
