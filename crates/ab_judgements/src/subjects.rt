//! What may be analysed and unfolded.
ghost use Rattle.std.specs.Prelude.{◌≡◌, IfOk, IfSome};
ghost use Rattle.std.specs.Option.{option_and_then, option_map};
ghost use Rattle.ab_logic.specs.Worlds.{IsWorld, Holds, read, declarations_of};
ghost use Rattle.ab_theory.specs.Subjects as plain;
ghost use Rattle.ab_judgement_forms.specs.JudgementReadings.{judgement_read, HoldsJudgement};
ghost use Rattle.ab_judgements.specs.SubjectReadings.{subject_read, HoldsSubject, HasRules};

use crate::rules::knows_rules;
use ab_alternatives::{DefinedAtom, defined_atom};
use ab_judgement_forms::{Judgement, as_judgement};
use ab_logic::World;
use ab_norm::store::TermId;
use std::alloc::{AllocError, Global};

/// What may be analysed and unfolded.
#[derive(Drop)]
pub enum Subject {
    /// An atom whose predicate is defined.
    Atom(DefinedAtom),
    /// A judgement of which it is known by which rules it may hold.
    Judgement(Judgement),
}

/// The judgement as a subject, if it is known by which rules it may hold.
fn judgement_subject(world: &World, judgement: Option<Judgement>) -> Option<Subject>
    requires { IfSome judgement (HoldsJudgement world.now) }
    ensures reads { option_and_then (subject_read world.now) result
        ≡ plain.with_rules (declarations_of world.now) (option_map (judgement_read world.now) judgement) }
    ensures rules { IfSome result (HasRules world.now) }
    ensures held { IfSome result (HoldsSubject world.now) }
{
    match judgement {
        None => None,
        Some(judgement) => {
            if knows_rules(world, &judgement) {
                Some(Subject::Judgement(judgement))
            } else {
                None
            }
        }
    }
}

/// The subject that the formula is. There is none exactly where the formula is no defined atom and no judgement, or a judgement
/// whose goal, or an atom of whose formula in focus, isn't determined.
pub fn subject_of(
    alloc: Global,
    world: &World,
    formula: TermId,
) -> Result<Option<Subject>, AllocError>
    requires world { IsWorld world.now }
    requires formula { Holds world.now formula }
    ensures reads { IfOk result (λ found. option_and_then (subject_read world.now) found ≡ plain.subject_of (declarations_of world.now) (read world.now formula)) }
    ensures rules { IfOk result (λ found. IfSome found (HasRules world.now)) }
    ensures held { IfOk result (λ found. IfSome found (HoldsSubject world.now)) }
{
    if let Some(atom) = defined_atom(alloc, world, formula)? {
        return Ok(Some(Subject::Atom(atom)));
    }
    let judgement = as_judgement(world, formula);
    Ok(judgement_subject(world, judgement))
}
