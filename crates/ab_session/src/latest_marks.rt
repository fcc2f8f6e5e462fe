//! Marks that are raised for what the latest kept command made of a proof, and the last type that its steps name.
ghost use Rattle.std.specs.Option.{option_copied};
ghost use Rattle.ab_proof_marks.specs.ab_remains.specs.RaisedMarks.{IsRaised};
ghost use Rattle.ab_proof_marks.specs.NamedTypes.{IsLastType};
ghost use Rattle.ab_session.specs.LatestNames.{HoldsLatest, KeepsLatest, HasTypesLatest};

use crate::attempt::Attempt;
use crate::command_history::{Deed, Kept};
use ab_logic::World;
use ab_proof_marks::{last_type_behind, mark_to_proof, mark_to_steps_behind};
use ab_proofcmd::hypothesis::steps::kernel::Proof;
use ab_store::Mark;
use ab_store::types::TypeId;

/// The mark, raised for the terms that the command's part of the open proof names, or of the last theorem's.
pub(crate) fn mark_to_latest(
    world: &World,
    mark: Mark,
    latest: &Kept,
    attempt: Option<&Attempt>,
    proofs: &[Proof],
) -> Mark
    ensures { IsRaised world.now (λ v. KeepsLatest world.now v latest.now.deed latest.now.before.steps (option_copied attempt.entry) proofs.now)
        (λ v. HoldsLatest v latest.now.deed latest.now.before.steps (option_copied attempt.entry) proofs.now) mark result }
{
    let steps = latest.before.steps;
    match &latest.deed {
        Deed::GaveUp(_) => mark,
        Deed::Completed(_, _) => match proofs.last() {
            None => mark,
            Some(proof) => mark_to_steps_behind(world, mark, proof, steps),
        },
        Deed::Went => match attempt {
            None => mark,
            Some(attempt) => mark_to_steps_behind(world, mark, &attempt.proof, steps),
        },
        Deed::Began => match attempt {
            None => mark,
            Some(attempt) => {
                let formula = world.store.mark_to_term(mark, attempt.formula);
                mark_to_proof(world, formula, &attempt.proof, 0, 0)
            }
        },
    }
}

/// The last type that the steps of that part name.
pub(crate) fn last_type_of_latest(
    latest: &Kept,
    attempt: Option<&Attempt>,
    proofs: &[Proof],
) -> Option<TypeId>
    ensures { IsLastType (λ table. HasTypesLatest table latest.now.deed latest.now.before.steps (option_copied attempt.entry) proofs.now) result }
{
    let steps = latest.before.steps;
    match &latest.deed {
        Deed::GaveUp(_) => None,
        Deed::Completed(_, _) => match proofs.last() {
            None => None,
            Some(proof) => last_type_behind(proof, steps),
        },
        Deed::Went => match attempt {
            None => None,
            Some(attempt) => last_type_behind(&attempt.proof, steps),
        },
        Deed::Began => match attempt {
            None => None,
            Some(attempt) => last_type_behind(&attempt.proof, 0),
        },
    }
}
