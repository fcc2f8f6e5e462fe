//! The answer to an expression, from what is read of it.
ghost use Rattle.std.specs.Prelude.{◌≡◌, Ok};
ghost use Rattle.ab_term.specs.Types.{Ty};
ghost use Rattle.ab_norm.specs.ab_types.specs.Entries.{Table};
ghost use Rattle.ab_norm.specs.ab_store.specs.Trees.{Contents};
ghost use Rattle.ab_meaning.specs.ResolvedNames.{Resolved};
ghost use Rattle.ab_infer.specs.Outcomes.{IsOutcome};
ghost use Rattle.ab_infer.specs.ElaborationAnswers.{IsAnswer};

use crate::readings::Outcome;
use ab_inference::InferFault;
use ab_norm::store::TermId;

/// The term, or why there isn't one, of an expression that begins at the place and whose names stand for something.
pub fn answer(outcome: Outcome, place: usize) -> Result<TermId, InferFault>
    ensures { (types : Table) (store : Contents) (e : Resolved) (A : Ty) →
        IsOutcome types store e A outcome → IsAnswer types store (Ok e) A place result }
{
    match outcome {
        Outcome::One(term) => Ok(term),
        Outcome::Nothing => Err(InferFault::TypeClash(place)),
        Outcome::Open(at) => Err(InferFault::Untyped(at)),
    }
}
