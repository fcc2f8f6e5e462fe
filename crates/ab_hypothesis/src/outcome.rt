//! What came of a hypothesis that was to be taken apart, and why its command is refused then.
ghost use Rattle.std.specs.Prelude.{◌≡◌, Ok, None, IfSome};
ghost use Rattle.ab_hypothesis.specs.HypothesisRefusals.{IsFaultOf};
ghost use Rattle.ab_hypothesis.specs.declared.outcome.Outcome.{Outcome as AnOutcome};

use crate::stop::Stop;
use ab_steps::{ProofCommandFault, not_pattern};

/// What came of a hypothesis that was to be taken apart.
#[derive(Clone, Copy)]
pub(crate) enum Outcome {
    /// It was taken apart.
    Taken,
    /// Its formula isn't of a form for it, or is no defined atom and no judgement whose rules are known.
    Shapeless,
    /// Its mark doesn't serve.
    Marked,
    /// The equation of this number, counted from 0, is outside the patterns.
    Stuck(usize),
}

/// Why the command is refused, unless the hypothesis was taken apart.
pub(crate) fn fault_of(came: Result<Outcome, Stop>) -> Option<ProofCommandFault>
    ensures taken { result ≡ None → came ≡ Ok AnOutcome.Taken }
    ensures refused { IfSome result (IsFaultOf came) }
{
    match came {
        Ok(Outcome::Taken) => None,
        Ok(Outcome::Shapeless) => Some(ProofCommandFault::WrongShape),
        Ok(Outcome::Marked) => Some(ProofCommandFault::Mark),
        Ok(Outcome::Stuck(place)) => Some(not_pattern(place)),
        Err(Stop::NamesSpent) => Some(ProofCommandFault::NamesSpent),
        Err(Stop::Memory(fault)) => Some(ProofCommandFault::Memory(fault)),
    }
}
