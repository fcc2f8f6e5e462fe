//! What comes of a choice of constants.
ghost use Rattle.std.specs.Prelude.{◌≡◌};
ghost use Rattle.ab_uses.specs.ChoiceTrials.{decides};

use crate::use_answers::Use;
use ab_norm::name::Name;

/// What comes of a choice of constants. Equations are counted from 0.
#[derive(Drop)]
pub(crate) enum Outcome {
    /// A constant stands in the formula that its name is taken off.
    PassedOver,
    /// Nothing makes the sides equal.
    Apart,
    /// The equation of this number is outside the patterns.
    Stuck(usize),
    /// What is left holds a variable that is open; the oldest one has this name.
    Open(Name),
    /// The formula is used so.
    Used(Use),
}

impl Outcome {
    /// Whether no choice behind this one is tried.
    pub(crate) fn decides(&self) -> bool
        ensures { result ≡ decides self.now }
    {
        match self {
            Outcome::PassedOver | Outcome::Apart => false,
            Outcome::Stuck(_) | Outcome::Open(_) | Outcome::Used(_) => true,
        }
    }
}
