//! The steps of a derivation, and why one isn't taken.

use crate::items::Items;
use crate::replaces::Replaces;
use ab_equations::Label;
use ab_norm::name::Name;
use ab_norm::store::TermId;
use std::alloc::AllocError;
use thiserror::Error;

/// A rule, read from its conclusion to its premises. Names are those of hypotheses.
#[derive(Drop)]
pub enum Step {
    /// Closes a goal by a hypothesis.
    Initial(Name),
    /// Closes a goal whose conclusion is `true`.
    TrueRight,
    /// Closes a goal that assumes `false`.
    FalseLeft(Name),
    /// Splits a conjunction into its two parts.
    AndRight,
    /// Puts the two parts of a conjunction in its place.
    AndLeft(Name, Label, Label),
    /// Takes the left part of a disjunction, or the right one.
    OrRight(bool),
    /// Two goals, one for each part of a disjunction.
    OrLeft(Name, Label),
    /// Assumes the left part of an implication.
    ArrowRight(Label),
    /// A goal for the left part of an implication, and its right part as a hypothesis.
    ArrowLeft(Name, Label),
    /// A new variable for the name of a `forall`.
    ForallRight,
    /// An instance of a `forall`, by the term.
    ForallLeft(Name, TermId, Label),
    /// The term for the name of an `exists`.
    ExistsRight(TermId),
    /// A new variable for the name of an `exists`.
    ExistsLeft(Name, Label),
    /// A nominal constant for the name of a `nabla`.
    NablaRight,
    /// A nominal constant for the name of a `nabla`.
    NablaLeft(Name, Label),
    /// Closes a goal that equates equal terms.
    EqualRight,
    /// Solves an equation.
    EqualLeft(Name),
    /// Unfolds the conclusion by the alternative of this place.
    DefRight(usize),
    /// A goal for each way in which a hypothesis may hold.
    DefLeft(Name, Label),
    /// Induction, in each part of the conclusion on the antecedent of its place, counted from 1.
    Induction(Items<u32>, Items<Label>),
    /// Coinduction, in each part of the conclusion.
    Coinduction(Items<Label>),
    /// A goal for a formula, and one that assumes it.
    CutFormula(TermId, Label),
    /// A theorem as a hypothesis.
    UseTheorem(Name, Label),
    /// Drops a hypothesis.
    Weaken(Name),
    /// Cuts one judgement with another.
    SpecCut(Name, Name, Label),
    /// An instance of a judgement.
    SpecInst(Name, Replaces, Label),
    /// A judgement with a larger context.
    SpecMonotone(Name, TermId, Label),
    /// Admits a goal, by no rule.
    Skip,
}

/// Why a step wasn't taken.
#[derive(Debug, Drop, Error)]
pub enum KernelFault {
    /// The rule's condition with this number, counted from 1, is the first that the goal fails.
    #[error("RuleFails")]
    RuleFails(usize),
    /// All conditions hold, and the equation of this number, counted from 0, is outside the patterns.
    #[error("NotPattern")]
    NotPattern(usize),
    /// There was no memory for the step.
    #[error("Memory")]
    Memory(AllocError),
}

impl From<AllocError> for KernelFault {
    ghost use Rattle.std.specs.Prelude.{◌≡◌};
    ghost use Rattle.ab_rules.specs.declared.step.KernelFault.{KernelFault};

    ghost from_gives = { λ a f. f ≡ KernelFault.Memory a };

    fn from(fault: AllocError) -> KernelFault {
        KernelFault::Memory(fault)
    }
}
