//! How a run ends.

/// How a run ends.
#[derive(Clone, Copy)]
pub(crate) enum Verdict {
    /// No equation is left.
    Unified,
    /// Two sides can't become the same.
    Apart,
    /// No rule applies to the first equation left, which came from the given one of this number.
    Stuck(usize),
}
