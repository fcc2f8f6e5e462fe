//! Where the search of a goal stands in its row of ways.

use ab_norm::Nominal;

/// Which ways of a goal are still to be gone: those behind it. It names no term, since what was made for a way is taken back
/// before the next one.
#[derive(Drop)]
pub enum Cursor {
    /// All.
    Start,
    /// Those by the hypotheses from this number on, and what comes behind them.
    Hypothesis(usize),
    /// Those by the hypothesis of this number, whose constants are the first ones, by the map to the second ones and by those
    /// behind it, and what comes behind them.
    Map(usize, Vec<Nominal>, Vec<Nominal>),
    /// Those by the form of the conclusion, and what comes behind them.
    Form,
    /// The same, but for the first.
    Second,
    /// Those by the choices of its definition from this number on, and what comes behind them.
    Choice(usize),
    /// Those by the rules of a judgement from this number on.
    Rule(usize),
    /// None.
    End,
}
