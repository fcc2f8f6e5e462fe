//! What is told of a whole text.
ghost use Rattle.std.specs.Prelude.{◌≡◌, length, min};
ghost use Rattle.ab_grammar.specs.Nesting.{blamed as blamed_of};
ghost use Rattle.ab_expressions.specs.Reader.{rest};
ghost use Rattle.ab_syntax.specs.Faults.{IsTold};
ghost use Rattle.ab_syntax.specs.Wholes.{place_in, IsAnswer};

use crate::command_heads::{Opening, opening_at};
use ab_expressions::{Kind, ParseFault, Stop, Text, is_next};

/// The place of a token, or that behind them all.
fn place_at(text: &Text<'_>, here: usize) -> usize
    ensures { result ≡ place_in text.now here }
{
    if here < text.tokens.len() {
        text.tokens[here].place
    } else {
        text.end
    }
}

/// The token that is told to be nested too deeply: the name before a backslash, in the backslash's place.
fn blamed_token(text: &Text<'_>, here: usize) -> usize
    ensures { result ≡ blamed_of (rest text.now 0) here }
{
    if is_next(text, here, Kind::Backslash) {
        here.saturating_sub(1)
    } else {
        here
    }
}

/// What is told of a part that was read up to `here`: the part, where it is all of the text, or the fault. Where the text isn't in the form, it is at `told`.
pub(crate) fn answer<T: Drop>(
    text: &Text<'_>,
    here: usize,
    told: usize,
    part: Result<T, Stop>,
) -> Result<T, ParseFault>
    ensures { IsAnswer text.now here told part result }
{
    match part {
        Ok(value) => {
            if here < text.tokens.len() {
                return Err(ParseFault::Syntax(place_at(text, told)));
            }
            Ok(value)
        }
        Err(stop) => match stop {
            Stop::Syntax => Err(ParseFault::Syntax(place_at(text, told))),
            Stop::TooNested => Err(ParseFault::TooNested(place_at(text, blamed_token(text, here)))),
            Stop::Memory(error) => Err(ParseFault::Memory(error)),
        },
    }
}

/// The token that is told to be no command: a first word with which no command begins, where no colon is behind it.
pub(crate) fn token_told(text: &Text<'_>, here: usize) -> usize
    ensures { IsTold (rest text.now 0) (min here (length text.now.tokens.now)) result }
{
    let refused = here.min(text.tokens.len());
    if refused != 1 {
        return refused;
    }
    match opening_at(text, 0) {
        Opening::Label => 0,
        _ => refused,
    }
}
