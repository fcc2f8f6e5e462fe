//! The moves of a replay: back over the commands that an edit changed, and forth over those that follow.
ghost use Rattle.std.specs.Prelude.{◌≡◌, ◌≤◌, ◌<◌, ◌+◌, ◌^◌, ℕ, List, [], length, OnOk, OnErr};
ghost use Rattle.ab_io.specs.Replays.{SameTest};
ghost use Rattle.ab_lex.proofs.Awaiting.{items_after};
ghost use Rattle.ab_edit.specs.Prefixes.{IsMore};
ghost use Rattle.ab_edit.specs.Moves.{ends_from, count_behind};
ghost use Rattle.ab_edit.specs.State.{IsInStep, IsGoing, IsHalted, IsOneMore, IsTakenBack, OnYes, OnNo, last_of};

use ab_io::Replay;
use ab_lex::{Next, Splitter};
use std::alloc::{AllocError, Global};

/// The last of the ends, or the text's beginning.
pub(crate) fn end_of_last(ends: &[usize]) -> usize
    ensures { result ≡ last_of ends.now }
{
    if ends.is_empty() {
        0
    } else {
        ends[ends.len() - 1]
    }
}

/// Takes back the kept commands that end behind `start`.
pub(crate) fn take_back<R: Replay>(ends: &mut Vec<usize>, replay: &mut R, start: usize)
    requires { ends.old.items ≡ ends_from 0 (R.kept replay.old) }
    ensures ends { ends.new.items ≡ ends_from 0 (R.kept replay.new) }
    ensures taken { IsTakenBack start (R.kept replay.old) (R.kept replay.new) }
    ensures test_stays { SameTest (R.test replay.old) (R.test replay.new) }
    ensures moves { R.moves replay.new ≤ R.moves replay.old + count_behind start (R.kept replay.old) }
    ensures moves_never_fall { R.moves replay.old ≤ R.moves replay.new }
{
    'back: while end_of_last(ends) > start {
        ends.pop();
        replay.back();
    }
}

/// Accepts the next command of the text, if there is one that isn't too long: whether it was kept. Its end is put down
/// first, so that no memory is wanted once it is kept.
fn accept_next<R: Replay>(
    text: &[u8],
    splitter: &mut Splitter,
    ends: &mut Vec<usize>,
    replay: &mut R,
) -> Result<bool, AllocError>
    requires going { IsGoing (R.test replay.old) text.now ends.old.items (R.kept replay.old) splitter.old }
    requires room { length text.now < 2 ^ 64 }
    ensures in_step { IsInStep (R.test replay.new) text.now ends.new.items (R.kept replay.new) }
    ensures going { OnYes result (IsGoing (R.test replay.new) text.now ends.new.items (R.kept replay.new) splitter.new) }
    ensures one_more { OnYes result (IsOneMore (R.kept replay.old) (R.kept replay.new)) }
    ensures fewer { OnYes result (length (items_after splitter.new []) < length (items_after splitter.old [])) }
    ensures halted { OnNo result (IsHalted (R.test replay.new) text.now (R.kept replay.new)) }
    ensures kept { OnNo result (R.kept replay.new ≡ R.kept replay.old) }
    ensures kept_err { OnErr result (R.kept replay.new ≡ R.kept replay.old) }
    ensures test_stays { SameTest (R.test replay.old) (R.test replay.new) }
    ensures one_move { R.moves replay.new ≤ R.moves replay.old + 1 }
    ensures moves_never_fall { R.moves replay.old ≤ R.moves replay.new }
{
    let span = match splitter.next_command() {
        Next::More => return Ok(false),
        Next::TooLong => return Ok(false),
        Next::Whole(span) => span,
    };
    let command = splitter.bytes(span);
    let end = end_of_last(ends) + command.len();
    ends.push(end)?;
    match replay.accept(command) {
        Ok(true) => Ok(true),
        Ok(false) => {
            ends.pop();
            Ok(false)
        }
        Err(error) => {
            ends.pop();
            Err(error)
        }
    }
}

/// Accepts the commands of the text behind the last kept one, until one isn't kept, is too long, or none is left.
pub(crate) fn go_on<R: Replay>(
    alloc: Global,
    text: &[u8],
    ends: &mut Vec<usize>,
    replay: &mut R,
) -> Result<(), AllocError>
    requires in_step { IsInStep (R.test replay.old) text.now ends.old.items (R.kept replay.old) }
    requires room { length text.now < 2 ^ 64 }
    ensures in_step { IsInStep (R.test replay.new) text.now ends.new.items (R.kept replay.new) }
    ensures halted { OnOk result (IsHalted (R.test replay.new) text.now (R.kept replay.new)) }
    ensures more { IsMore (R.kept replay.old) (R.kept replay.new) }
    ensures test_stays { SameTest (R.test replay.old) (R.test replay.new) }
    ensures moves { R.moves replay.new + length (R.kept replay.old) ≤ R.moves replay.old + length (R.kept replay.new) + 1 }
    ensures moves_never_fall { R.moves replay.old ≤ R.moves replay.new }
{
    let mut splitter = Splitter::new(alloc);
    splitter.feed(&text[end_of_last(ends)..])?;
    'commands: loop {
        if !accept_next(text, &mut splitter, ends, replay)? {
            return Ok(());
        }
    }
}
