//! A law of the definitions, the contract of a function that does nothing.
ghost use Rattle.std.specs.Prelude.{ℕ, true, false, List};
ghost use Rattle.ab_edit.specs.Prefixes.{IsPrefix, AreKept, IsLongestKept, IsMore};

use ab_io::Replay;

/// Where no two answers are told of one command, each prefix of the text's commands that is kept when they are replayed
/// is a front of the longest; so there is one longest.
pub fn no_longer_prefix<R: Replay>(replay: &R)
    requires one_answer { (before : List (List ℕ)) (command : List ℕ) → R.test replay.now before command true → R.test replay.now before command false → ⊥ }
    ensures { (text : List ℕ) (longest kept : List (List ℕ)) → IsLongestKept (R.test replay.now) text longest
        → IsPrefix text kept → AreKept (R.test replay.now) kept → IsMore kept longest }
{}
