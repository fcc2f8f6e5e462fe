//! A text, and a replay of its commands.
ghost use Rattle.std.specs.Prelude.{◌≡◌, ◌≤◌, ◌+◌, ◌++◌, ℕ, List, [], length, OnOk};
ghost use Rattle.ab_io.specs.Replays.{SameTest};
ghost use Rattle.ab_lex.specs.Commands.{Splits};
ghost use Rattle.ab_edit.specs.Edits.{text_after_edit, TookEdit, IsBefore};
ghost use Rattle.ab_edit.specs.Prefixes.{place_of, IsPrefix, IsMore, IsStopped, IsLongestKept, IsToldOf};
ghost use Rattle.ab_edit.specs.Moves.{count_behind, last_end};

use crate::moves::{end_of_last, go_on, take_back};
use crate::text::edit_text;
use ab_io::Replay;
use std::alloc::{AllocError, Global};
use std::marker::Model;

/// Where memory was wanted in an edit.
#[derive(Clone, Copy, Drop)]
pub enum EditFault {
    /// Before anything was changed.
    Before(AllocError),
    /// Behind the edit, while the commands that follow it were replayed.
    Behind(AllocError),
}

/// A text, and a replay that stands behind some of its first commands.
#[derive(Drop)]
pub struct Document<R: Replay> {
    alloc: Global,
    text: Vec<u8>,
    /// Where each kept command ends.
    ends: Vec<usize>,
    replay: R,
}

impl<R: Replay> Model for Document<R> {
    ghost use Rattle.ab_edit.specs.State.{DocumentState, IsInStep};

    ghost Value = { DocumentState R };

    ghost view = { λ d. record { text = d.text.items; replay = d.replay } };

    ghost invariant = { λ d. IsInStep (R.test d.replay) d.text.items d.ends.items (R.kept d.replay) };
}

impl<R: Replay> Document<R> {
    /// An empty text. It takes no memory.
    pub fn new(alloc: Global, replay: R) -> Document<R>
        requires { R.kept replay ≡ [] }
        ensures { result ≡ record { text = []; replay = replay } }
    {
        Document {
            alloc,
            text: Vec::new(alloc),
            ends: Vec::new(alloc),
            replay,
        }
    }

    /// Puts the bytes in place of those from `start` to `end`. It takes back the kept commands that end behind `start`,
    /// and accepts those of the new text that follow, until one isn't kept, is too long, or none is left.
    pub fn replace(&mut self, start: usize, end: usize, bytes: &[u8]) -> Result<(), EditFault>
        requires in_order { start ≤ end }
        requires in_text { end ≤ length self.old.text }

        // The text takes the edit, unless memory was wanted before anything was changed.
        ensures text { TookEdit result → self.new.text ≡ text_after_edit self.old.text start end bytes.now }
        ensures untouched { IsBefore result → self.new ≡ self.old }

        // The kept commands that end at `start` or before stay.
        ensures front_stays { (front behind : List (List ℕ)) → R.kept self.old.replay ≡ front ++ behind → place_of front ≤ start
            → IsMore front (R.kept self.new.replay) }

        // The kept commands are the first of the text; and where the test is told of them and of the command that
        // follows, they are the longest prefix that is kept when it is replayed.
        ensures prefix { IsPrefix self.new.text (R.kept self.new.replay) }
        ensures longest { OnOk result (IsToldOf (R.test self.new.replay) self.new.text (R.kept self.new.replay)
            → IsLongestKept (R.test self.new.replay) self.new.text (R.kept self.new.replay)) }
        ensures test_stays { SameTest (R.test self.old.replay) (R.test self.new.replay) }

        // The moves are no more than the kept commands that ended behind `start`, the commands of the new text that end
        // behind it, and one. That holds where the text had come to its end: nothing stood behind the kept commands, or
        // one that is too long, or one of which it is told that it isn't kept. Else, so where that isn't told and where
        // memory was wanted in the last edit, those commands of the new text count that end behind the last kept one
        // that ends at `start` or before.
        ensures moves { (commands : List (List ℕ)) (rest : List ℕ) → Splits self.new.text commands rest
            → IsStopped (R.test self.old.replay) self.old.text (R.kept self.old.replay)
            → R.moves self.new.replay ≤ R.moves self.old.replay + count_behind start (R.kept self.old.replay) + count_behind start commands + 1 }
        ensures all_moves { (commands : List (List ℕ)) (rest : List ℕ) → Splits self.new.text commands rest
            → R.moves self.new.replay ≤ R.moves self.old.replay + count_behind start (R.kept self.old.replay)
            + count_behind (last_end start (R.kept self.old.replay)) commands + 1 }
        ensures moves_never_fall { R.moves self.old.replay ≤ R.moves self.new.replay }
    {
        if let Err(error) = edit_text(&mut self.text, start, end, bytes) {
            return Err(EditFault::Before(error));
        }
        take_back(&mut self.ends, &mut self.replay, start);
        match go_on(self.alloc, &self.text, &mut self.ends, &mut self.replay) {
            Ok(()) => Ok(()),
            Err(error) => Err(EditFault::Behind(error)),
        }
    }

    /// Where the last kept command ends.
    pub fn place(&self) -> usize
        ensures { result ≡ place_of (R.kept self.now.replay) }
    {
        end_of_last(&self.ends)
    }

    /// How many bytes the text has.
    pub fn len(&self) -> usize
        ensures { result ≡ length self.now.text }
    {
        self.text.len()
    }

    /// The replay.
    pub fn replay(&self) -> &R
        ensures { result.now ≡ self.now.replay }
    {
        &self.replay
    }
}
