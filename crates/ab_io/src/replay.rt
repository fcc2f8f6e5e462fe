//! A script that goes forth and back.
ghost use Rattle.std.specs.Prelude.{◌≡◌, ◌≤◌, ◌+◌, ℕ, Bool, List, IfOk};
ghost use Rattle.ab_io.specs.Replays.{IsCommand, SameTest, AppendsKept, TakesLast};

use std::alloc::AllocError;

/// A script that goes forth and back: it takes commands one by one, keeps some of them, and takes the last kept one away.
pub trait Replay {
    /// The kept commands, in order.
    ghost kept: { Self → List (List ℕ) };

    /// Whether a command is kept where these were kept before it, where that is told.
    ghost test: { Self → List (List ℕ) → List ℕ → Bool → Type 0 };

    /// How many moves there were.
    ghost moves: { Self → ℕ };

    /// Takes a command, and says whether it is kept now.
    fn accept(&mut self, command: &[u8]) -> Result<bool, AllocError>
        requires { IsCommand command.now }
        ensures kept { AppendsKept result (kept self.old) command.now (kept self.new) }

        // Where the test tells whether the command is kept, the answer is that; and no call changes the test.
        ensures tested { IfOk result (λ answer. (told : Bool) → test self.old (kept self.old) command.now told → answer ≡ told) }
        ensures test_stays { SameTest (test self.old) (test self.new) }

        // It is one move at most, and the count of moves never falls.
        ensures one_move { moves self.new ≤ moves self.old + 1 }
        ensures moves_never_fall { moves self.old ≤ moves self.new };

    /// Takes the last kept command away, and says whether there was one.
    fn back(&mut self) -> bool
        ensures kept { TakesLast result (kept self.old) (kept self.new) }
        ensures test_stays { SameTest (test self.old) (test self.new) }
        ensures one_move { moves self.new ≤ moves self.old + 1 }
        ensures moves_never_fall { moves self.old ≤ moves self.new };
}
