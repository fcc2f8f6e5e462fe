//! Laws of what commands say.
ghost use Rattle.std.specs.Prelude.{◌≡◌, ℕ, Bool, List};
ghost use Rattle.ab_grammar.specs.CommandTrees.{Command};
ghost use Rattle.ab_grammar.specs.CommandTable.{standing};
ghost use Rattle.ab_command.specs.declared.fault.Cause.{Cause};
ghost use Rattle.ab_command.specs.CommandReadings.{StandsHere, Says, Fails};

/// Bytes say one command, or fail for one cause, and never both; and a command that they say stands there.
pub fn bytes_have_one_meaning()
    ensures says { (bytes : List ℕ) (proving : Bool) (c d : Command) → Says bytes proving c → Says bytes proving d → c ≡ d }
    ensures fails { (bytes : List ℕ) (proving : Bool) (r q : Cause) → Fails bytes proving r → Fails bytes proving q → r ≡ q }
    ensures either { (bytes : List ℕ) (proving : Bool) (c : Command) (r : Cause) → Says bytes proving c → Fails bytes proving r → ⊥ }
    ensures stands { (bytes : List ℕ) (proving : Bool) (c : Command) → Says bytes proving c → StandsHere (standing c) proving }
{}
