//! Each text says a command, or there is a cause why it says none.
ghost use Rattle.std.specs.Prelude.{ℕ, Bool, List};
ghost use Rattle.ab_grammar.specs.CommandTrees.{Command};
ghost use Rattle.ab_command.specs.declared.fault.Cause.{Cause};
ghost use Rattle.ab_command.specs.CommandReadings.{Says, Fails};
ghost use Rattle.ab_existence.specs.Certainty.{OneHolds};

/// EACH TEXT SAYS A COMMAND, OR THERE IS A CAUSE why it says none, where a proof is open and where none is.
pub fn each_text_says_a_command_or_has_a_cause()
    ensures { (bytes : List ℕ) (proving : Bool) → OneHolds ((c : Command) × Says bytes proving c) ((cause : Cause) × Fails bytes proving cause) }
{}
