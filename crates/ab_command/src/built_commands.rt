//! The commands that are built.
ghost use Rattle.std.specs.Prelude.{◌↔◌, IsTrue};
ghost use Rattle.ab_syntax.specs.Commands.{command_of};
ghost use Rattle.ab_command.specs.Supported.{IsBuilt};

use ab_syntax::Command;

/// Whether the command is built.
pub(crate) fn is_built(command: &Command) -> bool
    ensures { IsTrue result ↔ IsBuilt (command_of command.now) }
{
    match command {
        Command::Kind(_)
        | Command::Typed(_, _)
        | Command::Define(_, _, _)
        | Command::Theorem(_, _)
        | Command::Specification(_)
        | Command::InProof(_, _)
        | Command::Show(_)
        | Command::Quit
        | Command::Subgoals(_)
        | Command::Back
        | Command::Reset
        | Command::Undo
        | Command::Abort => true,
        Command::Query(_, _, _) => false,
    }
}
