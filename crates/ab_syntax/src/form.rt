//! A command: its first token chooses the row, and its full stop ends it.
ghost use Rattle.ab_grammar.proofs.Following.{Followed, BeforeStop};
ghost use Rattle.ab_grammar.specs.CommandTable.{LabelledForm, CommandForm, CommandText};
ghost use Rattle.ab_syntax.specs.Commands.{command_of, proof_command_of};
ghost use Rattle.ab_expressions.specs.Reader.{rest, Found};

use crate::command::{Command, ProofCommand};
use crate::command_heads::{Opening, opening_at, opening_of};
use crate::proof_row::proof_row;
use crate::row::row;
use ab_expressions::{Kind, Stop, Text, close_part, expect, name_of, next, takes_label};

/// Reads a proof command behind a label.
fn behind_label(text: &Text<'_>, here: &mut usize) -> Result<ProofCommand, Stop>
    ensures { Found LabelledForm BeforeStop proof_command_of (rest text.now here.old) (rest text.now here.new) result }
{
    match opening_at(text, *here) {
        Opening::Proof(head) if takes_label(head) => {
            *here += 1;
            proof_row(text, here, head)
        }
        _ => Err(Stop::Syntax),
    }
}

/// Reads a command without its full stop.
fn command_form(text: &Text<'_>, here: &mut usize) -> Result<Command, Stop>
    ensures { Found CommandForm BeforeStop command_of (rest text.now here.old) (rest text.now here.new) result }
{
    let Some(token) = next(text, *here) else {
        return Err(Stop::Syntax);
    };
    match opening_of(token) {
        Opening::Plain(head) => {
            *here += 1;
            row(text, here, head)
        }
        Opening::Proof(head) => {
            *here += 1;
            let command = proof_row(text, here, head)?;
            Ok(Command::InProof(None, command))
        }
        Opening::Label => {
            let label = name_of(text.alloc, token)?;
            *here += 1;
            expect(text, here, Kind::Colon)?;
            let command = behind_label(text, here)?;
            Ok(Command::InProof(Some(label), command))
        }
        Opening::Nothing => Err(Stop::Syntax),
    }
}

/// Reads a command, its full stop included.
pub(crate) fn read_command(text: &Text<'_>, here: &mut usize) -> Result<Command, Stop>
    ensures { Found CommandText Followed command_of (rest text.now here.old) (rest text.now here.new) result }
{
    let command = command_form(text, here);
    close_part(text, here, Kind::Stop, command)
}
