//! Reading a command.
ghost use Rattle.std.specs.Prelude.{◌≡◌, ◌↔◌, Bool, false, IsTrue, IfOk, IfErr};
ghost use Rattle.ab_lex.specs.declared.token.LexFault.{LexFault};
ghost use Rattle.ab_lex.specs.Tokens.{TokensOf, FaultOf, place_of};
ghost use Rattle.ab_grammar.specs.CommandTable.{CommandText};
ghost use Rattle.ab_grammar.specs.Language.{Accepted};
ghost use Rattle.ab_syntax.specs.ab_expressions.specs.Tokens.{tokens_in};
ghost use Rattle.ab_syntax.specs.Commands.{command_of};
ghost use Rattle.ab_command.specs.CommandReadings.{StandsHere, Fits, Says, Fails, FailsBy};

use crate::built_commands::is_built;
use crate::fault::{Cause, Unread};
use ab_grammar::Stand;
use ab_lex::{LexFault, Token, first_place, tokens};
use ab_syntax::{Command, ParseFault, parse_command, stand_of};
use std::alloc::Global;

/// The refusal of bytes with a fault at this place; places are counted from behind their first blanks and comments.
fn no_token(bytes: &[u8], place: usize) -> Unread
    requires { (fault : LexFault) × FaultOf bytes.now fault × (place_of fault ≡ place) }
    ensures { (proving : Bool) → FailsBy bytes.now proving result }
{
    Unread::Refused(Cause::Syntax(place - first_place(bytes)))
}

/// Whether a command of this place may stand where a proof is open, or where none is.
fn stands_here(stand: Stand, is_open: bool) -> bool
    ensures { IsTrue result ↔ StandsHere stand is_open }
{
    match stand {
        Stand::Outside => !is_open,
        Stand::Inside => is_open,
        Stand::Anywhere => true,
    }
}

/// Whether the place that the first tokens tell is here.
fn fits(bytes: &[u8], tokens: &[Token], is_open: bool) -> bool
    requires { TokensOf bytes.now tokens.now }
    ensures here { IsTrue result → Fits bytes.now is_open tokens.now }
    ensures elsewhere { result ≡ false → Fails bytes.now is_open Cause.WrongPlace }
{
    match stand_of(bytes, tokens) {
        Some(stand) => stands_here(stand, is_open),
        None => true,
    }
}

/// The tokens of the bytes, whose command stands here where they tell its place.
fn tokens_here(alloc: Global, bytes: &[u8], is_open: bool) -> Result<Vec<Token>, Unread>
    ensures fits { IfOk result (λ ts. Fits bytes.now is_open ts.items) }
    ensures unread { IfErr result (FailsBy bytes.now is_open) }
{
    match tokens(alloc, bytes) {
        Ok(tokens) => {
            if fits(bytes, &tokens, is_open) {
                Ok(tokens)
            } else {
                Err(Unread::Refused(Cause::WrongPlace))
            }
        }
        Err(LexFault::BadByte(place)) => Err(no_token(bytes, place)),
        Err(LexFault::OpenString(place)) => Err(no_token(bytes, place)),
        Err(LexFault::OpenComment(place)) => Err(no_token(bytes, place)),
        Err(LexFault::Memory(fault)) => Err(Unread::Memory(fault)),
    }
}

/// The command of the grammar that the tokens spell.
fn command_of_tokens(
    alloc: Global,
    bytes: &[u8],
    tokens: &[Token],
    is_open: bool,
) -> Result<Command, Unread>
    requires { Fits bytes.now is_open tokens.now }
    ensures read { IfOk result (λ c. Accepted CommandText (tokens_in bytes.now tokens.now) (command_of c)) }
    ensures unread { IfErr result (FailsBy bytes.now is_open) }
{
    match parse_command(alloc, bytes, tokens) {
        Ok(command) => Ok(command),
        Err(ParseFault::Syntax(place)) => Err(Unread::Refused(Cause::Syntax(place))),
        Err(ParseFault::TooNested(place)) => Err(Unread::Refused(Cause::TooNested(place))),
        Err(ParseFault::Memory(fault)) => Err(Unread::Memory(fault)),
    }
}

/// The command that the bytes say, where a proof is open or none is.
pub fn read_command(alloc: Global, bytes: &[u8], is_open: bool) -> Result<Command, Unread>
    ensures says { IfOk result (λ c. Says bytes.now is_open (command_of c)) }
    ensures unread { IfErr result (FailsBy bytes.now is_open) }
{
    let tokens = tokens_here(alloc, bytes, is_open)?;
    let command = command_of_tokens(alloc, bytes, &tokens, is_open)?;
    if is_built(&command) {
        Ok(command)
    } else {
        Err(Unread::Refused(Cause::NotBuilt))
    }
}
