//! What the first tokens of a command say of it, and so where it stands.
ghost use Rattle.std.specs.Prelude.{◌≡◌, ◌↔◌, ℕ, Some};
ghost use Rattle.ab_lex.specs.Tokens.{TokensOf};
ghost use Rattle.ab_grammar.specs.Token.{word};
ghost use Rattle.ab_grammar.specs.CommandTable.{stand_of as stand_of_head, StandsAt};
ghost use Rattle.ab_grammar.specs.declared.head.Stand.{Stand};
ghost use Rattle.ab_expressions.specs.Tokens.{StandIn, tokens_from, tokens_in};
ghost use Rattle.ab_expressions.specs.Reader.{seen, rest};
ghost use Rattle.ab_syntax.specs.Openings.{IsOpening, IsOpeningAt};

use crate::parser::origin;
use ab_expressions::{COMMANDS, Kind, PROOF_COMMANDS, Seen, Text, lookup, next, see};
use ab_grammar::{Head, ProofHead, Stand};
use ab_lex::Token;

/// What the first token of a command says of it.
#[derive(Clone, Copy)]
pub(crate) enum Opening {
    /// A command that is no proof command.
    Plain(Head),
    /// A proof command without a label.
    Proof(ProofHead),
    /// A proof command with a label.
    Label,
    /// No command begins so.
    Nothing,
}

/// What a word at the front of a command says of it.
fn word_opening(written: &[u8]) -> Opening
    ensures { (p : ℕ) → IsOpening (word written.now p) written.now result }
{
    if let Some(head) = lookup(&COMMANDS, written) {
        return Opening::Plain(head);
    }
    if let Some(head) = lookup(&PROOF_COMMANDS, written) {
        return Opening::Proof(head);
    }
    Opening::Label
}

/// What a token says of a command that it begins.
pub(crate) fn opening_of(token: Seen<'_>) -> Opening
    ensures { IsOpening (seen token.entry) token.entry.written.now result }
{
    match token.kind {
        Kind::Word => word_opening(token.written),
        Kind::Exists => Opening::Proof(ProofHead::Exists),
        Kind::Back => Opening::Plain(Head::Back),
        Kind::Reset => Opening::Plain(Head::Reset),
        _ => Opening::Nothing,
    }
}

/// What the next token says of a command that it begins.
pub(crate) fn opening_at(text: &Text<'_>, here: usize) -> Opening
    ensures { IsOpeningAt (rest text.now here) result }
{
    match next(text, here) {
        Some(token) => opening_of(token),
        None => Opening::Nothing,
    }
}

/// Where a command stands that is no proof command.
fn stand(head: Head) -> Stand
    ensures { result ≡ stand_of_head head }
{
    match head {
        Head::Query | Head::Show | Head::Quit | Head::Set | Head::Back | Head::Reset => {
            Stand::Anywhere
        }
        Head::Undo | Head::Abort => Stand::Inside,
        Head::Kind
        | Head::Typed
        | Head::Define
        | Head::CoDefine
        | Head::Theorem
        | Head::Specification => Stand::Outside,
    }
}

/// Where a command stands that is spelled by some tokens of the bytes: known by its first token, or by a word and a colon. None where no command begins so.
pub fn stand_of_from(bytes: &[u8], tokens: &[Token], origin: usize) -> Option<Stand>
    requires { StandIn bytes.now origin tokens.now }
    ensures { (s : Stand) → (result ≡ Some s) ↔ StandsAt (tokens_from bytes.now origin tokens.now) s }
{
    if tokens.is_empty() {
        return None;
    }
    match opening_of(see(bytes, origin, tokens[0])) {
        Opening::Plain(head) => Some(stand(head)),
        Opening::Proof(_) => Some(Stand::Inside),
        Opening::Label => {
            if tokens.len() > 1 && see(bytes, origin, tokens[1]).kind == Kind::Colon {
                Some(Stand::Inside)
            } else {
                None
            }
        }
        Opening::Nothing => None,
    }
}

/// Where a command stands that is spelled by all tokens of the bytes.
pub fn stand_of(bytes: &[u8], tokens: &[Token]) -> Option<Stand>
    requires { TokensOf bytes.now tokens.now }
    ensures { (s : Stand) → (result ≡ Some s) ↔ StandsAt (tokens_in bytes.now tokens.now) s }
{
    stand_of_from(bytes, tokens, origin(tokens))
}
