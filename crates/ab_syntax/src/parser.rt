//! Whole texts.
ghost use Rattle.std.specs.Prelude.{◌≡◌, ℕ, IfOk};
ghost use Rattle.ab_lex.specs.Tokens.{TokensOf};
ghost use Rattle.ab_grammar.specs.Language.{Expression, TypeExpression, Accepted, SyntaxAt, TooNestedAt};
ghost use Rattle.ab_grammar.specs.CommandTable.{CommandText};
ghost use Rattle.ab_expressions.specs.Tokens.{StandIn, origin_of, tokens_from, tokens_in};
ghost use Rattle.ab_syntax.specs.Commands.{command_of};
ghost use Rattle.ab_expressions.specs.SyntaxTrees.{tree_of, type_of};
ghost use Rattle.ab_syntax.specs.Faults.{place_past, fault_place, nested_from, nested_place, IsCommandPlaceFrom, IsCommandPlace};

use crate::answer::{answer, token_told};
use crate::command::Command;
use crate::form::read_command;
use ab_expressions::{Parse, ParseFault, Text, TypeParse, read_expression, read_type, see_all};
use ab_lex::Token;
use std::alloc::Global;

/// Where the first token begins.
pub(crate) fn origin(tokens: &[Token]) -> usize
    ensures { result ≡ origin_of tokens.now }
{
    match tokens {
        [first, ..] => first.span.start,
        [] => 0,
    }
}

/// Reads an expression, which is all of some tokens of the bytes. Places are counted from `origin`.
pub fn parse_expr_from(
    alloc: Global,
    bytes: &[u8],
    tokens: &[Token],
    origin: usize,
) -> Result<Parse, ParseFault>
    requires { StandIn bytes.now origin tokens.now }
    // What is read is the one tree of the tokens.
    ensures read { IfOk result (λ parse. Accepted Expression (tokens_from bytes.now origin tokens.now) (tree_of parse)) }
    // The first token that no expression goes on with, or the end where the tokens end too early.
    ensures syntax { (place : ℕ) → result ≡ Err (ParseFault.Syntax place)
        → (i : ℕ) × SyntaxAt Expression (tokens_from bytes.now origin tokens.now) i × (place ≡ place_past bytes.now origin tokens.now i) }
    // The first token that is nested above the limit.
    ensures nested { (place : ℕ) → result ≡ Err (ParseFault.TooNested place)
        → (i : ℕ) × TooNestedAt Expression (tokens_from bytes.now origin tokens.now) i × (place ≡ nested_from bytes.now origin tokens.now i) }
{
    let seen = see_all(alloc, bytes, tokens, origin)?;
    let text = Text {
        alloc,
        tokens: &seen,
        end: bytes.len(),
    };
    let mut here = 0;
    let found = read_expression(&text, &mut here);
    answer(&text, here, here, found)
}

/// Reads an expression, which is all of the tokens of the bytes.
pub fn parse_expr(alloc: Global, bytes: &[u8], tokens: &[Token]) -> Result<Parse, ParseFault>
    requires { TokensOf bytes.now tokens.now }
    ensures read { IfOk result (λ parse. Accepted Expression (tokens_in bytes.now tokens.now) (tree_of parse)) }
    ensures syntax { (place : ℕ) → result ≡ Err (ParseFault.Syntax place)
        → (i : ℕ) × SyntaxAt Expression (tokens_in bytes.now tokens.now) i × (place ≡ fault_place bytes.now tokens.now i) }
    ensures nested { (place : ℕ) → result ≡ Err (ParseFault.TooNested place)
        → (i : ℕ) × TooNestedAt Expression (tokens_in bytes.now tokens.now) i × (place ≡ nested_place bytes.now tokens.now i) }
{
    parse_expr_from(alloc, bytes, tokens, origin(tokens))
}

/// Reads a type, which is all of some tokens of the bytes. Places are counted from `origin`.
pub fn parse_type_from(
    alloc: Global,
    bytes: &[u8],
    tokens: &[Token],
    origin: usize,
) -> Result<TypeParse, ParseFault>
    requires { StandIn bytes.now origin tokens.now }
    // What is read is the one type of the tokens.
    ensures read { IfOk result (λ parse. Accepted TypeExpression (tokens_from bytes.now origin tokens.now) (type_of parse)) }
    // The first token that no type goes on with, or the end where the tokens end too early.
    ensures syntax { (place : ℕ) → result ≡ Err (ParseFault.Syntax place)
        → (i : ℕ) × SyntaxAt TypeExpression (tokens_from bytes.now origin tokens.now) i × (place ≡ place_past bytes.now origin tokens.now i) }
    // The first token that is nested above the limit.
    ensures nested { (place : ℕ) → result ≡ Err (ParseFault.TooNested place)
        → (i : ℕ) × TooNestedAt TypeExpression (tokens_from bytes.now origin tokens.now) i × (place ≡ nested_from bytes.now origin tokens.now i) }
{
    let seen = see_all(alloc, bytes, tokens, origin)?;
    let text = Text {
        alloc,
        tokens: &seen,
        end: bytes.len(),
    };
    let mut here = 0;
    let found = read_type(&text, &mut here);
    answer(&text, here, here, found)
}

/// Reads a type, which is all of the tokens of the bytes.
pub fn parse_type(alloc: Global, bytes: &[u8], tokens: &[Token]) -> Result<TypeParse, ParseFault>
    requires { TokensOf bytes.now tokens.now }
    ensures read { IfOk result (λ parse. Accepted TypeExpression (tokens_in bytes.now tokens.now) (type_of parse)) }
    ensures syntax { (place : ℕ) → result ≡ Err (ParseFault.Syntax place)
        → (i : ℕ) × SyntaxAt TypeExpression (tokens_in bytes.now tokens.now) i × (place ≡ fault_place bytes.now tokens.now i) }
    ensures nested { (place : ℕ) → result ≡ Err (ParseFault.TooNested place)
        → (i : ℕ) × TooNestedAt TypeExpression (tokens_in bytes.now tokens.now) i × (place ≡ nested_place bytes.now tokens.now i) }
{
    parse_type_from(alloc, bytes, tokens, origin(tokens))
}

/// Reads a command, which is all of some tokens of the bytes. Places are counted from `origin`.
pub fn parse_command_from(
    alloc: Global,
    bytes: &[u8],
    tokens: &[Token],
    origin: usize,
) -> Result<Command, ParseFault>
    requires { StandIn bytes.now origin tokens.now }
    // What is read is the one command of the tokens.
    ensures read { IfOk result (λ command. Accepted CommandText (tokens_from bytes.now origin tokens.now) (command_of command)) }
    // The first token that no command goes on with, or the end where the tokens end too early.
    ensures syntax { (place : ℕ) → result ≡ Err (ParseFault.Syntax place)
        → (i : ℕ) × SyntaxAt CommandText (tokens_from bytes.now origin tokens.now) i × IsCommandPlaceFrom bytes.now origin tokens.now i place }
    // The first token that is nested above the limit.
    ensures nested { (place : ℕ) → result ≡ Err (ParseFault.TooNested place)
        → (i : ℕ) × TooNestedAt CommandText (tokens_from bytes.now origin tokens.now) i × (place ≡ nested_from bytes.now origin tokens.now i) }
{
    let seen = see_all(alloc, bytes, tokens, origin)?;
    let text = Text {
        alloc,
        tokens: &seen,
        end: bytes.len(),
    };
    let mut here = 0;
    let found = read_command(&text, &mut here);
    answer(&text, here, token_told(&text, here), found)
}

/// Reads a command, which is all of the tokens of the bytes.
pub fn parse_command(alloc: Global, bytes: &[u8], tokens: &[Token]) -> Result<Command, ParseFault>
    requires { TokensOf bytes.now tokens.now }
    ensures read { IfOk result (λ command. Accepted CommandText (tokens_in bytes.now tokens.now) (command_of command)) }
    ensures syntax { (place : ℕ) → result ≡ Err (ParseFault.Syntax place)
        → (i : ℕ) × SyntaxAt CommandText (tokens_in bytes.now tokens.now) i × IsCommandPlace bytes.now tokens.now i place }
    ensures nested { (place : ℕ) → result ≡ Err (ParseFault.TooNested place)
        → (i : ℕ) × TooNestedAt CommandText (tokens_in bytes.now tokens.now) i × (place ≡ nested_place bytes.now tokens.now i) }
{
    parse_command_from(alloc, bytes, tokens, origin(tokens))
}
