//! Every list of tokens has one of three answers, as an expression, as a type, as a command, and as a title and an item of a
//! specification file: a tree, a refusal for its form at a
//! token, or one for its depth at a token. That it has no two of them are laws of the grammar's crate.

ghost use Rattle.std.specs.Prelude.{List};
ghost use Rattle.ab_grammar.specs.Token.{Token};
ghost use Rattle.ab_grammar.specs.Language.{Expression, TypeExpression};
ghost use Rattle.ab_grammar.specs.CommandTable.{CommandText};
ghost use Rattle.ab_grammar.specs.FileTable.{TitleText, ItemText};
ghost use Rattle.ab_grammar.specs.declared.file.FileKind.{FileKind};
ghost use Rattle.ab_language_laws.specs.TextAnswers.{HasAnswer};

/// Tokens have an answer as an expression.
pub fn an_answer_for_an_expression()
    ensures { (ts : List Token) → HasAnswer Expression ts }
{}

/// Tokens have an answer as a type.
pub fn an_answer_for_a_type()
    ensures { (ts : List Token) → HasAnswer TypeExpression ts }
{}

/// Tokens have an answer as a command.
pub fn an_answer_for_a_command()
    ensures { (ts : List Token) → HasAnswer CommandText ts }
{}

/// Tokens have an answer as a title of a specification file.
pub fn an_answer_for_a_title()
    ensures { (f : FileKind) (ts : List Token) → HasAnswer (TitleText f) ts }
{}

/// Tokens have an answer as an item of a specification file.
pub fn an_answer_for_an_item()
    ensures { (f : FileKind) (ts : List Token) → HasAnswer (ItemText f) ts }
{}
