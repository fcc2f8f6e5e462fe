//! The levels of signs, by the grammar's table.
ghost use Rattle.std.specs.Prelude.{◌≡◌};
ghost use Rattle.ab_grammar.specs.Grammar as grammar;

use ab_grammar::Infix;

/// The level of a sign.
pub(crate) fn level(sign: Infix) -> usize
    ensures { result ≡ grammar.level sign }
{
    match sign {
        Infix::Arrow => 1,
        Infix::Or => 2,
        Infix::And => 3,
        Infix::Equal => 4,
        Infix::Imply => 5,
        Infix::With => 6,
        Infix::Cons => 7,
    }
}

/// The level of a sign's left operand.
pub(crate) fn left(sign: Infix) -> usize
    ensures { result ≡ grammar.left sign }
{
    match sign {
        Infix::Or | Infix::And | Infix::With => level(sign),
        Infix::Arrow | Infix::Equal | Infix::Imply | Infix::Cons => level(sign) + 1,
    }
}

/// The level of a sign's right operand.
pub(crate) fn right(sign: Infix) -> usize
    ensures { result ≡ grammar.right sign }
{
    match sign {
        Infix::Arrow | Infix::Imply | Infix::Cons => level(sign),
        Infix::Or | Infix::And | Infix::Equal | Infix::With => level(sign) + 1,
    }
}
