//! The forms of one token that commands have, each of which shows a value.
ghost use Rattle.std.specs.Prelude.{IfOk};
ghost use Rattle.ab_grammar.proofs.Following.{Anything};
ghost use Rattle.ab_grammar.specs.CommandForms.{One};
ghost use Rattle.ab_syntax.specs.Leaves.{Leaf, IsShown, IsTakenNext, name_form, number_form, argument};
ghost use Rattle.ab_expressions.specs.Reader.{seen, rest, Found};

use crate::command::Argument;
use crate::numbers::{is_declarable, nominal, value};
use ab_expressions::{Kind, Seen, Stop, Text, name_of, next, spell};
use ab_name::Name;
use std::alloc::{AllocError, Global};

/// A form of one token, which shows a value.
pub(crate) trait Shown: Copy + Drop {
    /// What is kept of the value.
    type Value: Drop;

    ghost leaf: { Self → Leaf Self.Value };

    /// The value that a token shows, if it shows one.
    fn value_shown(self, alloc: Global, token: Seen<'_>) -> Result<Option<Self::Value>, AllocError>
        ensures { IfOk result (IsShown (leaf self) (seen token.entry)) };
}

/// Takes the next token where it shows a value, and says which.
pub(crate) fn take_if<S: Shown>(
    text: &Text<'_>,
    here: &mut usize,
    form: S,
) -> Result<Option<S::Value>, AllocError>
    ensures { IfOk result (IsTakenNext (S.leaf form) text.now here.old here.new) }
{
    let Some(token) = next(text, *here) else {
        return Ok(None);
    };
    let value = form.value_shown(text.alloc, token)?;
    *here += usize::from(value.is_some());
    Ok(value)
}

/// Takes the next token, if it shows a value.
pub(crate) fn take<S: Shown>(text: &Text<'_>, here: &mut usize, form: S) -> Result<S::Value, Stop>
    ensures { Found (One (S.leaf form).shows) Anything (S.leaf form).meant (rest text.now here.old) (rest text.now here.new) result }
{
    take_if(text, here, form)?.ok_or(Stop::Syntax)
}

/// A token that is kept as a name.
#[derive(Clone, Copy, Drop)]
pub(crate) enum NameForm {
    /// A word that isn't reserved.
    Any,
    /// A word that may name a kind, a constant or a predicate.
    Declared,
    /// A quoted text, without its quotes.
    Quoted,
}

impl Shown for NameForm {
    type Value = Name;

    ghost leaf = { name_form };

    fn value_shown(self, alloc: Global, token: Seen<'_>) -> Result<Option<Name>, AllocError> {
        let written = token.written;
        let name = match (token.kind, self) {
            (Kind::Word, NameForm::Any) => written,
            (Kind::Word, NameForm::Declared) if is_declarable(written) => written,
            (Kind::Text, NameForm::Quoted) => &written[1..written.len() - 1],
            _ => return Ok(None),
        };
        Ok(Some(spell(alloc, name)?))
    }
}

/// A token of which a number is kept.
#[derive(Clone, Copy, Drop)]
pub(crate) enum NumberForm {
    /// A nominal name.
    Nominal,
    /// A number of at most nine digits.
    Any,
    /// A depth of `search` and of `Query`.
    Depth,
    /// How many answers `Query` tells at most.
    Limit,
}

impl Shown for NumberForm {
    type Value = u32;

    ghost leaf = { number_form };

    fn value_shown(self, _alloc: Global, token: Seen<'_>) -> Result<Option<u32>, AllocError> {
        match (token.kind, self) {
            (Kind::Word, NumberForm::Nominal) => Ok(nominal(token.written)),
            (Kind::Number, NumberForm::Any) => Ok(Some(value(token.written))),
            (Kind::Number, NumberForm::Depth) => {
                let depth = value(token.written);
                Ok((depth <= 1000).then_some(depth))
            }
            (Kind::Number, NumberForm::Limit) => {
                let limit = value(token.written);
                if limit == 0 {
                    return Ok(None);
                }
                Ok((limit <= 1000).then_some(limit))
            }
            _ => Ok(None),
        }
    }
}

/// A token that is kept as an argument.
#[derive(Clone, Copy, Drop)]
pub(crate) struct ArgumentForm;

impl Shown for ArgumentForm {
    type Value = Argument;

    ghost leaf = { λ f. argument };

    fn value_shown(self, alloc: Global, token: Seen<'_>) -> Result<Option<Argument>, AllocError> {
        match token.kind {
            Kind::Word if token.written == b"_".as_slice() => Ok(Some(Argument::Hole)),
            Kind::Word => Ok(Some(Argument::Named(name_of(alloc, token)?))),
            _ => Ok(None),
        }
    }
}
