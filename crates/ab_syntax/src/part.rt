//! Parts of commands.
ghost use Rattle.std.specs.Prelude.{[], map};
ghost use Rattle.ab_grammar.specs.Language.{Key};
ghost use Rattle.ab_grammar.proofs.Following.{Anything, Except, BeforeStop, ArgumentsEnd};
ghost use Rattle.ab_grammar.specs.CommandForms.{One, ◌▸◌, ◌◂◌, Optional};
ghost use Rattle.ab_grammar.specs.CommandTable.{Name as AnyName, Word as WordForm, Arguments, Nominals, Instances};
ghost use Rattle.ab_syntax.specs.Commands.{argument_of, instance_of};
ghost use Rattle.ab_expressions.specs.Items.{list_of};
ghost use Rattle.ab_expressions.specs.Kinds.{key_of, IsKey};
ghost use Rattle.ab_syntax.specs.Leaves.{ShowsInForm};
ghost use Rattle.ab_syntax.specs.Lists.{declared_names, instances};
ghost use Rattle.ab_expressions.specs.Reader.{rest, Found, IsWordTaken};

use crate::command::{Argument, Instance};
use crate::leaf::{ArgumentForm, NameForm, NumberForm, take};
use crate::list::{Item, items, take_some};
use ab_expressions::{Items, Kind, Stop, Text, close_part, expect, next, read_expression, takes};
use ab_name::Name;

/// Takes the next token where it is this word, and says whether it is.
pub(crate) fn takes_word(text: &Text<'_>, here: &mut usize, expected: &[u8]) -> bool
    ensures { IsWordTaken expected.now (rest text.now here.old) (rest text.now here.new) result }
{
    let Some(token) = next(text, *here) else {
        return false;
    };
    if token.kind != Kind::Word || token.written != expected {
        return false;
    }
    *here += 1;
    true
}

/// Takes the next token, if it is this word.
pub(crate) fn keyword(text: &Text<'_>, here: &mut usize, expected: &[u8]) -> Result<(), Stop>
    ensures { Found (WordForm expected.now) Anything (λ u. u) (rest text.now here.old) (rest text.now here.new) result }
{
    if takes_word(text, here, expected) {
        Ok(())
    } else {
        Err(Stop::Syntax)
    }
}

/// Reads a name and a key behind it.
pub(crate) fn name_and(text: &Text<'_>, here: &mut usize, key: Kind) -> Result<Name, Stop>
    requires { IsKey key }
    ensures { Found (AnyName ◂ Key (key_of key)) Anything (λ x. x) (rest text.now here.old) (rest text.now here.new) result }
{
    let name = take(text, here, NameForm::Any);
    close_part(text, here, key, name)
}

impl Item for Name {
    ghost list = { declared_names };

    /// Reads a name that is declared.
    fn item(text: &Text<'_>, here: &mut usize) -> Result<Name, Stop> {
        take(text, here, NameForm::Declared)
    }
}

/// Reads `to a ..`, where that is there.
pub(crate) fn optional_arguments(text: &Text<'_>, here: &mut usize) -> Result<Items<Argument>, Stop>
    ensures { Found (Optional [] Arguments) ArgumentsEnd (λ vs. map argument_of (list_of vs)) (rest text.now here.old) (rest text.now here.new) result }
{
    if takes(text, here, Kind::To) {
        return take_some(text, here, ArgumentForm);
    }
    Ok(Items::from_vec(Vec::new(text.alloc)))
}

/// Reads a number behind a key, where the key is there; where it isn't, the number is the one that is given.
pub(crate) fn number_behind(
    text: &Text<'_>,
    here: &mut usize,
    key: Kind,
    form: NumberForm,
    absent: u32,
) -> Result<u32, Stop>
    requires { IsKey key }
    ensures { Found (Optional absent (Key (key_of key) ▸ One (ShowsInForm form))) (Except (key_of key)) (λ n. n) (rest text.now here.old) (rest text.now here.new) result }
{
    if takes(text, here, key) {
        return take(text, here, form);
    }
    Ok(absent)
}

/// Reads `(n n ..)`.
pub(crate) fn nominals(text: &Text<'_>, here: &mut usize) -> Result<Items<u32>, Stop>
    ensures { Found Nominals Anything list_of (rest text.now here.old) (rest text.now here.new) result }
{
    expect(text, here, Kind::LeftParen)?;
    let numbers = take_some(text, here, NumberForm::Nominal);
    close_part(text, here, Kind::RightParen, numbers)
}

impl Item for Instance {
    ghost list = { instances };

    /// Reads `X = e`.
    fn item(text: &Text<'_>, here: &mut usize) -> Result<Instance, Stop> {
        let name = name_and(text, here, Kind::Equal)?;
        let term = read_expression(text, here)?;
        Ok(Instance { name, term })
    }
}

/// Reads `with X = e, .., X = e`, where that is there.
pub(crate) fn optional_instances(text: &Text<'_>, here: &mut usize) -> Result<Items<Instance>, Stop>
    ensures { Found (Optional [] Instances) BeforeStop (λ is. map instance_of (list_of is)) (rest text.now here.old) (rest text.now here.new) result }
{
    if takes(text, here, Kind::With) {
        return items::<Instance>(text, here, Kind::Comma);
    }
    Ok(Items::from_vec(Vec::new(text.alloc)))
}
