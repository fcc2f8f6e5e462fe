//! The rows of the table of proof commands: what stands behind the first token, up to the full stop.
ghost use Rattle.std.specs.Prelude.{false};
ghost use Rattle.ab_grammar.specs.declared.head.ProofHead.TheVariants as head;
ghost use Rattle.ab_grammar.specs.CommandForms.{One, Optional};
ghost use Rattle.ab_grammar.proofs.Following.{BeforeStop};
ghost use Rattle.ab_grammar.specs.CommandTable.{Keep, ShowsDepth, ProofRow};
ghost use Rattle.ab_syntax.specs.Commands.{proof_command_of};
ghost use Rattle.ab_expressions.specs.Reader.{rest, Found};

use crate::command::{Instance, ProofCommand};
use crate::leaf::{NameForm, NumberForm, take, take_if};
use crate::list::{items, take_all, take_some};
use crate::part::{keyword, name_and, nominals, optional_arguments, optional_instances};
use ab_expressions::{Kind, Stop, Text, close_part, expect, is_next, read_expression, takes};
use ab_grammar::ProofHead;

/// Reads `( keep )`, where that is there.
fn optional_keep(text: &Text<'_>, here: &mut usize) -> Result<bool, Stop>
    ensures { Found (Optional false Keep) BeforeStop (λ keep. keep) (rest text.now here.old) (rest text.now here.new) result }
{
    if takes(text, here, Kind::LeftParen) {
        let keep = keyword(text, here, b"keep");
        close_part(text, here, Kind::RightParen, keep)?;
        return Ok(true);
    }
    Ok(false)
}

/// Reads a depth, where one is there.
fn optional_depth(text: &Text<'_>, here: &mut usize) -> Result<u32, Stop>
    ensures { Found (Optional 5 (One ShowsDepth)) BeforeStop (λ n. n) (rest text.now here.old) (rest text.now here.new) result }
{
    if is_next(text, *here, Kind::Stop) {
        return Ok(5);
    }
    take(text, here, NumberForm::Depth)
}

/// Reads `on n ..`.
fn induction(text: &Text<'_>, here: &mut usize) -> Result<ProofCommand, Stop>
    ensures { Found (ProofRow head.Induction) BeforeStop proof_command_of (rest text.now here.old) (rest text.now here.new) result }
{
    expect(text, here, Kind::On)?;
    Ok(ProofCommand::Induction(take_some(text, here, NumberForm::Any)?))
}

/// Reads `H` or `H (keep)`.
fn case(text: &Text<'_>, here: &mut usize) -> Result<ProofCommand, Stop>
    ensures { Found (ProofRow head.Case) BeforeStop proof_command_of (rest text.now here.old) (rest text.now here.new) result }
{
    let name = take(text, here, NameForm::Any)?;
    Ok(ProofCommand::Case(name, optional_keep(text, here)?))
}

/// Reads `H to a .. with X = e, ..`.
fn apply(text: &Text<'_>, here: &mut usize) -> Result<ProofCommand, Stop>
    ensures { Found (ProofRow head.Apply) BeforeStop proof_command_of (rest text.now here.old) (rest text.now here.new) result }
{
    let name = take(text, here, NameForm::Any)?;
    let arguments = optional_arguments(text, here)?;
    let instances = optional_instances(text, here)?;
    Ok(ProofCommand::Apply(name, arguments, instances))
}

/// Reads `H with X = e, ..`.
fn backchain(text: &Text<'_>, here: &mut usize) -> Result<ProofCommand, Stop>
    ensures { Found (ProofRow head.Backchain) BeforeStop proof_command_of (rest text.now here.old) (rest text.now here.new) result }
{
    let name = take(text, here, NameForm::Any)?;
    Ok(ProofCommand::Backchain(name, optional_instances(text, here)?))
}

/// Reads `H with K`.
fn cut(text: &Text<'_>, here: &mut usize) -> Result<ProofCommand, Stop>
    ensures { Found (ProofRow head.Cut) BeforeStop proof_command_of (rest text.now here.old) (rest text.now here.new) result }
{
    let cut = name_and(text, here, Kind::With)?;
    Ok(ProofCommand::Cut(cut, take(text, here, NameForm::Any)?))
}

/// Reads `H with n1 = e, ..`.
fn inst(text: &Text<'_>, here: &mut usize) -> Result<ProofCommand, Stop>
    ensures { Found (ProofRow head.Inst) BeforeStop proof_command_of (rest text.now here.old) (rest text.now here.new) result }
{
    let name = name_and(text, here, Kind::With)?;
    Ok(ProofCommand::Inst(name, items::<Instance>(text, here, Kind::Comma)?))
}

/// Reads `H with e`.
fn monotone(text: &Text<'_>, here: &mut usize) -> Result<ProofCommand, Stop>
    ensures { Found (ProofRow head.Monotone) BeforeStop proof_command_of (rest text.now here.old) (rest text.now here.new) result }
{
    let name = name_and(text, here, Kind::With)?;
    Ok(ProofCommand::Monotone(name, read_expression(text, here)?))
}

/// Reads a star, where one is there.
fn split(text: &Text<'_>, here: &mut usize) -> Result<ProofCommand, Stop>
    ensures { Found (ProofRow head.Split) BeforeStop proof_command_of (rest text.now here.old) (rest text.now here.new) result }
{
    if takes(text, here, Kind::Star) {
        return Ok(ProofCommand::SplitAll);
    }
    Ok(ProofCommand::Split)
}

/// Reads `H to w`.
fn rename(text: &Text<'_>, here: &mut usize) -> Result<ProofCommand, Stop>
    ensures { Found (ProofRow head.Rename) BeforeStop proof_command_of (rest text.now here.old) (rest text.now here.new) result }
{
    let from = name_and(text, here, Kind::To)?;
    Ok(ProofCommand::Rename(from, take(text, here, NameForm::Any)?))
}

/// Reads `(n1 n2 ..) H`.
fn permute(text: &Text<'_>, here: &mut usize) -> Result<ProofCommand, Stop>
    ensures { Found (ProofRow head.Permute) BeforeStop proof_command_of (rest text.now here.old) (rest text.now here.new) result }
{
    let numbers = nominals(text, here)?;
    Ok(ProofCommand::Permute(numbers, take_if(text, here, NameForm::Any)?))
}

/// Reads what stands behind the first token of a proof command.
pub(crate) fn proof_row(
    text: &Text<'_>,
    here: &mut usize,
    head: ProofHead,
) -> Result<ProofCommand, Stop>
    ensures { Found (ProofRow head) BeforeStop proof_command_of (rest text.now here.old) (rest text.now here.new) result }
{
    match head {
        ProofHead::Intros => Ok(ProofCommand::Intros(take_all(text, here, NameForm::Any)?)),
        ProofHead::Induction => induction(text, here),
        ProofHead::Coinduction => Ok(ProofCommand::Coinduction),
        ProofHead::Case => case(text, here),
        ProofHead::Apply => apply(text, here),
        ProofHead::Backchain => backchain(text, here),
        ProofHead::Cut => cut(text, here),
        ProofHead::Inst => inst(text, here),
        ProofHead::Monotone => monotone(text, here),
        ProofHead::Search => Ok(ProofCommand::Search(optional_depth(text, here)?)),
        ProofHead::Skip => Ok(ProofCommand::Skip),
        ProofHead::Split => split(text, here),
        ProofHead::Left => Ok(ProofCommand::Left),
        ProofHead::Right => Ok(ProofCommand::Right),
        ProofHead::Exists | ProofHead::Witness => {
            Ok(ProofCommand::Exists(read_expression(text, here)?))
        }
        ProofHead::Unfold => Ok(ProofCommand::Unfold),
        ProofHead::Assert => Ok(ProofCommand::Assert(read_expression(text, here)?)),
        ProofHead::Clear => Ok(ProofCommand::Clear(take_some(text, here, NameForm::Any)?)),
        ProofHead::Rename => rename(text, here),
        ProofHead::Permute => permute(text, here),
    }
}
