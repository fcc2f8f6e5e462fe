//! The rows of the table of commands: what stands behind the first token, up to the full stop.
ghost use Rattle.ab_grammar.proofs.Following.{BeforeStop};
ghost use Rattle.ab_grammar.specs.CommandTable.{Switch, Row};
ghost use Rattle.ab_grammar.specs.declared.head.Head.TheVariants as head;
ghost use Rattle.ab_syntax.specs.Commands.{command_of};
ghost use Rattle.ab_expressions.specs.Reader.{rest, Found};

use crate::block::block;
use crate::command::Command;
use crate::leaf::{NameForm, NumberForm, take};
use crate::list::items;
use crate::part::{keyword, name_and, number_behind};
use ab_expressions::{Kind, Stop, Text, close_part, read_expression, read_type, takes};
use ab_grammar::Head;
use ab_name::Name;

/// Reads `on` or `off`.
fn switch(text: &Text<'_>, here: &mut usize) -> Result<bool, Stop>
    ensures { Found Switch BeforeStop (λ on. on) (rest text.now here.old) (rest text.now here.new) result }
{
    if takes(text, here, Kind::On) {
        return Ok(true);
    }
    keyword(text, here, b"off")?;
    Ok(false)
}

/// Reads `e on n to m`, of which each number may be left out with its key.
fn query(text: &Text<'_>, here: &mut usize) -> Result<Command, Stop>
    ensures { Found (Row head.Query) BeforeStop command_of (rest text.now here.old) (rest text.now here.new) result }
{
    let goal = read_expression(text, here)?;
    let depth = number_behind(text, here, Kind::On, NumberForm::Depth, 5)?;
    let limit = number_behind(text, here, Kind::To, NumberForm::Limit, 10)?;
    Ok(Command::Query(goal, depth, limit))
}

/// Reads what stands behind the first token of a command that is no proof command.
pub(crate) fn row(text: &Text<'_>, here: &mut usize, head: Head) -> Result<Command, Stop>
    ensures { Found (Row head) BeforeStop command_of (rest text.now here.old) (rest text.now here.new) result }
{
    match head {
        Head::Kind => {
            let names = items::<Name>(text, here, Kind::Comma);
            Ok(Command::Kind(close_part(text, here, Kind::Type, names)?))
        }
        Head::Typed => {
            let names = items::<Name>(text, here, Kind::Comma)?;
            let ty = read_type(text, here)?;
            Ok(Command::Typed(names, ty))
        }
        Head::Define => block(text, here, true),
        Head::CoDefine => block(text, here, false),
        Head::Theorem => {
            let name = name_and(text, here, Kind::Colon)?;
            let formula = read_expression(text, here)?;
            Ok(Command::Theorem(name, formula))
        }
        Head::Specification => Ok(Command::Specification(take(text, here, NameForm::Quoted)?)),
        Head::Query => query(text, here),
        Head::Show => Ok(Command::Show(take(text, here, NameForm::Any)?)),
        Head::Quit => Ok(Command::Quit),
        Head::Set => {
            keyword(text, here, b"subgoals")?;
            Ok(Command::Subgoals(switch(text, here)?))
        }
        Head::Back => Ok(Command::Back),
        Head::Reset => Ok(Command::Reset),
        Head::Undo => Ok(Command::Undo),
        Head::Abort => Ok(Command::Abort),
    }
}
