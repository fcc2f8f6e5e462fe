//! Blocks of definitions: predicates with their types, and clauses.
ghost use Rattle.std.specs.Prelude.{[], map, option_map};
ghost use Rattle.ab_grammar.proofs.Following.{BeforeStop, ClauseEnds};
ghost use Rattle.ab_grammar.specs.CommandForms.{Optional};
ghost use Rattle.ab_grammar.specs.CommandTable.{ClauseBody, Clauses, Row};
ghost use Rattle.ab_expressions.specs.SyntaxTrees.{tree_of};
ghost use Rattle.ab_syntax.specs.Commands.{clause_of, command_of, block_head};
ghost use Rattle.ab_expressions.specs.Items.{list_of};
ghost use Rattle.ab_syntax.specs.Lists.{definienda, clauses};
ghost use Rattle.ab_expressions.specs.Reader.{rest, Found};

use crate::command::{ClauseParse, Command, Defined};
use crate::leaf::{NameForm, take};
use crate::list::{Item, items};
use ab_expressions::{
    Items, Kind, Parse, Stop, Text, close_part, is_next, place_of, read_expression, read_type,
    takes,
};

impl Item for Defined {
    ghost list = { definienda };

    /// Reads `w : type`.
    fn item(text: &Text<'_>, here: &mut usize) -> Result<Defined, Stop> {
        let name = take(text, here, NameForm::Declared);
        let name = close_part(text, here, Kind::Colon, name)?;
        let ty = read_type(text, here)?;
        Ok(Defined { name, ty })
    }
}

/// Reads what stands behind the head of a clause.
fn clause_body(text: &Text<'_>, here: &mut usize) -> Result<Option<Parse>, Stop>
    ensures { Found ClauseBody ClauseEnds (option_map tree_of) (rest text.now here.old) (rest text.now here.new) result }
{
    if takes(text, here, Kind::Becomes) {
        return Ok(Some(read_expression(text, here)?));
    }
    Ok(None)
}

impl Item for ClauseParse {
    ghost list = { clauses };

    /// Reads a clause.
    fn item(text: &Text<'_>, here: &mut usize) -> Result<ClauseParse, Stop> {
        let head = read_expression(text, here)?;
        let body = clause_body(text, here)?;
        let place = place_of(&head);
        Ok(ClauseParse { head, body, place })
    }
}

/// Reads the clauses of a definition, of which there may be none.
fn optional_clauses(text: &Text<'_>, here: &mut usize) -> Result<Items<ClauseParse>, Stop>
    ensures { Found (Optional [] Clauses) BeforeStop (λ cs. map clause_of (list_of cs)) (rest text.now here.old) (rest text.now here.new) result }
{
    if is_next(text, *here, Kind::Stop) {
        return Ok(Items::from_vec(Vec::new(text.alloc)));
    }
    items::<ClauseParse>(text, here, Kind::Semicolon)
}

/// Reads what stands behind `Define` and `CoDefine`: a block, which is inductive or not.
pub(crate) fn block(text: &Text<'_>, here: &mut usize, inductive: bool) -> Result<Command, Stop>
    ensures { Found (Row (block_head inductive)) BeforeStop command_of (rest text.now here.old) (rest text.now here.new) result }
{
    let predicates = items::<Defined>(text, here, Kind::Comma);
    let predicates = close_part(text, here, Kind::By, predicates)?;
    let clauses = optional_clauses(text, here)?;
    Ok(Command::Define(inductive, predicates, clauses))
}
