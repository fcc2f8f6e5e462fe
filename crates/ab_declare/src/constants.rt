//! Constants that are declared.
ghost use Rattle.std.specs.Prelude.{◌≤◌, ◌≡◌, ◌++◌, ℕ, List, map, IfOk, OnErr, MatchOption, Some, None};
ghost use Rattle.ab_term.specs.Constants.{constant};
ghost use Rattle.ab_norm.specs.ab_types.specs.Entries.{constants, a_constant, IsExtendedBy};
ghost use Rattle.ab_term.specs.Constants as table;
ghost use Rattle.ab_norm.specs.ab_types.specs.Ids.{HoldsType, type_of};
ghost use Rattle.ab_grammar.specs.CommandTrees as command;
ghost use Rattle.ab_syntax.specs.ab_expressions.specs.SyntaxTrees as trees;
ghost use Rattle.ab_logic.specs.Worlds.{IsWorld};
ghost use Rattle.ab_declare.specs.declared.refusal.Refusal.TheVariants.{Clash};
ghost use Rattle.ab_declare.specs.DeclarationCommands.{first_taken};
ghost use Rattle.ab_declare.specs.DeclarationAnswers.{TableDeclared, Declared};

use crate::refusal::{Refusal, refusal_for};
use crate::types::formula_type;
use ab_inference::read_type;
use ab_logic::World;
use ab_norm::name::Name;
use ab_norm::types::{Steps, TableFault, TypeId, TypeTable};
use ab_syntax::TypeParse;
use std::alloc::{AllocError, Global};

/// Puts constants of the type behind what the table holds, up to the first whose name is taken.
fn add_constants(
    alloc: Global,
    types: &mut TypeTable,
    names: &[Name],
    ty: TypeId,
) -> Result<Option<Refusal>, AllocError>
    requires { HoldsType types.old ty }
    ensures added { IfOk result (λ r. MatchOption r
        ((first_taken (table.names (constants types.old)) names.now ≡ None)
        × (types.new ≡ types.old ++ map (λ x. a_constant (constant x (type_of types.old ty))) names.now))
        (λ f. (x : List ℕ) × (first_taken (table.names (constants types.old)) names.now ≡ Some x) × (f ≡ Clash x None))) }
    ensures kept { IsExtendedBy types.old types.new }
{
    for name in names {
        match types.declare_const(name.copy(alloc)?, ty) {
            Ok(_) => {}
            Err(TableFault::Clash) => return Ok(Some(Refusal::Clash(name.copy(alloc)?, None))),
            Err(TableFault::UnknownKind) => unreachable!(),
            Err(TableFault::Memory(fault)) => return Err(fault),
        }
    }
    Ok(None)
}

/// The first of the names that is taken. They are tried at some type, and go again.
fn taken_name<L>(
    alloc: Global,
    types: &mut TypeTable,
    names: &[Name],
    steps: &mut Steps<L>,
) -> Result<Option<Refusal>, AllocError>
    ensures taken { IfOk result (λ r. MatchOption r
        (first_taken (table.names (constants types.old)) names.now ≡ None)
        (λ f. (x : List ℕ) × (first_taken (table.names (constants types.old)) names.now ≡ Some x) × (f ≡ Clash x None))) }
    ensures same { types.new ≡ types.old }
    ensures steps { steps.old ≤ steps.new }
{
    let before = types.len();
    let answer = match formula_type(alloc, types) {
        Ok(ty) => add_constants(alloc, types, names, ty),
        Err(fault) => Err(fault),
    };
    types.cut_to(before, steps);
    answer
}

/// Puts constants of the written type behind what the table holds.
fn try_constants<L>(
    alloc: Global,
    types: &mut TypeTable,
    names: &[Name],
    parse: &TypeParse,
    steps: &mut Steps<L>,
) -> Result<Option<Refusal>, AllocError>
    ensures answer { IfOk result (TableDeclared types.old types.new (command.constants names.now (trees.type_of parse.now))) }
    ensures kept { IsExtendedBy types.old types.new }
    ensures steps { steps.old ≤ steps.new }
{
    if let Some(refusal) = taken_name(alloc, types, names, steps)? {
        return Ok(Some(refusal));
    }
    match read_type(alloc, types, parse) {
        Ok(ty) => add_constants(alloc, types, names, ty),
        Err(fault) => Ok(Some(refusal_for(fault)?)),
    }
}

/// Declares constants of the written type. Refused, with nothing left behind: where a name is that of a constant, or is
/// given twice; where a name in the type is no kind; and where `prop` stands in an argument.
pub fn declare_constants<L>(
    alloc: Global,
    world: &mut World,
    names: &[Name],
    parse: &TypeParse,
    steps: &mut Steps<L>,
) -> Result<Option<Refusal>, AllocError>
    requires { IsWorld world.old }
    ensures answer { IfOk result (Declared world.old world.new (command.constants names.now (trees.type_of parse.now))) }
    ensures err { OnErr result (world.new ≡ world.old) }
    ensures steps { steps.old ≤ steps.new }
{
    let before = world.types.len();
    match try_constants(alloc, &mut world.types, names, parse, steps) {
        Ok(None) => Ok(None),
        Ok(Some(refusal)) => {
            world.types.cut_to(before, steps);
            Ok(Some(refusal))
        }
        Err(fault) => {
            world.types.cut_to(before, steps);
            Err(fault)
        }
    }
}
