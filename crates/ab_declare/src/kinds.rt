//! Kinds that are declared.
ghost use Rattle.std.specs.Prelude.{◌≤◌, ◌≡◌, ◌++◌, List, ℕ, map, IfOk, OnErr, MatchOption, Some, None};
ghost use Rattle.ab_norm.specs.ab_types.specs.Entries.{kinds, a_kind, IsExtendedBy};
ghost use Rattle.ab_grammar.specs.CommandTrees as command;
ghost use Rattle.ab_logic.specs.Worlds.{IsWorld};
ghost use Rattle.ab_declare.specs.declared.refusal.Refusal.TheVariants.{Clash};
ghost use Rattle.ab_declare.specs.DeclarationCommands.{first_taken};
ghost use Rattle.ab_declare.specs.DeclarationAnswers.{Declared};

use crate::refusal::Refusal;
use ab_logic::World;
use ab_norm::name::Name;
use ab_norm::types::{Steps, TableFault, TypeTable};
use std::alloc::{AllocError, Global};

/// Puts kinds behind what the table holds, up to the first whose name is taken.
fn add_kinds(
    alloc: Global,
    types: &mut TypeTable,
    names: &[Name],
) -> Result<Option<Refusal>, AllocError>
    ensures added { IfOk result (λ r. MatchOption r
        ((first_taken (kinds types.old) names.now ≡ None) × (types.new ≡ types.old ++ map a_kind names.now))
        (λ f. (x : List ℕ) × (first_taken (kinds types.old) names.now ≡ Some x) × (f ≡ Clash x None))) }
    ensures kept { IsExtendedBy types.old types.new }
{
    for name in names {
        match types.declare_kind(name.copy(alloc)?) {
            Ok(_) => {}
            Err(TableFault::Clash) => return Ok(Some(Refusal::Clash(name.copy(alloc)?, None))),
            Err(TableFault::UnknownKind) => unreachable!(),
            Err(TableFault::Memory(fault)) => return Err(fault),
        }
    }
    Ok(None)
}

/// Declares the kinds. Refused, with nothing left behind, exactly where a name is that of a kind, or is given twice.
pub fn declare_kinds<L>(
    alloc: Global,
    world: &mut World,
    names: &[Name],
    steps: &mut Steps<L>,
) -> Result<Option<Refusal>, AllocError>
    requires { IsWorld world.old }
    ensures answer { IfOk result (Declared world.old world.new (command.kinds names.now)) }
    ensures err { OnErr result (world.new ≡ world.old) }
    ensures steps { steps.old ≤ steps.new }
{
    let before = world.types.len();
    match add_kinds(alloc, &mut world.types, names) {
        Ok(None) => Ok(None),
        Ok(Some(refusal)) => {
            world.types.cut_to(before, steps);
            Ok(Some(refusal))
        }
        Err(fault) => {
            world.types.cut_to(before, steps);
            Err(fault)
        }
    }
}
