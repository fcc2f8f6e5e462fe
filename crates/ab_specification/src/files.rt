//! The files of a specification.
ghost use Rattle.std.specs.Prelude.{◌≤◌, ◌≡◌, map, Some, IfOk, OnErr};
ghost use Rattle.ab_syntax.specs.FileItems.{own_item_of};
ghost use Rattle.ab_logic.specs.WorldGrowth.{Grows};
ghost use Rattle.ab_logic.specs.Worlds.{IsWorld};
ghost use Rattle.ab_sigmod.specs.Outcomes.{read_of};
ghost use Rattle.ab_declare.specs.Moments.{IsRestored};
ghost use Rattle.ab_specification.specs.FileDeclarations.{placed_items, items_of};
ghost use Rattle.ab_specification.specs.FileDeclarations as told;
ghost use Rattle.ab_specification.specs.ItemAnswers.{ItemsAnswer};
ghost use Rattle.ab_specification.specs.SpecificationAnswers.{Specified};

use crate::item::{clauses_in, declare_item};
use crate::refusal::in_file;
use ab_declare::{Moment, Refusal};
use ab_logic::World;
use ab_norm::name::Name;
use ab_norm::types::Steps;
use ab_sigmod::SpecFile;
use ab_syntax::SpecItem;
use std::alloc::{AllocError, Global};

/// The refusal with the file, whose name is copied.
fn refused_in(alloc: Global, refusal: Refusal, file: &Name) -> Result<Option<Refusal>, AllocError>
    ensures { IfOk result (λ r. r ≡ Some (told.in_file file.now refusal)) }
{
    match file.copy(alloc) {
        Ok(name) => Ok(Some(in_file(refusal, name))),
        Err(fault) => Err(fault),
    }
}

/// Declares the items of the file of that name, up to the first that is refused.
fn declare_items<L>(
    alloc: Global,
    world: &mut World,
    file: &Name,
    items: &[SpecItem],
    steps: &mut Steps<L>,
) -> Result<Option<Refusal>, AllocError>
    requires { IsWorld world.old }
    ensures answer { IfOk result (ItemsAnswer world.old world.new (placed_items file.now 0 (map own_item_of items.now))) }
    ensures grows { Grows world.old world.new }
    ensures steps { steps.old ≤ steps.new }
{
    let mut clauses = 0;
    for item in items {
        match declare_item(alloc, world, item, clauses, steps) {
            Ok(None) => {}
            Ok(Some(refusal)) => return refused_in(alloc, refusal, file),
            Err(fault) => return Err(fault),
        }
        clauses += clauses_in(item);
    }
    Ok(None)
}

/// Declares the files, up to the first item that is refused.
fn declare_files<L>(
    alloc: Global,
    world: &mut World,
    files: &[SpecFile],
    steps: &mut Steps<L>,
) -> Result<Option<Refusal>, AllocError>
    requires { IsWorld world.old }
    ensures answer { IfOk result (ItemsAnswer world.old world.new (items_of (map read_of files.now))) }
    ensures grows { Grows world.old world.new }
    ensures steps { steps.old ≤ steps.new }
{
    for file in files {
        match declare_items(alloc, world, &file.name, file.items.as_slice(), steps) {
            Ok(None) => {}
            Ok(Some(refusal)) => return Ok(Some(refusal)),
            Err(fault) => return Err(fault),
        }
    }
    Ok(None)
}

/// Declares what the files of a specification do, item by item and file by file. Refused, with nothing left behind, by the
/// first item that is: kinds and constants where the commands are, and a clause where a name of it stands for nothing, where
/// it has no reading at the type of formulas of the specification logic, or several, and where its head isn't a constant with
/// what it is given. What is told names the file.
pub fn declare_specification<L>(
    alloc: Global,
    world: &mut World,
    files: &[SpecFile],
    steps: &mut Steps<L>,
) -> Result<Option<Refusal>, AllocError>
    requires { IsWorld world.old }
    ensures answer { IfOk result (Specified world.old world.new (map read_of files.now)) }
    ensures err { OnErr result (IsRestored world.old world.new) }
    ensures steps { steps.old ≤ steps.new }
{
    let moment = Moment::of(world);
    match declare_files(alloc, world, files, steps) {
        Ok(None) => Ok(None),
        Ok(Some(refusal)) => {
            moment.cut_back(world, steps);
            Ok(Some(refusal))
        }
        Err(fault) => {
            moment.cut_back(world, steps);
            Err(fault)
        }
    }
}
