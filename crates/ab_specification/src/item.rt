//! An item of a specification file.
ghost use Rattle.std.specs.Prelude.{◌≡◌, ◌≤◌, ◌<◌, ◌^◌, IfOk};
ghost use Rattle.ab_syntax.specs.FileItems.{own_item_of};
ghost use Rattle.ab_logic.specs.WorldGrowth.{Grows};
ghost use Rattle.ab_logic.specs.Worlds.{IsWorld};
ghost use Rattle.ab_specification.specs.FileDeclarations as counted;
ghost use Rattle.ab_specification.specs.ItemAnswers.{ItemAnswer};

use crate::clause::declare_clause;
use ab_declare::{Refusal, declare_constants, declare_kinds};
use ab_logic::World;
use ab_norm::types::Steps;
use ab_syntax::SpecItem;
use std::alloc::{AllocError, Global};

/// How many clauses the item is.
pub(crate) fn clauses_in(item: &SpecItem) -> usize
    ensures is { result ≡ counted.clauses_in (own_item_of item.now) }
    ensures few { result ≤ 1 }
{
    match item {
        SpecItem::Kind(_) | SpecItem::Typed(..) => 0,
        SpecItem::Clause(_) => 1,
    }
}

/// Declares what the item does; so many clauses of its file stand before it.
pub(crate) fn declare_item<L>(
    alloc: Global,
    world: &mut World,
    item: &SpecItem,
    clauses_before: usize,
    steps: &mut Steps<L>,
) -> Result<Option<Refusal>, AllocError>
    requires world { IsWorld world.old }
    requires few { clauses_before < 2 ^ 63 }
    ensures answer { IfOk result (ItemAnswer world.old world.new clauses_before (own_item_of item.now)) }
    ensures grows { Grows world.old world.new }
    ensures steps { steps.old ≤ steps.new }
{
    match item {
        SpecItem::Kind(names) => declare_kinds(alloc, world, names.as_slice(), steps),
        SpecItem::Typed(names, ty) => declare_constants(alloc, world, names.as_slice(), ty, steps),
        SpecItem::Clause(clause) => declare_clause(alloc, world, clause, clauses_before, steps),
    }
}
