//! Formulas with all their unmarked judgements opened, down to where a connective stands that no opening makes.
ghost use Rattle.std.specs.Prelude.{All, IfOk};
ghost use Rattle.ab_norm.specs.ab_store.specs.Naming.{HoldsHead, HeadIsTyped};
ghost use Rattle.ab_logic.specs.Worlds.{IsWorld, Holds};
ghost use Rattle.ab_search_paths.specs.MoreTerms.{GotTerms};

use ab_logic::{Sign, World};
use ab_norm::store::{Head, Logical, Node, TermId};
use ab_walk::next_ways::judgements::{Kind, kind_of, open_goal};
use std::alloc::{AllocError, Global};

/// The judgement of the list and the goal, opened if its goal is made of others.
fn opened_judgement(
    alloc: Global,
    world: &mut World,
    formula: TermId,
    args: &[TermId],
) -> Result<TermId, AllocError>
    requires world { IsWorld world.old }
    requires formula { Holds world.old formula }
    requires args { All (Holds world.old) args.now }
    ensures held { IfOk result (Holds world.new) }
    ensures got { GotTerms world.old world.new }
{
    if args.len() != 2 {
        return Ok(formula);
    }
    match kind_of(&world.store, args[1]) {
        Kind::Compound => open_goal(alloc, world, Sign::Plain, args[0], args[1]),
        Kind::Atomic | Kind::Undetermined => Ok(formula),
    }
}

/// The head, given what it was given with its judgements opened.
#[cycle(opening)]
fn opened_parts(
    alloc: Global,
    world: &mut World,
    head: Head,
    args: &[TermId],
) -> Result<TermId, AllocError>
    requires world { IsWorld world.old }
    requires head { HoldsHead world.old.store head }
    requires typed { HeadIsTyped world.old.types head }
    requires args { All (Holds world.old) args.now }
    ensures held { IfOk result (Holds world.new) }
    ensures got { GotTerms world.old world.new }
{
    let mut list = Vec::new(alloc);
    for part in args {
        list.push(open_formula(alloc, world, *part)?)?;
    }
    world.store.spine(head, list)
}

/// The formula, or what binds its name, with its judgements opened.
#[cycle(opening)]
pub(crate) fn open_formula(
    alloc: Global,
    world: &mut World,
    formula: TermId,
) -> Result<TermId, AllocError>
    requires world { IsWorld world.old }
    requires formula { Holds world.old formula }
    ensures held { IfOk result (Holds world.new) }
    ensures got { GotTerms world.old world.new }
{
    match world.store.view(formula).copy(alloc)? {
        Node::Lam(ty, hint, body) => {
            let inner = open_formula(alloc, world, body)?;
            world.store.lam(ty, hint, inner)
        }
        Node::Spine(head, args) => match head {
            Head::Logic(Logical::And | Logical::Nabla(_) | Logical::Exists(_)) => {
                opened_parts(alloc, world, head, args.as_slice())
            }
            Head::Logic(Logical::Judge) => {
                opened_judgement(alloc, world, formula, args.as_slice())
            }
            _ => Ok(formula),
        },
    }
}
