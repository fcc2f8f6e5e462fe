//! Judgements with nothing in focus: their lists and their goals.
ghost use Rattle.std.specs.Prelude.{◌≡◌, IfOk, IfSome};
ghost use Rattle.std.specs.Option.{option_map};
ghost use Rattle.ab_formulas.specs.Marks.{plain};
ghost use Rattle.ab_logic.specs.Forms.{parts_read, HoldsParts};
ghost use Rattle.ab_logic.specs.WorldGrowth.{Grows};
ghost use Rattle.ab_logic.specs.Worlds.{IsWorld, Holds, read};
ghost use Rattle.ab_theory.specs.Judgements.{as_unfocused, marked_judgement};

use crate::judgements::as_judgement;
use crate::opened_goals::marked_judgement;
use ab_logic::{Sign, World};
use ab_norm::store::TermId;
use std::alloc::{AllocError, Global};

/// The list and the goal of the judgement that the formula is, if it is one with nothing in focus.
pub fn as_unfocused(world: &World, formula: TermId) -> Option<(TermId, TermId)>
    requires { Holds world.now formula }
    ensures reads { option_map (parts_read world.now) result ≡ as_unfocused (read world.now formula) }
    ensures held { IfSome result (HoldsParts world.now) }
{
    let Some(judgement) = as_judgement(world, formula) else {
        return None;
    };
    match judgement.focus {
        None => Some((judgement.context, judgement.goal)),
        Some(_) => None,
    }
}

/// The judgement of the list and the goal, without a mark.
pub fn judgement_of(
    alloc: Global,
    world: &mut World,
    list: TermId,
    goal: TermId,
) -> Result<TermId, AllocError>
    requires world { IsWorld world.old }
    requires list { Holds world.old list }
    requires goal { Holds world.old goal }
    ensures held { IfOk result (Holds world.new) }
    ensures reads { IfOk result (λ t. read world.new t ≡ marked_judgement plain (read world.old list) (read world.old goal)) }
    ensures grows { Grows world.old world.new }
    ensures types { world.new.types ≡ world.old.types }
    ensures additions { world.new.additions ≡ world.old.additions }
{
    marked_judgement(
        alloc,
        &world.types,
        &mut world.store,
        Sign::Plain,
        list,
        goal,
    )
}
