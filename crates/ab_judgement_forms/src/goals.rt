//! Goals of the specification logic are opened in a list.
ghost use Rattle.std.specs.Prelude.{◌≡◌, IfOk};
ghost use Rattle.ab_logic.specs.Forms.{sign_of};
ghost use Rattle.ab_logic.specs.WorldGrowth.{Grows};
ghost use Rattle.ab_logic.specs.Worlds.{IsWorld, Holds, read};
ghost use Rattle.ab_theory.specs.Opening as opening;
ghost use Rattle.ab_judgement_forms.specs.ShapeReadings.{IsCons};

use crate::opened_goals::{Manner, open};
use ab_logic::{Sign, World};
use ab_norm::name::Name;
use ab_norm::store::TermId;
use ab_norm::types::ConstId;
use std::alloc::{AllocError, Global};

/// The constant `::`.
pub fn cons_of(alloc: Global, world: &World) -> Result<ConstId, AllocError>
    requires { IsWorld world.now }
    ensures { IfOk result (λ c. IsCons world.now.types c) }
{
    let name = Name::from_text(alloc, "::")?;
    let Some(cons) = world.types.look(&name) else {
        unreachable!();
    };
    Ok(cons)
}

/// The goal, opened in the list: what `pi`, `=>` and `&` say of it is said by formulas of the logic. Each judgement that
/// comes of it has the mark.
pub fn open_goal(
    alloc: Global,
    world: &mut World,
    mark: Sign,
    list: TermId,
    goal: TermId,
) -> Result<TermId, AllocError>
    requires world { IsWorld world.old }
    requires list { Holds world.old list }
    requires goal { Holds world.old goal }
    ensures held { IfOk result (Holds world.new) }
    ensures reads { IfOk result (λ t. read world.new t ≡ opening.open_goal (sign_of mark) (read world.old list) (read world.old goal)) }
    ensures grows { Grows world.old world.new }
    ensures types { world.new.types ≡ world.old.types }
    ensures additions { world.new.additions ≡ world.old.additions }
{
    let cons = cons_of(alloc, world)?;
    let manner = Manner { sign: mark, cons };
    open(alloc, &world.types, &mut world.store, manner, list, goal)
}
