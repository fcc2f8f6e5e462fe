//! What is asked of a world's terms. Between two commands no cell is bound, so what holds of their readings is answered.
ghost use Rattle.std.specs.Prelude.{◌↔◌, map, IfOk, IsTrue, All};
ghost use Rattle.ab_term.specs.Names.{EqualUpToNames, IsSupport};
ghost use Rattle.ab_term.specs.Translation.{EqualPastHints};
ghost use Rattle.ab_norm.specs.Nominals.{nominal_of, HoldsNominal};
ghost use Rattle.ab_logic.specs.Worlds.{IsWorld, Holds, read};

use ab_logic::World;
use ab_norm::store::TermId;
use ab_norm::{Nominal, equal, equal_up_to_names, support};
use std::alloc::{AllocError, Global};

/// The nominal constants of the formula, each once, by number.
pub fn support_in(alloc: Global, world: &World, formula: TermId) -> Result<Vec<Nominal>, AllocError>
    requires world { IsWorld world.now }
    requires formula { Holds world.now formula }
    ensures support { IfOk result (λ list. IsSupport (read world.now formula) (map (nominal_of world.now.types) list.items)) }
    ensures held { IfOk result (λ list. All (HoldsNominal world.now.types) list.items) }
{
    support(alloc, &world.types, &world.store, formula)
}

/// Whether the two terms are the same past their hints.
pub(crate) fn are_equal(
    alloc: Global,
    world: &World,
    a: TermId,
    b: TermId,
) -> Result<bool, AllocError>
    requires world { IsWorld world.now }
    requires a { Holds world.now a }
    requires b { Holds world.now b }
    ensures { IfOk result (λ yes. IsTrue yes ↔ EqualPastHints (read world.now a) (read world.now b)) }
{
    equal(alloc, &world.types, &world.store, a, b)
}

/// Whether a permutation of nominal constants sends the first to the second.
pub(crate) fn are_equal_up_to_names(
    alloc: Global,
    world: &World,
    a: TermId,
    b: TermId,
) -> Result<bool, AllocError>
    requires world { IsWorld world.now }
    requires a { Holds world.now a }
    requires b { Holds world.now b }
    ensures { IfOk result (λ yes. IsTrue yes ↔ EqualUpToNames (read world.now a) (read world.now b)) }
{
    let found = equal_up_to_names(alloc, &world.types, &world.store, a, b)?;
    Ok(found.is_some())
}
