//! Terms for the names that a rule of a judgement leaves open. Where such a name depends on the judgement's constants, what stands for
//! it is the term abstracted over these.
ghost use Rattle.std.specs.Prelude.{All, IfOk};
ghost use Rattle.ab_norm.specs.Nominals.{HoldsNominal};
ghost use Rattle.ab_logic.specs.Worlds.{IsWorld, Holds};
ghost use Rattle.ab_search_paths.specs.MoreTerms.{GotTerms};

use crate::cell_terms::over_constants;
use crate::terms_of_rules::OpenName;
use ab_logic::World;
use ab_norm::Nominal;
use ab_norm::store::TermId;
use std::alloc::{AllocError, Global};

/// What stands for the open name, if this is the term that is found for it.
pub fn raised_term(
    alloc: Global,
    world: &mut World,
    constants: &[Nominal],
    open: OpenName,
    term: TermId,
) -> Result<TermId, AllocError>
    requires world { IsWorld world.old }
    requires constants { All (HoldsNominal world.old.types) constants.now }
    requires term { Holds world.old term }
    ensures held { IfOk result (Holds world.new) }
    ensures got { GotTerms world.old world.new }
{
    if open.raised {
        over_constants(alloc, &mut world.store, constants, term)
    } else {
        Ok(term)
    }
}

/// What stands for the first of the open names, if these are the terms that are found for them.
pub fn raised_terms(
    alloc: Global,
    world: &mut World,
    constants: &[Nominal],
    open: &[OpenName],
    terms: &[TermId],
) -> Result<Vec<TermId>, AllocError>
    requires world { IsWorld world.old }
    requires constants { All (HoldsNominal world.old.types) constants.now }
    requires terms { All (Holds world.old) terms.now }
    ensures held { IfOk result (λ list. All (Holds world.new) list.items) }
    ensures got { GotTerms world.old world.new }
{
    let mut list = Vec::new(alloc);
    for place in 0..terms.len() {
        let Some(one) = open.get(place) else {
            return Err(AllocError);
        };
        list.push(raised_term(alloc, world, constants, *one, terms[place])?)?;
    }
    Ok(list)
}
