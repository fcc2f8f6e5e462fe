//! The nominal constants of a judgement.
ghost use Rattle.std.specs.Prelude.{◌≡◌, All, IfOk};
ghost use Rattle.ab_norm.specs.Nominals.{HoldsNominal};
ghost use Rattle.ab_alternatives.specs.ab_instances.specs.ListReadings.{names_read};
ghost use Rattle.ab_logic.specs.Worlds.{IsWorld};
ghost use Rattle.ab_theory.specs.Judgements.{constants_of};
ghost use Rattle.ab_judgement_forms.specs.JudgementReadings.{judgement_read, terms_in, HoldsJudgement};

use ab_alternatives::instances::constants_of;
use ab_judgement_forms::Judgement;
use ab_logic::World;
use ab_norm::Nominal;
use ab_norm::store::TermId;
use std::alloc::{AllocError, Global};

/// The terms of the judgement.
fn terms_in(alloc: Global, judgement: &Judgement) -> Result<Vec<TermId>, AllocError>
    ensures { IfOk result (λ list. list.items ≡ terms_in judgement.now) }
{
    match judgement.focus {
        None => {
            let terms = Vec::from_array(alloc, [judgement.context, judgement.goal])?;
            Ok(terms)
        }
        Some(formula) => {
            let terms = Vec::from_array(alloc, [judgement.context, formula, judgement.goal])?;
            Ok(terms)
        }
    }
}

/// The constants that the judgement holds, each once, in the order of their numbers.
pub fn judgement_constants(
    alloc: Global,
    world: &World,
    judgement: &Judgement,
) -> Result<Vec<Nominal>, AllocError>
    requires world { IsWorld world.now }
    requires judgement { HoldsJudgement world.now judgement.now }
    ensures list { IfOk result (λ list. names_read world.now.types list.items ≡ constants_of (judgement_read world.now judgement.now)) }
    ensures held { IfOk result (λ list. All (HoldsNominal world.now.types) list.items) }
{
    let terms = terms_in(alloc, judgement)?;
    constants_of(alloc, &world.types, &world.store, &terms)
}
