//! What must be equal for a hypothesis to serve by a map of its constants.
ghost use Rattle.std.specs.Prelude.{◌≡◌, ◌≢◌, ◌≤◌, [], map, All, AllPairs, IfOk};
ghost use Rattle.ab_term.specs.Types.{prop};
ghost use Rattle.ab_term.specs.Names.{permute};
ghost use Rattle.ab_norm.specs.ab_store.specs.Reading.{reading};
ghost use Rattle.ab_norm.specs.ab_store.specs.Naming.{IsTypedBy, IsTerm};
ghost use Rattle.ab_norm.specs.NodeGrowth.{AddsTypedTerms};
ghost use Rattle.ab_norm.specs.Nominals.{HoldsNominal};
ghost use Rattle.ab_formulas.specs.Marks.{erased};
ghost use Rattle.ab_unify.specs.UnifyAnswers.{IsTypedPair};
ghost use Rattle.ab_instances.specs.ListReadings.{names_read};
ghost use Rattle.ab_search_trees.specs.Maps.{mapping};
ghost use Rattle.ab_search_trees.specs.Guesses.{HoldsOf};

use crate::permutations::permutation_of;
use ab_norm::store::{Equation, Store, TermId};
use ab_norm::types::{Steps, TypeTable};
use ab_norm::{Nominal, copy_resolved, permute};
use ab_sequents::erase;
use std::alloc::{AllocError, Global};

/// The formula without its marks, and with what cells in it are bound to.
fn bare<L>(
    alloc: Global,
    types: &TypeTable,
    store: &mut Store,
    formula: TermId,
    steps: &mut Steps<L>,
) -> Result<TermId, AllocError>
    requires store { IsTypedBy types.now store.old }
    requires formula { IsTerm types.now store.old [] formula prop }
    ensures reads { IfOk result (λ r. reading types.now store.new r ≡ erased (reading types.now store.old formula)) }
    ensures term { IfOk result (λ r. IsTerm types.now store.new [] r prop) }
    ensures adds { AddsTypedTerms types.now store.old store.new }
    ensures steps { steps.old ≤ steps.new }
{
    let plain = copy_resolved(alloc, types, store, formula, steps)?;
    erase(alloc, types, store, plain)
}

/// The hypothesis by the map that sends these constants, which are all that it holds, to the targets, and the conclusion, both
/// without marks.
pub fn sides<L>(
    alloc: Global,
    types: &TypeTable,
    store: &mut Store,
    hypothesis: TermId,
    names: &[Nominal],
    targets: &[Nominal],
    conclusion: TermId,
    steps: &mut Steps<L>,
) -> Result<Equation, AllocError>
    requires store { IsTypedBy types.now store.old }
    requires hypothesis { IsTerm types.now store.old [] hypothesis prop }
    requires conclusion { IsTerm types.now store.old [] conclusion prop }
    requires names { All (HoldsNominal types.now) names.now }
    requires targets { All (HoldsNominal types.now) targets.now }
    requires once { AllPairs (λ a b. a ≢ b) (names_read types.now names.now) }
    requires different { AllPairs (λ a b. a ≢ b) (names_read types.now targets.now) }
    requires types { map (λ a. a.type) (names_read types.now targets.now) ≡ map (λ b. b.type) (names_read types.now names.now) }
    requires over { HoldsOf (names_read types.now names.now) (reading types.now store.old hypothesis) }
    ensures left { IfOk result (λ e. reading types.now store.new e.left
        ≡ permute (mapping (names_read types.now names.now) (names_read types.now targets.now)) (erased (reading types.now store.old hypothesis))) }
    ensures right { IfOk result (λ e. reading types.now store.new e.right ≡ erased (reading types.now store.old conclusion)) }
    ensures typed { IfOk result (IsTypedPair types.now store.new) }
    ensures adds { AddsTypedTerms types.now store.old store.new }
    ensures steps { steps.old ≤ steps.new }
{
    let given = bare(alloc, types, store, hypothesis, steps)?;
    let by = permutation_of(alloc, types, names, targets)?;
    let left = permute(alloc, types, store, given, &by)?;
    let right = bare(alloc, types, store, conclusion, steps)?;
    Ok(Equation { left, right })
}
