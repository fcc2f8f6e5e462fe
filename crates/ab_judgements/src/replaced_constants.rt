//! Terms in the places of nominal constants.
ghost use Rattle.std.specs.Prelude.{◌≡◌, ◌≤◌, map, codes, All, IfOk};
ghost use Rattle.ab_term.specs.Types.{prop};
ghost use Rattle.ab_term.specs.Terms.{lam, nominal};
ghost use Rattle.ab_term.specs.Substitution.{instance_by_all};
ghost use Rattle.ab_term.specs.Abstraction.{close, over, abstracted};
ghost use Rattle.ab_norm.specs.Nominals.{nominal_of, HoldsNominal};
ghost use Rattle.ab_norm.specs.ab_store.specs.Trees.{Holds, tree_of};
ghost use Rattle.ab_norm.specs.ab_store.specs.Naming.{IsTypedBy};
ghost use Rattle.ab_norm.specs.NodeGrowth.{AddsTypedTerms};
ghost use Rattle.ab_alternatives.specs.ab_instances.specs.ListReadings.{names_read};
ghost use Rattle.ab_logic.specs.WorldGrowth.{Grows};
ghost use Rattle.ab_logic.specs.Worlds.{IsWorld, read};

use ab_logic::World;
use ab_norm::name::Name;
use ab_norm::store::{Head, Store, TermId};
use ab_norm::types::laws::has_unique_ids;
use ab_norm::types::{Steps, TypeTable};
use ab_norm::{Nominal, instantiate};
use ab_patterns::close;
use std::alloc::{AllocError, Global};

/// The term, abstracted over the constant.
fn under_constant(
    alloc: Global,
    types: &TypeTable,
    store: &mut Store,
    constant: Nominal,
    term: TermId,
) -> Result<TermId, AllocError>
    requires store { IsTypedBy types.now store.old }
    requires constant { HoldsNominal types.now constant }
    requires term { Holds store.old term }
    ensures held { IfOk result (λ r. Holds store.new r) }
    ensures tree { IfOk result (λ r. tree_of types.now store.new r
        ≡ lam (nominal_of types.now constant).type (codes "x") (close 0 (nominal (nominal_of types.now constant)) (tree_of types.now store.old term))) }
    ensures adds { AddsTypedTerms types.now store.old store.new }
{
    has_unique_ids(types);
    let hint = Name::from_text(alloc, "x")?;
    let name = Head::Nominal(constant.number, constant.ty);
    let closed = close(alloc, store, name, term)?;
    store.lam(constant.ty, hint, closed)
}

/// The term, abstracted over the constants, the first outermost.
fn abstract_over(
    alloc: Global,
    types: &TypeTable,
    store: &mut Store,
    constants: &[Nominal],
    term: TermId,
) -> Result<TermId, AllocError>
    requires store { IsTypedBy types.now store.old }
    requires constants { All (HoldsNominal types.now) constants.now }
    requires term { Holds store.old term }
    ensures held { IfOk result (λ r. Holds store.new r) }
    ensures tree { IfOk result (λ r. tree_of types.now store.new r
        ≡ abstracted (codes "x") (over (names_read types.now constants.now) prop) (map nominal (names_read types.now constants.now)) (tree_of types.now store.old term)) }
    ensures adds { AddsTypedTerms types.now store.old store.new }
{
    let mut here = term;
    let mut left = constants.len();
    while left > 0 {
        left -= 1;
        here = under_constant(alloc, types, store, constants[left], here)?;
    }
    Ok(here)
}

/// The formula with the terms for the constants, all at once.
pub fn replace_constants<L>(
    alloc: Global,
    world: &mut World,
    constants: &[Nominal],
    terms: &[TermId],
    formula: TermId,
    steps: &mut Steps<L>,
) -> Result<TermId, AllocError>
    requires world { IsWorld world.old }
    requires constants { All (HoldsNominal world.old.types) constants.now }
    requires terms { All (Holds world.old.store) terms.now }
    requires formula { Holds world.old.store formula }
    ensures held { IfOk result (Holds world.new.store) }
    ensures reads { IfOk result (λ t. read world.new t ≡ let names = names_read world.old.types constants.now in
        instance_by_all (abstracted (codes "x") (over names prop) (map nominal names) (read world.old formula)) (map (read world.old) terms.now)) }
    ensures grows { Grows world.old world.new }
    ensures types { world.new.types ≡ world.old.types }
    ensures additions { world.new.additions ≡ world.old.additions }
    ensures steps { steps.old ≤ steps.new }
{
    let abstraction = abstract_over(alloc, &world.types, &mut world.store, constants, formula)?;
    instantiate(
        alloc,
        &world.types,
        &mut world.store,
        abstraction,
        terms,
        steps,
    )
}
