//! Which names of a part of a formula in focus stand in goals alone.
ghost use Rattle.std.specs.Prelude.{◌≡◌, ◌≤◌, All, IfOk};
ghost use Rattle.ab_norm.specs.ab_types.specs.Entries.{Table as ATable};
ghost use Rattle.ab_norm.specs.ab_store.specs.Trees.{Holds};
ghost use Rattle.ab_norm.specs.ab_store.specs.Naming.{IsTypedBy};
ghost use Rattle.ab_norm.specs.NodeGrowth.{AddsTypedTerms};
ghost use Rattle.ab_norm.specs.Nominals.{HoldsNominal};
ghost use Rattle.ab_walk.specs.ab_next_ways.specs.ab_judgements.specs.ab_judgement_forms.specs.PartReadings.{HoldsName, HoldsPart};
ghost use Rattle.ab_logic.specs.Worlds.{IsWorld, declarations_of};
ghost use Rattle.ab_logic.specs.WorldGrowth.{Grows};
ghost use Rattle.ab_search_paths.specs.Parts.{HoldsRule};

use ab_logic::World;
use ab_norm::store::{Head, Store, TermId};
use ab_norm::types::{Steps, TypeTable};
use ab_norm::{Nominal, eta, instantiate};
use ab_walk::next_ways::judgements::alternatives::instances::constants_of;
use ab_walk::next_ways::judgements::{Part, PartName, Rule};
use std::alloc::{AllocError, Global};

/// A constant for each of the names, of numbers that no other has.
fn constants_for(alloc: Global, names: &[PartName]) -> Result<Vec<Nominal>, AllocError>
    ensures { IfOk result (λ list. (types : ATable) → All (HoldsName types) names.now → All (HoldsNominal types) list.items) }
{
    let mut list = Vec::new(alloc);
    let mut number = u128::MAX;
    for name in names {
        list.push(Nominal {
            number,
            ty: name.ty,
        })?;
        number = number.saturating_sub(1);
    }
    Ok(list)
}

/// The constants as terms.
fn forms_of(
    alloc: Global,
    types: &TypeTable,
    store: &mut Store,
    constants: &[Nominal],
) -> Result<Vec<TermId>, AllocError>
    requires store { IsTypedBy types.now store.old }
    requires constants { All (HoldsNominal types.now) constants.now }
    ensures held { IfOk result (λ list. All (Holds store.new) list.items) }
    ensures adds { AddsTypedTerms types.now store.old store.new }
{
    let mut list = Vec::new(alloc);
    for a in constants {
        let head = Head::Nominal(a.number, a.ty);
        list.push(eta(alloc, types, store, head, a.ty)?)?;
    }
    Ok(list)
}

/// The term under binders for the names, the first outermost.
fn under_names(
    alloc: Global,
    types: &TypeTable,
    store: &mut Store,
    names: &[PartName],
    term: TermId,
) -> Result<TermId, AllocError>
    requires store { IsTypedBy types.now store.old }
    requires names { All (HoldsName types.now) names.now }
    requires term { Holds store.old term }
    ensures held { IfOk result (Holds store.new) }
    ensures adds { AddsTypedTerms types.now store.old store.new }
{
    match names {
        [] => Ok(term),
        [first, rest @ ..] => {
            let inner = under_names(alloc, types, store, rest, term)?;
            let hint = first.hint.copy(alloc)?;
            store.lam(first.ty, hint, inner)
        }
    }
}

/// What stands under the names, with the terms in their places.
fn put_under<L>(
    alloc: Global,
    types: &TypeTable,
    store: &mut Store,
    names: &[PartName],
    terms: &[TermId],
    term: TermId,
    steps: &mut Steps<L>,
) -> Result<TermId, AllocError>
    requires store { IsTypedBy types.now store.old }
    requires names { All (HoldsName types.now) names.now }
    requires terms { All (Holds store.old) terms.now }
    requires term { Holds store.old term }
    ensures held { IfOk result (Holds store.new) }
    ensures adds { AddsTypedTerms types.now store.old store.new }
    ensures steps { steps.old ≤ steps.new }
{
    let abstraction = under_names(alloc, types, store, names, term)?;
    instantiate(alloc, types, store, abstraction, terms, steps)
}

/// The same of each of these.
fn put_under_all<L>(
    alloc: Global,
    types: &TypeTable,
    store: &mut Store,
    names: &[PartName],
    terms: &[TermId],
    list: &[TermId],
    steps: &mut Steps<L>,
) -> Result<Vec<TermId>, AllocError>
    requires store { IsTypedBy types.now store.old }
    requires names { All (HoldsName types.now) names.now }
    requires terms { All (Holds store.old) terms.now }
    requires list { All (Holds store.old) list.now }
    ensures held { IfOk result (λ made. All (Holds store.new) made.items) }
    ensures adds { AddsTypedTerms types.now store.old store.new }
    ensures steps { steps.old ≤ steps.new }
{
    let mut made = Vec::new(alloc);
    for term in list {
        made.push(put_under(alloc, types, store, names, terms, *term, steps)?)?;
    }
    Ok(made)
}

/// Of each of the constants, whether it stands in the second terms alone.
fn in_second_alone(
    alloc: Global,
    types: &TypeTable,
    store: &Store,
    constants: &[Nominal],
    first: &[TermId],
    second: &[TermId],
) -> Result<Vec<bool>, AllocError>
    requires store { IsTypedBy types.now store.now }
    requires first { All (Holds store.now) first.now }
    requires second { All (Holds store.now) second.now }
{
    let here = constants_of(alloc, types, store, first)?;
    let there = constants_of(alloc, types, store, second)?;
    let mut list = Vec::new(alloc);
    for a in constants {
        list.push(there.contains(a) && !here.contains(a))?;
    }
    Ok(list)
}

/// Of each name of the part, whether it stands in goals alone.
fn closed_names_of<L>(
    alloc: Global,
    types: &TypeTable,
    store: &mut Store,
    part: &Part,
    steps: &mut Steps<L>,
) -> Result<Vec<bool>, AllocError>
    requires store { IsTypedBy types.now store.old }
    requires part { HoldsPart types.now store.old part.now }
    ensures adds { AddsTypedTerms types.now store.old store.new }
    ensures steps { steps.old ≤ steps.new }
{
    let names = part.names.as_slice();
    let constants = constants_for(alloc, names)?;
    let forms = forms_of(alloc, types, store, &constants)?;
    let goals = put_under_all(alloc, types, store, names, &forms, &part.goals, steps)?;
    let atom = put_under(alloc, types, store, names, &forms, part.atom, steps)?;
    in_second_alone(alloc, types, store, &constants, &[atom], &goals)
}

/// So many names, none of which is closed.
fn none_closed(alloc: Global, count: usize) -> Result<Vec<bool>, AllocError> {
    let mut list = Vec::new(alloc);
    for _ in 0..count {
        list.push(false)?;
    }
    Ok(list)
}

/// Of each name of the part that the rule is, whether it stands in goals alone. A rule that is no part has so many names, none of which
/// does, as far as it matters here.
pub fn closed_names<L>(
    alloc: Global,
    world: &mut World,
    rule: &Rule,
    count: usize,
    steps: &mut Steps<L>,
) -> Result<Vec<bool>, AllocError>
    requires world { IsWorld world.old }
    requires rule { HoldsRule world.old rule.now }
    ensures grows { Grows world.old world.new }
    ensures declared { declarations_of world.new ≡ declarations_of world.old }
    ensures steps { steps.old ≤ steps.new }
{
    if let Rule::Part(part) = rule {
        return closed_names_of(alloc, &world.types, &mut world.store, part, steps);
    }
    none_closed(alloc, count)
}
