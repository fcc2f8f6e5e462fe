//! The path to an answer, goal by goal, with the answer's values.
ghost use Rattle.std.specs.Prelude.{◌≤◌, All, IfOk};
ghost use Rattle.ab_term.specs.Types.{Ty};
ghost use Rattle.ab_norm.specs.ab_store.specs.Trees.{Holds};
ghost use Rattle.ab_norm.specs.ab_store.specs.Naming.{IsTypedBy};
ghost use Rattle.ab_norm.specs.NodeGrowth.{AddsTypedTerms};
ghost use Rattle.ab_unify.specs.StoreChanges.{Grows};
ghost use Rattle.ab_logic.specs.Worlds.{IsWorld};
ghost use Rattle.ab_walk.specs.ab_next_ways.specs.ab_search_ways.specs.Answers.{HoldsPlace};
ghost use Rattle.ab_search_paths.specs.Paths.{IsOf, IsTermIn, HoldsTaken, HoldsEntry};
ghost use Rattle.ab_search_paths.specs.Frames.{HoldsPath, IsLater, as_world};

use crate::entries::{Entry, Taken};
use crate::final_values::bind_values;
use crate::ways_taken::way_taken;
use ab_logic::World;
use ab_norm::copy_resolved;
use ab_norm::store::{Store, TermId};
use ab_norm::types::{Steps, TypeTable};
use ab_walk::Frame;
use ab_walk::next_ways::ways::Place;
use std::alloc::{AllocError, Global};

/// The first goal of the place, and the way that was taken from it to the other place, with cells in the place of values.
fn open_entry<L>(
    alloc: Global,
    world: &mut World,
    before: &Frame,
    after: &Place,
    steps: &mut Steps<L>,
) -> Result<Entry, AllocError>
    requires world { IsWorld world.old }
    requires before { HoldsPlace world.old.types world.old.store before.now.place }
    requires after { HoldsPlace world.old.types world.old.store after.now }
    ensures entry { IfOk result (HoldsEntry world.new) }
    ensures later { IsLater world.old world.new }
    ensures steps { steps.old ≤ steps.new }
{
    let Some(goal) = before.place.goals.first() else {
        return Err(AllocError);
    };
    let taken = way_taken(alloc, world, goal, before, after, steps)?;
    let conclusion = goal.conclusion;
    Ok(Entry { conclusion, taken })
}

/// The path, with cells in the place of values.
fn open_path<L>(
    alloc: Global,
    world: &mut World,
    path: &[Frame],
    steps: &mut Steps<L>,
) -> Result<Vec<Entry>, AllocError>
    requires world { IsWorld world.old }
    requires path { HoldsPath world.old.types world.old.store path.now }
    ensures entries { IfOk result (λ list. All (HoldsEntry world.new) list.items) }
    ensures later { IsLater world.old world.new }
    ensures steps { steps.old ≤ steps.new }
{
    let mut entries = Vec::new(alloc);
    for place in 1..path.len() {
        let after = &path[place].place;
        entries.push(open_entry(alloc, world, &path[place - 1], after, steps)?)?;
    }
    Ok(entries)
}

/// The term, with what cells are bound to in their places.
fn resolved_term<L>(
    alloc: Global,
    types: &TypeTable,
    store: &mut Store,
    term: TermId,
    steps: &mut Steps<L>,
) -> Result<TermId, AllocError>
    requires store { IsTypedBy types.now store.old }
    requires term { Holds store.old term }
    ensures is { IfOk result (λ r. (A : Ty) → IsOf (as_world types.now store.old) term A → IsOf (as_world types.now store.new) r A) }
    ensures adds { AddsTypedTerms types.now store.old store.new }
    ensures steps { steps.old ≤ steps.new }
{
    copy_resolved(alloc, types, store, term, steps)
}

/// The terms, with what cells are bound to in their places.
fn resolved_all<L>(
    alloc: Global,
    types: &TypeTable,
    store: &mut Store,
    terms: &[TermId],
    steps: &mut Steps<L>,
) -> Result<Vec<TermId>, AllocError>
    requires store { IsTypedBy types.now store.old }
    requires terms { All (IsTermIn (as_world types.now store.old)) terms.now }
    ensures terms { IfOk result (λ list. All (IsTermIn (as_world types.now store.new)) list.items) }
    ensures adds { AddsTypedTerms types.now store.old store.new }
    ensures steps { steps.old ≤ steps.new }
{
    let mut list = Vec::new(alloc);
    for term in terms {
        list.push(resolved_term(alloc, types, store, *term, steps)?)?;
    }
    Ok(list)
}

/// The way, with what cells are bound to in their places.
fn resolved_way<L>(
    alloc: Global,
    types: &TypeTable,
    store: &mut Store,
    taken: Taken,
    steps: &mut Steps<L>,
) -> Result<Taken, AllocError>
    requires store { IsTypedBy types.now store.old }
    requires taken { HoldsTaken (as_world types.now store.old) taken }
    ensures taken { IfOk result (HoldsTaken (as_world types.now store.new)) }
    ensures adds { AddsTypedTerms types.now store.old store.new }
    ensures steps { steps.old ≤ steps.new }
{
    match taken {
        Taken::Term(term) => Ok(Taken::Term(resolved_term(alloc, types, store, term, steps)?)),
        Taken::Clause(clause) => {
            let mut clause = clause;
            clause.values = resolved_all(alloc, types, store, &clause.values, steps)?;
            Ok(Taken::Clause(clause))
        }
        Taken::Rule(rule) => {
            let mut rule = rule;
            rule.values = resolved_all(alloc, types, store, &rule.values, steps)?;
            Ok(Taken::Rule(rule))
        }
        other => Ok(other),
    }
}

/// The entry, with what cells are bound to in their places.
fn resolved_entry<L>(
    alloc: Global,
    types: &TypeTable,
    store: &mut Store,
    entry: Entry,
    steps: &mut Steps<L>,
) -> Result<Entry, AllocError>
    requires store { IsTypedBy types.now store.old }
    requires entry { HoldsEntry (as_world types.now store.old) entry }
    ensures entry { IfOk result (HoldsEntry (as_world types.now store.new)) }
    ensures adds { AddsTypedTerms types.now store.old store.new }
    ensures steps { steps.old ≤ steps.new }
{
    let conclusion = resolved_term(alloc, types, store, entry.conclusion, steps)?;
    let taken = resolved_way(alloc, types, store, entry.taken, steps)?;
    Ok(Entry { conclusion, taken })
}

/// The path, with the values that cells are bound to.
fn resolved_path<L>(
    alloc: Global,
    types: &TypeTable,
    store: &mut Store,
    entries: Vec<Entry>,
    steps: &mut Steps<L>,
) -> Result<Vec<Entry>, AllocError>
    requires store { IsTypedBy types.now store.old }
    requires entries { All (HoldsEntry (as_world types.now store.old)) entries.items }
    ensures entries { IfOk result (λ list. All (HoldsEntry (as_world types.now store.new)) list.items) }
    ensures adds { AddsTypedTerms types.now store.old store.new }
    ensures steps { steps.old ≤ steps.new }
{
    let mut list = Vec::new(alloc);
    for entry in entries {
        list.push(resolved_entry(alloc, types, store, entry, steps)?)?;
    }
    Ok(list)
}

/// The path, with its values. Cells are bound then.
fn with_values<L>(
    alloc: Global,
    types: &TypeTable,
    store: &mut Store,
    path: &[Frame],
    entries: Vec<Entry>,
    steps: &mut Steps<L>,
) -> Result<Vec<Entry>, AllocError>
    requires store { IsTypedBy types.now store.old }
    requires path { HoldsPath types.now store.old path.now }
    requires entries { All (HoldsEntry (as_world types.now store.old)) entries.items }
    ensures entries { IfOk result (λ list. All (HoldsEntry (as_world types.now store.new)) list.items) }
    ensures grows { Grows types.now store.old types.now store.new }
    ensures steps { steps.old ≤ steps.new }
{
    bind_values(alloc, types, store, path, steps)?;
    resolved_path(alloc, types, store, entries, steps)
}

/// The path to the answer, goal by goal. Cells are bound meanwhile, and none is in the end.
pub fn final_path<L>(
    alloc: Global,
    world: &mut World,
    path: &[Frame],
    steps: &mut Steps<L>,
) -> Result<Vec<Entry>, AllocError>
    requires world { IsWorld world.old }
    requires path { HoldsPath world.old.types world.old.store path.now }
    ensures entries { IfOk result (λ list. All (HoldsEntry world.new) list.items) }
    ensures later { IsLater world.old world.new }
    ensures steps { steps.old ≤ steps.new }
{
    let entries = open_path(alloc, world, path, steps)?;
    let mark = world.store.mark();
    let (types, store) = (&world.types, &mut world.store);
    let list = with_values(alloc, types, store, path, entries, steps);
    world.store.rewind(&mark, steps);
    list
}
