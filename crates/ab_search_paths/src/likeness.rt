//! A goal of the kernel is like a goal of the path: but for variables, which others stand in for, and for constants.
ghost use Rattle.std.specs.Prelude.{◌≡◌, ◌↔◌, ◌≤◌, true, length, map, All, IfOk, IfSome};
ghost use Rattle.ab_term.specs.Names as tree;
ghost use Rattle.ab_norm.specs.ab_types.specs.Entries.{Table};
ghost use Rattle.ab_norm.specs.ab_types.specs.Sound.{IsTable};
ghost use Rattle.ab_norm.specs.ab_store.specs.Trees as stored;
ghost use Rattle.ab_norm.specs.ab_store.specs.Naming.{IsTypedBy};
ghost use Rattle.ab_norm.specs.NodeGrowth.{AddsTypedTerms};
ghost use Rattle.ab_norm.specs.Nominals.{nominal_of, pairs_of, HoldsNominal, HoldsPairs};
ghost use Rattle.ab_unify.specs.StoreChanges as changed;
ghost use Rattle.ab_logic.specs.Worlds.{IsWorld, Holds};
ghost use Rattle.ab_search_paths.specs.Likenesses.{IsLikeness};
ghost use Rattle.ab_search_paths.specs.MoreTerms.{GotTerms};
ghost use Rattle.ab_search_paths.specs.Paths.{AreStandIns, HoldsStandIn, IsApart, IsBeside};

use crate::opened_formulas::open_formula;
use ab_logic::World;
use ab_norm::store::{CellId, Store, TermId};
use ab_norm::types::laws::has_unique_ids;
use ab_norm::types::{Steps, TypeTable};
use ab_norm::{Nominal, Swap, copy_resolved, equal_up_to_names};
use ab_patterns::occurs;
use ab_walk::next_ways::judgements::alternatives::instances::{bind_to, constants_of};
use ab_walk::next_ways::judgements::alternatives::sequents::without_marks;
use std::alloc::{AllocError, Global};

/// A variable of the path, and the term of the kernel's goals that stands in for it.
#[derive(Clone, Copy)]
pub struct StandIn {
    pub cell: CellId,
    pub term: TermId,
}

/// What the constants of a formula of the path are in the kernel's goal, one against one.
#[derive(Drop)]
pub struct Likeness {
    pub names: Vec<Nominal>,
    pub targets: Vec<Nominal>,
}

impl Likeness {
    /// What the constant is in the kernel's goal, if the formula holds it.
    pub fn target(&self, a: Nominal) -> Option<Nominal>
        ensures held { (types : Table) → All (HoldsNominal types) self.now.targets.items → IfSome result (HoldsNominal types) }
    {
        for place in 0..self.names.len() {
            if self.names[place] == a {
                return self.targets.as_slice().get(place).copied();
            }
        }
        None
    }
}

/// Whether the two are the same.
fn is_same_cell(a: CellId, b: CellId) -> bool
    ensures { (result ≡ true) ↔ (a ≡ b) }
{
    a == b
}

/// Whether the two stand in for different variables, neither of which stands in the other's term.
fn is_beside(alloc: Global, world: &World, one: StandIn, other: StandIn) -> Result<bool, AllocError>
    requires one { Holds world.now one.term }
    requires other { Holds world.now other.term }
    ensures { IfOk result (λ yes. yes ≡ true → IsBeside world.now one other) }
{
    if is_same_cell(one.cell, other.cell) {
        return Ok(false);
    }
    if occurs(alloc, &world.store, one.cell, other.term)? {
        return Ok(false);
    }
    let stands = occurs(alloc, &world.store, other.cell, one.term)?;
    Ok(!stands)
}

/// Whether the one may stand in for its variable beside the others.
fn fits(
    alloc: Global,
    world: &World,
    stand_ins: &[StandIn],
    one: StandIn,
) -> Result<bool, AllocError>
    requires one { Holds world.now one.term }
    requires others { All (λ s. Holds world.now s.term) stand_ins.now }
    ensures { IfOk result (λ yes. yes ≡ true → IsApart world.now one one × All (IsBeside world.now one) stand_ins.now) }
{
    if occurs(alloc, &world.store, one.cell, one.term)? {
        return Ok(false);
    }
    for other in stand_ins {
        if !is_beside(alloc, world, one, *other)? {
            return Ok(false);
        }
    }
    Ok(true)
}

/// Adds what stands in for one variable more. That the path has the variable once, and the goal's terms hold none of the path's, isn't
/// proved, but tried: else there is no answer.
pub fn add_stand_in(
    alloc: Global,
    world: &World,
    stand_ins: &mut Vec<StandIn>,
    one: StandIn,
) -> Result<(), AllocError>
    requires stand_ins { AreStandIns world.now stand_ins.old.items }
    requires typed { HoldsStandIn world.now one }
    ensures stand_ins { AreStandIns world.now stand_ins.new.items }
{
    if !fits(alloc, world, stand_ins, one)? {
        return Err(AllocError);
    }
    stand_ins.push(one)?;
    Ok(())
}

/// The variables.
fn cells_of(alloc: Global, stand_ins: &[StandIn]) -> Result<Vec<CellId>, AllocError>
    ensures { IfOk result (λ list. list.items ≡ map (λ s. s.cell) stand_ins.now) }
{
    let mut list = Vec::new(alloc);
    for one in stand_ins {
        list.push(one.cell)?;
    }
    Ok(list)
}

/// What stands in for the variables.
fn terms_of(alloc: Global, stand_ins: &[StandIn]) -> Result<Vec<TermId>, AllocError>
    ensures { IfOk result (λ list. list.items ≡ map (λ s. s.term) stand_ins.now) }
{
    let mut list = Vec::new(alloc);
    for one in stand_ins {
        list.push(one.term)?;
    }
    Ok(list)
}

/// The terms, with their bound variables replaced by what they are bound to.
fn resolve_terms<L>(
    alloc: Global,
    types: &TypeTable,
    store: &mut Store,
    terms: &[TermId],
    steps: &mut Steps<L>,
) -> Result<Vec<TermId>, AllocError>
    requires store { IsTypedBy types.now store.old }
    requires terms { All (stored.Holds store.old) terms.now }
    ensures held { IfOk result (λ list. All (stored.Holds store.new) list.items) }
    ensures count { IfOk result (λ list. length list.items ≡ length terms.now) }
    ensures adds { AddsTypedTerms types.now store.old store.new }
    ensures steps { steps.old ≤ steps.new }
{
    let mut list = Vec::new(alloc);
    for term in terms {
        list.push(copy_resolved(alloc, types, store, *term, steps)?)?;
    }
    Ok(list)
}

/// The terms, with what stands in for the variables bound to it.
fn put_in_bound<L>(
    alloc: Global,
    world: &mut World,
    stand_ins: &[StandIn],
    terms: &[TermId],
    steps: &mut Steps<L>,
) -> Result<Vec<TermId>, AllocError>
    requires world { IsWorld world.old }
    requires stand_ins { AreStandIns world.old stand_ins.now }
    requires terms { All (Holds world.old) terms.now }
    ensures held { IfOk result (λ list. All (Holds world.new) list.items) }
    ensures count { IfOk result (λ list. length list.items ≡ length terms.now) }
    ensures grows { changed.Grows world.old.types world.old.store world.new.types world.new.store }
    ensures types { world.new.types ≡ world.old.types }
    ensures additions { world.new.additions ≡ world.old.additions }
    ensures steps { steps.old ≤ steps.new }
{
    let cells = cells_of(alloc, stand_ins)?;
    let others = terms_of(alloc, stand_ins)?;
    let (types, store) = (&world.types, &mut world.store);
    bind_to(types, store, &cells, &others, steps)?;
    resolve_terms(alloc, types, store, terms, steps)
}

/// The terms of the path, with what stands in for its variables in their places.
pub(crate) fn put_in<L>(
    alloc: Global,
    world: &mut World,
    stand_ins: &[StandIn],
    terms: &[TermId],
    steps: &mut Steps<L>,
) -> Result<Vec<TermId>, AllocError>
    requires world { IsWorld world.old }
    requires stand_ins { AreStandIns world.old stand_ins.now }
    requires terms { All (Holds world.old) terms.now }
    ensures held { IfOk result (λ list. All (Holds world.new) list.items) }
    ensures count { IfOk result (λ list. length list.items ≡ length terms.now) }
    ensures got { GotTerms world.old world.new }
    ensures steps { steps.old ≤ steps.new }
{
    let mark = world.store.mark();
    let made = put_in_bound(alloc, world, stand_ins, terms, steps);
    world.store.rewind(&mark, steps);
    made
}

/// Whether the two are the same.
fn are_same(a: Nominal, b: Nominal) -> bool
    ensures { (result ≡ true) ↔ (a ≡ b) }
{
    a == b
}

/// What the pairs make of the constant.
fn moved_constant(pairs: &[Swap], a: Nominal) -> Nominal
    ensures { (types : Table) → IsTable types → HoldsPairs types pairs.now → HoldsNominal types a →
        HoldsNominal types result × (nominal_of types result ≡ tree.moved_by (pairs_of types pairs.now) (nominal_of types a)) }
{
    for pair in pairs {
        if are_same(pair.from, a) {
            return pair.to;
        }
    }
    a
}

/// What the pairs make of the constants.
fn all_moved(
    alloc: Global,
    types: &TypeTable,
    pairs: &[Swap],
    names: &[Nominal],
) -> Result<Vec<Nominal>, AllocError>
    requires pairs { HoldsPairs types.now pairs.now }
    requires names { All (HoldsNominal types.now) names.now }
    ensures held { IfOk result (λ list. All (HoldsNominal types.now) list.items) }
    ensures reads { IfOk result (λ list. map (nominal_of types.now) list.items
        ≡ map (tree.moved_by (pairs_of types.now pairs.now)) (map (nominal_of types.now) names.now)) }
{
    has_unique_ids(types);
    let mut list = Vec::new(alloc);
    for a in names {
        list.push(moved_constant(pairs, *a))?;
    }
    Ok(list)
}

/// What the constants of the first term are in the second, which is the same but for constants.
fn compare_terms(
    alloc: Global,
    world: &World,
    here: TermId,
    there: TermId,
) -> Result<Likeness, AllocError>
    requires world { IsWorld world.now }
    requires here { Holds world.now here }
    requires there { Holds world.now there }
    ensures like { IfOk result (IsLikeness world.now.types) }
{
    let (types, store) = (&world.types, &world.store);
    let Some(by) = equal_up_to_names(alloc, types, store, here, there)? else {
        return Err(AllocError);
    };
    let names = constants_of(alloc, types, store, &[here])?;
    let targets = all_moved(alloc, types, by.pairs.as_slice(), &names)?;
    Ok(Likeness { names, targets })
}

/// What the constants of the first formula are in the second, which is the same but for constants once the judgements of both are opened.
fn compare_opened(
    alloc: Global,
    world: &mut World,
    here: TermId,
    there: TermId,
) -> Result<Likeness, AllocError>
    requires world { IsWorld world.old }
    requires here { Holds world.old here }
    requires there { Holds world.old there }
    ensures like { IfOk result (IsLikeness world.new.types) }
    ensures got { GotTerms world.old world.new }
{
    let first = open_formula(alloc, world, here)?;
    let second = open_formula(alloc, world, there)?;
    compare_terms(alloc, world, first, second)
}

/// What the constants of the path's formula are in the kernel's, which is like it once the judgements of both are opened: terms that were
/// put in for variables may have made more of them open.
pub fn compare<L>(
    alloc: Global,
    world: &mut World,
    stand_ins: &[StandIn],
    formula: TermId,
    conclusion: TermId,
    steps: &mut Steps<L>,
) -> Result<Likeness, AllocError>
    requires world { IsWorld world.old }
    requires stand_ins { AreStandIns world.old stand_ins.now }
    requires formula { Holds world.old formula }
    requires conclusion { Holds world.old conclusion }
    ensures like { IfOk result (IsLikeness world.new.types) }
    ensures got { GotTerms world.old world.new }
    ensures steps { steps.old ≤ steps.new }
{
    let here = put_in(alloc, world, stand_ins, &[formula], steps)?;
    compare_opened(alloc, world, here[0], conclusion)
}

/// What the constants of a hypothesis are in the other formula, which is like it without marks once the judgements of both are opened.
pub fn compare_unmarked(
    alloc: Global,
    world: &mut World,
    hypothesis: TermId,
    formula: TermId,
) -> Result<Likeness, AllocError>
    requires world { IsWorld world.old }
    requires hypothesis { Holds world.old hypothesis }
    requires formula { Holds world.old formula }
    ensures like { IfOk result (IsLikeness world.new.types) }
    ensures got { GotTerms world.old world.new }
{
    let given = without_marks(alloc, world, hypothesis)?;
    let asked = without_marks(alloc, world, formula)?;
    compare_opened(alloc, world, given, asked)
}
