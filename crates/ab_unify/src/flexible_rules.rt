//! The rules at flexible terms.
ghost use Rattle.std.specs.Prelude.{◌≡◌, ◌≢◌, ℕ, ◌≤◌, List, map, All, IfOk, IfSome, Contains, codes};
ghost use Rattle.ab_term.specs.Types.{Ty, kind};
ghost use Rattle.ab_term.specs.Terms.{terms_of};
ghost use Rattle.ab_term.specs.Typing.{TakeType};
ghost use Rattle.ab_norm.specs.ab_types.specs.Entries.{Table, signature};
ghost use Rattle.ab_norm.specs.ab_types.specs.Ids.{type_of};
ghost use Rattle.ab_norm.specs.ab_store.specs.Trees.{Contents, Holds, HoldsCell, cell_of, tree_of};
ghost use Rattle.ab_norm.specs.ab_store.specs.Reading.{cell_variable};
ghost use Rattle.ab_norm.specs.ab_store.specs.Bindings.{IsResolved};
ghost use Rattle.ab_norm.specs.ab_store.specs.Naming.{IsTypedBy, IsTerm};
ghost use Rattle.ab_norm.specs.NodeGrowth.{AddsTypedTerms};
ghost use Rattle.ab_patterns.specs.EquationReadings.{names_of};
ghost use Rattle.ab_patterns.specs.ab_unifiers.specs.Patterns as solve;
ghost use Rattle.ab_patterns.specs.ab_unifiers.specs.Unification.{pattern_of, same_variable_at, two_at};
ghost use Rattle.ab_unify.specs.Problem.{cells_read, variables_read};
ghost use Rattle.ab_unify.specs.StoreChanges.{Grows, IsFree, AreNames};
ghost use Rattle.ab_unify.specs.Outcome.{Tells};

use crate::inversion::invert;
use crate::joined_patterns::join;
use crate::narrow_cells::narrow;
use ab_norm::store::{CellId, Head, Store, TermId};
use ab_norm::types::{Steps, TypeTable};
use ab_patterns::{
    FlexibleCells, Numbered, agreement_flags, has_no_foreign, has_patterns, occurs, pattern,
};
use std::alloc::{AllocError, Global};

/// What a rule made of an equation.
#[derive(Drop)]
pub enum Step {
    /// It doesn't apply.
    NoRule,
    /// The sides can't become the same.
    Clash,
    /// These take its place.
    Parts(Vec<Numbered>),
    /// Cells were bound, so that both sides are the same.
    Replaced,
}

/// The names that the cell's arguments are: pairwise different, up to eta.
fn given_names(
    alloc: Global,
    types: &TypeTable,
    store: &mut Store,
    cell: CellId,
    args: &[TermId],
) -> Result<Option<Vec<Head>>, AllocError>
    requires store { IsTypedBy types.now store.old }
    requires cell { HoldsCell store.old cell }
    requires held { All (Holds store.old) args.now }
    requires resolved { All (IsResolved store.old) args.now }
    ensures adds { AddsTypedTerms types.now store.old store.new }
    ensures names { IfOk result (λ o. IfSome o (λ hs. AreNames types.now hs.items)) }
    ensures reads { IfOk result (λ o. names_of types.now store.old o ≡
        solve.pattern (type_of types.now (cell_of store.old cell).ty) (terms_of (map (tree_of types.now store.old) args.now))) }
{
    let ty = store.cell_type(cell);
    pattern(alloc, types, store, ty, args)
}

/// What the rule makes of a cell, given the arguments, against a rigid term.
pub(crate) fn solve_rigid<L>(
    alloc: Global,
    types: &mut TypeTable,
    store: &mut Store,
    flexible: &mut FlexibleCells,
    cell: CellId,
    args: &[TermId],
    term: TermId,
    steps: &mut Steps<L>,
) -> Result<Step, AllocError>
    requires store { IsTypedBy types.old store.old }
    requires free { All (IsFree store.old) flexible.old.items }
    requires listed { Contains flexible.old.items cell }
    requires held { All (Holds store.old) args.now }
    requires resolved { All (IsResolved store.old) args.now }
    requires term { IsResolved store.old term }
    requires typed { (G : List Ty) × (k : List ℕ) × TakeType (signature types.old) G (terms_of (map (tree_of types.old store.old) args.now)) (type_of types.old (cell_of store.old cell).ty) (kind k)
        × IsTerm types.old store.old G term (kind k) }
    ensures grows { Grows types.old store.old types.new store.new }
    ensures steps { steps.old ≤ steps.new }
    ensures tells { IfOk result (λ r. Tells types.old store.old flexible.old.items types.new store.new flexible.new.items r
        (pattern_of (codes "x") (cells_read types.old store.old) (variables_read types.old store.old flexible.old.items) (cell_variable types.old store.old cell) (tree_of types.old store.old term)
        (solve.pattern (type_of types.old (cell_of store.old cell).ty) (terms_of (map (tree_of types.old store.old) args.now))))) }
{
    match given_names(alloc, types, store, cell, args)? {
        None => Ok(Step::NoRule),
        Some(names) => {
            if !has_patterns(alloc, types, store, flexible, term)? {
                return Ok(Step::NoRule);
            }
            if occurs(alloc, store, cell, term)? {
                return Ok(Step::Clash);
            }
            if !has_no_foreign(alloc, types, store, flexible, &names, term)? {
                return Ok(Step::Clash);
            }
            invert(alloc, types, store, flexible, cell, &names, term, steps)?;
            Ok(Step::Replaced)
        }
    }
}

/// One cell, given the arguments on both sides.
pub(crate) fn solve_one<L>(
    alloc: Global,
    types: &mut TypeTable,
    store: &mut Store,
    flexible: &mut FlexibleCells,
    cell: CellId,
    args: &[TermId],
    more: &[TermId],
    steps: &mut Steps<L>,
) -> Result<Step, AllocError>
    requires store { IsTypedBy types.old store.old }
    requires free { All (IsFree store.old) flexible.old.items }
    requires listed { Contains flexible.old.items cell }
    requires args_held { All (Holds store.old) args.now }
    requires args_resolved { All (IsResolved store.old) args.now }
    requires more_held { All (Holds store.old) more.now }
    requires more_resolved { All (IsResolved store.old) more.now }
    requires typed { (G : List Ty) × (k : List ℕ) × TakeType (signature types.old) G (terms_of (map (tree_of types.old store.old) args.now)) (type_of types.old (cell_of store.old cell).ty) (kind k)
        × TakeType (signature types.old) G (terms_of (map (tree_of types.old store.old) more.now)) (type_of types.old (cell_of store.old cell).ty) (kind k) }
    ensures grows { Grows types.old store.old types.new store.new }
    ensures steps { steps.old ≤ steps.new }
    ensures tells { IfOk result (λ r. Tells types.old store.old flexible.old.items types.new store.new flexible.new.items r
        (same_variable_at (codes "x") (cells_read types.old store.old) (variables_read types.old store.old flexible.old.items) (cell_variable types.old store.old cell)
        (solve.pattern (type_of types.old (cell_of store.old cell).ty) (terms_of (map (tree_of types.old store.old) args.now)))
        (solve.pattern (type_of types.old (cell_of store.old cell).ty) (terms_of (map (tree_of types.old store.old) more.now))))) }
{
    // no two ids of a table stand for one type
    let _ = types.len();
    match given_names(alloc, types, store, cell, args)? {
        None => Ok(Step::NoRule),
        Some(names) => match given_names(alloc, types, store, cell, more)? {
            None => Ok(Step::NoRule),
            Some(others) => {
                let keep = agreement_flags(alloc, &names, &others)?;
                narrow(alloc, types, store, flexible, cell, &names, &keep, steps)?;
                Ok(Step::Replaced)
            }
        },
    }
}

/// Two cells, each given its arguments.
pub(crate) fn solve_two<L>(
    alloc: Global,
    types: &mut TypeTable,
    store: &mut Store,
    flexible: &mut FlexibleCells,
    older: CellId,
    args: &[TermId],
    younger: CellId,
    more: &[TermId],
    steps: &mut Steps<L>,
) -> Result<Step, AllocError>
    requires store { IsTypedBy types.old store.old }
    requires free { All (IsFree store.old) flexible.old.items }
    requires older_listed { Contains flexible.old.items older }
    requires younger_listed { Contains flexible.old.items younger }
    requires differ { older ≢ younger }
    requires args_held { All (Holds store.old) args.now }
    requires args_resolved { All (IsResolved store.old) args.now }
    requires more_held { All (Holds store.old) more.now }
    requires more_resolved { All (IsResolved store.old) more.now }
    requires typed { (G : List Ty) × (k : List ℕ) × TakeType (signature types.old) G (terms_of (map (tree_of types.old store.old) args.now)) (type_of types.old (cell_of store.old older).ty) (kind k)
        × TakeType (signature types.old) G (terms_of (map (tree_of types.old store.old) more.now)) (type_of types.old (cell_of store.old younger).ty) (kind k) }
    ensures grows { Grows types.old store.old types.new store.new }
    ensures steps { steps.old ≤ steps.new }
    ensures tells { IfOk result (λ r. Tells types.old store.old flexible.old.items types.new store.new flexible.new.items r
        (two_at (codes "x") (cells_read types.old store.old) (variables_read types.old store.old flexible.old.items)
        (cell_variable types.old store.old older) (solve.pattern (type_of types.old (cell_of store.old older).ty) (terms_of (map (tree_of types.old store.old) args.now)))
        (cell_variable types.old store.old younger) (solve.pattern (type_of types.old (cell_of store.old younger).ty) (terms_of (map (tree_of types.old store.old) more.now))))) }
{
    match given_names(alloc, types, store, older, args)? {
        None => Ok(Step::NoRule),
        Some(names) => match given_names(alloc, types, store, younger, more)? {
            None => Ok(Step::NoRule),
            Some(others) => {
                join(
                    alloc, types, store, flexible, older, &names, younger, &others, steps,
                )?;
                Ok(Step::Replaced)
            }
        },
    }
}
