//! Pruning: flexible cells lose the names that are foreign where they stand.
ghost use Rattle.std.specs.Prelude.{◌≡◌, ℕ, ◌≤◌, List, map, false, All, IfOk, OnOk, Contains, codes};
ghost use Rattle.ab_term.specs.Types.{Ty, kind};
ghost use Rattle.ab_term.specs.Terms as tree;
ghost use Rattle.ab_term.specs.Terms.{terms_of};
ghost use Rattle.ab_term.specs.Variables.{image};
ghost use Rattle.ab_term.specs.Sameness.{same_number};
ghost use Rattle.ab_term.specs.Typing.{TakeType};
ghost use Rattle.ab_term.specs.Abstraction as closing;
ghost use Rattle.ab_norm.specs.ab_types.specs.Entries.{Table, signature};
ghost use Rattle.ab_norm.specs.ab_types.specs.Ids.{type_of};
ghost use Rattle.ab_norm.specs.ab_store.specs.Trees.{Contents, Holds, cell_of, tree_of, head_reading};
ghost use Rattle.ab_norm.specs.ab_store.specs.Reading.{cell_variable};
ghost use Rattle.ab_norm.specs.ab_store.specs.Bindings.{IsResolved};
ghost use Rattle.ab_norm.specs.ab_store.specs.Naming.{HoldsHead, IsTypedBy, IsTerm};
ghost use Rattle.ab_patterns.specs.ab_unifiers.specs.Patterns as solve;
ghost use Rattle.ab_patterns.specs.ab_unifiers.specs.Replacements as replacing;
ghost use Rattle.ab_patterns.specs.ab_unifiers.specs.Replacements.{Change, pruned_names, pruned_here, pruned, pruned_all};
ghost use Rattle.ab_patterns.specs.ReadingWalks.{deep};
ghost use Rattle.ab_unify.specs.Problem.{variables_read};
ghost use Rattle.ab_unify.specs.Pruning.{AllPruned, HeadIsFree};
ghost use Rattle.ab_unify.specs.StoreChanges.{Grows, IsFree, Changed, IsSomeTerm, AllUnbound, AreNames};

use crate::narrow_cells::narrow;
use ab_norm::copy_resolved;
use ab_norm::store::{CellId, Head, Node, Store, TermId};
use ab_norm::types::{Steps, TypeTable};
use ab_patterns::{FlexibleCells, Seen, common, is_flexible, keeps_all, pattern, shift_head};
use std::alloc::{AllocError, Global};

/// The names, as they are called under one more binder, and that binder's name before them.
fn under(alloc: Global, names: &[Head]) -> Result<Vec<Head>, AllocError>
    ensures reads { IfOk result (λ inner. (types : Table) (store : Contents) →
        map (head_reading types store) inner.items ≡ closing.under (map (head_reading types store) names.now)) }
    ensures names { IfOk result (λ inner. (types : Table) → AreNames types names.now → AreNames types inner.items) }
{
    let mut inner = Vec::new(alloc);
    inner.push(Head::Index(0))?;
    for name in names {
        inner.push(shift_head(0, *name)?)?;
    }
    Ok(inner)
}

/// Where the cell is given different names, and some of them are foreign: it loses these. The answer says whether it lost
/// some.
fn prune_cell<L>(
    alloc: Global,
    types: &mut TypeTable,
    store: &mut Store,
    flexible: &mut FlexibleCells,
    names: &[Head],
    cell: CellId,
    args: &[TermId],
    steps: &mut Steps<L>,
) -> Result<bool, AllocError>
    requires store { IsTypedBy types.old store.old }
    requires free { All (IsFree store.old) flexible.old.items }
    requires listed { Contains flexible.old.items cell }
    requires names { AreNames types.old names.now }
    requires held { All (Holds store.old) args.now }
    requires resolved { All (IsResolved store.old) args.now }
    requires typed { (G : List Ty) × (k : List ℕ) × TakeType (signature types.old) G (terms_of (map (tree_of types.old store.old) args.now)) (type_of types.old (cell_of store.old cell).ty) (kind k) }
    ensures grows { Grows types.old store.old types.new store.new }
    ensures steps { steps.old ≤ steps.new }
    ensures free { OnOk result (All (IsFree store.new) flexible.new.items) }
    ensures still { IfOk result (λ lost. lost ≡ false → store.new.cells ≡ store.old.cells) }
    ensures changed { OnOk result ((T : Table) (S : Contents) (F : List CellId) (c : Change (List ℕ)) →
        Changed T S F c types.old store.old flexible.old.items →
        Changed T S F (pruned_names (codes "x") (map (head_reading types.old store.old) names.now) (cell_variable types.old store.old cell)
        (solve.pattern (type_of types.old (cell_of store.old cell).ty) (terms_of (map (tree_of types.old store.old) args.now))) c) types.new store.new flexible.new.items) }
{
    // no two ids of a table stand for one type
    let _ = types.len();
    let ty = store.cell_type(cell);
    match pattern(alloc, types, store, ty, args)? {
        None => Ok(false),
        Some(others) => {
            let keep = common(alloc, &others, names)?;
            if keeps_all(&keep) {
                return Ok(false);
            }
            narrow(alloc, types, store, flexible, cell, &others, &keep, steps)?;
            Ok(true)
        }
    }
}

/// Where the term is a flexible cell that is given different names, and some of them are foreign: the cell loses these.
/// The answer says whether it lost some.
fn prune_here<L>(
    alloc: Global,
    types: &mut TypeTable,
    store: &mut Store,
    flexible: &mut FlexibleCells,
    names: &[Head],
    term: TermId,
    steps: &mut Steps<L>,
) -> Result<bool, AllocError>
    requires store { IsTypedBy types.old store.old }
    requires free { All (IsFree store.old) flexible.old.items }
    requires names { AreNames types.old names.now }
    requires term { IsSomeTerm types.old store.old term }
    requires resolved { IsResolved store.old term }
    ensures grows { Grows types.old store.old types.new store.new }
    ensures steps { steps.old ≤ steps.new }
    ensures free { OnOk result (All (IsFree store.new) flexible.new.items) }
    ensures still { IfOk result (λ lost. lost ≡ false → store.new.cells ≡ store.old.cells) }
    ensures changed { OnOk result ((T : Table) (S : Contents) (F : List CellId) (c : Change (List ℕ)) →
        Changed T S F c types.old store.old flexible.old.items →
        Changed T S F (pruned_here (codes "x") (map (head_reading types.old store.old) names.now) (tree_of types.old store.old term) c) types.new store.new flexible.new.items) }
{
    match store.view(term).copy(alloc)? {
        Node::Lam(_, _, _) => Ok(false),
        Node::Spine(head, args) => match head {
            Head::Cell(cell) => {
                if is_flexible(flexible, head) {
                    prune_cell(
                        alloc,
                        types,
                        store,
                        flexible,
                        names,
                        cell,
                        args.as_slice(),
                        steps,
                    )
                } else {
                    Ok(false)
                }
            }
            Head::Const(_) | Head::Logic(_) | Head::Nominal(_, _) | Head::Index(_) => Ok(false),
        },
    }
}

/// The same of a term in which cells may be bound by now. What was seen counts no more once the cell has lost names.
fn prune_flexible<L>(
    alloc: Global,
    types: &mut TypeTable,
    store: &mut Store,
    flexible: &mut FlexibleCells,
    names: &[Head],
    term: TermId,
    seen: &mut Seen,
    steps: &mut Steps<L>,
) -> Result<bool, AllocError>
    requires store { IsTypedBy types.old store.old }
    requires free { All (IsFree store.old) flexible.old.items }
    requires names { AreNames types.old names.now }
    requires term { IsSomeTerm types.old store.old term }
    ensures grows { Grows types.old store.old types.new store.new }
    ensures steps { steps.old ≤ steps.new }
    ensures free { OnOk result (All (IsFree store.new) flexible.new.items) }
    ensures still { IfOk result (λ lost. lost ≡ false → store.new.cells ≡ store.old.cells) }
    ensures changed { OnOk result ((T : Table) (S : Contents) (F : List CellId) (c : Change (List ℕ)) →
        Changed T S F c types.old store.old flexible.old.items →
        AreNames T names.now → (G : List Ty) (A : Ty) → IsTerm T S G term A → AllUnbound S (tree_of T S term) →
        (cells : List CellId) (outer : List (tree.Head ℕ)) → AllPruned T S cells outer c seen.old →
        let d = pruned_here (codes "x") (map (head_reading T S) names.now) (image same_number c.pairs (tree_of T S term)) c in
        Changed T S F d types.new store.new flexible.new.items × AllPruned T S cells outer d seen.new) }
{
    let here = copy_resolved(alloc, types, store, term, steps)?;
    let lost = prune_here(alloc, types, store, flexible, names, here, steps)?;
    if lost {
        *seen = Seen::new(alloc);
    }
    Ok(lost)
}

/// Whether the head is a cell that may be replaced, or one that is bound: at a term in which no bound cell stood once, that
/// is whether the head might be replaced then.
fn was_flexible(store: &Store, flexible: &FlexibleCells, head: Head) -> bool
    requires { HoldsHead store.now head }
    ensures { (T : Table) (S : Contents) (F : List CellId) (c : Change (List ℕ)) (types : Table) →
        Changed T S F c types store.now flexible.now.items → HeadIsFree S head →
        result ≡ replacing.is_flexible (variables_read T S F) (head_reading types store.now head) }
{
    match head {
        Head::Cell(cell) => is_flexible(flexible, head) || store.binding(cell).is_some(),
        Head::Const(_) | Head::Logic(_) | Head::Nominal(_, _) | Head::Index(_) => false,
    }
}

/// Each of the cells in the term, from left to right, loses the names that are not among those listed and not bound in
/// the term. The answer says whether one lost some. A part that is shared is walked once under each number of names, and
/// again once a cell has lost names since.
#[cycle(pruned)]
pub(crate) fn prune<L>(
    alloc: Global,
    types: &mut TypeTable,
    store: &mut Store,
    flexible: &mut FlexibleCells,
    names: &[Head],
    term: TermId,
    seen: &mut Seen,
    steps: &mut Steps<L>,
) -> Result<bool, AllocError>
    requires store { IsTypedBy types.old store.old }
    requires free { All (IsFree store.old) flexible.old.items }
    requires names { AreNames types.old names.now }
    requires term { IsSomeTerm types.old store.old term }
    ensures grows { Grows types.old store.old types.new store.new }
    ensures steps { steps.old ≤ steps.new }
    ensures free { OnOk result (All (IsFree store.new) flexible.new.items) }
    ensures still { IfOk result (λ lost. lost ≡ false → store.new.cells ≡ store.old.cells) }
    ensures changed { OnOk result ((T : Table) (S : Contents) (F : List CellId) (c : Change (List ℕ)) →
        Changed T S F c types.old store.old flexible.old.items →
        AreNames T names.now → (G : List Ty) (A : Ty) → IsTerm T S G term A → AllUnbound S (tree_of T S term) →
        (outer : List (tree.Head ℕ)) (depth : ℕ) → map (head_reading T S) names.now ≡ deep depth outer → AllPruned T S F outer c seen.old →
        let d = pruned (codes "x") (map (cell_variable T S) F) (map (head_reading T S) names.now) (tree_of T S term) c in
        Changed T S F d types.new store.new flexible.new.items × AllPruned T S F outer d seen.new) }
{
    if seen.has(term, names.len()) {
        return Ok(false);
    }
    let lost = prune_node(alloc, types, store, flexible, names, term, seen, steps)?;
    if !lost {
        seen.keep(term, names.len())?;
    }
    Ok(lost)
}

/// The same of a term that hasn't been seen.
#[cycle(pruned)]
fn prune_node<L>(
    alloc: Global,
    types: &mut TypeTable,
    store: &mut Store,
    flexible: &mut FlexibleCells,
    names: &[Head],
    term: TermId,
    seen: &mut Seen,
    steps: &mut Steps<L>,
) -> Result<bool, AllocError>
    requires store { IsTypedBy types.old store.old }
    requires free { All (IsFree store.old) flexible.old.items }
    requires names { AreNames types.old names.now }
    requires term { IsSomeTerm types.old store.old term }
    ensures grows { Grows types.old store.old types.new store.new }
    ensures steps { steps.old ≤ steps.new }
    ensures free { OnOk result (All (IsFree store.new) flexible.new.items) }
    ensures still { IfOk result (λ lost. lost ≡ false → store.new.cells ≡ store.old.cells) }
    ensures changed { OnOk result ((T : Table) (S : Contents) (F : List CellId) (c : Change (List ℕ)) →
        Changed T S F c types.old store.old flexible.old.items →
        AreNames T names.now → (G : List Ty) (A : Ty) → IsTerm T S G term A → AllUnbound S (tree_of T S term) →
        (outer : List (tree.Head ℕ)) (depth : ℕ) → map (head_reading T S) names.now ≡ deep depth outer → AllPruned T S F outer c seen.old →
        let d = pruned (codes "x") (map (cell_variable T S) F) (map (head_reading T S) names.now) (tree_of T S term) c in
        Changed T S F d types.new store.new flexible.new.items × AllPruned T S F outer d seen.new) }
{
    match store.view(term).copy(alloc)? {
        Node::Lam(_, _, body) => {
            let inner = under(alloc, names)?;
            prune(alloc, types, store, flexible, &inner, body, seen, steps)
        }
        Node::Spine(head, args) => {
            if was_flexible(store, flexible, head) {
                prune_flexible(alloc, types, store, flexible, names, term, seen, steps)
            } else {
                prune_all(
                    alloc,
                    types,
                    store,
                    flexible,
                    names,
                    args.as_slice(),
                    seen,
                    steps,
                )
            }
        }
    }
}

/// Whether one of the two is so.
fn is_either(one: bool, other: bool) -> bool
    ensures { result ≡ false → (one ≡ false) × (other ≡ false) }
{
    one || other
}

/// The same of several terms, from left to right.
#[cycle(pruned)]
fn prune_all<L>(
    alloc: Global,
    types: &mut TypeTable,
    store: &mut Store,
    flexible: &mut FlexibleCells,
    names: &[Head],
    terms: &[TermId],
    seen: &mut Seen,
    steps: &mut Steps<L>,
) -> Result<bool, AllocError>
    requires store { IsTypedBy types.old store.old }
    requires free { All (IsFree store.old) flexible.old.items }
    requires names { AreNames types.old names.now }
    requires terms { All (IsSomeTerm types.old store.old) terms.now }
    ensures grows { Grows types.old store.old types.new store.new }
    ensures steps { steps.old ≤ steps.new }
    ensures free { OnOk result (All (IsFree store.new) flexible.new.items) }
    ensures still { IfOk result (λ lost. lost ≡ false → store.new.cells ≡ store.old.cells) }
    ensures changed { OnOk result ((T : Table) (S : Contents) (F : List CellId) (c : Change (List ℕ)) →
        Changed T S F c types.old store.old flexible.old.items →
        AreNames T names.now → (G : List Ty) (A B : Ty) → All (Holds S) terms.now → TakeType (signature T) G (terms_of (map (tree_of T S) terms.now)) A B →
        All (λ t. AllUnbound S (tree_of T S t)) terms.now →
        (outer : List (tree.Head ℕ)) (depth : ℕ) → map (head_reading T S) names.now ≡ deep depth outer → AllPruned T S F outer c seen.old →
        let d = pruned_all (codes "x") (map (cell_variable T S) F) (map (head_reading T S) names.now) (terms_of (map (tree_of T S) terms.now)) c in
        Changed T S F d types.new store.new flexible.new.items × AllPruned T S F outer d seen.new) }
{
    let mut lost = false;
    for term in terms {
        let pruned = prune(alloc, types, store, flexible, names, *term, seen, steps)?;
        lost = is_either(lost, pruned);
    }
    Ok(lost)
}
