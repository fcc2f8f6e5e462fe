//! Cells that are bound, one against one, to terms in which none of them stands.
ghost use Rattle.std.specs.Prelude.{◌≡◌, ◌≤◌, [], length, IfOk};
ghost use Rattle.ab_term.specs.Types.{prop};
ghost use Rattle.ab_term.specs.Sameness.{same_number};
ghost use Rattle.ab_term.specs.Variables.{image};
ghost use Rattle.ab_norm.specs.ab_store.specs.Trees.{Holds, tree_of};
ghost use Rattle.ab_norm.specs.ab_store.specs.Reading.{reading};
ghost use Rattle.ab_norm.specs.ab_store.specs.Marks.{HasMark, KeepsMark};
ghost use Rattle.ab_norm.specs.ab_store.specs.Naming.{IsTypedBy, IsTerm};
ghost use Rattle.ab_norm.specs.NodeGrowth.{AddsTerms};
ghost use Rattle.ab_unifiers.specs.Clauses.{put_together};
ghost use Rattle.ab_typing.specs.DefinitionReadings.{HoldsClause};
ghost use Rattle.ab_unify.specs.Problem.{variables_read};
ghost use Rattle.ab_unify.specs.StoreChanges.{Grows};
ghost use Rattle.ab_instances.specs.ListReadings.{trees_at};
ghost use Rattle.ab_instances.specs.CellBindings.{bound_to, CanBeBound};

use ab_norm::copy_resolved;
use ab_norm::store::{CellId, Mark, Store, TermId};
use ab_norm::types::{Steps, TypeTable};
use ab_typing::ClauseTerm;
use std::alloc::{AllocError, Global};

/// Binds the cells, where none is bound, to the terms.
pub(crate) fn bind_all<L>(
    types: &TypeTable,
    store: &mut Store,
    cells: &[CellId],
    terms: &[TermId],
    steps: &mut Steps<L>,
)
    requires store { IsTypedBy types.now store.old }
    requires unbound { store.old.bindings ≡ [] }
    requires fit { CanBeBound types.now store.old cells.now terms.now }
    requires room { length cells.now ≤ store.old.room }
    ensures bindings { store.new.bindings ≡ bound_to cells.now terms.now }
    ensures nodes { store.new.nodes ≡ store.old.nodes }
    ensures cells { store.new.cells ≡ store.old.cells }
    ensures typed { IsTypedBy types.now store.new }
    ensures marks { (m : Mark) → HasMark store.old m → KeepsMark store.old store.new m }
    ensures steps { steps.new ≡ steps.old }
{
    let _ = types;
    for i in 0..cells.len() {
        store.bind(cells[i], terms[i], steps);
    }
}

/// The head and the body of a clause with terms for its cells.
#[derive(Drop)]
pub(crate) struct Copied {
    pub(crate) head: TermId,
    pub(crate) body: TermId,
}

/// The head and the body of the clause with the bindings put in.
fn copy_both<L>(
    alloc: Global,
    types: &TypeTable,
    store: &mut Store,
    clause: &ClauseTerm,
    steps: &mut Steps<L>,
) -> Result<Copied, AllocError>
    requires store { IsTypedBy types.now store.old }
    requires clause { HoldsClause types.now store.old clause.now }
    ensures adds { AddsTerms store.old store.new }
    ensures typed { IsTypedBy types.now store.new }
    ensures head { IfOk result (λ copied. Holds store.new copied.head × (tree_of types.now store.new copied.head ≡ reading types.now store.old clause.now.head)) }
    ensures body { IfOk result (λ copied. Holds store.new copied.body × (tree_of types.now store.new copied.body ≡ reading types.now store.old clause.now.body)) }
    ensures steps { steps.old ≤ steps.new }
{
    let head = copy_resolved(alloc, types, store, clause.head, steps)?;
    let body = copy_resolved(alloc, types, store, clause.body, steps)?;
    Ok(Copied { head, body })
}

/// The head and the body of the clause with the terms for its cells. The cells are bound to the terms just for that.
pub(crate) fn copy_with<L>(
    alloc: Global,
    types: &TypeTable,
    store: &mut Store,
    clause: &ClauseTerm,
    terms: &[TermId],
    steps: &mut Steps<L>,
) -> Result<Copied, AllocError>
    requires store { IsTypedBy types.now store.old }
    requires unbound { store.old.bindings ≡ [] }
    requires clause { HoldsClause types.now store.old clause.now }
    requires head { IsTerm types.now store.old [] clause.now.head prop }
    requires body { IsTerm types.now store.old [] clause.now.body prop }
    requires fit { CanBeBound types.now store.old clause.now.variables terms.now }
    ensures grows { Grows types.now store.old types.now store.new }
    ensures unbound { store.new.bindings ≡ [] }
    ensures cells { store.new.cells ≡ store.old.cells }
    ensures head { IfOk result (λ copied. IsTerm types.now store.new [] copied.head prop × (tree_of types.now store.new copied.head
        ≡ image same_number (put_together (variables_read types.now store.old clause.now.variables) (trees_at types.now store.old terms.now)) (tree_of types.now store.old clause.now.head))) }
    ensures body { IfOk result (λ copied. IsTerm types.now store.new [] copied.body prop × (tree_of types.now store.new copied.body
        ≡ image same_number (put_together (variables_read types.now store.old clause.now.variables) (trees_at types.now store.old terms.now)) (tree_of types.now store.old clause.now.body))) }
    ensures steps { steps.old ≤ steps.new }
{
    let mark = store.mark();
    let cells = clause.variables.as_slice();
    store.reserve(cells.len())?;
    bind_all(types, store, cells, terms, steps);
    let copied = copy_both(alloc, types, store, clause, steps);
    store.rewind(&mark, steps);
    copied
}
