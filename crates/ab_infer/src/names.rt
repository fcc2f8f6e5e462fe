//! What is put behind a row for a name, and around what a binder reaches over.
ghost use Rattle.std.specs.Prelude.{◌≡◌, ℕ, List, ◌+◌, ◌<◌, ◌++◌, ◌∷◌, [], length, get_or, Some, Ok, IfOk, IfSome, OnOk, MatchOption, MatchResult};
ghost use Rattle.ab_norm.specs.ab_types.specs.Entries.{Table};
ghost use Rattle.ab_norm.specs.ab_store.specs.Trees.{Contents};
ghost use Rattle.ab_meaning.specs.ResolvedNames.{Name as AName, free};
ghost use Rattle.ab_meaning.specs.Scopes.{head_named, or_unknown};
ghost use Rattle.ab_inference.specs.declared.op.Op.TheVariants.{Abs, Bind};
ghost use Rattle.ab_infer.specs.declared.scope.Bound.{Bound as ABound};
ghost use Rattle.ab_infer.specs.NameScopes.{names_in, scope_of};
ghost use Rattle.ab_infer.specs.Rows.{IsGround, Grew, Fails};
ghost use Rattle.ab_infer.specs.WalkMoves.{IsNumbered, BindsName, Unbinds};

use crate::name_meanings::{Named, resolve_name};
use crate::row::Row;
use crate::scope::{Bound, Scope};
use ab_inference::{Binds, Formulas, InferFault, Mark, Op};
use ab_norm::name::Name;
use ab_norm::store::Store;
use ab_norm::types::{TypeId, TypeTable};
use std::alloc::{AllocError, Global};

/// The number of a name among those that differ, where it is there.
fn number_in(names: &[Name], name: &Name) -> Option<usize>
    ensures { MatchOption result ((k : ℕ) → k < length names.now → get_or names.now k [] ≡ name.now → ⊥) (λ j. (j < length names.now) × (get_or names.now j [] ≡ name.now)) }
{
    for j in 0..names.len() {
        if names[j] == *name {
            return Some(j);
        }
    }
    None
}

/// The number of a free name, which is put behind the others where it isn't there.
fn free_number(alloc: Global, names: &mut Vec<Name>, name: &Name) -> Result<usize, AllocError>
    ensures { IfOk result (IsNumbered names.old.items names.new.items name.now) }
{
    if let Some(number) = number_in(names, name) {
        return Ok(number);
    }
    let number = names.len();
    names.push(name.copy(alloc)?)?;
    Ok(number)
}

/// A free name at a place.
fn put_free(alloc: Global, name: &Name, place: usize, row: &mut Row) -> Result<(), AllocError>
    ensures { (types : Table) (store : Contents) → OnOk result (Grew types store row.old row.new (Ok (free name.now place))) }
{
    let number = free_number(alloc, &mut row.names, name)?;
    row.marks.push(Mark::Free(number, place))?;
    row.steps.push(Op::Free(number, place))?;
    Ok(())
}

/// A name at a place, which may stand for nothing.
pub(crate) fn walk_name(
    alloc: Global,
    types: &TypeTable,
    store: &Store,
    formulas: Formulas,
    scope: &Scope,
    name: &Name,
    place: usize,
    row: &mut Row,
) -> Result<(), InferFault>
    requires { IsGround types.now store.now formulas scope.now }
    ensures { MatchResult result
        (λ u. Grew types.now store.now row.old row.new (or_unknown name.now (head_named (scope_of types.now store.now scope.now) (names_in row.old.bound.items) name.now place)))
        (Fails (or_unknown name.now (head_named (scope_of types.now store.now scope.now) (names_in row.old.bound.items) name.now place))) }
{
    match resolve_name(types, store, formulas.prop, scope, &row.bound, name) {
        None => Err(InferFault::Unknown(name.copy(alloc)?)),
        Some(Named::Bound(index, node)) => {
            row.put(Op::Bound(index, node))?;
            Ok(())
        }
        Some(Named::Known(head, ty)) => {
            row.put(Op::Known(head, ty))?;
            Ok(())
        }
        Some(Named::Free) => {
            put_free(alloc, name, place, row)?;
            Ok(())
        }
    }
}

/// A name is bound from here on, and gets a type variable.
pub(crate) fn bind_name(
    alloc: Global,
    name: &Name,
    place: usize,
    row: &mut Row,
) -> Result<usize, AllocError>
    ensures { IfOk result (BindsName row.old row.new name.now place) }
{
    let node = row.variables.len();
    row.variables.push(place)?;
    row.marks.push(Mark::Binder(node, place))?;
    let name = name.copy(alloc)?;
    row.bound.push(Bound { name, node })?;
    Ok(node)
}

/// The last name isn't bound any more: what the row ends with is an abstraction over it.
pub(crate) fn abstract_name(place: usize, row: &mut Row) -> Result<(), AllocError>
    ensures { (outer : List ABound) (x : AName) (n : ℕ) → row.old.bound.items ≡ outer ++ record { name = x; node = n } ∷ [] →
        OnOk result (Unbinds row.old row.new outer (Abs x n place)) }
{
    if let Some(bound) = row.bound.pop() {
        row.steps.push(Op::Abs(bound.name, bound.node, place))?;
    }
    Ok(())
}

/// The last name isn't bound any more: what the row ends with is what a quantifier over it reaches over.
pub(crate) fn quantify_name(
    binds: Binds,
    place: usize,
    written: Option<TypeId>,
    row: &mut Row,
) -> Result<(), AllocError>
    ensures { (outer : List ABound) (x : AName) (n : ℕ) → row.old.bound.items ≡ outer ++ record { name = x; node = n } ∷ [] →
        OnOk result (Unbinds row.old row.new outer (Bind binds x n place written)) }
{
    if let Some(bound) = row.bound.pop() {
        row.steps
            .push(Op::Bind(binds, bound.name, bound.node, place, written))?;
    }
    Ok(())
}
