//! Formulas under quantifiers: cells and nominal constants become bound names.
ghost use Rattle.std.specs.Prelude.{◌≡◌, [], map, All, IfOk};
ghost use Rattle.ab_term.specs.Abstraction as closing;
ghost use Rattle.ab_term.specs.Terms.{logical, lam, spine, term, no_terms};
ghost use Rattle.ab_norm.specs.ab_types.specs.Entries.{Table};
ghost use Rattle.ab_norm.specs.ab_types.specs.Ids.{HoldsType, type_of};
ghost use Rattle.ab_norm.specs.ab_store.specs.Trees.{Holds, HoldsCell, tree_of, head_reading, logical_of};
ghost use Rattle.ab_norm.specs.ab_store.specs.Naming.{IsTypedBy, LogicalIsTyped, HeadIsTyped};
ghost use Rattle.ab_norm.specs.NodeGrowth.{AddsTerms, AddsTypedTerms};
ghost use Rattle.ab_norm.specs.Nominals.{HoldsNominal};
ghost use Rattle.ab_instances.specs.ListReadings.{names_read};
ghost use Rattle.ab_theory.specs.Unfolding.{exists_all};
ghost use Rattle.ab_alternatives.specs.RightAlternatives.{nabla_by};
ghost use Rattle.ab_logic.specs.Worlds.{variable_at};

use ab_norm::Nominal;
use ab_norm::name::Name;
use ab_norm::store::{CellId, Head, Logical, Store, TermId};
use ab_norm::types::laws::has_unique_ids;
use ab_norm::types::{TypeId, TypeTable};
use ab_patterns::{close, exists_over};
use std::alloc::{AllocError, Global};

/// The formula under the quantifier, which binds the name, of this type, under the hint.
fn quantifier_over(
    alloc: Global,
    types: &TypeTable,
    store: &mut Store,
    quantifier: Logical,
    name: Head,
    ty: TypeId,
    hint: Name,
    body: TermId,
) -> Result<TermId, AllocError>
    requires store { IsTypedBy types.now store.old }
    requires quantifier { LogicalIsTyped types.now quantifier }
    requires name { HeadIsTyped types.now name }
    requires ty { HoldsType types.now ty }
    requires body { Holds store.old body }
    ensures adds { AddsTypedTerms types.now store.old store.new }
    ensures held { IfOk result (λ r. Holds store.new r) }
    ensures tree { IfOk result (λ r. tree_of types.now store.new r ≡ spine (logical (logical_of types.now quantifier))
        (term (lam (type_of types.now ty) hint (closing.close 0 (head_reading types.now store.old name) (tree_of types.now store.old body))) no_terms)) }
{
    has_unique_ids(types);
    let closed = close(alloc, store, name, body)?;
    let abstraction = store.lam(ty, hint, closed)?;
    let args = Vec::from_array(alloc, [abstraction])?;
    store.spine(Head::Logic(quantifier), args)
}

/// The formula under `exists` over the cells, the first outermost.
pub(crate) fn exists_all(
    alloc: Global,
    store: &mut Store,
    cells: &[CellId],
    body: TermId,
) -> Result<TermId, AllocError>
    requires cells { All (HoldsCell store.old) cells.now }
    requires body { Holds store.old body }
    ensures adds { AddsTerms store.old store.new }
    ensures held { IfOk result (λ r. Holds store.new r) }
    ensures tree { IfOk result (λ r. (types : Table) →
        tree_of types store.new r ≡ exists_all (map (variable_at types store.old) cells.now) (tree_of types store.old body)) }
{
    exists_over(alloc, store, cells, body)
}

/// The formula under `nabla` over the constants, the first outermost, whose binders have these hints.
pub(crate) fn nabla_all(
    alloc: Global,
    types: &TypeTable,
    store: &mut Store,
    hints: &[Name],
    names: &[Nominal],
    body: TermId,
) -> Result<TermId, AllocError>
    requires store { IsTypedBy types.now store.old }
    requires names { All (HoldsNominal types.now) names.now }
    requires body { Holds store.old body }
    ensures adds { AddsTypedTerms types.now store.old store.new }
    ensures held { IfOk result (λ r. Holds store.new r) }
    ensures tree { IfOk result (λ r. tree_of types.now store.new r ≡ nabla_by hints.now (names_read types.now names.now) (tree_of types.now store.old body)) }
{
    match hints {
        [] => Ok(body),
        [hint, hints @ ..] => match names {
            [] => Ok(body),
            [a, names @ ..] => {
                let inner = nabla_all(alloc, types, store, hints, names, body)?;
                let hint = hint.copy(alloc)?;
                quantifier_over(
                    alloc,
                    types,
                    store,
                    Logical::Nabla(a.ty),
                    Head::Nominal(a.number, a.ty),
                    a.ty,
                    hint,
                    inner,
                )
            }
        },
    }
}
