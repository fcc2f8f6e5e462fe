//! The body of a quantifier, with a new variable over some constants for its name, or with a constant.
ghost use Rattle.std.specs.Prelude.{◌≡◌, ◌≤◌, ◌∷◌, ◌++◌, [], length, map, codes, All, IfOk};
ghost use Rattle.ab_term.specs.Types.{arrow, prop};
ghost use Rattle.ab_term.specs.Abstraction.{over, given_names};
ghost use Rattle.ab_term.specs.Substitution.{instance};
ghost use Rattle.ab_norm.specs.ab_types.specs.Entries.{kinds, constants, IsExtendedBy as IsPartOf};
ghost use Rattle.ab_norm.specs.ab_types.specs.Ids.{HoldsType, type_of};
ghost use Rattle.ab_norm.specs.ab_store.specs.Trees.{HoldsCell};
ghost use Rattle.ab_norm.specs.ab_store.specs.Naming.{IsTerm};
ghost use Rattle.ab_norm.specs.Nominals.{nominal_of, HoldsNominal};
ghost use Rattle.ab_unifiers.specs.Clauses.{name_term};
ghost use Rattle.ab_unify.specs.Problem.{cells_read};
ghost use Rattle.ab_instances.specs.ListReadings.{names_read};
ghost use Rattle.ab_logic.specs.WorldGrowth.{Grows};
ghost use Rattle.ab_logic.specs.Worlds.{IsWorld, Holds, read, declarations_of};
ghost use Rattle.ab_search_trees.specs.Ways.{hint_of};
ghost use Rattle.ab_search_ways.specs.GoalReadings.{IsFormulaIn};

use ab_instances::as_terms;
use ab_logic::World;
use ab_norm::name::Name;
use ab_norm::store::{CellId, Head, Node, TermId};
use ab_norm::types::{Steps, TypeId, TypeTable};
use ab_norm::{Nominal, eta, eta_given, instantiate};
use std::alloc::{AllocError, Global};

/// A new variable, and a formula with it.
#[derive(Clone, Copy)]
pub(crate) struct Opened {
    pub(crate) cell: CellId,
    pub(crate) formula: TermId,
}

/// The type of what depends on the constants besides.
fn type_over(types: &mut TypeTable, names: &[Nominal], ty: TypeId) -> Result<TypeId, AllocError>
    requires ty { HoldsType types.old ty }
    requires names { All (HoldsNominal types.old) names.now }
    ensures held { IfOk result (λ r. HoldsType types.new r) }
    ensures reads { IfOk result (λ r. type_of types.new r ≡ over (names_read types.old names.now) (type_of types.old ty)) }
    ensures kept { IsPartOf types.old types.new }
    ensures kinds { kinds types.new ≡ kinds types.old }
    ensures constants { constants types.new ≡ constants types.old }
{
    match names {
        [] => Ok(ty),
        [first, rest @ ..] => {
            let left = type_over(types, rest, ty)?;
            types.arrow(first.ty, left)
        }
    }
}

/// The hint of the binder of what a quantifier is given.
fn hint_of(alloc: Global, world: &World, body: TermId) -> Result<Name, AllocError>
    requires { Holds world.now body }
    ensures { IfOk result (λ name. name ≡ hint_of (read world.now body)) }
{
    match world.store.view(body) {
        Node::Lam(_, hint, _) => hint.copy(alloc),
        Node::Spine(_, _) => Name::from_text(alloc, "x"),
    }
}

/// A new cell of the hint for terms of the type over the constants.
fn cell_over(
    world: &mut World,
    hint: Name,
    ty: TypeId,
    names: &[Nominal],
) -> Result<CellId, AllocError>
    requires world { IsWorld world.old }
    requires ty { HoldsType world.old.types ty }
    requires names { All (HoldsNominal world.old.types) names.now }
    ensures grows { Grows world.old world.new }
    ensures declared { declarations_of world.new ≡ declarations_of world.old }
    ensures held { IfOk result (HoldsCell world.new.store) }
    ensures number { IfOk result (λ c. c.0 ≡ length world.old.store.cells) }
    ensures cells { IfOk result (λ c. cells_read world.new.types world.new.store ≡ cells_read world.old.types world.old.store
        ++ record { hint = hint; type = over (names_read world.old.types names.now) (type_of world.old.types ty) } ∷ []) }
{
    let over = type_over(&mut world.types, names, ty)?;
    let cell = world.store.cell(hint, over)?;
    Ok(cell)
}

/// The body of a quantifier over the type, with a new variable over the constants for its name.
pub(crate) fn raise<L>(
    alloc: Global,
    world: &mut World,
    ty: TypeId,
    body: TermId,
    names: &[Nominal],
    steps: &mut Steps<L>,
) -> Result<Opened, AllocError>
    requires world { IsWorld world.old }
    requires ty { HoldsType world.old.types ty }
    requires body { IsTerm world.old.types world.old.store [] body (arrow (type_of world.old.types ty) prop) }
    requires names { All (HoldsNominal world.old.types) names.now }
    ensures grows { Grows world.old world.new }
    ensures declared { declarations_of world.new ≡ declarations_of world.old }
    ensures number { IfOk result (λ r. r.cell.0 ≡ length world.old.store.cells) }
    ensures cells { IfOk result (λ r. cells_read world.new.types world.new.store ≡ cells_read world.old.types world.old.store
        ++ record { hint = hint_of (read world.old body); type = over (names_read world.old.types names.now) (type_of world.old.types ty) } ∷ []) }
    ensures reads { IfOk result (λ r. let ns = names_read world.old.types names.now in let A = type_of world.old.types ty in
        read world.new r.formula ≡ instance (read world.old body) (given_names (codes "x") (record { name = length world.old.store.cells; type = over ns A }) ns A)) }
    ensures formula { IfOk result (λ r. IsFormulaIn world.new r.formula) }
    ensures steps { steps.old ≤ steps.new }
{
    let hint = hint_of(alloc, world, body)?;
    let cell = cell_over(world, hint, ty, names)?;
    let (types, store) = (&world.types, &mut world.store);
    let args = as_terms(alloc, types, store, names)?;
    let variable = eta_given(alloc, types, store, Head::Cell(cell), args, ty)?;
    let formula = instantiate(alloc, types, store, body, &[variable], steps)?;
    Ok(Opened { cell, formula })
}

/// The body of a quantifier over the constant's type, with the constant for its name.
pub(crate) fn with_constant<L>(
    alloc: Global,
    world: &mut World,
    body: TermId,
    a: Nominal,
    steps: &mut Steps<L>,
) -> Result<TermId, AllocError>
    requires world { IsWorld world.old }
    requires constant { HoldsNominal world.old.types a }
    requires body { IsTerm world.old.types world.old.store [] body (arrow (type_of world.old.types a.ty) prop) }
    ensures grows { Grows world.old world.new }
    ensures declared { declarations_of world.new ≡ declarations_of world.old }
    ensures cells { cells_read world.new.types world.new.store ≡ cells_read world.old.types world.old.store }
    ensures reads { IfOk result (λ r. read world.new r ≡ instance (read world.old body) (name_term (codes "x") (nominal_of world.old.types a))) }
    ensures formula { IfOk result (IsFormulaIn world.new) }
    ensures steps { steps.old ≤ steps.new }
{
    let (types, store) = (&world.types, &mut world.store);
    let term = eta(alloc, types, store, Head::Nominal(a.number, a.ty), a.ty)?;
    instantiate(alloc, types, store, body, &[term], steps)
}
