//! Terms that rules make: nominal constants, instances, and variables that may depend on constants.
ghost use Rattle.std.specs.Prelude.{◌≡◌, ◌≤◌, ℕ, IfOk, OnOk, map, length, All, List, [], ◌∷◌};
ghost use Rattle.ab_term.specs.Types.{arrow, arrows};
ghost use Rattle.ab_term.specs.Substitution.{instance, instance_by_all};
ghost use Rattle.ab_norm.specs.ab_types.specs.Entries.{IsExtendedBy as IsPartOf};
ghost use Rattle.ab_norm.specs.ab_types.specs.Ids.{HoldsType, type_of};
ghost use Rattle.ab_norm.specs.Nominals.{nominal_of, HoldsNominal};
ghost use Rattle.ab_logic.specs.Worlds.{IsWorld, Holds, HoldsCell, read, variable_of, declarations_of};
ghost use Rattle.ab_logic.specs.WorldGrowth.{Grows};
ghost use Rattle.ab_theory.specs.Rules.{name_term, variable_term, hint_of, raised, applied};
ghost use Rattle.ab_rules.specs.Terms.{Adds};

use ab_logic::World;
use ab_norm::name::Name;
use ab_norm::store::{CellId, Head, Node, TermId};
use ab_norm::types::{Steps, TypeId};
use ab_norm::{Nominal, eta, instantiate};
use std::alloc::{AllocError, Global};

/// A nominal constant as a term.
pub(crate) fn name_term(
    alloc: Global,
    world: &mut World,
    name: Nominal,
) -> Result<TermId, AllocError>
    requires world { IsWorld world.old }
    requires name { HoldsNominal world.old.types name }
    ensures adds { Adds world.old world.new }
    ensures held { IfOk result (Holds world.new) }
    ensures reads { IfOk result (λ t. read world.new t ≡ name_term (nominal_of world.old.types name)) }
{
    eta(
        alloc,
        &world.types,
        &mut world.store,
        Head::Nominal(name.number, name.ty),
        name.ty,
    )
}

/// The abstraction with the terms for its outermost bound names.
pub(crate) fn instance_of<L>(
    alloc: Global,
    world: &mut World,
    lam: TermId,
    args: &[TermId],
    steps: &mut Steps<L>,
) -> Result<TermId, AllocError>
    requires world { IsWorld world.old }
    requires lam { Holds world.old lam }
    requires args { All (Holds world.old) args.now }
    ensures adds { Adds world.old world.new }
    ensures held { IfOk result (Holds world.new) }
    ensures reads { IfOk result (λ t. read world.new t ≡ instance_by_all (read world.old lam) (map (read world.old) args.now)) }
    ensures steps { steps.old ≤ steps.new }
{
    instantiate(alloc, &world.types, &mut world.store, lam, args, steps)
}

/// The nominal constants as terms.
pub(crate) fn name_terms(
    alloc: Global,
    world: &mut World,
    names: &[Nominal],
) -> Result<Vec<TermId>, AllocError>
    requires world { IsWorld world.old }
    requires names { All (HoldsNominal world.old.types) names.now }
    ensures adds { Adds world.old world.new }
    ensures held { IfOk result (λ ts. All (Holds world.new) ts.items) }
    ensures reads { IfOk result (λ ts. map (read world.new) ts.items ≡ map name_term (map (nominal_of world.old.types) names.now)) }
{
    let mut terms = Vec::new(alloc);
    for name in names {
        terms.push(name_term(alloc, world, *name)?)?;
    }
    Ok(terms)
}

/// The type of what takes constants of these types, and then gives a term of the type.
fn type_over(world: &mut World, names: &[Nominal], ty: TypeId) -> Result<TypeId, AllocError>
    requires world { IsWorld world.old }
    requires names { All (HoldsNominal world.old.types) names.now }
    requires ty { HoldsType world.old.types ty }
    ensures grows { Grows world.old world.new }
    ensures declared { declarations_of world.new ≡ declarations_of world.old }
    ensures store { world.new.store ≡ world.old.store }
    ensures part { IsPartOf world.old.types world.new.types }
    ensures held { IfOk result (HoldsType world.new.types) }
    ensures reads { IfOk result (λ a. type_of world.new.types a
        ≡ arrows (map (λ n. n.type) (map (nominal_of world.old.types) names.now)) (type_of world.old.types ty)) }
{
    let mut over = ty;
    let mut left = names.len();
    while left > 0 {
        left -= 1;
        over = arrow_from(world, names[left].ty, over)?;
    }
    Ok(over)
}

/// The type of functions from one type to another.
fn arrow_from(world: &mut World, from: TypeId, to: TypeId) -> Result<TypeId, AllocError>
    requires world { IsWorld world.old }
    requires from { HoldsType world.old.types from }
    requires to { HoldsType world.old.types to }
    ensures grows { Grows world.old world.new }
    ensures declared { declarations_of world.new ≡ declarations_of world.old }
    ensures store { world.new.store ≡ world.old.store }
    ensures part { IsPartOf world.old.types world.new.types }
    ensures held { IfOk result (HoldsType world.new.types) }
    ensures reads { IfOk result (λ a. type_of world.new.types a ≡ arrow (type_of world.old.types from) (type_of world.old.types to)) }
{
    world.types.arrow(from, to)
}

/// The hint of the binder that a quantifier is given.
pub(crate) fn hint(alloc: Global, world: &World, body: TermId) -> Result<Name, AllocError>
    requires { Holds world.now body }
    ensures { IfOk result (λ name. name ≡ hint_of (read world.now body)) }
{
    match world.store.view(body) {
        Node::Lam(_, hint, _) => hint.copy(alloc),
        Node::Spine(_, _) => Name::from_text(alloc, "x"),
    }
}

/// A new variable of that name for the name of a quantifier of the type, that may depend on the constants.
pub(crate) fn raised_variable(
    world: &mut World,
    name: Name,
    ty: TypeId,
    names: &[Nominal],
) -> Result<CellId, AllocError>
    requires world { IsWorld world.old }
    requires ty { HoldsType world.old.types ty }
    requires names { All (HoldsNominal world.old.types) names.now }
    ensures grows { Grows world.old world.new }
    ensures declared { declarations_of world.new ≡ declarations_of world.old }
    ensures part { IsPartOf world.old.types world.new.types }
    ensures held { IfOk result (HoldsCell world.new) }
    ensures reads { IfOk result (λ c. variable_of world.new c
        ≡ raised (length world.old.store.cells) name (type_of world.old.types ty) (map (nominal_of world.old.types) names.now)) }
{
    let ty = type_over(world, names, ty)?;
    new_cell(world, name, ty)
}

/// A new cell for terms of the type.
fn new_cell(world: &mut World, name: Name, ty: TypeId) -> Result<CellId, AllocError>
    requires world { IsWorld world.old }
    requires ty { HoldsType world.old.types ty }
    ensures grows { Grows world.old world.new }
    ensures declared { declarations_of world.new ≡ declarations_of world.old }
    ensures types { world.new.types ≡ world.old.types }
    ensures held { IfOk result (HoldsCell world.new) }
    ensures reads { IfOk result (λ c. variable_of world.new c
        ≡ record { number = length world.old.store.cells; type = type_of world.old.types ty; name = name }) }
{
    world.store.cell(name, ty)
}

/// The variable, given the constants.
pub(crate) fn variable_given<L>(
    alloc: Global,
    world: &mut World,
    cell: CellId,
    names: &[Nominal],
    steps: &mut Steps<L>,
) -> Result<TermId, AllocError>
    requires world { IsWorld world.old }
    requires cell { HoldsCell world.old cell }
    requires names { All (HoldsNominal world.old.types) names.now }
    ensures adds { Adds world.old world.new }
    ensures held { IfOk result (Holds world.new) }
    ensures reads { IfOk result (λ t. read world.new t ≡ applied (variable_of world.old cell) (map (nominal_of world.old.types) names.now)) }
    ensures steps { steps.old ≤ steps.new }
{
    let head = cell_term(alloc, world, cell)?;
    let args = name_terms(alloc, world, names)?;
    instance_of(alloc, world, head, &args, steps)
}

/// The variable as a term.
fn cell_term(alloc: Global, world: &mut World, cell: CellId) -> Result<TermId, AllocError>
    requires world { IsWorld world.old }
    requires cell { HoldsCell world.old cell }
    ensures adds { Adds world.old world.new }
    ensures held { IfOk result (Holds world.new) }
    ensures reads { IfOk result (λ t. read world.new t ≡ variable_term (variable_of world.old cell)) }
{
    let ty = world.store.cell_type(cell);
    eta(alloc, &world.types, &mut world.store, Head::Cell(cell), ty)
}

/// A new variable, and the body of a quantifier with it.
#[derive(Drop)]
pub(crate) struct Opened {
    pub cell: CellId,
    pub formula: TermId,
}

/// The body of a quantifier over the type, with a new variable of that name that may depend on the constants.
pub(crate) fn raise<L>(
    alloc: Global,
    world: &mut World,
    name: Name,
    body: TermId,
    ty: TypeId,
    names: &[Nominal],
    steps: &mut Steps<L>,
) -> Result<Opened, AllocError>
    requires world { IsWorld world.old }
    requires body { Holds world.old body }
    requires ty { HoldsType world.old.types ty }
    requires names { All (HoldsNominal world.old.types) names.now }
    ensures grows { Grows world.old world.new }
    ensures declared { declarations_of world.new ≡ declarations_of world.old }
    ensures cell { IfOk result (λ r. HoldsCell world.new r.cell) }
    ensures formula { IfOk result (λ r. Holds world.new r.formula) }
    ensures variable { IfOk result (λ r. variable_of world.new r.cell
        ≡ raised (length world.old.store.cells) name (type_of world.old.types ty) (map (nominal_of world.old.types) names.now)) }
    ensures reads { IfOk result (λ r. read world.new r.formula
        ≡ instance (read world.old body) (applied
        (raised (length world.old.store.cells) name (type_of world.old.types ty) (map (nominal_of world.old.types) names.now))
        (map (nominal_of world.old.types) names.now))) }
    ensures steps { steps.old ≤ steps.new }
{
    let cell = raised_variable(world, name, ty, names)?;
    let variable = variable_given(alloc, world, cell, names, steps)?;
    let formula = instance_of(alloc, world, body, &[variable], steps)?;
    Ok(Opened { cell, formula })
}
