//! One quantifier or antecedent is taken off a formula.
ghost use Rattle.std.specs.Prelude.{◌≡◌, ◌≤◌, ◌++◌, [], ◌∷◌, List, map, length, true, false, All, IfOk, OnOk, Ok};
ghost use Rattle.ab_term.specs.Types.{Ty, prop};
ghost use Rattle.ab_term.specs.Typing.{HasType};
ghost use Rattle.ab_term.specs.Names.{support};
ghost use Rattle.ab_norm.specs.ab_types.specs.Entries.{signature};
ghost use Rattle.ab_norm.specs.ab_types.specs.Ids.{HoldsType, type_of};
ghost use Rattle.ab_norm.specs.ab_store.specs.Trees.{Holds, tree_of};
ghost use Rattle.ab_norm.specs.ab_store.specs.Growth.{IsExtendedBy};
ghost use Rattle.ab_norm.specs.ab_store.specs.Naming.{IsTypedBy, IsTerm};
ghost use Rattle.ab_norm.specs.NodeGrowth.{AddsTypedTerms};
ghost use Rattle.ab_norm.specs.Nominals.{HoldsNominal, nominal_of};
ghost use Rattle.ab_unifiers.specs.Choices.{is_in};
ghost use Rattle.ab_unify.specs.StoreChanges.{Grows};
ghost use Rattle.ab_alternatives.specs.ab_instances.specs.ListReadings.{names_read};
ghost use Rattle.ab_theory.specs.Pieces.{variable_for, given_term, constant_for, antecedent};
ghost use Rattle.ab_theory.specs.Uses.{used, types_chosen};
ghost use Rattle.ab_theory.specs.Uses as spec;
ghost use Rattle.ab_consequences.specs.Leading.{instance_by, chosen, met};
ghost use Rattle.ab_consequences.specs.UseStages.{stages_of};
ghost use Rattle.ab_uses.specs.UseCells.{HoldsPart, part_read, HasParts, IsUnderWay, GoesOn, GoesOnBy};

use crate::formulas::{sides_of, with_term};
use crate::made_uses::Made;
use crate::part::Part;
use crate::stage::Stage;
use crate::variables::{cell_over_constants, given_constants};
use ab_alternatives::instances::{constants_of, outside};
use ab_norm::name::Name;
use ab_norm::store::{Head, Store, TermId};
use ab_norm::types::{Steps, TypeId, TypeTable};
use ab_norm::{Nominal, eta};
use std::alloc::{AllocError, Global};

/// Puts the term for the name of the quantifier.
fn open_with<L>(
    alloc: Global,
    types: &TypeTable,
    store: &mut Store,
    term: TermId,
    made: &mut Made,
    steps: &mut Steps<L>,
) -> Result<(), AllocError>
    requires store { IsTypedBy types.now store.old }
    requires term { (A : Ty) × IsTerm types.now store.old [] term A }
    requires under_way { IsUnderWay types.now store.old made.old }
    requires fits { HasType (signature types.now) [] (spec.with_term (tree_of types.now store.old made.old.result) (tree_of types.now store.old term)) prop }
    ensures adds { AddsTypedTerms types.now store.old store.new }
    ensures under_way { OnOk result (IsUnderWay types.now store.new made.new) }
    ensures cells { made.new.cells ≡ made.old.cells }
    ensures antecedents { made.new.antecedents ≡ made.old.antecedents }
    ensures stages { OnOk result (GoesOnBy types.now store.old made.old (instance_by (tree_of types.now store.old term) ∷ []) types.now store.new made.new) }
    ensures result { OnOk result (tree_of types.now store.new made.new.result ≡ spec.with_term (tree_of types.now store.old made.old.result) (tree_of types.now store.old term)) }
    ensures steps { steps.old ≤ steps.new }
{
    let opened = with_term(alloc, types, store, made.result, term, steps)?;
    made.stages.push(Stage::Instance(term))?;
    made.result = opened;
    Ok(())
}

/// Puts a new variable of the hint and the type for the name of the `forall`, over the constants held that aren't chosen.
fn put_variable<L>(
    alloc: Global,
    types: &mut TypeTable,
    store: &mut Store,
    held: &[Nominal],
    chosen: &[Nominal],
    hint: &Name,
    ty: TypeId,
    made: &mut Made,
    steps: &mut Steps<L>,
) -> Result<(), AllocError>
    requires store { IsTypedBy types.old store.old }
    requires held { All (HoldsNominal types.old) held.now }
    requires chosen { All (HoldsNominal types.old) chosen.now }
    requires ty { HoldsType types.old ty }
    requires under_way { IsUnderWay types.old store.old made.old }
    requires front { HasParts (signature types.old) (variable_for hint.now (type_of types.old ty) ∷ []) (tree_of types.old store.old made.old.result) }
    ensures goes { OnOk result (GoesOn types.old store.old made.old
        (used (names_read types.old held.now) (length store.old.cells) (variable_for hint.now (type_of types.old ty) ∷ []) (names_read types.old chosen.now) (tree_of types.old store.old made.old.result))
        types.new store.new made.new) }
    ensures stages { OnOk result (GoesOnBy types.old store.old made.old
        (stages_of (names_read types.old held.now) (length store.old.cells) (variable_for hint.now (type_of types.old ty) ∷ []) (names_read types.old chosen.now))
        types.new store.new made.new) }
    ensures grows { Grows types.old store.old types.new store.new }
    ensures before { IsExtendedBy store.old store.new }
    ensures steps { steps.old ≤ steps.new }
{
    let free = outside(alloc, types, held, chosen)?;
    let cell = cell_over_constants(alloc, types, store, hint, ty, &free)?;
    let term = given_constants(alloc, types, store, cell, ty, &free)?;
    made.cells.push(cell)?;
    open_with(alloc, types, store, term, made, steps)
}

/// Whether the constant stands in the formula.
fn stands_in(
    alloc: Global,
    types: &TypeTable,
    store: &Store,
    a: Nominal,
    formula: TermId,
) -> Result<bool, AllocError>
    requires store { IsTypedBy types.now store.now }
    requires a { HoldsNominal types.now a }
    requires formula { Holds store.now formula }
    ensures { IfOk result (λ stands. stands ≡ is_in (support (tree_of types.now store.now formula)) (nominal_of types.now a)) }
{
    let standing = constants_of(alloc, types, store, &[formula])?;
    let apart = outside(alloc, types, &[a], &standing)?;
    Ok(apart.is_empty())
}

/// Puts the constant for the name of the `nabla`, unless it stands in the formula.
fn put_constant<L>(
    alloc: Global,
    types: &TypeTable,
    store: &mut Store,
    a: Nominal,
    made: &mut Made,
    steps: &mut Steps<L>,
) -> Result<bool, AllocError>
    requires store { IsTypedBy types.now store.old }
    requires a { HoldsNominal types.now a }
    requires under_way { IsUnderWay types.now store.old made.old }
    requires front { HasParts (signature types.now) (constant_for (type_of types.now a.ty) ∷ []) (tree_of types.now store.old made.old.result) }
    ensures goes { result ≡ Ok true → GoesOn types.now store.old made.old
        (used [] (length store.old.cells) (constant_for (type_of types.now a.ty) ∷ []) (nominal_of types.now a ∷ []) (tree_of types.now store.old made.old.result))
        types.now store.new made.new }
    ensures stages { result ≡ Ok true → GoesOnBy types.now store.old made.old (chosen (nominal_of types.now a) ∷ []) types.now store.new made.new }
    ensures passed_over { result ≡ Ok false → is_in (support (tree_of types.now store.old made.old.result)) (nominal_of types.now a) ≡ true }
    ensures adds { AddsTypedTerms types.now store.old store.new }
    ensures steps { steps.old ≤ steps.new }
{
    if stands_in(alloc, types, store, a, made.result)? {
        return Ok(false);
    }
    let term = eta(alloc, types, store, Head::Nominal(a.number, a.ty), a.ty)?;
    let opened = with_term(alloc, types, store, made.result, term, steps)?;
    made.stages.push(Stage::Chosen(a, opened))?;
    made.result = opened;
    Ok(true)
}

/// Takes the antecedent off.
fn take_antecedent(types: &TypeTable, store: &Store, made: &mut Made) -> Result<(), AllocError>
    requires store { IsTypedBy types.now store.now }
    requires under_way { IsUnderWay types.now store.now made.old }
    requires front { HasParts (signature types.now) (antecedent ∷ []) (tree_of types.now store.now made.old.result) }
    ensures goes { OnOk result (GoesOn types.now store.now made.old
        (used [] (length store.now.cells) (antecedent ∷ []) [] (tree_of types.now store.now made.old.result))
        types.now store.now made.new) }
    ensures stages { OnOk result (GoesOnBy types.now store.now made.old (met ∷ []) types.now store.now made.new) }
{
    let _ = types;
    let sides = sides_of(store, made.result);
    made.antecedents.push(sides.left)?;
    made.stages.push(Stage::Antecedent)?;
    made.result = sides.right;
    Ok(())
}

/// Takes one quantifier or antecedent off. False where the constant for a `nabla` stands in its formula.
pub(crate) fn take_part<L>(
    alloc: Global,
    types: &mut TypeTable,
    store: &mut Store,
    held: &[Nominal],
    part: &Part,
    chosen: &[Nominal],
    made: &mut Made,
    steps: &mut Steps<L>,
) -> Result<bool, AllocError>
    requires store { IsTypedBy types.old store.old }
    requires held { All (HoldsNominal types.old) held.now }
    requires part { HoldsPart types.old store.old part.now }
    requires chosen { All (HoldsNominal types.old) chosen.now }
    requires under_way { IsUnderWay types.old store.old made.old }
    requires front { HasParts (signature types.old) (part_read types.old store.old part.now ∷ []) (tree_of types.old store.old made.old.result) }
    requires fit { (more : List Ty) × (map (λ a. a.type) (names_read types.old chosen.now) ≡ types_chosen (part_read types.old store.old part.now ∷ []) ++ more) }
    ensures goes { result ≡ Ok true → GoesOn types.old store.old made.old
        (used (names_read types.old held.now) (length store.old.cells) (part_read types.old store.old part.now ∷ []) (names_read types.old chosen.now) (tree_of types.old store.old made.old.result))
        types.new store.new made.new }
    ensures stages { result ≡ Ok true → GoesOnBy types.old store.old made.old
        (stages_of (names_read types.old held.now) (length store.old.cells) (part_read types.old store.old part.now ∷ []) (names_read types.old chosen.now))
        types.new store.new made.new }
    ensures passed_over { result ≡ Ok false →
        (used (names_read types.old held.now) (length store.old.cells) (part_read types.old store.old part.now ∷ []) (names_read types.old chosen.now) (tree_of types.old store.old made.old.result)).outside ≡ false }
    ensures grows { Grows types.old store.old types.new store.new }
    ensures before { IsExtendedBy store.old store.new }
    ensures steps { steps.old ≤ steps.new }
{
    match part {
        Part::Variable(hint, ty) => {
            put_variable(alloc, types, store, held, chosen, hint, *ty, made, steps)?;
            Ok(true)
        }
        Part::Given(term) => {
            open_with(alloc, types, store, *term, made, steps)?;
            Ok(true)
        }
        Part::Constant(_) => match chosen {
            [] => Ok(true),
            [a, ..] => put_constant(alloc, types, store, *a, made, steps),
        },
        Part::Antecedent => {
            take_antecedent(types, store, made)?;
            Ok(true)
        }
    }
}
