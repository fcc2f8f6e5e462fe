//! What is taken off a formula, with what cells are bound to in their places.
ghost use Rattle.std.specs.Prelude.{◌≡◌, ◌≢◌, ◌≤◌, [], ◌∷◌, ◌++◌, map, All, IfOk, OnOk};
ghost use Rattle.ab_norm.specs.ab_types.specs.Ids.{HoldsType, type_of};
ghost use Rattle.ab_term.specs.Variables.{image};
ghost use Rattle.ab_term.specs.Sameness.{same_number};
ghost use Rattle.ab_norm.specs.ab_store.specs.declared.node.CellId.{CellId as ACell};
ghost use Rattle.ab_norm.specs.ab_store.specs.declared.node.TermId.{TermId as AnId};
ghost use Rattle.ab_norm.specs.ab_store.specs.Trees.{Holds, HoldsCell, cell_of, tree_of};
ghost use Rattle.ab_norm.specs.ab_store.specs.Reading.{binding_of, cell_variable, reading};
ghost use Rattle.ab_norm.specs.ab_store.specs.Bindings.{IsUnbound};
ghost use Rattle.ab_norm.specs.ab_store.specs.Naming.{IsTypedBy};
ghost use Rattle.ab_norm.specs.NodeGrowth.{AddsTypedTerms};
ghost use Rattle.ab_norm.specs.Nominals.{HoldsNominal, nominal_of};
ghost use Rattle.ab_unifiers.specs.Choices as plain;
ghost use Rattle.ab_alternatives.specs.ab_instances.specs.ListReadings.{names_read};
ghost use Rattle.ab_theory.specs.Rules.{name_term};
ghost use Rattle.ab_unify.specs.StoreChanges.{Grows};
ghost use Rattle.ab_unify.specs.UnifyAnswers.{AreInAge};
ghost use Rattle.ab_consequences.specs.NewConstants.{constants_for};
ghost use Rattle.ab_uses.specs.StageReadings.{stage_by};
ghost use Rattle.ab_uses.specs.ClosedReadings.{open_among, closed_reading};
ghost use Rattle.ab_uses.specs.UseCells.{StageIsTyped, stages_read};

use crate::stage::Stage;
use ab_alternatives::instances::choices;
use ab_norm::store::{CellId, Head, Store};
use ab_norm::types::{Steps, TypeId, TypeTable};
use ab_norm::{Nominal, copy_resolved, eta};
use ab_patterns::occurs;
use std::alloc::{AllocError, Global};

/// A constant of the type that isn't among these: the one of the least number.
fn new_constant(
    alloc: Global,
    types: &TypeTable,
    ty: TypeId,
    known: &[Nominal],
) -> Result<Nominal, AllocError>
    requires ty { HoldsType types.now ty }
    requires known { All (HoldsNominal types.now) known.now }
    ensures held { IfOk result (HoldsNominal types.now) }
    ensures new { IfOk result (λ a. nominal_of types.now a ≡ plain.new_constant (names_read types.now known.now) (type_of types.now ty)) }
{
    let list = choices(alloc, types, &[ty], &[], known)?;
    let Some(names) = list.as_slice().first() else {
        unreachable!();
    };
    let Some(constant) = names.as_slice().first() else {
        unreachable!();
    };
    Ok(*constant)
}

/// The cell, which is bound to nothing, is bound to the constant of its type.
fn bind_constant<L>(
    alloc: Global,
    types: &TypeTable,
    store: &mut Store,
    cell: CellId,
    constant: Nominal,
    steps: &mut Steps<L>,
) -> Result<(), AllocError>
    requires store { IsTypedBy types.now store.old }
    requires cell { HoldsCell store.old cell }
    requires unbound { IsUnbound store.old cell }
    requires constant { HoldsNominal types.now constant }
    requires ty { type_of types.now constant.ty ≡ type_of types.now (cell_of store.old cell).ty }
    ensures reads { OnOk result ((t : AnId) → Holds store.old t →
        reading types.now store.new t
        ≡ image same_number ((cell_variable types.now store.old cell, name_term (nominal_of types.now constant)) ∷ []) (reading types.now store.old t)) }
    ensures others { OnOk result ((c : ACell) → c.0 ≢ cell.0 → binding_of store.new c ≡ binding_of store.old c) }
    ensures grows { Grows types.now store.old types.now store.new }
    ensures steps { steps.old ≤ steps.new }
{
    let head = Head::Nominal(constant.number, constant.ty);
    let term = eta(alloc, types, store, head, constant.ty)?;
    let resolved = copy_resolved(alloc, types, store, term, steps)?;
    if occurs(alloc, store, cell, resolved)? {
        unreachable!();
    }
    store.reserve(1)?;
    store.bind(cell, resolved, steps);
    Ok(())
}

/// The cell is bound to a constant that isn't among these, if it is bound to nothing.
fn fill<L>(
    alloc: Global,
    types: &TypeTable,
    store: &mut Store,
    cell: CellId,
    known: &mut Vec<Nominal>,
    steps: &mut Steps<L>,
) -> Result<(), AllocError>
    requires store { IsTypedBy types.now store.old }
    requires cell { HoldsCell store.old cell }
    requires known { All (HoldsNominal types.now) known.old.items }
    ensures reads { OnOk result ((t : AnId) → Holds store.old t → reading types.now store.new t ≡ closed_reading types.now store.old (names_read types.now known.old.items) (cell ∷ []) t) }
    ensures names { OnOk result (names_read types.now known.new.items
        ≡ names_read types.now known.old.items ++ constants_for (names_read types.now known.old.items) (open_among types.now store.old (cell ∷ []))) }
    ensures others { OnOk result ((c : ACell) → c.0 ≢ cell.0 → binding_of store.new c ≡ binding_of store.old c) }
    ensures grows { Grows types.now store.old types.now store.new }
    ensures known { All (HoldsNominal types.now) known.new.items }
    ensures steps { steps.old ≤ steps.new }
{
    if store.binding(cell).is_some() {
        return Ok(());
    }
    let ty = store.cell_type(cell);
    let constant = new_constant(alloc, types, ty, known)?;
    known.push(constant)?;
    bind_constant(alloc, types, store, cell, constant, steps)
}

/// Each of the cells that is bound to nothing is bound to a new constant.
fn fill_all<L>(
    alloc: Global,
    types: &TypeTable,
    store: &mut Store,
    cells: &[CellId],
    known: &mut Vec<Nominal>,
    steps: &mut Steps<L>,
) -> Result<(), AllocError>
    requires store { IsTypedBy types.now store.old }
    requires cells { All (HoldsCell store.old) cells.now }
    requires in_age { AreInAge cells.now }
    requires known { All (HoldsNominal types.now) known.old.items }
    ensures reads { OnOk result ((t : AnId) → Holds store.old t → reading types.now store.new t ≡ closed_reading types.now store.old (names_read types.now known.old.items) cells.now t) }
    ensures grows { Grows types.now store.old types.now store.new }
    ensures steps { steps.old ≤ steps.new }
{
    for cell in cells {
        fill(alloc, types, store, *cell, known, steps)?;
    }
    Ok(())
}

/// The stage, with what cells are bound to in their places.
fn resolve_stage<L>(
    alloc: Global,
    types: &TypeTable,
    store: &mut Store,
    stage: &Stage,
    steps: &mut Steps<L>,
) -> Result<Stage, AllocError>
    requires store { IsTypedBy types.now store.old }
    requires stage { StageIsTyped types.now store.old stage.now }
    ensures typed { IfOk result (StageIsTyped types.now store.new) }
    ensures reads { IfOk result (λ s. stage_by types.now (tree_of types.now store.new) s ≡ stage_by types.now (reading types.now store.old) stage.now) }
    ensures adds { AddsTypedTerms types.now store.old store.new }
    ensures steps { steps.old ≤ steps.new }
{
    match stage {
        Stage::Instance(term) => {
            let resolved = copy_resolved(alloc, types, store, *term, steps)?;
            Ok(Stage::Instance(resolved))
        }
        Stage::Chosen(constant, formula) => {
            let resolved = copy_resolved(alloc, types, store, *formula, steps)?;
            Ok(Stage::Chosen(*constant, resolved))
        }
        Stage::Antecedent => Ok(Stage::Antecedent),
    }
}

/// The stages, with what cells are bound to in their places. Those of the cells that are bound to nothing give way to new
/// constants.
pub(crate) fn close_stages<L>(
    alloc: Global,
    types: &TypeTable,
    store: &mut Store,
    cells: &[CellId],
    known: &mut Vec<Nominal>,
    stages: &[Stage],
    steps: &mut Steps<L>,
) -> Result<Vec<Stage>, AllocError>
    requires store { IsTypedBy types.now store.old }
    requires cells { All (HoldsCell store.old) cells.now }
    requires in_age { AreInAge cells.now }
    requires known { All (HoldsNominal types.now) known.old.items }
    requires stages { All (StageIsTyped types.now store.old) stages.now }
    ensures typed { IfOk result (λ list. All (StageIsTyped types.now store.new) list.items) }
    ensures reads { IfOk result (λ list. stages_read types.now store.new list.items
        ≡ map (stage_by types.now (closed_reading types.now store.old (names_read types.now known.old.items) cells.now)) stages.now) }
    ensures grows { Grows types.now store.old types.now store.new }
    ensures steps { steps.old ≤ steps.new }
{
    fill_all(alloc, types, store, cells, known, steps)?;
    let mut list = Vec::new(alloc);
    for stage in stages {
        list.push(resolve_stage(alloc, types, store, stage, steps)?)?;
    }
    Ok(list)
}
