//! What a part of the formula in focus demands of a judgement, on shared terms.
ghost use Rattle.std.specs.Prelude.{◌≡◌, ◌≤◌, [], map, length, codes, All, Contains, IfOk};
ghost use Rattle.ab_term.specs.Types.{o, olist};
ghost use Rattle.ab_term.specs.Substitution.{instance_by_all};
ghost use Rattle.ab_norm.specs.Nominals.{HoldsNominal};
ghost use Rattle.ab_norm.specs.ab_store.specs.declared.node.TermId.{TermId as ATerm};
ghost use Rattle.ab_norm.specs.ab_store.specs.Trees.{Holds, HoldsCell, tree_of};
ghost use Rattle.ab_norm.specs.ab_store.specs.Naming.{IsTypedBy, IsTerm};
ghost use Rattle.ab_norm.specs.NodeGrowth.{AddsTypedTerms};
ghost use Rattle.ab_unifiers.specs.Prefixes.{own_terms};
ghost use Rattle.ab_unify.specs.Problem.{variables_read};
ghost use Rattle.ab_unify.specs.StoreChanges.{Grows};
ghost use Rattle.ab_logic.specs.Forms.{sign_of};
ghost use Rattle.ab_theory.specs.Judgements as plain;
ghost use Rattle.ab_theory.specs.Judgements.{constants_of};
ghost use Rattle.ab_theory.specs.Parts.{parts_of, under_all};
ghost use Rattle.ab_theory.specs.SpecRules.{by_part, demand_of};
ghost use Rattle.ab_alternatives.specs.ab_instances.specs.ListReadings.{names_read};
ghost use Rattle.ab_judgement_forms.specs.PartReadings.{name_read, HoldsName, part_read, HoldsPart};
ghost use Rattle.ab_judgement_forms.specs.ShapeReadings.{IsCons};
ghost use Rattle.ab_judgements.specs.DemandReadings.{IsDemandTerm};

use crate::demands::DemandTerm;
use crate::part_cells::cells_for;
use crate::part_instances::put_under;
use ab_alternatives::instances::make_over;
use ab_judgement_forms::{Opening, Part, PartName, demand_body, sides_of, stand_ins, under_all};
use ab_norm::store::{CellId, Equation, Head, Store, TermId};
use ab_norm::types::{Steps, TypeTable};
use ab_norm::{Nominal, eta, instantiate};
use std::alloc::{AllocError, Global};

/// The cells as terms.
fn own_forms(
    alloc: Global,
    types: &TypeTable,
    store: &mut Store,
    cells: &[CellId],
) -> Result<Vec<TermId>, AllocError>
    requires store { IsTypedBy types.now store.old }
    requires cells { All (HoldsCell store.old) cells.now }
    ensures held { IfOk result (λ list. All (Holds store.new) list.items) }
    ensures trees { IfOk result (λ list. map (tree_of types.now store.new) list.items ≡ own_terms (codes "x") (variables_read types.now store.old cells.now)) }
    ensures adds { AddsTypedTerms types.now store.old store.new }
{
    let mut list = Vec::new(alloc);
    for cell in cells {
        let ty = store.cell_type(*cell);
        list.push(eta(alloc, types, store, Head::Cell(*cell), ty)?)?;
    }
    Ok(list)
}

/// The goals under binders for the names.
fn scopes_under(
    alloc: Global,
    types: &TypeTable,
    store: &mut Store,
    names: &[PartName],
    goals: &[TermId],
) -> Result<Vec<TermId>, AllocError>
    requires store { IsTypedBy types.now store.old }
    requires names { All (HoldsName types.now) names.now }
    requires goals { All (Holds store.old) goals.now }
    ensures held { IfOk result (λ list. All (Holds store.new) list.items) }
    ensures trees { IfOk result (λ list. map (tree_of types.now store.new) list.items
        ≡ map (under_all (map (name_read types.now) names.now)) (map (tree_of types.now store.old) goals.now)) }
    ensures adds { AddsTypedTerms types.now store.old store.new }
{
    let mut list = Vec::new(alloc);
    for goal in goals {
        list.push(under_all(alloc, types, store, names, *goal)?)?;
    }
    Ok(list)
}

/// What stands under the binders, with the terms for their names.
fn instances<L>(
    alloc: Global,
    types: &TypeTable,
    store: &mut Store,
    scopes: &[TermId],
    terms: &[TermId],
    steps: &mut Steps<L>,
) -> Result<Vec<TermId>, AllocError>
    requires store { IsTypedBy types.now store.old }
    requires scopes { All (Holds store.old) scopes.now }
    requires terms { All (Holds store.old) terms.now }
    ensures held { IfOk result (λ list. All (Holds store.new) list.items) }
    ensures trees { IfOk result (λ list. map (tree_of types.now store.new) list.items
        ≡ map (λ s. instance_by_all s (map (tree_of types.now store.old) terms.now)) (map (tree_of types.now store.old) scopes.now)) }
    ensures adds { AddsTypedTerms types.now store.old store.new }
    ensures steps { steps.old ≤ steps.new }
{
    let mut list = Vec::new(alloc);
    for scope in scopes {
        list.push(instantiate(alloc, types, store, *scope, terms, steps)?)?;
    }
    Ok(list)
}

/// What the part demands of the judgement of the list and the goal.
pub(crate) fn part_demand<L>(
    alloc: Global,
    types: &mut TypeTable,
    store: &mut Store,
    opening: Opening,
    goal: TermId,
    part: &Part,
    constants: &[Nominal],
    steps: &mut Steps<L>,
) -> Result<DemandTerm, AllocError>
    requires store { IsTypedBy types.old store.old }
    requires unbound { store.old.bindings ≡ [] }
    requires manner { IsCons types.old opening.manner.cons }
    requires list { IsTerm types.old store.old [] opening.list olist }
    requires goal { Holds store.old goal }
    requires part { HoldsPart types.old store.old part.now }
    requires of_formula { (F : ATerm) × IsTerm types.old store.old [] F o × Contains (parts_of (tree_of types.old store.old F)) (part_read types.old store.old part.now) }
    requires constants_held { All (HoldsNominal types.old) constants.now }
    ensures grows { Grows types.old store.old types.new store.new }
    ensures unbound { store.new.bindings ≡ [] }
    ensures made { IfOk result (λ made. (j : plain.Judgement) → j.context ≡ tree_of types.old store.old opening.list → j.goal ≡ tree_of types.old store.old goal
        → constants_of j ≡ names_read types.old constants.now → IsDemandTerm types.old store.old
        (demand_of (length store.old.cells) (sign_of opening.manner.sign) j (by_part (part_read types.old store.old part.now))) types.new store.new made) }
    ensures steps { steps.old ≤ steps.new }
{
    let cells = cells_for(alloc, types, store, &part.names)?;
    let forms = own_forms(alloc, types, store, &cells)?;
    let scopes = scopes_under(alloc, types, store, &part.names, &part.goals)?;
    let goals = instances(alloc, types, store, &scopes, &forms, steps)?;
    let atom = put_under(alloc, types, store, &part.names, &forms, part.atom, steps)?;
    let sides = sides_of(alloc, store, atom, &goals, &cells)?;
    let over = make_over(alloc, types, store, &sides.own, constants)?;
    let names = stand_ins(alloc, types, store, &cells, &sides, &over.terms)?;
    let closed = sides.closed.as_slice();
    let body = demand_body(alloc, types, store, opening, closed, &names, &scopes, steps)?;
    let left = put_under(alloc, types, store, &part.names, &names, part.atom, steps)?;
    let equations = Vec::from_array(alloc, [Equation { left, right: goal }])?;
    Ok(DemandTerm {
        own: over.cells,
        equations,
        body,
    })
}
