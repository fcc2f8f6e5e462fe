//! What must be equal, for a formula to be used.
ghost use Rattle.std.specs.Prelude.{◌≡◌, ◌≤◌, ◌++◌, [], map, length, All, IfOk, OnOk};
ghost use Rattle.std.specs.Option.{option_map};
ghost use Rattle.ab_norm.specs.ab_store.specs.Trees.{tree_of};
ghost use Rattle.ab_norm.specs.ab_store.specs.Naming.{IsTypedBy};
ghost use Rattle.ab_norm.specs.NodeGrowth.{AddsTypedTerms};
ghost use Rattle.ab_unify.specs.UnifyAnswers.{IsTypedPair};
ghost use Rattle.ab_formulas.specs.Marks.{erased};
ghost use Rattle.ab_alternatives.specs.LeftAlternatives.{trees_from};
ghost use Rattle.ab_uses.specs.UseSolutions.{equation_at, all_equations, IsFormulaTerm, IsFormulaTermIfAny, aim_in};

use crate::aim::Aim;
use ab_alternatives::sequents::erase;
use ab_norm::store::{Equation, Store, TermId};
use ab_norm::types::TypeTable;
use std::alloc::{AllocError, Global};

/// The two formulas without their marks.
fn equation_between(
    alloc: Global,
    types: &TypeTable,
    store: &mut Store,
    left: TermId,
    right: TermId,
) -> Result<Equation, AllocError>
    requires store { IsTypedBy types.now store.old }
    requires left { IsFormulaTerm types.now store.old left }
    requires right { IsFormulaTerm types.now store.old right }
    ensures left { IfOk result (λ e. tree_of types.now store.new e.left ≡ erased (tree_of types.now store.old left)) }
    ensures right { IfOk result (λ e. tree_of types.now store.new e.right ≡ erased (tree_of types.now store.old right)) }
    ensures typed { IfOk result (λ e. IsTypedPair types.now store.new e) }
    ensures adds { AddsTypedTerms types.now store.old store.new }
{
    let left = erase(alloc, types, store, left)?;
    let right = erase(alloc, types, store, right)?;
    Ok(Equation { left, right })
}

/// Puts the equation of the formula and of what is given for it behind the others, where something is given.
fn add_equation(
    alloc: Global,
    types: &TypeTable,
    store: &mut Store,
    formula: TermId,
    given: Option<TermId>,
    list: &mut Vec<Equation>,
) -> Result<(), AllocError>
    requires store { IsTypedBy types.now store.old }
    requires formula { IsFormulaTerm types.now store.old formula }
    requires given { IsFormulaTermIfAny types.now store.old given }
    requires typed { All (IsTypedPair types.now store.old) list.old.items }
    ensures reads { OnOk result (trees_from types.now store.new 0 list.new.items
        ≡ trees_from types.now store.old 0 list.old.items
        ++ equation_at (length list.old.items) (option_map (tree_of types.now store.old) given) (tree_of types.now store.old formula)) }
    ensures typed { OnOk result (All (IsTypedPair types.now store.new) list.new.items) }
    ensures adds { AddsTypedTerms types.now store.old store.new }
{
    let Some(given) = given else {
        return Ok(());
    };
    let equation = equation_between(alloc, types, store, formula, given)?;
    list.push(equation)?;
    Ok(())
}

/// What must be equal: antecedents and what is given for them, and the result and what it is to be.
pub(crate) fn equate(
    alloc: Global,
    types: &TypeTable,
    store: &mut Store,
    aim: &Aim,
    antecedents: &[TermId],
    formula: TermId,
) -> Result<Vec<Equation>, AllocError>
    requires store { IsTypedBy types.now store.old }
    requires many { length aim.now.hypotheses.items ≤ length antecedents.now }
    requires hypotheses { All (IsFormulaTermIfAny types.now store.old) aim.now.hypotheses.items }
    requires conclusion { IsFormulaTermIfAny types.now store.old aim.now.conclusion }
    requires antecedents { All (IsFormulaTerm types.now store.old) antecedents.now }
    requires formula { IsFormulaTerm types.now store.old formula }
    ensures reads { IfOk result (λ es. trees_from types.now store.new 0 es.items
        ≡ all_equations (aim_in types.now store.old aim.now) (map (tree_of types.now store.old) antecedents.now) (tree_of types.now store.old formula)) }
    ensures typed { IfOk result (λ es. All (IsTypedPair types.now store.new) es.items) }
    ensures adds { AddsTypedTerms types.now store.old store.new }
{
    let mut list = Vec::new(alloc);
    for place in 0..aim.hypotheses.len() {
        add_equation(
            alloc,
            types,
            store,
            antecedents[place],
            aim.hypotheses[place],
            &mut list,
        )?;
    }
    add_equation(alloc, types, store, formula, aim.conclusion, &mut list)?;
    Ok(list)
}
