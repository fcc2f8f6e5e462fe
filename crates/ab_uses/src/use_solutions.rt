//! A formula is used by one choice of constants: its equations are solved, and what is left is told.
ghost use Rattle.std.specs.Prelude.{◌≡◌, ◌≤◌, ◌-◌, ◌++◌, [], map, length, All, Contains, IfOk, is_some, true};
ghost use Rattle.ab_consequences.specs.UsesFollow.{antecedents_among, AreNone};
ghost use Rattle.ab_term.specs.Types.{prop};
ghost use Rattle.ab_norm.specs.ab_types.specs.Entries.{signature};
ghost use Rattle.ab_norm.specs.ab_store.specs.Trees.{HoldsCell, tree_of};
ghost use Rattle.ab_norm.specs.ab_store.specs.Naming.{IsTypedBy, IsTerm};
ghost use Rattle.ab_norm.specs.Nominals.{HoldsNominal};
ghost use Rattle.ab_term.specs.Terms as tree;
ghost use Rattle.ab_unify.specs.UnifyAnswers.{IsTypedPair, AreInAge};
ghost use Rattle.ab_alternatives.specs.ab_equations.specs.Meanwhile.{AreFrom};
ghost use Rattle.ab_unify.specs.Problem.{cells_read};
ghost use Rattle.ab_unify.specs.StoreChanges.{Grows};
ghost use Rattle.ab_alternatives.specs.ab_instances.specs.ListReadings.{names_read};
ghost use Rattle.ab_formulas.specs.Sequents.{Sequent as APlainGoal, goal_names};
ghost use Rattle.ab_unifiers.specs.Choices.{in_order};
ghost use Rattle.ab_theory.specs.Uses.{types_chosen, given_constants};
ghost use Rattle.ab_uses.specs.UseCells.{HoldsPart, parts_read, HasParts, StageIsTyped};
ghost use Rattle.ab_uses.specs.UseSolutions.{missing, IsFormulaTerm, IsFormulaTermIfAny, aim_in};
ghost use Rattle.ab_uses.specs.ChoiceAnswers.{IsLeft, IsSolvedSo, ComesOut};

use crate::aim::Aim;
use crate::closed_parts::close_stages;
use crate::made_uses::Made;
use crate::new_cells::make_use;
use crate::outcome::Outcome;
use crate::part::Part;
use crate::remainders::{awaited_of, first_open, resolve_all};
use crate::use_answers::Use;
use crate::use_equations::equate;
use ab_norm::store::{CellId, Equation, Store, TermId};
use ab_norm::types::{Steps, TypeTable};
use ab_norm::{Nominal, copy_resolved};
use ab_unify::{Solved, unify};
use std::alloc::{AllocError, Global};

/// The first, and then the others.
fn both<T: Copy>(alloc: Global, first: &[T], second: &[T]) -> Result<Vec<T>, AllocError>
    ensures { IfOk result (λ list. list.items ≡ first.now ++ second.now) }
{
    let mut list = Vec::from_slice(alloc, first)?;
    list.extend_from_slice(second)?;
    Ok(list)
}

/// What is left of the use, once cells are bound. These cells are all that the use brought, in order of age.
fn conclude<L>(
    alloc: Global,
    types: &TypeTable,
    store: &mut Store,
    made: &Made,
    awaited: &[TermId],
    cells: &[CellId],
    known: &mut Vec<Nominal>,
    steps: &mut Steps<L>,
) -> Result<Outcome, AllocError>
    requires store { IsTypedBy types.now store.old }
    requires awaited { All (IsFormulaTerm types.now store.old) awaited.now }
    requires formula { IsFormulaTerm types.now store.old made.now.result }
    requires stages { All (StageIsTyped types.now store.old) made.now.stages.items }
    requires cells { All (HoldsCell store.old) cells.now }
    requires in_age { AreInAge cells.now }
    requires known { All (HoldsNominal types.now) known.old.items }
    ensures left { IfOk result (λ o. IsLeft types.now store.old awaited.now made.now.result made.now.stages.items (names_read types.now known.old.items) cells.now store.new o) }
    ensures grows { Grows types.now store.old types.now store.new }
    ensures steps { steps.old ≤ steps.new }
{
    let awaited = resolve_all(alloc, types, store, awaited, steps)?;
    let result = copy_resolved(alloc, types, store, made.result, steps)?;
    let left = both(alloc, &awaited, &[result])?;
    if let Some(cell) = first_open(alloc, store, cells, &left)? {
        let name = store.cell_name(cell).copy(alloc)?;
        return Ok(Outcome::Open(name));
    }
    let stages = close_stages(alloc, types, store, cells, known, &made.stages, steps)?;
    Ok(Outcome::Used(Use {
        stages,
        awaited,
        result,
    }))
}

/// The equations of the use are solved: only its own cells may be replaced, which are the last ones.
fn solve_made<L>(
    alloc: Global,
    types: &mut TypeTable,
    store: &mut Store,
    aim: &Aim,
    made: &Made,
    equations: &[Equation],
    known: &mut Vec<Nominal>,
    steps: &mut Steps<L>,
) -> Result<Outcome, AllocError>
    requires store { IsTypedBy types.old store.old }
    requires unbound { store.old.bindings ≡ [] }
    requires equations { All (IsTypedPair types.old store.old) equations.now }
    requires own { AreFrom store.old (length store.old.cells - length made.now.cells.items) made.now.cells.items }
    requires many { length aim.now.hypotheses.items ≤ length made.now.antecedents.items }
    requires antecedents { All (IsFormulaTerm types.old store.old) made.now.antecedents.items }
    requires formula { IsFormulaTerm types.old store.old made.now.result }
    requires stages { All (StageIsTyped types.old store.old) made.now.stages.items }
    requires known { All (HoldsNominal types.old) known.old.items }
    ensures solved { IfOk result (λ o. IsSolvedSo types.old store.old equations.now made.now.cells.items
        (missing aim.now.hypotheses.items made.now.antecedents.items) made.now.result made.now.stages.items (names_read types.old known.old.items) types.new store.new o) }
    ensures grows { Grows types.old store.old types.new store.new }
    ensures steps { steps.old ≤ steps.new }
{
    match unify(alloc, types, store, equations, &made.cells, steps)? {
        Solved::Unified(more) => {
            let cells = both(alloc, &made.cells, more.as_slice())?;
            let awaited = awaited_of(alloc, &aim.hypotheses, &made.antecedents)?;
            conclude(alloc, types, store, made, &awaited, &cells, known, steps)
        }
        Solved::Apart => Ok(Outcome::Apart),
        Solved::Stuck(place) => Ok(Outcome::Stuck(place)),
    }
}

/// What comes of the use of the formula by the chosen constants. `held` are the goal's constants, in order, and `known` all
/// that aren't new. Cells are bound then.
pub(crate) fn use_choice<L>(
    alloc: Global,
    types: &mut TypeTable,
    store: &mut Store,
    held: &[Nominal],
    known: &[Nominal],
    parts: &[Part],
    names: &[Nominal],
    formula: TermId,
    aim: &Aim,
    steps: &mut Steps<L>,
) -> Result<Outcome, AllocError>
    requires store { IsTypedBy types.old store.old }
    requires unbound { store.old.bindings ≡ [] }
    requires held { All (HoldsNominal types.old) held.now }
    requires known { All (HoldsNominal types.old) known.now }
    requires all_known { (a : tree.Nominal) → Contains (names_read types.old held.now ++ given_constants (parts_read types.old store.old parts.now)) a →
        Contains (names_read types.old known.now) a }
    requires parts { All (HoldsPart types.old store.old) parts.now }
    requires names { All (HoldsNominal types.old) names.now }
    requires formula { IsFormulaTerm types.old store.old formula }
    requires front { HasParts (signature types.old) (parts_read types.old store.old parts.now) (tree_of types.old store.old formula) }
    requires fit { map (λ a. a.type) (names_read types.old names.now) ≡ types_chosen (parts_read types.old store.old parts.now) }
    requires hypotheses { All (IsFormulaTermIfAny types.old store.old) aim.now.hypotheses.items }
    requires conclusion { IsFormulaTermIfAny types.old store.old aim.now.conclusion }
    requires enough { length aim.now.hypotheses.items ≤ antecedents_among (parts_read types.old store.old parts.now) }
    requires alone { is_some aim.now.conclusion ≡ true → AreNone (aim_in types.old store.old aim.now).hypotheses }
    ensures comes_out { IfOk result (λ o. (s : APlainGoal) → names_read types.old held.now ≡ in_order (goal_names s) →
        ComesOut (cells_read types.old store.old)
        (record { goal = s; parts = parts_read types.old store.old parts.now; aim = aim_in types.old store.old aim.now; formula = tree_of types.old store.old formula })
        (names_read types.old names.now) types.new store.new o) }
    ensures grows { Grows types.old store.old types.new store.new }
    ensures steps { steps.old ≤ steps.new }
{
    let Some(made) = make_use(alloc, types, store, held, parts, names, formula, steps)? else {
        return Ok(Outcome::PassedOver);
    };
    let equations = equate(alloc, types, store, aim, &made.antecedents, made.result)?;
    let mut all = both(alloc, known, names)?;
    solve_made(alloc, types, store, aim, &made, &equations, &mut all, steps)
}
