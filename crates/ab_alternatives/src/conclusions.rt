//! The conclusion to which an atom gives way, once its equations are solved.
ghost use Rattle.std.specs.Prelude.{◌≡◌, ◌≤◌, ◌-◌, ◌++◌, [], ℕ, map, length, All, IfOk, Ok, codes};
ghost use Rattle.ab_term.specs.Types.{prop};
ghost use Rattle.ab_unifiers.specs.Unification as rules;
ghost use Rattle.ab_unifiers.specs.Unification.{Solves};
ghost use Rattle.ab_norm.specs.ab_store.specs.declared.node.TermId.{TermId as ATerm};
ghost use Rattle.ab_norm.specs.ab_store.specs.Trees.{Holds, HoldsCell, tree_of};
ghost use Rattle.ab_norm.specs.ab_store.specs.Reading.{reading};
ghost use Rattle.ab_norm.specs.ab_store.specs.Naming.{IsTypedBy, IsTerm};
ghost use Rattle.ab_norm.specs.NodeGrowth.{AddsTypedTerms};
ghost use Rattle.ab_norm.specs.Nominals.{HoldsNominal};
ghost use Rattle.ab_unify.specs.UnifyAnswers.{IsTypedPair};
ghost use Rattle.ab_unify.specs.Problem.{problem};
ghost use Rattle.ab_unify.specs.StoreChanges.{Grows};
ghost use Rattle.ab_instances.specs.ListReadings.{names_read};
ghost use Rattle.ab_equations.specs.Meanwhile.{AreFrom, unbound_of};
ghost use Rattle.ab_alternatives.specs.RightAlternatives.{closed_by, Becomes};
ghost use Rattle.ab_logic.specs.Worlds.{variable_at};
ghost use Rattle.ab_alternatives.specs.declared.conclusions.Conclusion.TheVariants.{Formula, Apart, Stuck};

use crate::clause_bodies::Unfolding;
use crate::one_alternative::both;
use crate::quantifiers::{exists_all, nabla_all};
use ab_norm::name::Name;
use ab_norm::store::{CellId, Store, TermId};
use ab_norm::types::{Steps, TypeTable};
use ab_norm::{Nominal, copy_resolved};
use ab_unify::{Solved, unify};
use std::alloc::{AllocError, Global};

/// What comes of unfolding a conclusion.
#[derive(Clone, Copy)]
pub enum Conclusion {
    /// This is the conclusion then.
    Formula(TermId),
    /// Nothing makes the atom an instance of the clause.
    Apart,
    /// The equation of this number, counted from 0, is outside the patterns.
    Stuck(usize),
}

/// The cells that are bound to nothing, in their order.
pub(crate) fn unbound_cells(
    alloc: Global,
    store: &Store,
    cells: &[CellId],
) -> Result<Vec<CellId>, AllocError>
    requires { All (HoldsCell store.now) cells.now }
    ensures { IfOk result (λ kept. kept.items ≡ unbound_of store.now cells.now) }
{
    let mut kept = Vec::new(alloc);
    for cell in cells {
        if store.binding(*cell).is_none() {
            kept.push(*cell)?;
        }
    }
    Ok(kept)
}

/// The formula under `exists` over the cells and, inside, `nabla` over the constants, where there are such cells.
fn close_over(
    alloc: Global,
    types: &TypeTable,
    store: &mut Store,
    cells: &[CellId],
    hints: &[Name],
    names: &[Nominal],
    body: TermId,
) -> Result<TermId, AllocError>
    requires store { IsTypedBy types.now store.old }
    requires cells { All (HoldsCell store.old) cells.now }
    requires names { All (HoldsNominal types.now) names.now }
    requires body { Holds store.old body }
    ensures adds { AddsTypedTerms types.now store.old store.new }
    ensures held { IfOk result (λ r. Holds store.new r) }
    ensures tree { IfOk result (λ r. tree_of types.now store.new r
        ≡ closed_by (map (variable_at types.now store.old) cells.now) hints.now (names_read types.now names.now) (tree_of types.now store.old body)) }
{
    if cells.is_empty() {
        return Ok(body);
    }
    let inner = nabla_all(alloc, types, store, hints, names, body)?;
    exists_all(alloc, store, cells, inner)
}

/// The body with what cells are bound to in their places, closed over those of the cells that are unbound.
fn conclude<L>(
    alloc: Global,
    types: &TypeTable,
    store: &mut Store,
    cells: &[CellId],
    hints: &[Name],
    names: &[Nominal],
    body: TermId,
    steps: &mut Steps<L>,
) -> Result<TermId, AllocError>
    requires store { IsTypedBy types.now store.old }
    requires cells { All (HoldsCell store.old) cells.now }
    requires names { All (HoldsNominal types.now) names.now }
    requires body { Holds store.old body }
    ensures adds { AddsTypedTerms types.now store.old store.new }
    ensures held { IfOk result (λ r. Holds store.new r) }
    ensures tree { IfOk result (λ r. tree_of types.now store.new r
        ≡ closed_by (map (variable_at types.now store.old) (unbound_of store.old cells.now)) hints.now (names_read types.now names.now) (reading types.now store.old body)) }
    ensures steps { steps.old ≤ steps.new }
{
    let left = unbound_cells(alloc, store, cells)?;
    let resolved = copy_resolved(alloc, types, store, body, steps)?;
    close_over(alloc, types, store, &left, hints, names, resolved)
}

/// The unfolding is solved: only its own cells may be replaced, which are the last ones. Cells are bound then where there is
/// a formula.
pub fn solve_unfolding<L>(
    alloc: Global,
    types: &mut TypeTable,
    store: &mut Store,
    made: &Unfolding,
    hints: &[Name],
    names: &[Nominal],
    steps: &mut Steps<L>,
) -> Result<Conclusion, AllocError>
    requires store { IsTypedBy types.old store.old }
    requires unbound { store.old.bindings ≡ [] }
    requires equations { All (IsTypedPair types.old store.old) made.now.equations.items }
    requires own { AreFrom store.old (length store.old.cells - length made.now.own.items) made.now.own.items }
    requires names { All (HoldsNominal types.old) names.now }
    requires body { IsTerm types.old store.old [] made.now.body prop }
    ensures grows { Grows types.old store.old types.new store.new }
    ensures formula { (r : ATerm) → result ≡ Ok (Formula r) →
        Becomes types.old store.old made.now hints.now (names_read types.old names.now) types.new store.new r }
    ensures held { (r : ATerm) → result ≡ Ok (Formula r) → Holds store.new r }
    ensures apart { result ≡ Ok Apart → Solves (codes "x") (problem types.old store.old made.now.equations.items made.now.own.items) rules.apart }
    ensures stuck { (i : ℕ) → result ≡ Ok (Stuck i) → Solves (codes "x") (problem types.old store.old made.now.equations.items made.now.own.items) (rules.stuck i) }
    ensures steps { steps.old ≤ steps.new }
{
    match unify(alloc, types, store, &made.equations, &made.own, steps)? {
        Solved::Unified(more) => {
            let cells = both(alloc, &made.own, more.as_slice())?;
            let formula = conclude(alloc, types, store, &cells, hints, names, made.body, steps)?;
            Ok(Conclusion::Formula(formula))
        }
        Solved::Apart => Ok(Conclusion::Apart),
        Solved::Stuck(place) => Ok(Conclusion::Stuck(place)),
    }
}
