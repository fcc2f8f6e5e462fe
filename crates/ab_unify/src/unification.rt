//! Unification as one call.
ghost use Rattle.std.specs.Prelude.{◌≡◌, ◌↔◌, ◌≤◌, ◌+◌, ℕ, List, map, All, Contains, IfOk, OnOk, codes};
ghost use Rattle.ab_term.specs.Types.{Ty};
ghost use Rattle.ab_term.specs.Translation.{EqualPastHints};
ghost use Rattle.ab_term.specs.Variables.{Substitution, image, IsTyped};
ghost use Rattle.ab_term.specs.Sameness.{same_number};
ghost use Rattle.ab_norm.specs.ab_types.specs.Entries.{Table, signature};
ghost use Rattle.ab_norm.specs.ab_store.specs.declared.node.TermId.{TermId};
ghost use Rattle.ab_norm.specs.ab_store.specs.declared.node.CellId.{CellId};
ghost use Rattle.ab_norm.specs.ab_store.specs.Reading.{reading};
ghost use Rattle.ab_norm.specs.ab_store.specs.Naming.{IsTypedBy, IsTerm};
ghost use Rattle.ab_patterns.specs.ab_unifiers.specs.Replacements.{Cell};
ghost use Rattle.ab_patterns.specs.ab_unifiers.specs.Unification as rules;
ghost use Rattle.ab_patterns.specs.ab_unifiers.specs.Unification.{Solves};
ghost use Rattle.ab_patterns.specs.ab_unifiers.specs.Unifiers.{restricted, IsUnifier, IsMostGeneral};
ghost use Rattle.ab_unify.specs.Problem.{cells_read, variables_read, equations_read, problem};
ghost use Rattle.ab_unify.specs.StoreChanges.{Grows, IsFree};
ghost use Rattle.ab_unify.specs.declared.answers.Solved.TheVariants.{Apart, Stuck};
ghost use Rattle.ab_unify.specs.UnifyAnswers.{IsTypedPair, HasSolution, IsUnified, IfUnified, OnUnified, UnlessUnified, AreNewCells, AreInAge, AreLeft, IsAsBefore};
ghost use Rattle.ab_unify.specs.RuleCounts.{Takes};
ghost use Rattle.ab_unify.specs.States.{numbered_from, verdict_of, unified_is, Runs};

use crate::answers::{Cells, Solved};
use crate::made_cells::{bindings_since, made_cells};
use crate::queues::number_equations;
use crate::runs::run;
use crate::verdict::Verdict;
use ab_norm::store::{CellId, Equation, Store};
use ab_norm::types::{Steps, TypeTable};
use ab_patterns::FlexibleCells;
use std::alloc::{AllocError, Global};

/// Binds cells so that both sides of each equation are the same, and lists the cells that were made. For another answer,
/// or where memory runs out, what was bound and made stays.
fn solve<L>(
    alloc: Global,
    types: &mut TypeTable,
    store: &mut Store,
    equations: &[Equation],
    flexible: &[CellId],
    steps: &mut Steps<L>,
) -> Result<Solved, AllocError>
    requires store { IsTypedBy types.old store.old }
    requires equations { All (IsTypedPair types.old store.old) equations.now }
    requires flexible { All (IsFree store.old) flexible.now }
    ensures grows { Grows types.old store.old types.new store.new }
    ensures steps { steps.old ≤ steps.new }
    ensures counts { OnOk result ((n : ℕ) → Takes (codes "x") (problem types.old store.old equations.now flexible.now) n → steps.old + n ≤ steps.new) }
    ensures runs { IfOk result (λ s. (left : List CellId) × Runs types.old store.old flexible.now (numbered_from 0 equations.now) types.new store.new left (verdict_of s)) }
    ensures made { IfUnified result (AreNewCells store.old store.new) }
    ensures in_age { IfUnified result AreInAge }
{
    let bound = store.bindings().len();
    let mut left = FlexibleCells::from_slice(alloc, flexible)?;
    let mut queue = number_equations(alloc, equations)?;
    let mut waiting = Vec::new(alloc);
    match run(
        alloc,
        types,
        store,
        &mut left,
        &mut waiting,
        &mut queue,
        steps,
    )? {
        Verdict::Unified => {
            let unbound = left.to_vec(alloc)?;
            let made = made_cells(alloc, bindings_since(store, bound), &unbound, flexible)?;
            Ok(Solved::Unified(Cells::from_vec(made)))
        }
        Verdict::Apart => Ok(Solved::Apart),
        Verdict::Stuck(place) => Ok(Solved::Stuck(place)),
    }
}

/// Whether the answer is Unified.
fn is_unified(answer: &Result<Solved, AllocError>) -> bool
    ensures { result ≡ unified_is answer.now }
{
    matches!(answer, Ok(Solved::Unified(_)))
}

/// Solves the equations by pattern unification: rules are carried out, one after another, each on the first equation to
/// which one applies, until none does. `flexible` are the cells that may be bound, in order of age; both sides of an
/// equation are terms of one type over the same bound names. A step is counted for each rule, and for each binding that
/// is undone.
///
/// After `Unified` cells are bound, so that each term reads as its image under the answer, and both sides of each
/// equation are the same. For another answer, and where memory runs out, the store is as it was, but for room; the table
/// may have more types.
pub fn unify<L>(
    alloc: Global,
    types: &mut TypeTable,
    store: &mut Store,
    equations: &[Equation],
    flexible: &[CellId],
    steps: &mut Steps<L>,
) -> Result<Solved, AllocError>
    requires store { IsTypedBy types.old store.old }
    requires equations { All (IsTypedPair types.old store.old) equations.now }
    requires flexible { All (IsFree store.old) flexible.now }
    // each answer comes exactly where the rules lead to it
    ensures unified { IfOk result (λ s. IsUnified s ↔ HasSolution (problem types.old store.old equations.now flexible.now)) }
    ensures apart { IfOk result (λ s. (s ≡ Apart) ↔ Solves (codes "x") (problem types.old store.old equations.now flexible.now) rules.apart) }
    ensures stuck { IfOk result (λ s. (place : ℕ) → (s ≡ Stuck place) ↔ Solves (codes "x") (problem types.old store.old equations.now flexible.now) (rules.stuck place)) }
    // after Unified each term reads as its image under the answer, and the cells are the answer's
    ensures reads { OnUnified result ((cells : List (Cell (List ℕ))) (s : Substitution ℕ (List ℕ)) →
        Solves (codes "x") (problem types.old store.old equations.now flexible.now) (rules.unified cells s) →
        (G : List Ty) (t : TermId) (A : Ty) → IsTerm types.old store.old G t A →
        reading types.new store.new t ≡ image same_number s (reading types.old store.old t)) }
    ensures cells { OnUnified result ((cells : List (Cell (List ℕ))) (s : Substitution ℕ (List ℕ)) →
        Solves (codes "x") (problem types.old store.old equations.now flexible.now) (rules.unified cells s) →
        cells_read types.new store.new ≡ cells) }
    // of the cells that might be bound, and of those that were made, just those are unbound that the answer doesn't replace
    ensures left { OnUnified result ((cells : List (Cell (List ℕ))) (s : Substitution ℕ (List ℕ)) →
        Solves (codes "x") (problem types.old store.old equations.now flexible.now) (rules.unified cells s) →
        AreLeft store.old flexible.now types.new store.new s) }
    ensures equal { OnUnified result (All (λ e. EqualPastHints (reading types.new store.new e.left) (reading types.new store.new e.right)) equations.now) }
    // the answer is most general, and Apart has no unifier
    ensures most_general { OnUnified result ((cells : List (Cell (List ℕ))) (s : Substitution ℕ (List ℕ)) →
        Solves (codes "x") (problem types.old store.old equations.now flexible.now) (rules.unified cells s) →
        IsMostGeneral (signature types.old) (cells_read types.old store.old) (variables_read types.old store.old flexible.now)
        (equations_read types.old store.old equations.now) (restricted (variables_read types.old store.old flexible.now) s)) }
    ensures general { OnUnified result ((u : Substitution ℕ (List ℕ)) →
        IsUnifier (signature types.old) (variables_read types.old store.old flexible.now) (equations_read types.old store.old equations.now) u →
        (r : Substitution ℕ (List ℕ)) × IsTyped (signature types.old) r × ((G : List Ty) (t : TermId) (A : Ty) → IsTerm types.old store.old G t A →
        EqualPastHints (image same_number u (reading types.old store.old t)) (image same_number r (reading types.new store.new t)))) }
    ensures no_unifier { IfOk result (λ s. s ≡ Apart → (u : Substitution ℕ (List ℕ)) →
        ¬ IsUnifier (signature types.old) (variables_read types.old store.old flexible.now) (equations_read types.old store.old equations.now) u) }
    // the cells that were made are listed, and no other is bound
    ensures made { IfUnified result (AreNewCells store.old store.new) }
    ensures in_age { IfUnified result AreInAge }
    ensures others { (c : CellId) → IsFree store.old c → ¬ Contains flexible.now c → IsFree store.new c }
    ensures grows { Grows types.old store.old types.new store.new }
    ensures as_before { UnlessUnified result (IsAsBefore store.old store.new) }
    ensures still_reads { UnlessUnified result ((table : Table) (t : TermId) → reading table store.new t ≡ reading table store.old t) }
    ensures steps { steps.old ≤ steps.new }
    ensures counts { OnOk result ((n : ℕ) → Takes (codes "x") (problem types.old store.old equations.now flexible.now) n → steps.old + n ≤ steps.new) }
{
    let mark = store.mark();
    let answer = solve(alloc, types, store, equations, flexible, steps);
    if is_unified(&answer) {
        return answer;
    }
    store.cut_to(&mark, steps);
    answer
}
