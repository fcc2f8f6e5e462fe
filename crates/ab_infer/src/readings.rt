//! What is read of a row of steps: a term in normal form, or that there is no reading, or several.
ghost use Rattle.std.specs.Prelude.{◌≡◌, ℕ, ◌+◌, ◌<◌, ◌≤◌, ◌^◌, [], ◌∷◌, List, length, get_or, take, IfOk, All};
ghost use Rattle.ab_norm.specs.ab_types.specs.Entries.{kinds, constants, signature, IsExtendedBy as IsPartOf};
ghost use Rattle.ab_norm.specs.ab_types.specs.Ids.{HoldsType, type_of};
ghost use Rattle.ab_norm.specs.ab_types.specs.Sound.{IsTable};
ghost use Rattle.ab_norm.specs.ab_store.specs.declared.node.Head.TheVariants.{Nominal};
ghost use Rattle.ab_norm.specs.ab_store.specs.Naming.{IsTypedBy};
ghost use Rattle.ab_norm.specs.NodeGrowth.{AddsTypedTerms};
ghost use Rattle.ab_meaning.specs.ResolvedNames.{Name as AName};
ghost use Rattle.ab_inference.specs.Assignments.{settled_at};
ghost use Rattle.ab_inference.specs.Sketches.{Sketch, Fit, count as count_of, erase, term_of, variable_of, marks_of};
ghost use Rattle.ab_inference.specs.Programs.{Runs, items_of, OpTyped};
ghost use Rattle.ab_inference.specs.Inferences.{IsFormulas};
ghost use Rattle.ab_inference.specs.Verdicts.{AreApart, AreFound, marks_in, mark_of, types_found};
ghost use Rattle.ab_infer.specs.NormalTerms.{OpFits, head_at};
ghost use Rattle.ab_infer.specs.Outcomes.{AreNumbers, IsOutcome, nominal_of};
ghost use Rattle.ab_term.specs.Types.{Ty};
ghost use Rattle.ab_meaning.specs.ReadingCounts.{IsTheReading};

use crate::normal_terms::build;
use ab_inference::{Formulas, Mark, Op, Settled, Verdict, decide};
use ab_norm::store::{Head, Store, TermId};
use ab_norm::types::{Steps, TypeId, TypeTable};
use std::alloc::{AllocError, Global};

/// What is read of an expression.
#[derive(Drop)]
pub enum Outcome {
    /// One term.
    One(TermId),
    /// There is no reading.
    Nothing,
    /// There are several: the place of the first name to which two of them give different types.
    Open(usize),
}

/// The nominal constants of these numbers, at the types that are found.
fn nominals(
    alloc: Global,
    base: usize,
    found: &[Settled],
    numbers: &[u128],
) -> Result<Vec<Head>, AllocError>
    requires { base + length numbers.now ≤ length found.now }
    ensures len { IfOk result (λ heads. length heads.items ≡ length numbers.now) }
    ensures heads { IfOk result (λ heads. (j : ℕ) → j < length numbers.now →
        head_at heads.items j ≡ Nominal (get_or numbers.now j 0) (settled_at found.now (base + j)).ty) }
{
    let mut heads = Vec::new(alloc);
    for j in 0..numbers.len() {
        heads.push(Head::Nominal(numbers[j], found[base + j].ty))?;
    }
    Ok(heads)
}

/// What is read, where the types are found.
fn read_found<L>(
    alloc: Global,
    types: &TypeTable,
    store: &mut Store,
    formulas: Formulas,
    base: usize,
    found: &[Settled],
    numbers: &[u128],
    steps: &[Op],
    count: &mut Steps<L>,
) -> Result<Outcome, AllocError>
    requires table { IsTable types.now }
    requires formulas { IsFormulas types.now formulas }
    requires store { IsTypedBy types.now store.old }
    requires found { AreFound types.now (base + length numbers.now) found.now }
    requires typed { All (OpTyped types.now base (length numbers.now)) steps.now }
    requires fit { All (OpFits types.now store.old.cells) steps.now }
    ensures outcome { IfOk result (λ outcome. (names : List AName) (k : Sketch) (A : Ty) →
        Runs (items_of types.now store.old.cells names steps.now) [] (k ∷ []) → Fit names [] 0 k → AreNumbers names numbers.now →
        IsTheReading nominal_of (erase k) A (term_of base (types_found types.now found.now) nominal_of k) →
        IsOutcome types.now store.new (erase k) A outcome) }
    ensures adds { AddsTypedTerms types.now store.old store.new }
    ensures count { count.old ≤ count.new }
{
    let frees = nominals(alloc, base, found, numbers)?;
    match build(
        alloc, types, store, formulas, base, found, &frees, steps, count,
    )? {
        Some(term) => Ok(Outcome::One(term)),
        None => Ok(Outcome::Nothing),
    }
}

/// What is read at the type of what the steps make, where free names are nominal constants of these numbers.
pub fn read_steps<L>(
    alloc: Global,
    types: &mut TypeTable,
    store: &mut Store,
    formulas: Formulas,
    base: usize,
    numbers: &[u128],
    steps: &[Op],
    marks: &[Mark],
    expected: TypeId,
    count: &mut Steps<L>,
) -> Result<Outcome, AllocError>
    requires table { IsTable types.old }
    requires formulas { IsFormulas types.old formulas }
    requires store { IsTypedBy types.old store.old }
    requires sum { base + length numbers.now < 2 ^ 63 }
    requires typed { All (OpTyped types.old base (length numbers.now)) steps.now }
    requires fit { All (OpFits types.old store.old.cells) steps.now }
    requires marks { All (λ m. variable_of base (mark_of m) < base + length numbers.now) marks.now }
    requires expected { HoldsType types.old expected }
    ensures outcome { IfOk result (λ outcome. (names : List AName) (k : Sketch) →
        Runs (items_of types.old store.old.cells names steps.now) [] (k ∷ []) → Fit names [] 0 k → base ≡ count_of k →
        AreApart names → AreNumbers names numbers.now → marks_in marks.now ≡ marks_of k →
        IsOutcome types.new store.new (erase k) (type_of types.old expected) outcome) }
    ensures kinds { kinds types.new ≡ kinds types.old }
    ensures constants { constants types.new ≡ constants types.old }
    ensures kept { IsPartOf types.old types.new }
    ensures table { IsTable types.new }
    ensures adds { AddsTypedTerms types.new store.old store.new }
    ensures count { count.old ≤ count.new }
{
    match decide(
        alloc,
        types,
        formulas,
        base,
        numbers.len(),
        steps,
        marks,
        expected,
    )? {
        Verdict::Nothing => Ok(Outcome::Nothing),
        Verdict::Open(place) => Ok(Outcome::Open(place)),
        Verdict::One(found) => {
            read_found(
                alloc, types, store, formulas, base, &found, numbers, steps, count,
            )
        }
    }
}
