//! What is read of the row of a clause.
ghost use Rattle.std.specs.Prelude.{◌≡◌, ◌+◌, ◌≤◌, Ok, length, IfOk};
ghost use Rattle.ab_term.specs.Types.{Ty};
ghost use Rattle.ab_norm.specs.ab_types.specs.Entries.{Table, signature, kinds, constants, IsExtendedBy};
ghost use Rattle.ab_norm.specs.ab_types.specs.Ids.{HoldsType, type_of};
ghost use Rattle.ab_norm.specs.ab_types.specs.Sound.{IsTable};
ghost use Rattle.ab_norm.specs.ab_store.specs.Trees.{Holds, tree_of};
ghost use Rattle.ab_norm.specs.ab_store.specs.Naming.{IsTypedBy};
ghost use Rattle.ab_inference.specs.Inferences.{IsFormulas};
ghost use Rattle.ab_inference.specs.Verdicts.{AreFound};
ghost use Rattle.ab_infer.specs.Rows.{Makes};
ghost use Rattle.ab_typing.specs.DefinitionReadings.{clause_of, HoldsClause};
ghost use Rattle.ab_declare.specs.CellGrowth.{AddsVariables};
ghost use Rattle.ab_declare.specs.ClauseReadings.{Parts};
ghost use Rattle.ab_declare.specs.ClauseMeanings as meanings;
ghost use Rattle.ab_declare.specs.ClauseMeanings.{IsKeptAs};
ghost use Rattle.ab_declare.specs.JoinedRows.{joined, IsRead, HasReading};

use crate::cells::{cells_for, heads_of};
use crate::kept_clauses::close_clause;
use crate::term_parts::{is_under_nabla, two_of};
use ab_infer::{Row, build};
use ab_inference::{Formulas, InferFault, Settled, Verdict, decide};
use ab_norm::store::{Store, TermId};
use ab_norm::types::{Steps, TypeId, TypeTable};
use ab_typing::ClauseTerm;
use std::alloc::{AllocError, Global};

/// Whether the variables that stand in the body alone are closed there: the head, of the type, is a formula under no `nabla`.
fn closes_body(store: &Store, formulas: Formulas, ty: TypeId, head: TermId) -> bool
    requires { Holds store.now head }
    ensures { (types : Table) → IsTable types → IsFormulas types formulas → HoldsType types ty →
        result ≡ meanings.closes_body (type_of types ty) (tree_of types store.now head) }
{
    let is_formula = ty == formulas.prop;
    let under = is_under_nabla(store, head);
    is_formula && !under
}

/// The clause, its head being of the type, where the types are found. Its variables get cells, and head and body are built as one term.
fn clause_found<L>(
    alloc: Global,
    types: &TypeTable,
    store: &mut Store,
    formulas: Formulas,
    row: &Row,
    expected: TypeId,
    found: &[Settled],
    steps: &mut Steps<L>,
) -> Result<ClauseTerm, AllocError>
    requires table { IsTable types.now }
    requires formulas { IsFormulas types.now formulas }
    requires store { IsTypedBy types.now store.old }
    requires expected { HoldsType types.now expected }
    requires row { let A = type_of types.now expected in (e : Parts) × (B : Ty) × (m : Makes types.now store.old row.now (Ok (joined e A B))) ×
        HasReading types.now (length row.now.variables.items) found.now (length store.old.cells) row.now.names.items m.sketch }
    requires found { AreFound types.now (length row.now.variables.items + length row.now.names.items) found.now }
    ensures clause { let A = type_of types.now expected in IfOk result (λ clause. (e : Parts) (B : Ty) → (m : Makes types.now store.old row.now (Ok (joined e A B))) →
        HasReading types.now (length row.now.variables.items) found.now (length store.old.cells) row.now.names.items m.sketch →
        IsKeptAs (signature types.now) (length store.old.cells) e A B (clause_of types.now store.new clause)) }
    ensures held { IfOk result (HoldsClause types.now store.new) }
    ensures adds { AddsVariables types.now store.old store.new }
    ensures steps { steps.old ≤ steps.new }
{
    let base = row.variables.len();
    let cells = cells_for(alloc, types, store, base, found, &row.names)?;
    let heads = heads_of(alloc, &cells)?;
    let whole = build(
        alloc, types, store, formulas, base, found, &heads, &row.steps, steps,
    )?;
    let Some(whole) = whole else {
        unreachable!();
    };
    let Some((head, body)) = two_of(store, whole) else {
        unreachable!();
    };
    let closes = closes_body(store, formulas, expected, head);
    close_clause(alloc, store, closes, cells, head, body)
}

/// The clause that the steps of a row make, whose head, of the type, and body are joined there, or why there is none; it begins
/// at the place.
pub(crate) fn read_clause<L>(
    alloc: Global,
    types: &mut TypeTable,
    store: &mut Store,
    formulas: Formulas,
    row: &Row,
    expected: TypeId,
    place: usize,
    steps: &mut Steps<L>,
) -> Result<ClauseTerm, InferFault>
    requires table { IsTable types.old }
    requires formulas { IsFormulas types.old formulas }
    requires store { IsTypedBy types.old store.old }
    requires expected { HoldsType types.old expected }
    requires row { (e : Parts) × (B : Ty) × Makes types.old store.old row.now (Ok (joined e (type_of types.old expected) B)) }
    ensures read { let A = type_of types.old expected in (e : Parts) (B : Ty) → Makes types.old store.old row.now (Ok (joined e A B)) →
        IsRead types.new store.new (length store.old.cells) e A B place result }
    ensures held { IfOk result (HoldsClause types.new store.new) }
    ensures kinds { kinds types.new ≡ kinds types.old }
    ensures constants { constants types.new ≡ constants types.old }
    ensures kept { IsExtendedBy types.old types.new }
    ensures table { IsTable types.new }
    ensures adds { AddsVariables types.new store.old store.new }
    ensures steps { steps.old ≤ steps.new }
{
    let base = row.variables.len();
    let verdict = decide(
        alloc,
        types,
        formulas,
        base,
        row.names.len(),
        &row.steps,
        &row.marks,
        formulas.prop,
    )?;
    match verdict {
        Verdict::Nothing => Err(InferFault::TypeClash(place)),
        Verdict::Open(place) => Err(InferFault::Untyped(place)),
        Verdict::One(found) => {
            let clause = clause_found(alloc, types, store, formulas, row, expected, &found, steps)?;
            Ok(clause)
        }
    }
}
