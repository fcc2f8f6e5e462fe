//! Elaboration of a clause.
ghost use Rattle.std.specs.Prelude.{◌≡◌, ◌≤◌, length, Ok, IfOk, MatchResult};
ghost use Rattle.ab_term.specs.Types.{prop};
ghost use Rattle.ab_norm.specs.ab_types.specs.Entries.{Table, kinds, constants, signature, IsExtendedBy};
ghost use Rattle.ab_norm.specs.ab_types.specs.Ids.{HoldsType, type_of};
ghost use Rattle.ab_norm.specs.ab_types.specs.Sound.{IsTable};
ghost use Rattle.ab_norm.specs.ab_store.specs.Trees.{Contents};
ghost use Rattle.ab_norm.specs.ab_store.specs.Naming.{IsTypedBy};
ghost use Rattle.ab_syntax.specs.Commands.{clause_of};
ghost use Rattle.ab_infer.specs.NameScopes.{scope_of, HoldsScope};
ghost use Rattle.ab_formulas.specs.CaseClauses.{case_of};
ghost use Rattle.ab_formulas.specs.ProposedClauses.{IsProposed};
ghost use Rattle.ab_typing.specs.DefinitionReadings as kept;
ghost use Rattle.ab_infer.specs.Rows.{Fails};
ghost use Rattle.ab_typing.specs.DefinitionReadings.{HoldsClause};
ghost use Rattle.ab_declare.specs.ClauseAnswers.{IsClauseAnswer};
ghost use Rattle.ab_declare.specs.ClauseReadings.{Parts};
ghost use Rattle.ab_declare.specs.ClauseMeanings as meanings;
ghost use Rattle.ab_declare.specs.CellGrowth.{AddsVariables};

use crate::clause_rows::read_clause;
use crate::joined_rows::row_of_clause;
use ab_infer::{Place, Scope, formulas};
use ab_inference::InferFault;
use ab_norm::store::Store;
use ab_norm::types::{Steps, TypeId, TypeTable};
use ab_syntax::ClauseParse;
use ab_typing::ClauseTerm;
use std::alloc::Global;

/// What a clause may name beside its variables: what is declared.
fn clause_scope(alloc: Global) -> Scope
    ensures is { (types : Table) (store : Contents) → scope_of types store result ≡ meanings.clause_scope (kinds types) (signature types) }
    ensures held { (types : Table) (store : Contents) → HoldsScope types store result }
{
    Scope {
        variables: Vec::new(alloc),
        nominals: Vec::new(alloc),
        place: Place::Clause,
    }
}

/// Looks at the names of a clause alone. `Unknown` has the first name in the text that stands for nothing; no other fault but
/// want of memory comes.
pub fn look_at_names(
    alloc: Global,
    types: &mut TypeTable,
    store: &Store,
    parse: &ClauseParse,
) -> Result<(), InferFault>
    requires table { IsTable types.old }
    requires store { IsTypedBy types.old store.now }
    ensures names { let found = meanings.parts_found (kinds types.old) (signature types.old) (clause_of parse.now) in
        MatchResult result (λ u. (e : Parts) × (found ≡ Ok e)) (Fails found) }
    ensures kinds { kinds types.new ≡ kinds types.old }
    ensures constants { constants types.new ≡ constants types.old }
    ensures kept { IsExtendedBy types.old types.new }
    ensures table { IsTable types.new }
{
    let scope = clause_scope(alloc);
    let formulas = formulas(alloc, types)?;
    let prop = formulas.prop;
    row_of_clause(alloc, types, store, formulas, &scope, parse, prop)?;
    Ok(())
}

/// The clause that is written, its head and its body being of the type; a body that isn't written is `true`. Its variables are
/// the words with a capital first letter, in the order in which they first stand in the text, each a new cell; those that stand
/// in the body alone are closed by `exists` there, where they are formulas and the head has no prefix of `nabla` binders. `Unknown` has the first
/// name in the text that stands for nothing, `TypeClash` the place of the clause, which has no reading, and `Untyped` the place
/// of the first name to which two readings give different types, in bytes. `Memory` says that there was none.
pub fn elaborate_clause<L>(
    alloc: Global,
    types: &mut TypeTable,
    store: &mut Store,
    parse: &ClauseParse,
    expected: TypeId,
    steps: &mut Steps<L>,
) -> Result<ClauseTerm, InferFault>
    requires table { IsTable types.old }
    requires store { IsTypedBy types.old store.old }
    requires expected { HoldsType types.old expected }
    ensures answer { IsClauseAnswer types.old types.new store.new (length store.old.cells) (clause_of parse.now) (type_of types.old expected) result }
    ensures means { IfOk result (λ k. meanings.ClauseMeans (kinds types.old) (signature types.old) (clause_of parse.now) (type_of types.old expected)
        (case_of (kept.clause_of types.new store.new k))) }
    ensures proposed { type_of types.old expected ≡ prop → IfOk result (λ k. IsProposed (signature types.new) (kept.clause_of types.new store.new k)) }
    ensures held { IfOk result (HoldsClause types.new store.new) }
    ensures kinds { kinds types.new ≡ kinds types.old }
    ensures constants { constants types.new ≡ constants types.old }
    ensures kept { IsExtendedBy types.old types.new }
    ensures table { IsTable types.new }
    ensures adds { AddsVariables types.new store.old store.new }
    ensures steps { steps.old ≤ steps.new }
{
    let scope = clause_scope(alloc);
    let formulas = formulas(alloc, types)?;
    let row = row_of_clause(alloc, types, store, formulas, &scope, parse, expected)?;
    read_clause(
        alloc,
        types,
        store,
        formulas,
        &row,
        expected,
        parse.place,
        steps,
    )
}
