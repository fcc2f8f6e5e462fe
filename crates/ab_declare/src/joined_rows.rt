//! Head and body of a clause as one row of steps.
ghost use Rattle.std.specs.Prelude.{◌≡◌, [], IfOk, MatchResult, option_map};
ghost use Rattle.ab_term.specs.Types.{arrow, prop};
ghost use Rattle.ab_norm.specs.ab_types.specs.Entries.{Table};
ghost use Rattle.ab_norm.specs.ab_types.specs.Sound.{IsTable};
ghost use Rattle.ab_norm.specs.ab_types.specs.Ids.{HoldsType, type_of};
ghost use Rattle.ab_syntax.specs.ab_expressions.specs.SyntaxTrees.{tree_of};
ghost use Rattle.ab_meaning.specs.Scopes.{resolved};
ghost use Rattle.ab_inference.specs.Inferences.{IsFormulas};
ghost use Rattle.ab_infer.specs.NameScopes.{scope_of};
ghost use Rattle.ab_infer.specs.Rows.{IsGround, AddsTypes, Grew, Makes, Fails};
ghost use Rattle.ab_declare.specs.ClauseMeanings as meanings;
ghost use Rattle.ab_declare.specs.ClauseMeanings.{body_found};
ghost use Rattle.ab_declare.specs.JoinedRows.{joined_found};

use ab_infer::{Row, Scope, walk};
use ab_inference::{Formulas, InferFault, Op};
use ab_norm::store::{Head, Logical, Store};
use ab_norm::types::{TypeId, TypeTable};
use ab_syntax::{ClauseParse, Parse};
use std::alloc::{AllocError, Global};

/// The type of what takes terms of two types to a third.
fn joining_type(
    types: &mut TypeTable,
    first: TypeId,
    second: TypeId,
    last: TypeId,
) -> Result<TypeId, AllocError>
    requires table { IsTable types.old }
    requires first { HoldsType types.old first }
    requires second { HoldsType types.old second }
    requires last { HoldsType types.old last }
    ensures held { IfOk result (HoldsType types.new) }
    ensures is { IfOk result (λ id. type_of types.new id ≡ arrow (type_of types.old first) (arrow (type_of types.old second) (type_of types.old last))) }
    ensures adds { AddsTypes types.old types.new }
    ensures table { IsTable types.new }
{
    let rest = types.arrow(second, last)?;
    types.arrow(first, rest)
}

/// Puts the steps of a body behind a row; where none is written it is `true`.
fn walk_body(
    alloc: Global,
    types: &mut TypeTable,
    store: &Store,
    formulas: Formulas,
    scope: &Scope,
    body: &Option<Parse>,
    row: &mut Row,
) -> Result<(), InferFault>
    requires ground { IsGround types.old store.now formulas scope.now }
    requires outermost { row.old.bound.items ≡ [] }
    ensures ground { IsGround types.new store.now formulas scope.now }
    ensures adds { AddsTypes types.old types.new }
    ensures walked { MatchResult result
        (λ u. Grew types.new store.now row.old row.new (body_found (scope_of types.old store.now scope.now) (option_map tree_of body.now)))
        (Fails (body_found (scope_of types.old store.now scope.now) (option_map tree_of body.now))) }
{
    match body {
        Some(body) => {
            walk(alloc, types, store, formulas, scope, body, row)?;
            Ok(())
        }
        None => {
            row.put(Op::Known(Head::Logic(Logical::True), formulas.prop))?;
            Ok(())
        }
    }
}

/// The type of a clause's body.
pub(crate) fn body_type(formulas: Formulas, parse: &ClauseParse, expected: TypeId) -> TypeId
    ensures held { (types : Table) → IsFormulas types formulas → HoldsType types expected → HoldsType types result }
    ensures is { (types : Table) → IsFormulas types formulas →
        type_of types result ≡ meanings.body_type (type_of types expected) (option_map tree_of parse.now.body) }
{
    match parse.body {
        Some(_) => expected,
        None => formulas.prop,
    }
}

/// The row of the steps that make head and body, joined to a formula. `Unknown` has the first name in the text that stands for
/// nothing.
pub(crate) fn row_of_clause(
    alloc: Global,
    types: &mut TypeTable,
    store: &Store,
    formulas: Formulas,
    scope: &Scope,
    parse: &ClauseParse,
    expected: TypeId,
) -> Result<Row, InferFault>
    requires ground { IsGround types.old store.now formulas scope.now }
    requires expected { HoldsType types.old expected }
    ensures ground { IsGround types.new store.now formulas scope.now }
    ensures adds { AddsTypes types.old types.new }
    ensures row { let s = scope_of types.old store.now scope.now in
        let body = option_map tree_of parse.now.body in
        let found = joined_found (type_of types.old expected) (meanings.body_type (type_of types.old expected) body)
        (resolved s [] (tree_of parse.now.head)) (body_found s body) in
        MatchResult result (λ row. Makes types.new store.now row found) (Fails found) }
{
    let body = body_type(formulas, parse, expected);
    let joiner = joining_type(types, expected, body, formulas.prop)?;
    let mut row = Row::new(alloc);
    row.put(Op::Known(Head::Nominal(0, joiner), joiner))?;
    walk(alloc, types, store, formulas, scope, &parse.head, &mut row)?;
    row.put(Op::Apply)?;
    walk_body(alloc, types, store, formulas, scope, &parse.body, &mut row)?;
    row.put(Op::Apply)?;
    Ok(row)
}
