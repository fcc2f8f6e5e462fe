//! The walk over an expression.
ghost use Rattle.std.specs.Prelude.{◌≡◌, [], Ok, Err, Some, None, option_map, map, MatchResult};
ghost use Rattle.ab_norm.specs.ab_types.specs.Entries.{Table, kinds};
ghost use Rattle.ab_norm.specs.ab_types.specs.Sound.{IsTable};
ghost use Rattle.ab_norm.specs.ab_store.specs.Trees.{Contents};
ghost use Rattle.ab_grammar.specs.declared.Quant.{Quant};
ghost use Rattle.ab_meaning.specs.ResolvedNames.{quantified, apply};
ghost use Rattle.ab_inference.specs.Programs.{binding_of};
ghost use Rattle.ab_syntax.specs.ab_expressions.specs.SyntaxTrees.{tree_of, type_of as type_tree_of, binder_of};
ghost use Rattle.ab_meaning.specs.Scopes as scopes;
ghost use Rattle.ab_grammar.specs.Tree.{trees_of};
ghost use Rattle.ab_meaning.specs.Scopes.{resolved, written, with_binders, under, after, pi_over, made_of_both, context, items_before};
ghost use Rattle.ab_inference.specs.declared.constraints.Formulas.{Formulas as AFormulas};
ghost use Rattle.ab_infer.specs.declared.scope.Scope.{Scope as AScope};
ghost use Rattle.ab_infer.specs.NameScopes.{names_in, scope_of};
ghost use Rattle.ab_infer.specs.declared.row.Row.{Row as ARow};
ghost use Rattle.ab_infer.specs.Rows.{IsGround, AddsTypes, Grew, Makes, Fails};
ghost use Rattle.ab_infer.specs.WalkMoves.{IsWritten, IsApplication, IsJudgement};

use crate::judgement_parts::{is_list, put_constant, put_judgement};
use crate::names::{abstract_name, bind_name, quantify_name, walk_name};
use crate::row::Row;
use crate::scope::Scope;
use crate::signs::{meet_sign, put_behind, put_between};
use ab_grammar::Quant;
use ab_inference::{Binds, Formulas, InferFault, Op, read_written};
use ab_norm::name::Name;
use ab_norm::store::Store;
use ab_norm::types::{TypeId, TypeTable};
use ab_syntax::{Binder, Parse, TypeParse};
use std::alloc::Global;

/// A word that stands for nothing.
fn unknown_word(alloc: Global, text: &str) -> InferFault
    ensures { (found : scopes.Found) → found ≡ Err text.now → Fails found result }
{
    match Name::from_text(alloc, text) {
        Ok(name) => InferFault::Unknown(name),
        Err(fault) => InferFault::Memory(fault),
    }
}

/// Whether it is the word `pi`.
fn is_pi(head: &Parse) -> bool
    ensures { result ≡ scopes.is_pi (tree_of head.now) }
{
    match head {
        Parse::Name(name, _) => name.as_str() == "pi",
        Parse::Apply(..) | Parse::Abs(..) | Parse::Join(..) | Parse::Bind(..) | Parse::Judge(..) =>
            false,
    }
}

/// What binds the names of a quantifier.
fn binds_of(quant: Quant) -> Binds
    ensures { binding_of result ≡ quantified quant }
{
    match quant {
        Quant::Forall => Binds::Forall,
        Quant::Exists => Binds::Exists,
        Quant::Nabla => Binds::Nabla,
    }
}

/// The type of a binder, where one is written.
fn read_binder_type(
    alloc: Global,
    types: &mut TypeTable,
    ty: &Option<TypeParse>,
) -> Result<Option<TypeId>, InferFault>
    requires table { IsTable types.old }
    ensures read { MatchResult result (IsWritten types.old types.new (option_map type_tree_of ty.now)) (Fails (written (kinds types.old) (option_map type_tree_of ty.now))) }
    ensures ground { (store : Contents) (formulas : AFormulas) (scope : AScope) → IsGround types.old store formulas scope → IsGround types.new store formulas scope }
    ensures adds { AddsTypes types.old types.new }
    ensures table { IsTable types.new }
{
    match ty {
        None => Ok(None),
        Some(ty) => {
            let written = read_written(alloc, types, ty)?;
            Ok(Some(written.ty))
        }
    }
}

/// `pi` over the abstraction that the row ends with.
fn turn_to_pi(alloc: Global, row: &mut Row) -> Result<(), InferFault>
    ensures { (types : Table) (store : Contents) (first : ARow) (found : scopes.Found) → Grew types store first row.old found →
        MatchResult result (λ u. Grew types store first row.new (after pi_over found)) (Fails (after pi_over found)) }
{
    let Some(last) = row.steps.pop() else {
        return Err(unknown_word(alloc, "pi"));
    };
    match last {
        Op::Abs(name, node, place) => {
            row.put(Op::Bind(Binds::Pi, name, node, place, None))?;
            Ok(())
        }
        _ => Err(unknown_word(alloc, "pi")),
    }
}

/// Puts the steps of an expression behind a row, or tells the first name in the text that stands for nothing.
#[cycle(walking)]
pub fn walk(
    alloc: Global,
    types: &mut TypeTable,
    store: &Store,
    formulas: Formulas,
    scope: &Scope,
    parse: &Parse,
    row: &mut Row,
) -> Result<(), InferFault>
    requires ground { IsGround types.old store.now formulas scope.now }
    ensures ground { IsGround types.new store.now formulas scope.now }
    ensures adds { AddsTypes types.old types.new }
    ensures walked { MatchResult result
        (λ u. Grew types.new store.now row.old row.new (resolved (scope_of types.old store.now scope.now) (names_in row.old.bound.items) (tree_of parse.now)))
        (Fails (resolved (scope_of types.old store.now scope.now) (names_in row.old.bound.items) (tree_of parse.now))) }
{
    match parse {
        Parse::Name(name, place) => {
            walk_name(alloc, types, store, formulas, scope, name, *place, row)?;
            Ok(())
        }
        Parse::Apply(..) => walk_application(alloc, types, store, formulas, scope, parse, row),
        Parse::Abs(name, body, place) => {
            bind_name(alloc, name, *place, row)?;
            walk(alloc, types, store, formulas, scope, body, row)?;
            abstract_name(*place, row)?;
            Ok(())
        }
        Parse::Join(sign, left, right, place) => {
            let equation = meet_sign(alloc, types, store, formulas, scope, *sign, *place, row)?;
            walk(alloc, types, store, formulas, scope, left, row)?;
            put_between(equation, row)?;
            walk(alloc, types, store, formulas, scope, right, row)?;
            put_behind(equation, row)?;
            Ok(())
        }
        Parse::Bind(quant, binders, body, _) => {
            let binds = binds_of(*quant);
            let binders = binders.as_slice();
            walk_binders(
                binds, binders, body, alloc, types, store, formulas, scope, row,
            )?;
            Ok(())
        }
        Parse::Judge(..) => walk_judgement(alloc, types, store, formulas, scope, parse, row),
    }
}

/// The same of a head and its arguments.
#[cycle(walking)]
fn walk_application(
    alloc: Global,
    types: &mut TypeTable,
    store: &Store,
    formulas: Formulas,
    scope: &Scope,
    parse: &Parse,
    row: &mut Row,
) -> Result<(), InferFault>
    requires ground { IsGround types.old store.now formulas scope.now }
    ensures ground { IsGround types.new store.now formulas scope.now }
    ensures adds { AddsTypes types.old types.new }
    ensures walked { IsApplication parse.now → MatchResult result
        (λ u. Grew types.new store.now row.old row.new (resolved (scope_of types.old store.now scope.now) (names_in row.old.bound.items) (tree_of parse.now)))
        (Fails (resolved (scope_of types.old store.now scope.now) (names_in row.old.bound.items) (tree_of parse.now))) }
{
    match parse {
        Parse::Apply(head, arguments, _) => {
            let arguments = arguments.as_slice();
            if is_pi(head) {
                if arguments.len() != 1 {
                    return Err(unknown_word(alloc, "pi"));
                }
                walk(alloc, types, store, formulas, scope, &arguments[0], row)?;
                turn_to_pi(alloc, row)?;
                return Ok(());
            }
            walk(alloc, types, store, formulas, scope, head, row)?;
            for argument in arguments {
                walk(alloc, types, store, formulas, scope, argument, row)?;
                row.put(Op::Apply)?;
            }
            Ok(())
        }
        _ => Ok(()),
    }
}

/// The same of a judgement.
#[cycle(walking)]
fn walk_judgement(
    alloc: Global,
    types: &mut TypeTable,
    store: &Store,
    formulas: Formulas,
    scope: &Scope,
    parse: &Parse,
    row: &mut Row,
) -> Result<(), InferFault>
    requires ground { IsGround types.old store.now formulas scope.now }
    ensures ground { IsGround types.new store.now formulas scope.now }
    ensures adds { AddsTypes types.old types.new }
    ensures walked { IsJudgement parse.now → MatchResult result
        (λ u. Grew types.new store.now row.old row.new (resolved (scope_of types.old store.now scope.now) (names_in row.old.bound.items) (tree_of parse.now)))
        (Fails (resolved (scope_of types.old store.now scope.now) (names_in row.old.bound.items) (tree_of parse.now))) }
{
    match parse {
        Parse::Judge(context, focus, goal, _) => {
            put_judgement(alloc, types, formulas, focus.is_some(), row)?;
            walk_context(
                context.as_slice(),
                alloc,
                types,
                store,
                formulas,
                scope,
                row,
            )?;
            row.put(Op::Apply)?;
            if let Some(focus) = focus {
                walk_argument(alloc, types, store, formulas, scope, focus, row)?;
                walk_argument(alloc, types, store, formulas, scope, goal, row)?;
                return Ok(());
            }
            walk_argument(alloc, types, store, formulas, scope, goal, row)?;
            Ok(())
        }
        _ => Ok(()),
    }
}

/// Gives an expression to what the row ends with.
#[cycle(walking)]
fn walk_argument(
    alloc: Global,
    types: &mut TypeTable,
    store: &Store,
    formulas: Formulas,
    scope: &Scope,
    parse: &Parse,
    row: &mut Row,
) -> Result<(), InferFault>
    requires ground { IsGround types.old store.now formulas scope.now }
    ensures ground { IsGround types.new store.now formulas scope.now }
    ensures adds { AddsTypes types.old types.new }
    ensures walked { (first : ARow) (f : scopes.Found) → Grew types.old store.now first row.old f →
        let found = made_of_both apply f (resolved (scope_of types.old store.now scope.now) (names_in row.old.bound.items) (tree_of parse.now)) in
        MatchResult result (λ u. Grew types.new store.now first row.new found) (Fails found) }
{
    walk(alloc, types, store, formulas, scope, parse, row)?;
    row.put(Op::Apply)?;
    Ok(())
}

/// The list of a judgement, from its items.
#[cycle(walking)]
fn walk_context(
    items: &[Parse],
    alloc: Global,
    types: &mut TypeTable,
    store: &Store,
    formulas: Formulas,
    scope: &Scope,
    row: &mut Row,
) -> Result<(), InferFault>
    requires ground { IsGround types.old store.now formulas scope.now }
    ensures ground { IsGround types.new store.now formulas scope.now }
    ensures adds { AddsTypes types.old types.new }
    ensures walked { let found = context (scope_of types.old store.now scope.now) (names_in row.old.bound.items) (trees_of (map tree_of items.now)) in
        MatchResult result (λ u. Grew types.new store.now row.old row.new found) (Fails found) }
{
    match items {
        [] => {
            put_constant(alloc, types, "nil", row)?;
            Ok(())
        }
        [first, rest @ ..] => {
            if is_list(first) {
                walk(alloc, types, store, formulas, scope, first, row)?;
                walk_items(rest, alloc, types, store, formulas, scope, row)?;
                return Ok(());
            }
            put_constant(alloc, types, "nil", row)?;
            walk_items(items, alloc, types, store, formulas, scope, row)?;
            Ok(())
        }
    }
}

/// Puts items before the list that the row ends with: the last of them stands first.
#[cycle(walking)]
fn walk_items(
    items: &[Parse],
    alloc: Global,
    types: &mut TypeTable,
    store: &Store,
    formulas: Formulas,
    scope: &Scope,
    row: &mut Row,
) -> Result<(), InferFault>
    requires ground { IsGround types.old store.now formulas scope.now }
    ensures ground { IsGround types.new store.now formulas scope.now }
    ensures adds { AddsTypes types.old types.new }
    ensures walked { (first : ARow) (f : scopes.Found) → Grew types.old store.now first row.old f →
        let found = items_before (scope_of types.old store.now scope.now) (names_in row.old.bound.items) f (trees_of (map tree_of items.now)) in
        MatchResult result (λ u. Grew types.new store.now first row.new found) (Fails found) }
{
    for item in items {
        put_constant(alloc, types, "::", row)?;
        walk_argument(alloc, types, store, formulas, scope, item, row)?;
        row.put(Op::Behind)?;
    }
    Ok(())
}

/// The row of the steps that make an expression. `Unknown` has the first name in the text that stands for nothing.
pub fn row_of(
    alloc: Global,
    types: &mut TypeTable,
    store: &Store,
    formulas: Formulas,
    scope: &Scope,
    parse: &Parse,
) -> Result<Row, InferFault>
    requires ground { IsGround types.old store.now formulas scope.now }
    ensures ground { IsGround types.new store.now formulas scope.now }
    ensures adds { AddsTypes types.old types.new }
    ensures row { MatchResult result
        (λ row. Makes types.new store.now row (resolved (scope_of types.old store.now scope.now) [] (tree_of parse.now)))
        (Fails (resolved (scope_of types.old store.now scope.now) [] (tree_of parse.now))) }
{
    let mut row = Row::new(alloc);
    walk(alloc, types, store, formulas, scope, parse, &mut row)?;
    Ok(row)
}

/// The same of what a quantifier reaches over, under the binders that are left.
#[cycle(walking)]
fn walk_binders(
    binds: Binds,
    binders: &[Binder],
    body: &Parse,
    alloc: Global,
    types: &mut TypeTable,
    store: &Store,
    formulas: Formulas,
    scope: &Scope,
    row: &mut Row,
) -> Result<(), InferFault>
    requires ground { IsGround types.old store.now formulas scope.now }
    ensures ground { IsGround types.new store.now formulas scope.now }
    ensures adds { AddsTypes types.old types.new }
    ensures walked { (q : Quant) → binding_of binds ≡ quantified q → let s = scope_of types.old store.now scope.now in
        let found = with_binders s.kinds q (map binder_of binders.now) (resolved s (under (map binder_of binders.now) (names_in row.old.bound.items)) (tree_of body.now)) in
        MatchResult result (λ u. Grew types.new store.now row.old row.new found) (Fails found) }
{
    match binders {
        [] => {
            walk(alloc, types, store, formulas, scope, body, row)?;
            Ok(())
        }
        [first, rest @ ..] => {
            let written = read_binder_type(alloc, types, &first.ty)?;
            bind_name(alloc, &first.name, first.place, row)?;
            walk_binders(binds, rest, body, alloc, types, store, formulas, scope, row)?;
            quantify_name(binds, first.place, written, row)?;
            Ok(())
        }
    }
}
