//! Whether a term is of a type.
ghost use Rattle.std.specs.Prelude.{◌≡◌, ◌↔◌, ℕ, ◌<◌, [], true, map, length, IfOk, OnOk, IsTrue, IfSome, MatchOption, All, Some, None};
ghost use Rattle.ab_term.specs.Types.{arrow};
ghost use Rattle.ab_term.specs.Terms.{terms_of};
ghost use Rattle.ab_term.specs.Typing.{HasType, TakeType, head_type, type_at};
ghost use Rattle.ab_store.specs.ab_types.specs.Entries.{Table, signature};
ghost use Rattle.ab_store.specs.ab_types.specs.Ids.{HoldsType, type_of};
ghost use Rattle.ab_store.specs.Trees.{Holds, tree_of, head_reading};
ghost use Rattle.ab_store.specs.Naming.{HoldsHead, HeadIsTyped, IsTypedBy};
ghost use Rattle.ab_typing.specs.HeadArguments.{AreBuiltIn, IsKind, wanted_type, HoldsWanted, rest_type, HoldsRest, context, AreTyped};

use crate::built_in::{BuiltIn, built_in};
use crate::closed_types::{Typed, is_known, know};
use crate::head_arguments::{Rest, Wanted, ends_at, next, taken_by};
use ab_store::types::{TypeId, TypeTable, TypeView};
use ab_store::{Head, Node, Store, TermId};
use std::alloc::{AllocError, Global};
use std::collections::BTreeSet;

/// What is known at a place in a term.
#[derive(Drop)]
pub struct Scope {
    /// The types of the bound names, the innermost last.
    pub names: Vec<TypeId>,
    /// Closed terms that were found to be of a type.
    pub known: BTreeSet<Typed>,
}

/// Whether the term is canonical, well-typed, closed and of the type. A closed part that is shared is looked at once.
pub fn has_type(
    alloc: Global,
    types: &TypeTable,
    store: &Store,
    id: TermId,
    ty: TypeId,
) -> Result<bool, AllocError>
    requires store { IsTypedBy types.now store.now }
    requires id { Holds store.now id }
    requires ty { HoldsType types.now ty }
    ensures { IfOk result (λ yes. IsTrue yes ↔ HasType (signature types.now) [] (tree_of types.now store.now id) (type_of types.now ty)) }
{
    let built = built_in(alloc, types)?;
    let mut scope = Scope {
        names: Vec::new(alloc),
        known: BTreeSet::new(alloc),
    };
    check(types, store, built, &mut scope, id, ty)
}

/// Whether the term is of the type, under the bound names.
#[cycle(typed)]
fn check(
    types: &TypeTable,
    store: &Store,
    built: BuiltIn,
    scope: &mut Scope,
    id: TermId,
    ty: TypeId,
) -> Result<bool, AllocError>
    requires store { IsTypedBy types.now store.now }
    requires built { AreBuiltIn types.now built }
    requires names { All (HoldsType types.now) scope.old.names.items }
    requires known { AreTyped types.now store.now scope.old.known.keys }
    requires id { Holds store.now id }
    requires ty { HoldsType types.now ty }
    ensures judged { IfOk result (λ yes. (yes ≡ true) ↔
        HasType (signature types.now) (context types.now scope.old.names.items) (tree_of types.now store.now id) (type_of types.now ty)) }
    ensures names { OnOk result (scope.new.names.items ≡ scope.old.names.items) }
    ensures known { OnOk result (AreTyped types.now store.now scope.new.known.keys) }
{
    if store.reach(id) > 0 {
        return check_node(types, store, built, scope, id, ty);
    }
    let one = Typed { id, ty };
    if is_known(&scope.known, one) {
        return Ok(true);
    }
    if !check_node(types, store, built, scope, id, ty)? {
        return Ok(false);
    }
    know(&mut scope.known, one)?;
    Ok(true)
}

/// The same, whatever is known of the term itself.
#[cycle(typed)]
fn check_node(
    types: &TypeTable,
    store: &Store,
    built: BuiltIn,
    scope: &mut Scope,
    id: TermId,
    ty: TypeId,
) -> Result<bool, AllocError>
    requires store { IsTypedBy types.now store.now }
    requires built { AreBuiltIn types.now built }
    requires names { All (HoldsType types.now) scope.old.names.items }
    requires known { AreTyped types.now store.now scope.old.known.keys }
    requires id { Holds store.now id }
    requires ty { HoldsType types.now ty }
    ensures judged { IfOk result (λ yes. (yes ≡ true) ↔
        HasType (signature types.now) (context types.now scope.old.names.items) (tree_of types.now store.now id) (type_of types.now ty)) }
    ensures names { OnOk result (scope.new.names.items ≡ scope.old.names.items) }
    ensures known { OnOk result (AreTyped types.now store.now scope.new.known.keys) }
{
    match types.view(ty) {
        TypeView::Arrow(from, to) => check_function(types, store, built, scope, id, from, to),
        TypeView::Base(_) => match store.view(id) {
            Node::Lam(_, _, _) => Ok(false),
            Node::Spine(head, args) => {
                match rest_of_head(types, store, built, scope.names.as_slice(), *head) {
                    None => Ok(false),
                    Some(rest) => {
                        check_all(types, store, built, scope, args.as_slice(), rest, ty)
                    }
                }
            }
        },
    }
}

/// Whether the term is of the type of the functions from one type to another.
#[cycle(typed)]
fn check_function(
    types: &TypeTable,
    store: &Store,
    built: BuiltIn,
    scope: &mut Scope,
    id: TermId,
    from: TypeId,
    to: TypeId,
) -> Result<bool, AllocError>
    requires store { IsTypedBy types.now store.now }
    requires built { AreBuiltIn types.now built }
    requires names { All (HoldsType types.now) scope.old.names.items }
    requires known { AreTyped types.now store.now scope.old.known.keys }
    requires id { Holds store.now id }
    requires from { HoldsType types.now from }
    requires to { HoldsType types.now to }
    ensures judged { IfOk result (λ yes. (yes ≡ true) ↔
        HasType (signature types.now) (context types.now scope.old.names.items) (tree_of types.now store.now id) (arrow (type_of types.now from) (type_of types.now to))) }
    ensures names { OnOk result (scope.new.names.items ≡ scope.old.names.items) }
    ensures known { OnOk result (AreTyped types.now store.now scope.new.known.keys) }
{
    match store.view(id) {
        Node::Spine(_, _) => Ok(false),
        Node::Lam(ty, _, body) => {
            if !is_same(types, *ty, from) {
                return Ok(false);
            }
            scope.names.push(from)?;
            let yes = check(types, store, built, scope, *body, to)?;
            let _ = scope.names.pop();
            Ok(yes)
        }
    }
}

/// Whether the term is what is wanted.
#[cycle(typed)]
fn check_wanted(
    types: &TypeTable,
    store: &Store,
    built: BuiltIn,
    scope: &mut Scope,
    id: TermId,
    wanted: Wanted,
) -> Result<bool, AllocError>
    requires store { IsTypedBy types.now store.now }
    requires built { AreBuiltIn types.now built }
    requires names { All (HoldsType types.now) scope.old.names.items }
    requires known { AreTyped types.now store.now scope.old.known.keys }
    requires id { Holds store.now id }
    requires wanted { HoldsWanted types.now wanted }
    ensures judged { IfOk result (λ yes. (yes ≡ true) ↔
        HasType (signature types.now) (context types.now scope.old.names.items) (tree_of types.now store.now id) (wanted_type types.now wanted)) }
    ensures names { OnOk result (scope.new.names.items ≡ scope.old.names.items) }
    ensures known { OnOk result (AreTyped types.now store.now scope.new.known.keys) }
{
    match wanted {
        Wanted::Plain(ty) => check(types, store, built, scope, id, ty),
        Wanted::Function(from, to) => check_function(types, store, built, scope, id, from, to),
    }
}

/// Whether the terms are what is taken, and a kind comes out.
#[cycle(typed)]
fn check_all(
    types: &TypeTable,
    store: &Store,
    built: BuiltIn,
    scope: &mut Scope,
    ids: &[TermId],
    first: Rest,
    ty: TypeId,
) -> Result<bool, AllocError>
    requires store { IsTypedBy types.now store.now }
    requires built { AreBuiltIn types.now built }
    requires names { All (HoldsType types.now) scope.old.names.items }
    requires known { AreTyped types.now store.now scope.old.known.keys }
    requires ids { All (Holds store.now) ids.now }
    requires first { HoldsRest types.now first }
    requires ty { HoldsType types.now ty }
    requires kind { IsKind (type_of types.now ty) }
    ensures judged { IfOk result (λ yes. (yes ≡ true) ↔
        TakeType (signature types.now) (context types.now scope.old.names.items) (terms_of (map (tree_of types.now store.now) ids.now)) (rest_type types.now first) (type_of types.now ty)) }
    ensures names { OnOk result (scope.new.names.items ≡ scope.old.names.items) }
    ensures known { OnOk result (AreTyped types.now store.now scope.new.known.keys) }
{
    let mut rest = first;
    for id in ids {
        match next(types, rest) {
            None => return Ok(false),
            Some(taking) => {
                if !check_wanted(types, store, built, scope, *id, taking.first)? {
                    return Ok(false);
                }
                rest = taking.then;
            }
        }
    }
    Ok(ends_at(types, rest, ty))
}

/// What the head takes; `None` where it is an index of no bound name.
fn rest_of_head(
    types: &TypeTable,
    store: &Store,
    built: BuiltIn,
    names: &[TypeId],
    head: Head,
) -> Option<Rest>
    requires store { IsTypedBy types.now store.now }
    requires built { AreBuiltIn types.now built }
    requires names { All (HoldsType types.now) names.now }
    requires head { HoldsHead store.now head }
    requires typed { HeadIsTyped types.now head }
    ensures held { IfSome result (HoldsRest types.now) }
    ensures reads { MatchOption result
        (head_type (signature types.now) (context types.now names.now) (head_reading types.now store.now head) ≡ None)
        (λ rest. head_type (signature types.now) (context types.now names.now) (head_reading types.now store.now head) ≡ Some (rest_type types.now rest)) }
{
    match head {
        Head::Const(constant) => Some(Rest::Done(types.const_type(constant))),
        Head::Logic(constant) => Some(taken_by(built, constant)),
        Head::Nominal(_, ty) => Some(Rest::Done(ty)),
        Head::Cell(cell) => Some(Rest::Done(store.cell_type(cell))),
        Head::Index(index) => match name_type(names, index) {
            None => None,
            Some(ty) => Some(Rest::Done(ty)),
        },
    }
}

/// The type of the bound name that is so many binders out.
fn name_type(names: &[TypeId], index: usize) -> Option<TypeId>
    ensures held { (types : Table) → All (HoldsType types) names.now → IfSome result (HoldsType types) }
    ensures reads { (types : Table) → MatchOption result (type_at (context types names.now) index ≡ None)
        (λ ty. type_at (context types names.now) index ≡ Some (type_of types ty)) }
{
    if index < names.len() {
        Some(names[names.len() - 1 - index])
    } else {
        None
    }
}

/// Whether the two types are the same.
fn is_same(types: &TypeTable, a: TypeId, b: TypeId) -> bool
    requires a { HoldsType types.now a }
    requires b { HoldsType types.now b }
    ensures { (result ≡ true) ↔ (type_of types.now a ≡ type_of types.now b) }
{
    // no two ids of a table stand for one type
    let _ = types.len();
    a == b
}
