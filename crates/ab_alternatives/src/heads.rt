//! Heads of clauses: the atom under the prefix of `nabla` binders, whether it is of a predicate, and the types of the names
//! that the binders bind.
ghost use Rattle.std.specs.Prelude.{◌≡◌, ◌↔◌, ◌++◌, map, bytes_eq, true, All, IfOk, IfSome, OnOk, None};
ghost use Rattle.ab_norm.specs.ab_types.specs.Entries.{Table};
ghost use Rattle.ab_norm.specs.ab_types.specs.Ids.{HoldsType, HoldsConstant, type_of};
ghost use Rattle.ab_norm.specs.ab_store.specs.Trees.{Holds, tree_of};
ghost use Rattle.ab_norm.specs.ab_store.specs.Naming.{IsTypedBy};
ghost use Rattle.ab_unifiers.specs.Prefixes.{prefix, IsHead};
ghost use Rattle.ab_formulas.specs.CaseClauses.{case_of};
ghost use Rattle.ab_typing.specs.DefinitionReadings.{clause_of, name_of};
ghost use Rattle.ab_logic.specs.Worlds.{IsKeptClause};
ghost use Rattle.ab_formulas.specs.PrefixedAtoms.{HeadedBy};

use ab_norm::store::{Head, Logical, Node, Store, TermId};
use ab_norm::types::laws::has_unique_ids;
use ab_norm::types::{ConstId, TypeId, TypeTable};
use ab_typing::ClauseTerm;
use std::alloc::{AllocError, Global};

/// The predicate of the atom under the prefix, if there is such an atom.
pub fn predicate_under(types: &TypeTable, store: &Store, id: TermId) -> Option<ConstId>
    requires store { IsTypedBy types.now store.now }
    requires id { Holds store.now id }
    ensures some { IfSome result (λ p. HeadedBy (tree_of types.now store.now id) (name_of types.now p) (prefix (tree_of types.now store.now id))) }
    ensures none { result ≡ None → ¬ IsHead (tree_of types.now store.now id) }
    ensures held { IfSome result (HoldsConstant types.now) }
{
    match store.view(id) {
        Node::Lam(_, _, _) => None,
        Node::Spine(head, args) => match *head {
            Head::Const(constant) => Some(constant),
            Head::Logic(logical) => match logical {
                Logical::Nabla(_) => match args.as_slice() {
                    [scope] => match store.view(*scope) {
                        Node::Lam(_, _, body) => predicate_under(types, store, *body),
                        Node::Spine(_, _) => None,
                    },
                    _ => None,
                },
                _ => None,
            },
            _ => None,
        },
    }
}

/// Whether the two constants are the same.
pub fn are_same(a: ConstId, b: ConstId) -> bool
    ensures { (result ≡ true) ↔ (a ≡ b) }
{
    a == b
}

/// Whether the clause is one of the predicate.
pub(crate) fn is_of(
    types: &TypeTable,
    store: &Store,
    clause: &ClauseTerm,
    predicate: ConstId,
) -> bool
    requires store { IsTypedBy types.now store.now }
    requires clause { IsKeptClause types.now store.now clause.now }
    requires predicate { HoldsConstant types.now predicate }
    ensures { result ≡ bytes_eq (case_of (clause_of types.now store.now clause.now)).predicate (name_of types.now predicate) }
{
    has_unique_ids(types);
    match predicate_under(types, store, clause.head) {
        Some(found) => are_same(found, predicate),
        None => false,
    }
}

/// Puts the types of the names that the prefix binds behind the others.
fn add_prefix(
    types: &TypeTable,
    store: &Store,
    id: TermId,
    list: &mut Vec<TypeId>,
) -> Result<(), AllocError>
    requires store { IsTypedBy types.now store.now }
    requires id { Holds store.now id }
    requires list { All (HoldsType types.now) list.old.items }
    ensures types { OnOk result (map (type_of types.now) list.new.items ≡ map (type_of types.now) list.old.items ++ map (λ z. z.type) (prefix (tree_of types.now store.now id))) }
    ensures held { OnOk result (All (HoldsType types.now) list.new.items) }
{
    match store.view(id) {
        Node::Lam(_, _, _) => Ok(()),
        Node::Spine(head, args) => match *head {
            Head::Logic(logical) => match logical {
                Logical::Nabla(ty) => match args.as_slice() {
                    [scope] => match store.view(*scope) {
                        Node::Lam(_, _, body) => {
                            list.push(ty)?;
                            add_prefix(types, store, *body, list)
                        }
                        Node::Spine(_, _) => Ok(()),
                    },
                    _ => Ok(()),
                },
                _ => Ok(()),
            },
            _ => Ok(()),
        },
    }
}

/// The types of the names that the prefix binds, from the outside in.
pub fn prefix_types(
    alloc: Global,
    types: &TypeTable,
    store: &Store,
    id: TermId,
) -> Result<Vec<TypeId>, AllocError>
    requires store { IsTypedBy types.now store.now }
    requires id { Holds store.now id }
    ensures types { IfOk result (λ list. map (type_of types.now) list.items ≡ map (λ z. z.type) (prefix (tree_of types.now store.now id))) }
    ensures held { IfOk result (λ list. All (HoldsType types.now) list.items) }
{
    let mut list = Vec::new(alloc);
    add_prefix(types, store, id, &mut list)?;
    Ok(list)
}
