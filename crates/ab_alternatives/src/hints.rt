//! The hints of the `nabla` names of a clause.
ghost use Rattle.std.specs.Prelude.{◌≡◌, ◌++◌, map, IfOk, OnOk};
ghost use Rattle.ab_norm.specs.ab_store.specs.Trees.{Holds, tree_of};
ghost use Rattle.ab_norm.specs.ab_store.specs.Naming.{IsTypedBy};
ghost use Rattle.ab_unifiers.specs.Prefixes.{prefix};

use ab_norm::name::Name;
use ab_norm::store::{Head, Logical, Node, Store, TermId};
use ab_norm::types::TypeTable;
use std::alloc::{AllocError, Global};

/// Puts the hints of the names that the prefix binds behind the others.
fn add_hints(
    alloc: Global,
    types: &TypeTable,
    store: &Store,
    id: TermId,
    list: &mut Vec<Name>,
) -> Result<(), AllocError>
    requires store { IsTypedBy types.now store.now }
    requires id { Holds store.now id }
    ensures { OnOk result (list.new.items ≡ list.old.items ++ map (λ z. z.hint) (prefix (tree_of types.now store.now id))) }
{
    match store.view(id) {
        Node::Lam(_, _, _) => Ok(()),
        Node::Spine(head, args) => match *head {
            Head::Logic(logical) => match logical {
                Logical::Nabla(_) => match args.as_slice() {
                    [scope] => match store.view(*scope) {
                        Node::Lam(_, hint, body) => {
                            list.push(hint.copy(alloc)?)?;
                            add_hints(alloc, types, store, *body, list)
                        }
                        Node::Spine(_, _) => Ok(()),
                    },
                    _ => Ok(()),
                },
                _ => Ok(()),
            },
            _ => Ok(()),
        },
    }
}

/// The hints of the names that the prefix binds, from the outside in.
pub(crate) fn prefix_hints(
    alloc: Global,
    types: &TypeTable,
    store: &Store,
    id: TermId,
) -> Result<Vec<Name>, AllocError>
    requires store { IsTypedBy types.now store.now }
    requires id { Holds store.now id }
    ensures { IfOk result (λ list. list.items ≡ map (λ z. z.hint) (prefix (tree_of types.now store.now id))) }
{
    let mut list = Vec::new(alloc);
    add_hints(alloc, types, store, id, &mut list)?;
    Ok(list)
}
