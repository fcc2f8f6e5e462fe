//! Whether a term is a formula.
ghost use Rattle.std.specs.Prelude.{◌≡◌, ◌↔◌, true, List, IfOk, OnOk, IsTrue, All};
ghost use Rattle.ab_store.specs.ab_types.specs.Entries.{Table, signature};
ghost use Rattle.ab_store.specs.declared.node.CellEntry.{CellEntry};
ghost use Rattle.ab_store.specs.Trees.{Holds, tree_of, logical_of, head_in};
ghost use Rattle.ab_store.specs.Naming.{IsTypedBy};
ghost use Rattle.ab_formulas.specs.Formulas.{IsFormula, StandsIn, a_formula, a_marked, IsAtomic, IsRigid, places_of, places_of_constant};
ghost use Rattle.ab_typing.specs.Places.{place_of};

use crate::built_in::built_in;
use crate::typing::has_type;
use crate::visited_terms::{is_seen, see};
use ab_store::types::TypeTable;
use ab_store::{Head, Logical, Node, Store, TermId};
use std::alloc::{AllocError, Global};
use std::collections::BTreeSet;

/// Whether the term is a formula: of type `prop`, closed, with no variable and no bound name as the head of a part
/// that is a formula itself, and with marks on atoms and judgements alone.
pub fn is_formula(
    alloc: Global,
    types: &TypeTable,
    store: &Store,
    id: TermId,
) -> Result<bool, AllocError>
    requires store { IsTypedBy types.now store.now }
    requires id { Holds store.now id }
    ensures { IfOk result (λ yes. IsTrue yes ↔ IsFormula (signature types.now) (tree_of types.now store.now id)) }
{
    let built = built_in(alloc, types)?;
    if !has_type(alloc, types, store, id, built.prop)? {
        return Ok(false);
    }
    let mut seen = BTreeSet::new(alloc);
    stands(store, &mut seen, id)
}

/// What stands in a place of a formula.
#[derive(Clone, Copy)]
pub enum Place {
    /// A formula.
    Formula,
    /// The abstraction that a quantifier is given.
    Scope,
    /// An atom or a judgement that is marked.
    Marked,
    /// Any term.
    Any,
}

/// Whether the term may stand where a formula does. Some terms are known to.
#[cycle(standing)]
fn stands(store: &Store, seen: &mut BTreeSet<TermId>, id: TermId) -> Result<bool, AllocError>
    requires id { Holds store.now id }
    requires seen { (types : Table) → All (λ t. StandsIn a_formula (tree_of types store.now t)) seen.old.keys }
    ensures stands { IfOk result (λ yes. (types : Table) → (yes ≡ true) ↔ StandsIn a_formula (tree_of types store.now id)) }
    ensures seen { OnOk result ((types : Table) → All (λ t. StandsIn a_formula (tree_of types store.now t)) seen.new.keys) }
{
    if is_seen(seen, id) {
        return Ok(true);
    }
    if !node_stands(store, seen, id)? {
        return Ok(false);
    }
    see(seen, id)?;
    Ok(true)
}

#[cycle(standing)]
fn node_stands(store: &Store, seen: &mut BTreeSet<TermId>, id: TermId) -> Result<bool, AllocError>
    requires id { Holds store.now id }
    requires seen { (types : Table) → All (λ t. StandsIn a_formula (tree_of types store.now t)) seen.old.keys }
    ensures stands { IfOk result (λ yes. (types : Table) → (yes ≡ true) ↔ StandsIn a_formula (tree_of types store.now id)) }
    ensures seen { OnOk result ((types : Table) → All (λ t. StandsIn a_formula (tree_of types store.now t)) seen.new.keys) }
{
    match store.view(id) {
        Node::Lam(_, _, _) => Ok(false),
        Node::Spine(head, args) => {
            if !is_rigid(*head) {
                return Ok(false);
            }
            all_stand(store, seen, args.as_slice(), places_of(*head))
        }
    }
}

#[cycle(standing)]
fn all_stand(
    store: &Store,
    seen: &mut BTreeSet<TermId>,
    ids: &[TermId],
    place: Place,
) -> Result<bool, AllocError>
    requires ids { All (Holds store.now) ids.now }
    requires seen { (types : Table) → All (λ t. StandsIn a_formula (tree_of types store.now t)) seen.old.keys }
    ensures stand { IfOk result (λ yes. (types : Table) → (yes ≡ true) ↔
        All (λ t. StandsIn (place_of place) (tree_of types store.now t)) ids.now) }
    ensures seen { OnOk result ((types : Table) → All (λ t. StandsIn a_formula (tree_of types store.now t)) seen.new.keys) }
{
    for id in ids {
        if !stands_in(store, seen, *id, place)? {
            return Ok(false);
        }
    }
    Ok(true)
}

/// Whether the term may stand in the place.
#[cycle(standing)]
fn stands_in(
    store: &Store,
    seen: &mut BTreeSet<TermId>,
    id: TermId,
    place: Place,
) -> Result<bool, AllocError>
    requires id { Holds store.now id }
    requires seen { (types : Table) → All (λ t. StandsIn a_formula (tree_of types store.now t)) seen.old.keys }
    ensures stands { IfOk result (λ yes. (types : Table) → (yes ≡ true) ↔ StandsIn (place_of place) (tree_of types store.now id)) }
    ensures seen { OnOk result ((types : Table) → All (λ t. StandsIn a_formula (tree_of types store.now t)) seen.new.keys) }
{
    match place {
        Place::Any => Ok(true),
        Place::Formula => stands(store, seen, id),
        Place::Marked => Ok(is_atom(store, id)),
        Place::Scope => match store.view(id) {
            Node::Lam(_, _, body) => stands(store, seen, *body),
            Node::Spine(_, _) => Ok(false),
        },
    }
}

/// Whether the term is an atom or a judgement.
fn is_atom(store: &Store, id: TermId) -> bool
    requires { Holds store.now id }
    ensures { (types : Table) → (result ≡ true) ↔ StandsIn a_marked (tree_of types store.now id) }
{
    match store.view(id) {
        Node::Lam(_, _, _) => false,
        Node::Spine(head, _) => is_atomic(*head),
    }
}

/// Whether the head makes an atom or a judgement.
fn is_atomic(head: Head) -> bool
    ensures { (types : Table) (cells : List CellEntry) → (result ≡ true) ↔ IsAtomic (head_in types cells head) }
{
    match head {
        Head::Const(_) => true,
        Head::Nominal(_, _) => true,
        Head::Logic(Logical::Judge) => true,
        Head::Logic(Logical::Focus) => true,
        Head::Logic(_) => false,
        Head::Cell(_) => false,
        Head::Index(_) => false,
    }
}

/// Whether the head is no variable and no bound name.
fn is_rigid(head: Head) -> bool
    ensures { (types : Table) (cells : List CellEntry) → (result ≡ true) ↔ IsRigid (head_in types cells head) }
{
    match head {
        Head::Cell(_) => false,
        Head::Index(_) => false,
        _ => true,
    }
}

/// The places of what the head is given.
fn places_of(head: Head) -> Place
    ensures { (types : Table) (cells : List CellEntry) → place_of result ≡ places_of (head_in types cells head) }
{
    match head {
        Head::Logic(constant) => places_of_constant(constant),
        _ => Place::Any,
    }
}

/// The places of what the constant is given.
fn places_of_constant(constant: Logical) -> Place
    ensures { (types : Table) → place_of result ≡ places_of_constant (logical_of types constant) }
{
    match constant {
        Logical::And => Place::Formula,
        Logical::Or => Place::Formula,
        Logical::Arrow => Place::Formula,
        Logical::Forall(_) => Place::Scope,
        Logical::Exists(_) => Place::Scope,
        Logical::Nabla(_) => Place::Scope,
        Logical::Star(_) => Place::Marked,
        Logical::At(_) => Place::Marked,
        Logical::Plus(_) => Place::Marked,
        Logical::Hash(_) => Place::Marked,
        _ => Place::Any,
    }
}
