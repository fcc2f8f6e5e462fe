//! Whether two terms are the same past their hints.
ghost use Rattle.std.specs.Prelude.{◌≡◌, ◌↔◌, true, map, IfOk, OnOk, IsTrue, All};
ghost use Rattle.ab_term.specs.Terms.{terms_of};
ghost use Rattle.ab_term.specs.Translation.{EqualPastHints, forget_all};
ghost use Rattle.ab_store.specs.ab_types.specs.Entries.{Table};
ghost use Rattle.ab_store.specs.ab_types.specs.Sound.{IsTable};
ghost use Rattle.ab_store.specs.Trees.{Holds, tree_of};
ghost use Rattle.ab_store.specs.Reading.{reading};
ghost use Rattle.ab_store.specs.Naming.{IsTypedBy};
ghost use Rattle.ab_norm.specs.NameMatches.{AllAgree};

use crate::carried_terms::{carry_resolved, with_same_bindings};
use crate::memo::Agreed;
use crate::resolved_copies::are_resolved;
use ab_store::types::laws::has_unique_ids;
use ab_store::types::{TypeId, TypeTable};
use ab_store::{Head, Node, Store, TermId};
use std::alloc::{AllocError, Global};

/// Whether the two heads are the same.
pub(crate) fn is_same_head(a: Head, b: Head) -> bool
    ensures { (result ≡ true) ↔ (a ≡ b) }
{
    a == b
}

/// Whether the two numbers are one.
pub(crate) fn is_same_term(a: TermId, b: TermId) -> bool
    ensures { result ≡ true → a ≡ b }
{
    a == b
}

/// Whether the two types are the same.
pub(crate) fn is_same_type(a: TypeId, b: TypeId) -> bool
    ensures { (result ≡ true) ↔ (a ≡ b) }
{
    a == b
}

/// Whether the two terms are the same, but for the hints of their binders.
pub fn equal(
    alloc: Global,
    types: &TypeTable,
    store: &Store,
    a: TermId,
    b: TermId,
) -> Result<bool, AllocError>
    requires store { IsTypedBy types.now store.now }
    requires a { Holds store.now a }
    requires b { Holds store.now b }
    ensures { IfOk result (λ same. IsTrue same ↔ EqualPastHints (reading types.now store.now a) (reading types.now store.now b)) }
{
    has_unique_ids(types);
    if is_same_term(a, b) {
        return Ok(true);
    }
    if are_resolved(alloc, store, a, b)? {
        let mut agreed = Agreed::new(alloc);
        return is_equal(store, a, b, &mut agreed);
    }
    equal_apart(alloc, types, store, a, b)
}

/// Whether the two terms are the same past their hints, once their bindings are put in.
fn equal_apart(
    alloc: Global,
    types: &TypeTable,
    store: &Store,
    a: TermId,
    b: TermId,
) -> Result<bool, AllocError>
    requires types { IsTable types.now }
    requires store { IsTypedBy types.now store.now }
    requires a { Holds store.now a }
    requires b { Holds store.now b }
    ensures { IfOk result (λ same. (same ≡ true) ↔ EqualPastHints (reading types.now store.now a) (reading types.now store.now b)) }
{
    let mut apart = with_same_bindings(alloc, types, store)?;
    let left = carry_resolved(alloc, types, store, &mut apart, a)?;
    let right = carry_resolved(alloc, types, store, &mut apart, b)?;
    let mut agreed = Agreed::new(alloc);
    is_equal(&apart, left, right, &mut agreed)
}

/// Whether the two terms are the same past their hints.
#[cycle(compared)]
fn is_equal(store: &Store, a: TermId, b: TermId, agreed: &mut Agreed) -> Result<bool, AllocError>
    requires a { Holds store.now a }
    requires b { Holds store.now b }
    requires agreed { AllAgree store.now agreed.old }
    ensures agreed { OnOk result (AllAgree store.now agreed.new) }
    ensures same { IfOk result (λ same. (types : Table) → IsTable types → IsTypedBy types store.now →
        (same ≡ true) ↔ EqualPastHints (tree_of types store.now a) (tree_of types store.now b)) }
{
    if is_same_term(a, b) {
        return Ok(true);
    }
    if agreed.has(a, b) {
        return Ok(true);
    }
    let same = compare(store, a, b, agreed)?;
    if same {
        agreed.keep(a, b)?;
    }
    Ok(same)
}

/// Whether the two terms are the same past their hints, where that isn't known yet.
#[cycle(compared)]
fn compare(store: &Store, a: TermId, b: TermId, agreed: &mut Agreed) -> Result<bool, AllocError>
    requires a { Holds store.now a }
    requires b { Holds store.now b }
    requires agreed { AllAgree store.now agreed.old }
    ensures agreed { OnOk result (AllAgree store.now agreed.new) }
    ensures same { IfOk result (λ same. (types : Table) → IsTable types → IsTypedBy types store.now →
        (same ≡ true) ↔ EqualPastHints (tree_of types store.now a) (tree_of types store.now b)) }
{
    match store.view(a) {
        Node::Lam(ty, _, body) => match store.view(b) {
            Node::Lam(other, _, inner) => {
                if is_same_type(*ty, *other) {
                    is_equal(store, *body, *inner, agreed)
                } else {
                    Ok(false)
                }
            }
            Node::Spine(_, _) => Ok(false),
        },
        Node::Spine(head, args) => match store.view(b) {
            Node::Lam(_, _, _) => Ok(false),
            Node::Spine(other, more) => {
                if is_same_head(*head, *other) {
                    are_equal(store, args.as_slice(), more.as_slice(), agreed)
                } else {
                    Ok(false)
                }
            }
        },
    }
}

/// Whether the two lists have the same terms past their hints.
#[cycle(compared)]
fn are_equal(
    store: &Store,
    these: &[TermId],
    those: &[TermId],
    agreed: &mut Agreed,
) -> Result<bool, AllocError>
    requires these { All (Holds store.now) these.now }
    requires those { All (Holds store.now) those.now }
    requires agreed { AllAgree store.now agreed.old }
    ensures agreed { OnOk result (AllAgree store.now agreed.new) }
    ensures same { IfOk result (λ same. (types : Table) → IsTable types → IsTypedBy types store.now →
        (same ≡ true) ↔ (forget_all (terms_of (map (tree_of types store.now) these.now)) ≡ forget_all (terms_of (map (tree_of types store.now) those.now)))) }
{
    if these.len() != those.len() {
        return Ok(false);
    }
    for i in 0..these.len() {
        if !is_equal(store, these[i], those[i], agreed)? {
            return Ok(false);
        }
    }
    Ok(true)
}
