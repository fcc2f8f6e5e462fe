//! Terms that a permutation of nominal constants sends to one another.
ghost use Rattle.std.specs.Prelude.{◌≡◌, ◌≢◌, ◌↔◌, ◌⊎◌, true, [], map, IfOk, OnOk, IfSome, IsNone, All, Contains, MatchOption};
ghost use Rattle.ab_term.specs.Terms.{terms_of};
ghost use Rattle.ab_term.specs.Translation.{forget, forget_all, EqualPastHints};
ghost use Rattle.ab_term.specs.Names.{support, rename_head, rename, rename_all, permute, IsPermutationTable, EqualUpToNames};
ghost use Rattle.ab_store.specs.ab_types.specs.Entries.{Table};
ghost use Rattle.ab_store.specs.ab_types.specs.Sound.{IsTable};
ghost use Rattle.ab_store.specs.Trees.{Contents, Holds, head_reading, tree_of};
ghost use Rattle.ab_store.specs.Reading.{reading};
ghost use Rattle.ab_store.specs.Naming.{HeadIsTyped, IsTypedBy};
ghost use Rattle.ab_norm.specs.Nominals.{nominal_of, pairs_of, HoldsNominal, HoldsPairs};
ghost use Rattle.ab_norm.specs.NameMatches.{IsOneToOne, Found, AllMatch};

use crate::carried_terms::{carry_resolved, with_same_bindings};
use crate::equality::{is_same_head, is_same_term, is_same_type};
use crate::memo::Agreed;
use crate::nominal::{Nominal, Permutation, Swap, Swaps};
use crate::permutation_tables::complete;
use crate::resolved_copies::are_resolved;
use ab_store::types::TypeTable;
use ab_store::types::laws::has_unique_ids;
use ab_store::{Head, Node, Store, TermId};
use std::alloc::{AllocError, Global};

/// Whether the two constants are one.
pub(crate) fn is_one(a: Nominal, b: Nominal) -> bool
    ensures { (result ≡ true) ↔ (a ≡ b) }
{
    a == b
}

/// Whether the pairs have a constant in common, on the same side.
fn meets(known: Swap, pair: Swap) -> bool
    ensures { (result ≡ true) ↔ ((known.from ≡ pair.from) ⊎ (known.to ≡ pair.to)) }
{
    if is_one(known.from, pair.from) {
        true
    } else {
        is_one(known.to, pair.to)
    }
}

/// Whether the pairs are one.
fn is_same_pair(known: Swap, pair: Swap) -> bool
    ensures { (result ≡ true) ↔ ((known.from ≡ pair.from) × (known.to ≡ pair.to)) }
{
    if is_one(known.from, pair.from) {
        is_one(known.to, pair.to)
    } else {
        false
    }
}

/// The first of the pairs that has a constant in common with this one.
fn first_meeting(decided: &[Swap], pair: Swap) -> Option<Swap>
    ensures { MatchOption result
        (All (λ d. (d.from ≢ pair.from) × (d.to ≢ pair.to)) decided.now)
        (λ d. Contains decided.now d × ((d.from ≡ pair.from) ⊎ (d.to ≡ pair.to))) }
{
    for known in decided {
        if meets(*known, pair) {
            return Some(*known);
        }
    }
    None
}

/// Takes the pair in, where it goes with those that are there.
fn decide(decided: &mut Vec<Swap>, pair: Swap) -> Result<bool, AllocError>
    requires one { IsOneToOne decided.old.items }
    requires keeps { pair.from.ty ≡ pair.to.ty }
    ensures one { IsOneToOne decided.new.items }
    ensures found { IfOk result (λ answer. (types : Table) → IsTable types →
        HoldsNominal types pair.from → HoldsNominal types pair.to → HoldsPairs types decided.old.items →
        Found types decided.old.items decided.new.items (λ f. f (nominal_of types pair.from) ≡ nominal_of types pair.to) answer) }
{
    match first_meeting(decided, pair) {
        Some(known) => Ok(is_same_pair(known, pair)),
        None => {
            decided.push(pair)?;
            Ok(true)
        }
    }
}

/// Whether the second constant may stand for the first.
fn match_nominals(a: Nominal, b: Nominal, decided: &mut Vec<Swap>) -> Result<bool, AllocError>
    requires one { IsOneToOne decided.old.items }
    ensures one { IsOneToOne decided.new.items }
    ensures found { IfOk result (λ answer. (types : Table) → IsTable types →
        HoldsNominal types a → HoldsNominal types b → HoldsPairs types decided.old.items →
        Found types decided.old.items decided.new.items (λ f. f (nominal_of types a) ≡ nominal_of types b) answer) }
{
    if is_same_type(a.ty, b.ty) {
        decide(decided, Swap { from: a, to: b })
    } else {
        Ok(false)
    }
}

/// Whether the second head may stand for the first.
fn match_heads(a: Head, b: Head, decided: &mut Vec<Swap>) -> Result<bool, AllocError>
    requires one { IsOneToOne decided.old.items }
    ensures one { IsOneToOne decided.new.items }
    ensures found { IfOk result (λ answer. (types : Table) (store : Contents) → IsTable types →
        HeadIsTyped types a → HeadIsTyped types b → HoldsPairs types decided.old.items →
        Found types decided.old.items decided.new.items (λ f. rename_head f (head_reading types store a) ≡ head_reading types store b) answer) }
{
    match a {
        Head::Nominal(number, ty) => match b {
            Head::Nominal(other, other_ty) => match_nominals(
                Nominal { number, ty },
                Nominal {
                    number: other,
                    ty: other_ty,
                },
                decided,
            ),
            _ => Ok(false),
        },
        _ => Ok(is_same_head(a, b)),
    }
}

/// Whether the terms are one, without nominal constants: then each permutation sends one to the other.
fn is_fixed(store: &Store, a: TermId, b: TermId) -> bool
    requires { Holds store.now a }
    ensures { result ≡ true → (a ≡ b) × ((types : Table) → support (tree_of types store.now a) ≡ []) }
{
    if is_same_term(a, b) {
        !store.has_nominals(a)
    } else {
        false
    }
}

/// Whether the second term may stand for the first.
#[cycle(matched)]
pub(crate) fn match_terms(
    types: &TypeTable,
    store: &Store,
    a: TermId,
    b: TermId,
    decided: &mut Vec<Swap>,
    agreed: &mut Agreed,
) -> Result<bool, AllocError>
    requires types { IsTable types.now }
    requires store { IsTypedBy types.now store.now }
    requires a { Holds store.now a }
    requires b { Holds store.now b }
    requires one { IsOneToOne decided.old.items }
    requires held { HoldsPairs types.now decided.old.items }
    requires agreed { AllMatch types.now store.now decided.old.items agreed.old }
    ensures one { IsOneToOne decided.new.items }
    ensures found { IfOk result (λ answer.
        Found types.now decided.old.items decided.new.items
        (λ f. forget (rename f (tree_of types.now store.now a)) ≡ forget (tree_of types.now store.now b)) answer) }
    ensures agreed { OnOk result (AllMatch types.now store.now decided.new.items agreed.new) }
{
    if is_fixed(store, a, b) {
        return Ok(true);
    }
    if agreed.has(a, b) {
        return Ok(true);
    }
    let matches = match_nodes(types, store, a, b, decided, agreed)?;
    if matches {
        agreed.keep(a, b)?;
    }
    Ok(matches)
}

/// Whether the second term may stand for the first, where that isn't known yet.
#[cycle(matched)]
fn match_nodes(
    types: &TypeTable,
    store: &Store,
    a: TermId,
    b: TermId,
    decided: &mut Vec<Swap>,
    agreed: &mut Agreed,
) -> Result<bool, AllocError>
    requires types { IsTable types.now }
    requires store { IsTypedBy types.now store.now }
    requires a { Holds store.now a }
    requires b { Holds store.now b }
    requires one { IsOneToOne decided.old.items }
    requires held { HoldsPairs types.now decided.old.items }
    requires agreed { AllMatch types.now store.now decided.old.items agreed.old }
    ensures one { IsOneToOne decided.new.items }
    ensures found { IfOk result (λ answer.
        Found types.now decided.old.items decided.new.items
        (λ f. forget (rename f (tree_of types.now store.now a)) ≡ forget (tree_of types.now store.now b)) answer) }
    ensures agreed { OnOk result (AllMatch types.now store.now decided.new.items agreed.new) }
{
    match store.view(a) {
        Node::Lam(ty, _, body) => match store.view(b) {
            Node::Lam(other, _, inner) => {
                if is_same_type(*ty, *other) {
                    match_terms(types, store, *body, *inner, decided, agreed)
                } else {
                    Ok(false)
                }
            }
            Node::Spine(_, _) => Ok(false),
        },
        Node::Spine(head, args) => match store.view(b) {
            Node::Lam(_, _, _) => Ok(false),
            Node::Spine(other, more) => {
                if match_heads(*head, *other, decided)? {
                    match_all(
                        types,
                        store,
                        args.as_slice(),
                        more.as_slice(),
                        decided,
                        agreed,
                    )
                } else {
                    Ok(false)
                }
            }
        },
    }
}

/// Whether the second terms may stand for the first, each for the one at its place.
#[cycle(matched)]
fn match_all(
    types: &TypeTable,
    store: &Store,
    these: &[TermId],
    those: &[TermId],
    decided: &mut Vec<Swap>,
    agreed: &mut Agreed,
) -> Result<bool, AllocError>
    requires types { IsTable types.now }
    requires store { IsTypedBy types.now store.now }
    requires these { All (Holds store.now) these.now }
    requires those { All (Holds store.now) those.now }
    requires one { IsOneToOne decided.old.items }
    requires held { HoldsPairs types.now decided.old.items }
    requires agreed { AllMatch types.now store.now decided.old.items agreed.old }
    ensures one { IsOneToOne decided.new.items }
    ensures found { IfOk result (λ answer.
        Found types.now decided.old.items decided.new.items
        (λ f. forget_all (rename_all f (terms_of (map (tree_of types.now store.now) these.now))) ≡ forget_all (terms_of (map (tree_of types.now store.now) those.now))) answer) }
    ensures agreed { OnOk result (AllMatch types.now store.now decided.new.items agreed.new) }
{
    if these.len() != those.len() {
        return Ok(false);
    }
    for i in 0..these.len() {
        if !match_terms(types, store, these[i], those[i], decided, agreed)? {
            return Ok(false);
        }
    }
    Ok(true)
}

/// A permutation of nominal constants that sends the first term to the second, past hints, and nothing
/// where there is none.
pub fn equal_up_to_names(
    alloc: Global,
    types: &TypeTable,
    store: &Store,
    a: TermId,
    b: TermId,
) -> Result<Option<Permutation>, AllocError>
    requires store { IsTypedBy types.now store.now }
    requires a { Holds store.now a }
    requires b { Holds store.now b }
    ensures permutes { IfOk result (λ found. IfSome found (λ by. IsPermutationTable (pairs_of types.now by.pairs))) }
    ensures held { IfOk result (λ found. IfSome found (λ by. HoldsPairs types.now by.pairs)) }
    ensures sends { IfOk result (λ found. IfSome found (λ by.
        EqualPastHints (permute (pairs_of types.now by.pairs) (reading types.now store.now a)) (reading types.now store.now b))) }
    ensures none { IfOk result (λ found. IsNone found ↔ ¬ EqualUpToNames (reading types.now store.now a) (reading types.now store.now b)) }
{
    has_unique_ids(types);
    if are_resolved(alloc, store, a, b)? {
        return permutation(alloc, types, store, a, b);
    }
    let mut apart = with_same_bindings(alloc, types, store)?;
    let left = carry_resolved(alloc, types, store, &mut apart, a)?;
    let right = carry_resolved(alloc, types, store, &mut apart, b)?;
    permutation(alloc, types, &apart, left, right)
}

/// A permutation that sends the first term to the second, past hints, where their bindings don't count.
fn permutation(
    alloc: Global,
    types: &TypeTable,
    store: &Store,
    a: TermId,
    b: TermId,
) -> Result<Option<Permutation>, AllocError>
    requires types { IsTable types.now }
    requires store { IsTypedBy types.now store.now }
    requires a { Holds store.now a }
    requires b { Holds store.now b }
    ensures permutes { IfOk result (λ found. IfSome found (λ by. IsPermutationTable (pairs_of types.now by.pairs))) }
    ensures held { IfOk result (λ found. IfSome found (λ by. HoldsPairs types.now by.pairs)) }
    ensures sends { IfOk result (λ found. IfSome found (λ by.
        EqualPastHints (permute (pairs_of types.now by.pairs) (tree_of types.now store.now a)) (tree_of types.now store.now b))) }
    ensures none { IfOk result (λ found. IsNone found ↔ ¬ EqualUpToNames (tree_of types.now store.now a) (tree_of types.now store.now b)) }
{
    let mut decided = Vec::new(alloc);
    let mut agreed = Agreed::new(alloc);
    if !match_terms(types, store, a, b, &mut decided, &mut agreed)? {
        return Ok(None);
    }
    let pairs = Swaps::from_vec(complete(alloc, &decided)?);
    Ok(Some(Permutation { pairs }))
}
