//! What steps have made so far: heads that are still given arguments, and terms that are done.
ghost use Rattle.std.specs.Prelude.{◌≡◌, ℕ, ◌≤◌, [], ◌∷◌, ◌++◌, List, MatchOption, IfOk, All, option_to_list};
ghost use Rattle.ab_term.specs.Terms.{Terms, term, no_terms, Read};
ghost use Rattle.ab_meaning.specs.Normal.{left_type};
ghost use Rattle.ab_norm.specs.ab_types.specs.Ids.{HoldsType, type_of};
ghost use Rattle.ab_norm.specs.ab_types.specs.Sound.{IsTable};
ghost use Rattle.ab_norm.specs.ab_store.specs.Trees.{Holds, tree_of};
ghost use Rattle.ab_norm.specs.ab_store.specs.Naming.{IsTypedBy};
ghost use Rattle.ab_norm.specs.NodeGrowth.{AddsTypedTerms};
ghost use Rattle.ab_infer.specs.Values.{HoldsValue, means, turned, Popped};

use ab_norm::store::{Arguments, Head, Store, TermId};
use ab_norm::types::{Steps, TypeId, TypeTable, TypeView};
use ab_norm::{eta_given, instantiate};
use std::alloc::{AllocError, Global};

/// What steps have made.
#[derive(Drop)]
pub(crate) enum Value {
    /// A head with the arguments so far, and the type that is left.
    Given(Head, TypeId, Arguments),
    /// A term.
    Done(TermId),
}

/// The term that the value is when it is given no more arguments.
pub(crate) fn finish(
    alloc: Global,
    types: &TypeTable,
    store: &mut Store,
    value: Value,
) -> Result<TermId, AllocError>
    requires table { IsTable types.now }
    requires store { IsTypedBy types.now store.old }
    requires value { HoldsValue types.now store.old value }
    ensures held { IfOk result (λ t. Holds store.new t) }
    ensures tree { IfOk result (λ t. tree_of types.now store.new t ≡ means types.now store.old value no_terms) }
    ensures adds { AddsTypedTerms types.now store.old store.new }
{
    match value {
        Value::Given(head, ty, args) => eta_given(alloc, types, store, head, args.into_vec(), ty),
        Value::Done(term) => Ok(term),
    }
}

/// The type that is left when one argument is given.
fn rest_of(types: &TypeTable, ty: TypeId) -> TypeId
    requires table { IsTable types.now }
    requires ty { HoldsType types.now ty }
    ensures held { HoldsType types.now result }
    ensures left { (u : Read) (us : Terms ℕ (List ℕ)) → left_type (type_of types.now result) us ≡ left_type (type_of types.now ty) (term u us) }
{
    match types.view(ty) {
        TypeView::Base(_) => ty,
        TypeView::Arrow(_, to) => to,
    }
}

/// The arguments and one more.
fn with_last(args: Arguments, last: TermId) -> Result<Arguments, AllocError>
    ensures { IfOk result (λ more. more ≡ args ++ last ∷ []) }
{
    let mut terms = args.into_vec();
    terms.push(last)?;
    Ok(Arguments::from_vec(terms))
}

/// One argument.
pub(crate) fn one(alloc: Global, term: TermId) -> Result<Arguments, AllocError>
    ensures { IfOk result (λ list. list ≡ term ∷ []) }
{
    with_last(Arguments::from_vec(Vec::new(alloc)), term)
}

/// Two arguments.
pub(crate) fn two(alloc: Global, first: TermId, last: TermId) -> Result<Arguments, AllocError>
    ensures { IfOk result (λ list. list ≡ first ∷ last ∷ []) }
{
    let list = one(alloc, first)?;
    with_last(list, last)
}

/// The value that the value is when it is given one argument more.
pub(crate) fn with_argument<L>(
    alloc: Global,
    types: &TypeTable,
    store: &mut Store,
    value: Value,
    argument: TermId,
    count: &mut Steps<L>,
) -> Result<Value, AllocError>
    requires table { IsTable types.now }
    requires store { IsTypedBy types.now store.old }
    requires value { HoldsValue types.now store.old value }
    requires argument { Holds store.old argument }
    ensures held { IfOk result (λ more. HoldsValue types.now store.new more) }
    ensures means { IfOk result (λ more. (us : Terms ℕ (List ℕ)) →
        means types.now store.new more us ≡ means types.now store.old value (term (tree_of types.now store.old argument) us)) }
    ensures adds { AddsTypedTerms types.now store.old store.new }
    ensures count { count.old ≤ count.new }
{
    match value {
        Value::Given(head, ty, args) => {
            let rest = rest_of(types, ty);
            Ok(Value::Given(head, rest, with_last(args, argument)?))
        }
        Value::Done(term) => {
            let made = instantiate(alloc, types, store, term, &[argument], count)?;
            Ok(Value::Done(made))
        }
    }
}

/// The last value.
pub(crate) fn pop(stack: &mut Vec<Value>) -> Option<Value>
    ensures items { stack.old.items ≡ stack.new.items ++ option_to_list result }
    ensures turned { MatchOption result (turned stack.old.items ≡ []) (λ w. turned stack.old.items ≡ w ∷ turned stack.new.items) }
{
    stack.pop()
}

/// The term that the last value is, which is taken off.
pub(crate) fn pop_term(
    alloc: Global,
    types: &TypeTable,
    store: &mut Store,
    stack: &mut Vec<Value>,
) -> Result<Option<TermId>, AllocError>
    requires table { IsTable types.now }
    requires store { IsTypedBy types.now store.old }
    requires stack { All (HoldsValue types.now store.old) stack.old.items }
    ensures popped { IfOk result (λ found. MatchOption found (turned stack.old.items ≡ [])
        (Popped types.now store.old store.new stack.old.items stack.new.items (λ r. r))) }
    ensures stack { All (HoldsValue types.now store.new) stack.new.items }
    ensures adds { AddsTypedTerms types.now store.old store.new }
{
    match pop(stack) {
        None => Ok(None),
        Some(value) => {
            let term = finish(alloc, types, store, value)?;
            Ok(Some(term))
        }
    }
}
