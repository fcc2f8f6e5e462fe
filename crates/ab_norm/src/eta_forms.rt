//! Eta-long forms of heads.
ghost use Rattle.std.specs.Prelude.{◌≡◌, ◌++◌, List, map, IfOk, All, codes, Some};
ghost use Rattle.ab_term.specs.Types.{Ty};
ghost use Rattle.ab_term.specs.Terms.{terms_of};
ghost use Rattle.ab_term.specs.Typing.{head_type};
ghost use Rattle.ab_term.specs.Expansion.{expansion, expansion_of};
ghost use Rattle.ab_term.specs.Translation.{EqualPastHints};
ghost use Rattle.ab_store.specs.ab_types.specs.Entries.{Table, signature};
ghost use Rattle.ab_store.specs.ab_types.specs.Ids.{HoldsType, type_of};
ghost use Rattle.ab_store.specs.ab_types.specs.Sound.{IsTable};
ghost use Rattle.ab_store.specs.Trees.{Holds, head_reading, tree_of};
ghost use Rattle.ab_store.specs.declared.node.CellId.{CellId};
ghost use Rattle.ab_store.specs.declared.node.TermId.{TermId};
ghost use Rattle.ab_store.specs.declared.node.Head.TheVariants.{Cell};
ghost use Rattle.ab_store.specs.Reading.{cell_of, binding_of, reading};
ghost use Rattle.ab_store.specs.Growth.{IsExtendedBy};
ghost use Rattle.ab_store.specs.Naming.{HoldsHead, HeadIsTyped, IsTypedBy, IsTerm};
ghost use Rattle.ab_norm.specs.NodeGrowth.{AddsTypedTerms};
ghost use Rattle.ab_norm.specs.Heads.{IsFree};
ghost use Rattle.ab_norm.specs.TypedArguments.{AreTaken};
ghost use Rattle.ab_norm.specs.BinderNames as binder;

use crate::indices::raise_head;
use crate::term_walks::lift_all;
use ab_store::name::Name;
use ab_store::types::laws::has_unique_ids;
use ab_store::types::{Steps, TypeId, TypeTable, TypeView};
use ab_store::{Head, Store, TermId};
use std::alloc::{AllocError, Global};

/// The head at the type, with as many bound names as that takes. Their binders have the hint `x`. The form of a bound
/// cell at its type reads, past hints, as the term that the cell is bound to.
pub fn eta(
    alloc: Global,
    types: &TypeTable,
    store: &mut Store,
    head: Head,
    ty: TypeId,
) -> Result<TermId, AllocError>
    requires store { IsTypedBy types.now store.old }
    requires head { HoldsHead store.old head }
    requires typed { HeadIsTyped types.now head }
    requires ty { HoldsType types.now ty }
    ensures held { IfOk result (λ r. Holds store.new r) }
    ensures tree { IfOk result (λ r.
        tree_of types.now store.new r ≡ expansion (codes "x") (type_of types.now ty) (head_reading types.now store.old head)) }
    ensures reads { IsFree store.old head → IfOk result (λ r.
        reading types.now store.new r ≡ expansion (codes "x") (type_of types.now ty) (head_reading types.now store.old head)) }
    ensures bound { IfOk result (λ r. (c : CellId) (u : TermId) → head ≡ Cell c → binding_of store.old c ≡ Some u →
        type_of types.now ty ≡ type_of types.now (cell_of store.old c).ty →
        EqualPastHints (reading types.now store.new r) (reading types.now store.old u)) }
    ensures term { IfOk result (λ r. (G : List Ty) →
        head_type (signature types.now) G (head_reading types.now store.old head) ≡ Some (type_of types.now ty) →
        IsTerm types.now store.new G r (type_of types.now ty)) }
    ensures adds { AddsTypedTerms types.now store.old store.new }
{
    has_unique_ids(types);
    let _ = store.bindings();
    expand(alloc, types, store, ty, head, Vec::new(alloc))
}

/// The head, given the arguments, at the type that is left, with as many bound names more as that takes. Their binders
/// have the hint `x`.
pub fn eta_given(
    alloc: Global,
    types: &TypeTable,
    store: &mut Store,
    head: Head,
    args: Vec<TermId>,
    left: TypeId,
) -> Result<TermId, AllocError>
    requires store { IsTypedBy types.now store.old }
    requires head { HoldsHead store.old head }
    requires typed { HeadIsTyped types.now head }
    requires args { All (Holds store.old) args.items }
    requires left { HoldsType types.now left }
    ensures held { IfOk result (λ r. Holds store.new r) }
    ensures tree { IfOk result (λ r.
        tree_of types.now store.new r
        ≡ expansion_of (codes "x") (type_of types.now left) (head_reading types.now store.old head) (terms_of (map (tree_of types.now store.old) args.items))) }
    ensures reads { IsFree store.old head → IfOk result (λ r.
        reading types.now store.new r
        ≡ expansion_of (codes "x") (type_of types.now left) (head_reading types.now store.old head) (terms_of (map (reading types.now store.old) args.items))) }
    ensures term { IfOk result (λ r. (G : List Ty) (A : Ty) →
        head_type (signature types.now) G (head_reading types.now store.old head) ≡ Some A →
        AreTaken types.now store.old G args.items A (type_of types.now left) →
        IsTerm types.now store.new G r (type_of types.now left)) }
    ensures adds { AddsTypedTerms types.now store.old store.new }
{
    has_unique_ids(types);
    expand(alloc, types, store, left, head, args)
}

/// The types of the arguments that the type takes, the first of them first.
fn domains(alloc: Global, types: &TypeTable, ty: TypeId) -> Result<Vec<TypeId>, AllocError>
    requires ty { HoldsType types.now ty }
    ensures held { IfOk result (λ list. All (HoldsType types.now) list.items) }
    ensures reads { IfOk result (λ list. map (type_of types.now) list.items ≡ binder.domains (type_of types.now ty)) }
{
    let mut list = Vec::new(alloc);
    let mut left = ty;
    while let TypeView::Arrow(from, to) = types.view(left) {
        list.push(from)?;
        left = to;
    }
    Ok(list)
}

/// The term under binders of these types, the first outermost. They have the hint `x`.
fn put_under(
    alloc: Global,
    store: &mut Store,
    mut binders: Vec<TypeId>,
    body: TermId,
) -> Result<TermId, AllocError>
    requires body { Holds store.old body }
    ensures held { IfOk result (λ r. Holds store.new r) }
    ensures reads { IfOk result (λ r. (types : Table) →
        tree_of types store.new r ≡ binder.under (codes "x") (map (type_of types) binders.items) (tree_of types store.old body)) }
    ensures adds { (types : Table) → IsTypedBy types store.old → All (HoldsType types) binders.items → AddsTypedTerms types store.old store.new }
{
    let mut here = body;
    while let Some(ty) = binders.pop() {
        here = store.lam(ty, Name::from_text(alloc, "x")?, here)?;
    }
    Ok(here)
}

/// The head with the arguments, as a term of the type that is left. It is made at once under all the binders that this
/// takes, so that what was given is lifted once.
#[cycle(expanded)]
fn expand(
    alloc: Global,
    types: &TypeTable,
    store: &mut Store,
    ty: TypeId,
    head: Head,
    args: Vec<TermId>,
) -> Result<TermId, AllocError>
    requires types { IsTable types.now }
    requires store { IsTypedBy types.now store.old }
    requires head { HoldsHead store.old head }
    requires typed { HeadIsTyped types.now head }
    requires ty { HoldsType types.now ty }
    requires args { All (Holds store.old) args.items }
    ensures held { IfOk result (λ r. Holds store.new r) }
    ensures reads { IfOk result (λ r.
        tree_of types.now store.new r
        ≡ expansion_of (codes "x") (type_of types.now ty) (head_reading types.now store.old head) (terms_of (map (tree_of types.now store.old) args.items))) }
    ensures adds { AddsTypedTerms types.now store.old store.new }
{
    let binders = domains(alloc, types, ty)?;
    let count = binders.len();
    let inner = raise_head(count, 0, head)?;
    let mut steps = Steps::<()>::new();
    let lifted = lift_all(alloc, types, store, count, &args, &mut steps)?;
    let given = give_names(alloc, types, store, &binders, lifted)?;
    let body = store.spine(inner, given)?;
    put_under(alloc, store, binders, body)
}

/// The arguments, and behind them the names of binders of these types, as they are called under all of them.
#[cycle(expanded)]
fn give_names(
    alloc: Global,
    types: &TypeTable,
    store: &mut Store,
    binders: &[TypeId],
    args: Vec<TermId>,
) -> Result<Vec<TermId>, AllocError>
    requires types { IsTable types.now }
    requires store { IsTypedBy types.now store.old }
    requires binders { All (HoldsType types.now) binders.now }
    requires args { All (Holds store.old) args.items }
    ensures held { IfOk result (λ rs. All (Holds store.new) rs.items) }
    ensures reads { IfOk result (λ rs.
        map (tree_of types.now store.new) rs.items
        ≡ map (tree_of types.now store.old) args.items ++ binder.names (codes "x") (map (type_of types.now) binders.now)) }
    ensures adds { AddsTypedTerms types.now store.old store.new }
{
    let mut given = args;
    let mut inside = binders.len();
    for binder in binders {
        inside -= 1;
        let name = Head::Index(inside);
        given.push(expand(alloc, types, store, *binder, name, Vec::new(alloc))?)?;
    }
    Ok(given)
}
