//! A layer of a judgement is opened.
ghost use Rattle.std.specs.Prelude.{◌≡◌, [], map, All, IfOk, IfSome};
ghost use Rattle.std.specs.Option.{option_map};
ghost use Rattle.ab_term.specs.Types.{olist};
ghost use Rattle.ab_term.specs.Logical as plain;
ghost use Rattle.ab_term.specs.Terms.{Read, logical, spine, term, no_terms, terms_of};
ghost use Rattle.ab_norm.specs.ab_types.specs.Entries.{Table};
ghost use Rattle.ab_norm.specs.ab_types.specs.Ids.{HoldsType, type_of};
ghost use Rattle.ab_norm.specs.ab_store.specs.Trees.{Holds, tree_of, head_reading, logical_of};
ghost use Rattle.ab_norm.specs.ab_store.specs.Naming.{IsTypedBy, IsTerm, HoldsHead, HeadIsTyped, LogicalIsTyped};
ghost use Rattle.ab_norm.specs.NodeGrowth.{AddsTypedTerms};
ghost use Rattle.ab_unifiers.specs.Member.{before};
ghost use Rattle.ab_theory.specs.Opening.{both};
ghost use Rattle.ab_logic.specs.WorldGrowth.{Grows};
ghost use Rattle.ab_logic.specs.Worlds.{IsWorld, Holds as HoldsIn, read, declarations_of};
ghost use Rattle.ab_unify.specs.Problem.{cells_read};
ghost use Rattle.ab_search_trees.specs.Judgements as judgements;
ghost use Rattle.ab_search_ways.specs.GoalReadings.{IsFormulaIn};
ghost use Rattle.ab_search_ways.specs.Layers.{opened_of, layer_read, HoldsPair, HoldsLayer, LayerIsTyped};

use ab_logic::World;
use ab_norm::name::Name;
use ab_norm::store::{Head, Logical, Node, Store, TermId};
use ab_norm::types::{TypeId, TypeTable};
use std::alloc::{AllocError, Global};

/// The goal of a judgement by its outermost constant.
#[derive(Clone, Copy)]
enum Layer {
    /// It is both of these.
    With(TermId, TermId),
    /// The first is given, and the second asked for.
    Imply(TermId, TermId),
    /// It is made by `pi`, over the type, of the abstraction.
    Pi(TypeId, TermId),
    /// It has no layer.
    Closed,
}

/// The list and the goal of the judgement that the constant makes of the arguments, if it has no mark and nothing in focus.
fn parts_by(store: &Store, constant: Logical, args: &[TermId]) -> Option<(TermId, TermId)>
    requires { All (Holds store.now) args.now }
    ensures reads { (types : Table) → opened_of types store.now result ≡ judgements.opened_once (spine (logical (logical_of types constant)) (terms_of (map (tree_of types store.now) args.now))) }
    ensures made { IfSome result (λ p. (types : Table) → spine (logical (logical_of types constant)) (terms_of (map (tree_of types store.now) args.now))
        ≡ judgements.judged (tree_of types store.now p.0) (tree_of types store.now p.1)) }
    ensures held { IfSome result (HoldsPair store.now) }
{
    let _ = store;
    match constant {
        Logical::Judge => {
            if args.len() == 2 {
                Some((args[0], args[1]))
            } else {
                None
            }
        }
        _ => None,
    }
}

/// The list and the goal of the judgement that the formula is, if it is one that has no mark and nothing in focus.
fn parts_of(store: &Store, formula: TermId) -> Option<(TermId, TermId)>
    requires { Holds store.now formula }
    ensures reads { (types : Table) → opened_of types store.now result ≡ judgements.opened_once (tree_of types store.now formula) }
    ensures made { IfSome result (λ p. (types : Table) → tree_of types store.now formula ≡ judgements.judged (tree_of types store.now p.0) (tree_of types store.now p.1)) }
    ensures held { IfSome result (HoldsPair store.now) }
{
    match store.view(formula) {
        Node::Lam(_, _, _) => None,
        Node::Spine(head, args) => match *head {
            Head::Logic(constant) => parts_by(store, constant, args.as_slice()),
            _ => None,
        },
    }
}

/// What a goal is by its outermost constant, which is given these.
fn layer_by(store: &Store, constant: Logical, args: &[TermId]) -> Layer
    requires { All (Holds store.now) args.now }
    ensures reads { (types : Table) (L : Read) → layer_read types store.now L result
        ≡ judgements.layer_of L (spine (logical (logical_of types constant)) (terms_of (map (tree_of types store.now) args.now))) }
    ensures held { HoldsLayer store.now result }
    ensures typed { (types : Table) → LogicalIsTyped types constant → LayerIsTyped types result }
{
    let _ = store;
    match constant {
        Logical::With => {
            if args.len() == 2 {
                Layer::With(args[0], args[1])
            } else {
                Layer::Closed
            }
        }
        Logical::Imply => {
            if args.len() == 2 {
                Layer::Imply(args[0], args[1])
            } else {
                Layer::Closed
            }
        }
        Logical::Pi(ty) => {
            if args.len() == 1 {
                Layer::Pi(ty, args[0])
            } else {
                Layer::Closed
            }
        }
        _ => Layer::Closed,
    }
}

/// What the goal of a judgement is by its outermost constant.
fn layer_at(store: &Store, goal: TermId) -> Layer
    requires { Holds store.now goal }
    ensures reads { (types : Table) (L : Read) → layer_read types store.now L result ≡ judgements.layer_of L (tree_of types store.now goal) }
    ensures held { HoldsLayer store.now result }
    ensures typed { (types : Table) → IsTypedBy types store.now → LayerIsTyped types result }
{
    match store.view(goal) {
        Node::Lam(_, _, _) => Layer::Closed,
        Node::Spine(head, args) => match *head {
            Head::Logic(constant) => layer_by(store, constant, args.as_slice()),
            _ => Layer::Closed,
        },
    }
}

/// The head, given two terms.
fn between(
    alloc: Global,
    types: &TypeTable,
    store: &mut Store,
    head: Head,
    left: TermId,
    right: TermId,
) -> Result<TermId, AllocError>
    requires store { IsTypedBy types.now store.old }
    requires head { HoldsHead store.old head }
    requires typed { HeadIsTyped types.now head }
    requires left { Holds store.old left }
    requires right { Holds store.old right }
    ensures held { IfOk result (λ r. Holds store.new r) }
    ensures tree { IfOk result (λ r. tree_of types.now store.new r
        ≡ spine (head_reading types.now store.old head) (term (tree_of types.now store.old left) (term (tree_of types.now store.old right) no_terms))) }
    ensures adds { AddsTypedTerms types.now store.old store.new }
{
    let _ = types;
    store.spine(head, Vec::from_array(alloc, [left, right])?)
}

/// The judgement of the list and the goal.
fn unmarked_judgement(
    alloc: Global,
    types: &TypeTable,
    store: &mut Store,
    list: TermId,
    goal: TermId,
) -> Result<TermId, AllocError>
    requires store { IsTypedBy types.now store.old }
    requires list { Holds store.old list }
    requires goal { Holds store.old goal }
    ensures held { IfOk result (λ r. Holds store.new r) }
    ensures tree { IfOk result (λ r. tree_of types.now store.new r ≡ judgements.judged (tree_of types.now store.old list) (tree_of types.now store.old goal)) }
    ensures adds { AddsTypedTerms types.now store.old store.new }
{
    between(alloc, types, store, Head::Logic(Logical::Judge), list, goal)
}

/// The list with the formula before it.
fn list_before(
    alloc: Global,
    world: &mut World,
    formula: TermId,
    list: TermId,
) -> Result<TermId, AllocError>
    requires world { IsWorld world.old }
    requires formula { HoldsIn world.old formula }
    requires list { HoldsIn world.old list }
    ensures held { IfOk result (HoldsIn world.new) }
    ensures reads { IfOk result (λ r. read world.new r ≡ before (read world.old formula) (read world.old list)) }
    ensures adds { AddsTypedTerms world.old.types world.old.store world.new.store }
    ensures types { world.new.types ≡ world.old.types }
    ensures additions { world.new.additions ≡ world.old.additions }
{
    let name = Name::from_text(alloc, "::")?;
    let Some(cons) = world.types.look(&name) else {
        unreachable!();
    };
    let (types, store) = (&world.types, &mut world.store);
    between(alloc, types, store, Head::Const(cons), formula, list)
}

/// The judgements of the list and both goals, as a conjunction.
fn both_judged(
    alloc: Global,
    types: &TypeTable,
    store: &mut Store,
    list: TermId,
    left: TermId,
    right: TermId,
) -> Result<TermId, AllocError>
    requires store { IsTypedBy types.now store.old }
    requires list { Holds store.old list }
    requires left { Holds store.old left }
    requires right { Holds store.old right }
    ensures held { IfOk result (λ r. Holds store.new r) }
    ensures tree { IfOk result (λ r. tree_of types.now store.new r
        ≡ both (judgements.judged (tree_of types.now store.old list) (tree_of types.now store.old left)) (judgements.judged (tree_of types.now store.old list) (tree_of types.now store.old right))) }
    ensures adds { AddsTypedTerms types.now store.old store.new }
{
    let left = unmarked_judgement(alloc, types, store, list, left)?;
    let right = unmarked_judgement(alloc, types, store, list, right)?;
    between(alloc, types, store, Head::Logic(Logical::And), left, right)
}

/// The judgement of the list and the goal that stands under the binder of the abstraction, under a `nabla`, if it is an
/// abstraction. No name that is bound outside stands in the list.
fn judged_under(
    alloc: Global,
    types: &TypeTable,
    store: &mut Store,
    list: TermId,
    ty: TypeId,
    abstraction: TermId,
) -> Result<Option<TermId>, AllocError>
    requires store { IsTypedBy types.now store.old }
    requires list { IsTerm types.now store.old [] list olist }
    requires ty { HoldsType types.now ty }
    requires abstraction { Holds store.old abstraction }
    ensures held { IfOk result (λ o. IfSome o (Holds store.new)) }
    ensures reads { IfOk result (λ o. option_map (tree_of types.now store.new) o
        ≡ judgements.layer_of (tree_of types.now store.old list) (spine (logical (plain.spec_universal (type_of types.now ty))) (term (tree_of types.now store.old abstraction) no_terms))) }
    ensures adds { AddsTypedTerms types.now store.old store.new }
{
    match store.view(abstraction).copy(alloc)? {
        Node::Spine(_, _) => Ok(None),
        Node::Lam(_, hint, goal) => {
            let inner = unmarked_judgement(alloc, types, store, list, goal)?;
            let under = store.lam(ty, hint, inner)?;
            let nabla = Head::Logic(Logical::Nabla(ty));
            let formula = store.spine(nabla, Vec::from_array(alloc, [under])?)?;
            Ok(Some(formula))
        }
    }
}

/// The formula with one layer of its judgement opened, if it is an unmarked judgement whose goal has one.
pub(crate) fn layer_of(
    alloc: Global,
    world: &mut World,
    formula: TermId,
) -> Result<Option<TermId>, AllocError>
    requires world { IsWorld world.old }
    requires formula { IsFormulaIn world.old formula }
    ensures reads { IfOk result (λ o. option_map (read world.new) o ≡ judgements.opened_once (read world.old formula)) }
    ensures held { IfOk result (λ o. IfSome o (HoldsIn world.new)) }
    ensures cells { cells_read world.new.types world.new.store ≡ cells_read world.old.types world.old.store }
    ensures grows { Grows world.old world.new }
    ensures declared { declarations_of world.new ≡ declarations_of world.old }
{
    let Some((list, goal)) = parts_of(&world.store, formula) else {
        return Ok(None);
    };
    match layer_at(&world.store, goal) {
        Layer::Closed => Ok(None),
        Layer::With(left, right) => {
            let (types, store) = (&world.types, &mut world.store);
            let opened = both_judged(alloc, types, store, list, left, right)?;
            Ok(Some(opened))
        }
        Layer::Imply(given, asked) => {
            let list = list_before(alloc, world, given, list)?;
            let opened = unmarked_judgement(alloc, &world.types, &mut world.store, list, asked)?;
            Ok(Some(opened))
        }
        Layer::Pi(ty, abstraction) => {
            let (types, store) = (&world.types, &mut world.store);
            judged_under(alloc, types, store, list, ty, abstraction)
        }
    }
}
