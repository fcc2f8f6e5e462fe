//! Goals are opened.
ghost use Rattle.std.specs.Prelude.{◌≡◌, IfOk};
ghost use Rattle.ab_term.specs.Logical as plain;
ghost use Rattle.ab_term.specs.Terms.{logical, lam, spine, term, no_terms};
ghost use Rattle.ab_norm.specs.ab_types.specs.Ids.{HoldsType, type_of};
ghost use Rattle.ab_norm.specs.ab_store.specs.Trees.{Holds, tree_of, head_reading};
ghost use Rattle.ab_norm.specs.ab_store.specs.Naming.{IsTypedBy, HoldsHead, HeadIsTyped};
ghost use Rattle.ab_norm.specs.NodeGrowth.{AddsTypedTerms};
ghost use Rattle.ab_formulas.specs.BodyMarks.{with_mark};
ghost use Rattle.ab_logic.specs.Forms.{sign_of};
ghost use Rattle.ab_theory.specs.Judgements.{marked_judgement};
ghost use Rattle.ab_theory.specs.Opening as opening;
ghost use Rattle.ab_judgement_forms.specs.Shapes.{shape_of, for_names};
ghost use Rattle.ab_judgement_forms.specs.ShapeReadings.{IsCons};

use crate::shapes::{Shape, shape_of};
use crate::unused_names::under_binder;
use ab_logic::Sign;
use ab_norm::name::Name;
use ab_norm::store::{Head, Logical, Node, Store, TermId};
use ab_norm::types::{ConstId, TypeId, TypeTable};
use std::alloc::{AllocError, Global};

/// The logical constant, given two terms.
pub(crate) fn between(
    alloc: Global,
    types: &TypeTable,
    store: &mut Store,
    head: Head,
    left: TermId,
    right: TermId,
) -> Result<TermId, AllocError>
    requires store { IsTypedBy types.now store.old }
    requires held { HoldsHead store.old head }
    requires typed { HeadIsTyped types.now head }
    requires left { Holds store.old left }
    requires right { Holds store.old right }
    ensures held { IfOk result (λ r. Holds store.new r) }
    ensures tree { IfOk result (λ r. tree_of types.now store.new r
        ≡ spine (head_reading types.now store.old head) (term (tree_of types.now store.old left) (term (tree_of types.now store.old right) no_terms))) }
    ensures adds { AddsTypedTerms types.now store.old store.new }
{
    let _ = types;
    store.spine(head, Vec::from_array(alloc, [left, right])?)
}

/// The formula with the mark.
pub(crate) fn with_mark(
    alloc: Global,
    types: &TypeTable,
    store: &mut Store,
    sign: Sign,
    formula: TermId,
) -> Result<TermId, AllocError>
    requires store { IsTypedBy types.now store.old }
    requires formula { Holds store.old formula }
    ensures held { IfOk result (λ r. Holds store.new r) }
    ensures tree { IfOk result (λ r. tree_of types.now store.new r ≡ with_mark (sign_of sign) (tree_of types.now store.old formula)) }
    ensures adds { AddsTypedTerms types.now store.old store.new }
{
    let _ = types;
    let mark = match sign {
        Sign::Plain => return Ok(formula),
        Sign::Star(level) => Logical::Star(level),
        Sign::At(level) => Logical::At(level),
        Sign::Plus(level) => Logical::Plus(level),
        Sign::Hash(level) => Logical::Hash(level),
    };
    store.spine(Head::Logic(mark), Vec::from_array(alloc, [formula])?)
}

/// The judgement of the list and the goal, with the mark.
pub(crate) fn marked_judgement(
    alloc: Global,
    types: &TypeTable,
    store: &mut Store,
    sign: Sign,
    list: TermId,
    goal: TermId,
) -> Result<TermId, AllocError>
    requires store { IsTypedBy types.now store.old }
    requires list { Holds store.old list }
    requires goal { Holds store.old goal }
    ensures held { IfOk result (λ r. Holds store.new r) }
    ensures tree { IfOk result (λ r. tree_of types.now store.new r
        ≡ marked_judgement (sign_of sign) (tree_of types.now store.old list) (tree_of types.now store.old goal)) }
    ensures adds { AddsTypedTerms types.now store.old store.new }
{
    let judgement = between(alloc, types, store, Head::Logic(Logical::Judge), list, goal)?;
    with_mark(alloc, types, store, sign, judgement)
}

/// How goals are opened: the mark that judgements get, and the constant `::`.
#[derive(Clone, Copy)]
pub struct Manner {
    pub sign: Sign,
    pub cons: ConstId,
}

/// The formula under `nabla`, with what binds its name.
fn nabla(
    alloc: Global,
    types: &TypeTable,
    store: &mut Store,
    ty: TypeId,
    hint: Name,
    body: TermId,
) -> Result<TermId, AllocError>
    requires store { IsTypedBy types.now store.old }
    requires ty { HoldsType types.now ty }
    requires body { Holds store.old body }
    ensures held { IfOk result (λ r. Holds store.new r) }
    ensures tree { IfOk result (λ r. tree_of types.now store.new r
        ≡ spine (logical (plain.nabla (type_of types.now ty))) (term (lam (type_of types.now ty) hint (tree_of types.now store.old body)) no_terms)) }
    ensures adds { AddsTypedTerms types.now store.old store.new }
{
    let _ = types;
    let abstraction = store.lam(ty, hint, body)?;
    store.spine(
        Head::Logic(Logical::Nabla(ty)),
        Vec::from_array(alloc, [abstraction])?,
    )
}

/// The goal, opened in the list.
#[cycle(opened)]
pub fn open(
    alloc: Global,
    types: &TypeTable,
    store: &mut Store,
    manner: Manner,
    list: TermId,
    goal: TermId,
) -> Result<TermId, AllocError>
    requires store { IsTypedBy types.now store.old }
    requires manner { IsCons types.now manner.cons }
    requires list { Holds store.old list }
    requires goal { Holds store.old goal }
    ensures held { IfOk result (λ r. Holds store.new r) }
    ensures tree { IfOk result (λ r. tree_of types.now store.new r
        ≡ opening.open_goal (sign_of manner.sign) (tree_of types.now store.old list) (tree_of types.now store.old goal)) }
    ensures adds { AddsTypedTerms types.now store.old store.new }
{
    match shape_of(store, goal) {
        Shape::Pi(ty, abstraction) => {
            open_under(alloc, types, store, manner, list, goal, ty, abstraction)
        }
        Shape::Imply(formula, inner) => {
            let cons = Head::Const(manner.cons);
            let longer = between(alloc, types, store, cons, formula, list)?;
            open(alloc, types, store, manner, longer, inner)
        }
        Shape::With(left, right) => {
            let first = open(alloc, types, store, manner, list, left)?;
            let second = open(alloc, types, store, manner, list, right)?;
            let and = Head::Logic(Logical::And);
            between(alloc, types, store, and, first, second)
        }
        Shape::Other => marked_judgement(alloc, types, store, manner.sign, list, goal),
    }
}

/// The same of a goal that is `pi` over the type, given the abstraction.
#[cycle(opened)]
fn open_under(
    alloc: Global,
    types: &TypeTable,
    store: &mut Store,
    manner: Manner,
    list: TermId,
    goal: TermId,
    ty: TypeId,
    abstraction: TermId,
) -> Result<TermId, AllocError>
    requires store { IsTypedBy types.now store.old }
    requires manner { IsCons types.now manner.cons }
    requires list { Holds store.old list }
    requires goal { Holds store.old goal }
    requires abstraction { Holds store.old abstraction }
    requires ty { HoldsType types.now ty }
    requires shape { shape_of (tree_of types.now store.old goal) ≡ for_names (type_of types.now ty) (tree_of types.now store.old abstraction) }
    ensures held { IfOk result (λ r. Holds store.new r) }
    ensures tree { IfOk result (λ r. tree_of types.now store.new r
        ≡ opening.open_goal (sign_of manner.sign) (tree_of types.now store.old list) (tree_of types.now store.old goal)) }
    ensures adds { AddsTypedTerms types.now store.old store.new }
{
    match store.view(abstraction) {
        Node::Spine(_, _) => marked_judgement(alloc, types, store, manner.sign, list, goal),
        Node::Lam(_, name, body) => {
            let hint = name.copy(alloc)?;
            let inner = *body;
            let longer = under_binder(alloc, types, store, list)?;
            let opened = open(alloc, types, store, manner, longer, inner)?;
            nabla(alloc, types, store, ty, hint, opened)
        }
    }
}
