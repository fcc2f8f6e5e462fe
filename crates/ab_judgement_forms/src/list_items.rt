//! Some formula of a judgement's list comes into focus.
ghost use Rattle.std.specs.Prelude.{◌≡◌, codes, IfOk};
ghost use Rattle.ab_term.specs.Terms.{constant, logical, index, lam, spine, term, no_terms};
ghost use Rattle.ab_term.specs.Types.{o};
ghost use Rattle.ab_term.specs.Logical.{existential};
ghost use Rattle.ab_norm.specs.ab_store.specs.Trees.{Holds, tree_of};
ghost use Rattle.ab_norm.specs.ab_store.specs.Naming.{IsTypedBy};
ghost use Rattle.ab_norm.specs.NodeGrowth.{AddsTypedTerms};
ghost use Rattle.ab_unifiers.specs.Member.{in_the_list};
ghost use Rattle.ab_logic.specs.Forms.{sign_of};
ghost use Rattle.ab_logic.specs.WorldGrowth.{Grows};
ghost use Rattle.ab_logic.specs.Worlds.{IsWorld, read};
ghost use Rattle.ab_theory.specs.Judgements.{marked_focus};
ghost use Rattle.ab_theory.specs.Opening.{both};
ghost use Rattle.ab_theory.specs.SpecRules.{some_item};
ghost use Rattle.ab_judgement_forms.specs.ShapeReadings.{IsMember, IsO};

use crate::opened_goals::{between, with_mark};
use crate::unused_names::under_binder;
use ab_logic::{Sign, World};
use ab_norm::name::Name;
use ab_norm::store::{Head, Logical, Store, TermId};
use ab_norm::types::{ConstId, TypeId, TypeTable, TypeView};
use std::alloc::{AllocError, Global};

/// The constant `member`, and the type of what it says to be in a list.
#[derive(Clone, Copy)]
pub struct Membership {
    pub member: ConstId,
    pub o: TypeId,
}

/// The words for membership in the world.
pub fn words_of(alloc: Global, world: &World) -> Result<Membership, AllocError>
    requires { IsWorld world.now }
    ensures member { IfOk result (λ words. IsMember world.now.types words.member) }
    ensures o { IfOk result (λ words. IsO world.now.types words.o) }
{
    let name = Name::from_text(alloc, "member")?;
    let Some(member) = world.types.look(&name) else {
        unreachable!();
    };
    let ty = world.types.const_type(member);
    let TypeView::Arrow(o, _) = world.types.view(ty) else {
        unreachable!();
    };
    Ok(Membership { member, o })
}

/// The judgement of the list and the atom with the item in focus, with the mark.
fn focused_judgement(
    alloc: Global,
    types: &TypeTable,
    store: &mut Store,
    sign: Sign,
    list: TermId,
    item: TermId,
    atom: TermId,
) -> Result<TermId, AllocError>
    requires store { IsTypedBy types.now store.old }
    requires list { Holds store.old list }
    requires item { Holds store.old item }
    requires atom { Holds store.old atom }
    ensures held { IfOk result (λ r. Holds store.new r) }
    ensures tree { IfOk result (λ r. tree_of types.now store.new r
        ≡ marked_focus (sign_of sign) (tree_of types.now store.old list) (tree_of types.now store.old item) (tree_of types.now store.old atom)) }
    ensures adds { AddsTypedTerms types.now store.old store.new }
{
    let given = Vec::from_array(alloc, [list, item, atom])?;
    let judgement = store.spine(Head::Logic(Logical::Focus), given)?;
    with_mark(alloc, types, store, sign, judgement)
}

/// That the atom follows with the item in focus, and that the item is in the list.
fn focused_item(
    alloc: Global,
    types: &TypeTable,
    store: &mut Store,
    sign: Sign,
    member: ConstId,
    list: TermId,
    item: TermId,
    atom: TermId,
) -> Result<TermId, AllocError>
    requires store { IsTypedBy types.now store.old }
    requires member { IsMember types.now member }
    requires list { Holds store.old list }
    requires item { Holds store.old item }
    requires atom { Holds store.old atom }
    ensures held { IfOk result (λ r. Holds store.new r) }
    ensures tree { IfOk result (λ r. tree_of types.now store.new r
        ≡ both (marked_focus (sign_of sign) (tree_of types.now store.old list) (tree_of types.now store.old item) (tree_of types.now store.old atom))
        (spine (constant (codes "member")) (in_the_list (tree_of types.now store.old item) (tree_of types.now store.old list)))) }
    ensures adds { AddsTypedTerms types.now store.old store.new }
{
    let judgement = focused_judgement(alloc, types, store, sign, list, item, atom)?;
    let within = between(alloc, types, store, Head::Const(member), item, list)?;
    let and = Head::Logic(Logical::And);
    between(alloc, types, store, and, judgement, within)
}

/// `exists F` over the formulas of the specification logic.
fn exists_item(
    alloc: Global,
    types: &TypeTable,
    store: &mut Store,
    ty: TypeId,
    body: TermId,
) -> Result<TermId, AllocError>
    requires store { IsTypedBy types.now store.old }
    requires ty { IsO types.now ty }
    requires body { Holds store.old body }
    ensures held { IfOk result (λ r. Holds store.new r) }
    ensures tree { IfOk result (λ r. tree_of types.now store.new r
        ≡ spine (logical (existential o)) (term (lam o (codes "F") (tree_of types.now store.old body)) no_terms)) }
    ensures adds { AddsTypedTerms types.now store.old store.new }
{
    let _ = types;
    let hint = Name::from_text(alloc, "F")?;
    let abstraction = store.lam(ty, hint, body)?;
    let args = Vec::from_array(alloc, [abstraction])?;
    store.spine(Head::Logic(Logical::Exists(ty)), args)
}

/// The name that the innermost binder binds, which takes nothing.
pub(crate) fn first_name(
    alloc: Global,
    types: &TypeTable,
    store: &mut Store,
) -> Result<TermId, AllocError>
    requires store { IsTypedBy types.now store.old }
    ensures held { IfOk result (λ r. Holds store.new r) }
    ensures tree { IfOk result (λ r. tree_of types.now store.new r ≡ spine (index 0) no_terms) }
    ensures adds { AddsTypedTerms types.now store.old store.new }
{
    let _ = types;
    store.spine(Head::Index(0), Vec::new(alloc))
}

/// That some formula of the list comes into focus: `exists F, {L, [F] |- A} /\ member F L`, of which the judgement has the
/// mark.
pub fn some_item_by(
    alloc: Global,
    types: &TypeTable,
    store: &mut Store,
    sign: Sign,
    words: Membership,
    list: TermId,
    atom: TermId,
) -> Result<TermId, AllocError>
    requires store { IsTypedBy types.now store.old }
    requires member { IsMember types.now words.member }
    requires ty { IsO types.now words.o }
    requires list { Holds store.old list }
    requires atom { Holds store.old atom }
    ensures held { IfOk result (λ r. Holds store.new r) }
    ensures tree { IfOk result (λ r. tree_of types.now store.new r ≡ some_item (sign_of sign) (tree_of types.now store.old list) (tree_of types.now store.old atom)) }
    ensures adds { AddsTypedTerms types.now store.old store.new }
{
    let outer = under_binder(alloc, types, store, list)?;
    let goal = under_binder(alloc, types, store, atom)?;
    let item = first_name(alloc, types, store)?;
    let body = focused_item(alloc, types, store, sign, words.member, outer, item, goal)?;
    exists_item(alloc, types, store, words.o, body)
}

/// What the rule by the list demands of a judgement of the list and the atom: that some formula of the list comes into focus.
/// The judgement in it has the mark.
pub fn some_item(
    alloc: Global,
    world: &mut World,
    mark: Sign,
    list: TermId,
    atom: TermId,
) -> Result<TermId, AllocError>
    requires world { IsWorld world.old }
    requires list { Holds world.old.store list }
    requires atom { Holds world.old.store atom }
    ensures held { IfOk result (Holds world.new.store) }
    ensures reads { IfOk result (λ t. read world.new t ≡ some_item (sign_of mark) (read world.old list) (read world.old atom)) }
    ensures grows { Grows world.old world.new }
    ensures types { world.new.types ≡ world.old.types }
    ensures additions { world.new.additions ≡ world.old.additions }
{
    let words = words_of(alloc, world)?;
    some_item_by(
        alloc,
        &world.types,
        &mut world.store,
        mark,
        words,
        list,
        atom,
    )
}
