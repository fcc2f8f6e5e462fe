//! A formula by its outermost constant.
ghost use Rattle.std.specs.Prelude.{◌≡◌, IsTrue, IsFalse, Some, None, IfSome};
ghost use Rattle.std.specs.Option.{option_map};
ghost use Rattle.ab_logic.specs.Worlds.{Holds, IsWorld, read};
ghost use Rattle.ab_formulas.specs.Forms.{form_of, as_truth, as_falsity, falsity_in, as_both, as_either, as_implies, as_equal, as_for_all, as_exists, as_nabla, truth_in, both_in, either_in, implies_in, equal_in, for_all_in, exists_in, nabla_in, form_alone, form_with, form_between};
ghost use Rattle.ab_logic.specs.Forms.{form_read, HoldsForm, parts_read, HoldsParts, binder_read, HoldsBinder, FormIsTyped, BinderIsTyped};
ghost use Rattle.ab_logic.specs.declared.world.World.{World as AWorld};
ghost use Rattle.ab_store.specs.Trees.{logical_of};
ghost use Rattle.ab_store.specs.Naming.{LogicalIsTyped};

use crate::marks::Sign;
use crate::world::World;
use ab_store::types::TypeId;
use ab_store::{Head, Logical, Node, TermId};

/// A formula, seen by its outermost constant.
#[derive(Clone, Copy)]
pub enum Form {
    True,
    False,
    And(TermId, TermId),
    Or(TermId, TermId),
    Arrow(TermId, TermId),
    Equal(TypeId, TermId, TermId),
    Forall(TypeId, TermId),
    Exists(TypeId, TermId),
    Nabla(TypeId, TermId),
    /// An atom or a judgement with a mark.
    Marked(Sign, TermId),
    /// An atom or a judgement without one, or no formula.
    Other,
}

/// What the formula is.
pub fn shape(world: &World, formula: TermId) -> Form
    requires { Holds world.now formula }
    ensures reads { form_read world.now result ≡ form_of (read world.now formula) }
    ensures held { HoldsForm world.now result }
    ensures typed { IsWorld world.now → FormIsTyped world.now result }
{
    match world.store.view(formula) {
        Node::Lam(_, _, _) => Form::Other,
        Node::Spine(head, args) => match *head {
            Head::Logic(logical) => {
                let args = args.as_slice();
                if args.len() == 0 {
                    form_alone(logical)
                } else if args.len() == 1 {
                    form_with(logical, args[0])
                } else if args.len() == 2 {
                    form_between(logical, args[0], args[1])
                } else {
                    Form::Other
                }
            }
            _ => Form::Other,
        },
    }
}

/// A formula whose constant is given nothing.
fn form_alone(logical: Logical) -> Form
    ensures reads { (w : AWorld) → form_read w result ≡ form_alone (logical_of w.types logical) }
    ensures held { (w : AWorld) → HoldsForm w result }
    ensures typed { (w : AWorld) → LogicalIsTyped w.types logical → FormIsTyped w result }
{
    match logical {
        Logical::True => Form::True,
        Logical::False => Form::False,
        _ => Form::Other,
    }
}

/// A formula whose constant is given one term.
fn form_with(logical: Logical, term: TermId) -> Form
    ensures reads { (w : AWorld) → form_read w result ≡ form_with (logical_of w.types logical) (read w term) }
    ensures held { (w : AWorld) → Holds w term → HoldsForm w result }
    ensures typed { (w : AWorld) → LogicalIsTyped w.types logical → FormIsTyped w result }
{
    match logical {
        Logical::Forall(ty) => Form::Forall(ty, term),
        Logical::Exists(ty) => Form::Exists(ty, term),
        Logical::Nabla(ty) => Form::Nabla(ty, term),
        Logical::Star(level) => Form::Marked(Sign::Star(level), term),
        Logical::At(level) => Form::Marked(Sign::At(level), term),
        Logical::Plus(level) => Form::Marked(Sign::Plus(level), term),
        Logical::Hash(level) => Form::Marked(Sign::Hash(level), term),
        _ => Form::Other,
    }
}

/// A formula whose constant is given two terms.
fn form_between(logical: Logical, left: TermId, right: TermId) -> Form
    ensures reads { (w : AWorld) → form_read w result ≡ form_between (logical_of w.types logical) (read w left) (read w right) }
    ensures held { (w : AWorld) → Holds w left → Holds w right → HoldsForm w result }
    ensures typed { (w : AWorld) → LogicalIsTyped w.types logical → FormIsTyped w result }
{
    match logical {
        Logical::And => Form::And(left, right),
        Logical::Or => Form::Or(left, right),
        Logical::Arrow => Form::Arrow(left, right),
        Logical::Equal(ty) => Form::Equal(ty, left, right),
        _ => Form::Other,
    }
}

/// Whether the formula is `true`.
fn is_truth(form: Form) -> bool
    ensures yes { (w : AWorld) → IsTrue result → truth_in (form_read w form) ≡ Some tt }
    ensures no { (w : AWorld) → IsFalse result → truth_in (form_read w form) ≡ None }
{
    match form {
        Form::True => true,
        _ => false,
    }
}

/// The parts of a conjunction.
fn and_parts(form: Form) -> Option<(TermId, TermId)>
    ensures reads { (w : AWorld) → option_map (parts_read w) result ≡ both_in (form_read w form) }
    ensures held { (w : AWorld) → HoldsForm w form → IfSome result (HoldsParts w) }
{
    match form {
        Form::And(left, right) => Some((left, right)),
        _ => None,
    }
}

/// The parts of a disjunction.
fn or_parts(form: Form) -> Option<(TermId, TermId)>
    ensures reads { (w : AWorld) → option_map (parts_read w) result ≡ either_in (form_read w form) }
    ensures held { (w : AWorld) → HoldsForm w form → IfSome result (HoldsParts w) }
{
    match form {
        Form::Or(left, right) => Some((left, right)),
        _ => None,
    }
}

/// The parts of an implication.
fn arrow_parts(form: Form) -> Option<(TermId, TermId)>
    ensures reads { (w : AWorld) → option_map (parts_read w) result ≡ implies_in (form_read w form) }
    ensures held { (w : AWorld) → HoldsForm w form → IfSome result (HoldsParts w) }
{
    match form {
        Form::Arrow(left, right) => Some((left, right)),
        _ => None,
    }
}

/// The sides of an equation.
fn equal_parts(form: Form) -> Option<(TermId, TermId)>
    ensures reads { (w : AWorld) → option_map (parts_read w) result ≡ equal_in (form_read w form) }
    ensures held { (w : AWorld) → HoldsForm w form → IfSome result (HoldsParts w) }
{
    match form {
        Form::Equal(_, left, right) => Some((left, right)),
        _ => None,
    }
}

/// The type and the body of a universal quantifier.
fn forall_parts(form: Form) -> Option<(TypeId, TermId)>
    ensures reads { (w : AWorld) → option_map (binder_read w) result ≡ for_all_in (form_read w form) }
    ensures held { (w : AWorld) → HoldsForm w form → IfSome result (HoldsBinder w) }
    ensures typed { (w : AWorld) → FormIsTyped w form → IfSome result (BinderIsTyped w) }
{
    match form {
        Form::Forall(ty, body) => Some((ty, body)),
        _ => None,
    }
}

/// The type and the body of an existential quantifier.
fn exists_parts(form: Form) -> Option<(TypeId, TermId)>
    ensures reads { (w : AWorld) → option_map (binder_read w) result ≡ exists_in (form_read w form) }
    ensures held { (w : AWorld) → HoldsForm w form → IfSome result (HoldsBinder w) }
    ensures typed { (w : AWorld) → FormIsTyped w form → IfSome result (BinderIsTyped w) }
{
    match form {
        Form::Exists(ty, body) => Some((ty, body)),
        _ => None,
    }
}

/// The type and the body of a `nabla`.
fn nabla_parts(form: Form) -> Option<(TypeId, TermId)>
    ensures reads { (w : AWorld) → option_map (binder_read w) result ≡ nabla_in (form_read w form) }
    ensures held { (w : AWorld) → HoldsForm w form → IfSome result (HoldsBinder w) }
    ensures typed { (w : AWorld) → FormIsTyped w form → IfSome result (BinderIsTyped w) }
{
    match form {
        Form::Nabla(ty, body) => Some((ty, body)),
        _ => None,
    }
}

/// The parts of a conjunction, where the formula is one.
pub fn as_and(world: &World, formula: TermId) -> Option<(TermId, TermId)>
    requires { Holds world.now formula }
    ensures reads { option_map (parts_read world.now) result ≡ as_both (read world.now formula) }
    ensures held { IfSome result (HoldsParts world.now) }
{
    and_parts(shape(world, formula))
}

/// The parts of a disjunction, where the formula is one.
pub fn as_or(world: &World, formula: TermId) -> Option<(TermId, TermId)>
    requires { Holds world.now formula }
    ensures reads { option_map (parts_read world.now) result ≡ as_either (read world.now formula) }
    ensures held { IfSome result (HoldsParts world.now) }
{
    or_parts(shape(world, formula))
}

/// The parts of an implication, where the formula is one.
pub fn as_arrow(world: &World, formula: TermId) -> Option<(TermId, TermId)>
    requires { Holds world.now formula }
    ensures reads { option_map (parts_read world.now) result ≡ as_implies (read world.now formula) }
    ensures held { IfSome result (HoldsParts world.now) }
{
    arrow_parts(shape(world, formula))
}

/// The sides of an equation, where the formula is one.
pub fn as_equal(world: &World, formula: TermId) -> Option<(TermId, TermId)>
    requires { Holds world.now formula }
    ensures reads { option_map (parts_read world.now) result ≡ as_equal (read world.now formula) }
    ensures held { IfSome result (HoldsParts world.now) }
{
    equal_parts(shape(world, formula))
}

/// The type and the body of a universal quantifier, where the formula is one.
pub fn as_forall(world: &World, formula: TermId) -> Option<(TypeId, TermId)>
    requires { Holds world.now formula }
    ensures reads { option_map (binder_read world.now) result ≡ as_for_all (read world.now formula) }
    ensures held { IfSome result (HoldsBinder world.now) }
    ensures typed { IsWorld world.now → IfSome result (BinderIsTyped world.now) }
{
    forall_parts(shape(world, formula))
}

/// The type and the body of an existential quantifier, where the formula is one.
pub fn as_exists(world: &World, formula: TermId) -> Option<(TypeId, TermId)>
    requires { Holds world.now formula }
    ensures reads { option_map (binder_read world.now) result ≡ as_exists (read world.now formula) }
    ensures held { IfSome result (HoldsBinder world.now) }
    ensures typed { IsWorld world.now → IfSome result (BinderIsTyped world.now) }
{
    exists_parts(shape(world, formula))
}

/// The type and the body of a `nabla`, where the formula is one.
pub fn as_nabla(world: &World, formula: TermId) -> Option<(TypeId, TermId)>
    requires { Holds world.now formula }
    ensures reads { option_map (binder_read world.now) result ≡ as_nabla (read world.now formula) }
    ensures held { IfSome result (HoldsBinder world.now) }
    ensures typed { IsWorld world.now → IfSome result (BinderIsTyped world.now) }
{
    nabla_parts(shape(world, formula))
}

/// Whether the formula is `true`.
pub fn is_true(world: &World, formula: TermId) -> bool
    requires { Holds world.now formula }
    ensures yes { IsTrue result → as_truth (read world.now formula) ≡ Some tt }
    ensures no { IsFalse result → as_truth (read world.now formula) ≡ None }
{
    is_truth(shape(world, formula))
}

/// Whether the form is `false`.
fn is_falsity(form: Form) -> bool
    ensures yes { (w : AWorld) → IsTrue result → falsity_in (form_read w form) ≡ Some tt }
    ensures no { (w : AWorld) → IsFalse result → falsity_in (form_read w form) ≡ None }
{
    match form {
        Form::False => true,
        _ => false,
    }
}

/// Whether the formula is `false`.
pub fn is_false(world: &World, formula: TermId) -> bool
    requires { Holds world.now formula }
    ensures yes { IsTrue result → as_falsity (read world.now formula) ≡ Some tt }
    ensures no { IsFalse result → as_falsity (read world.now formula) ≡ None }
{
    is_falsity(shape(world, formula))
}
