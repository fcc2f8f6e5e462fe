//! Where the parts of a conclusion get sizes, and with what marks.
ghost use Rattle.std.specs.Prelude.{◌≡◌, All, IfSome, None, Some, [], drop, if◌then◌else◌, map, ◌&&◌};
ghost use Rattle.std.specs.Option.{option_map};
ghost use Rattle.ab_norm.specs.ab_types.specs.Entries.{Table};
ghost use Rattle.ab_norm.specs.ab_store.specs.Trees.{Holds, logical_of, tree_of};
ghost use Rattle.ab_term.specs.Terms as constant;
ghost use Rattle.ab_term.specs.Terms.{Read, spine, terms_of};
ghost use Rattle.ab_formulas.specs.Declarations.{Declarations};
ghost use Rattle.ab_formulas.specs.Marks.{Sign as ASign};
ghost use Rattle.ab_logic.specs.Forms.{sign_of};
ghost use Rattle.ab_logic.specs.Worlds.{IsWorld, Holds as HoldsIn, read, declarations_of};
ghost use Rattle.ab_theory.specs.Atoms.{defined_as, defined_atom};
ghost use Rattle.ab_theory.specs.Induction.{matrix, antecedent, consequent};
ghost use Rattle.ab_theory.specs.Judgements.{as_judgement, judgement_as};
ghost use Rattle.ab_sequents.specs.Kinds.{are_plain, is_plain, signs_by};
ghost use Rattle.ab_sequents.specs.SizeViews.{sign_at, sign_of_either};

use crate::formula_views::{Outer, body_of, look_at};
use crate::levels::Kind;
use crate::size_marks::{Part, part_at};
use ab_logic::{Form, Sign, World, shape};
use ab_norm::store::{Head, Logical, Node, Store, TermId};

/// What stands under the prefix.
fn matrix(store: &Store, id: TermId) -> TermId
    requires { Holds store.now id }
    ensures reads { (types : Table) → tree_of types store.now result ≡ matrix (tree_of types store.now id) }
    ensures held { Holds store.now result }
{
    let Outer::Under(_, abstraction) = look_at(store, id) else {
        return id;
    };
    let Some(body) = body_of(store, abstraction) else {
        return id;
    };
    matrix(store, body)
}

/// The antecedent of this place, counted from 1.
fn antecedent(store: &Store, place: u32, id: TermId) -> Option<TermId>
    requires { Holds store.now id }
    ensures reads { (types : Table) → option_map (tree_of types store.now) result ≡ antecedent place (tree_of types store.now id) }
    ensures held { IfSome result (Holds store.now) }
{
    let Outer::Arrow(left, right) = look_at(store, id) else {
        return None;
    };
    if place == 0 {
        None
    } else if place == 1 {
        Some(left)
    } else {
        antecedent(store, place - 1, right)
    }
}

/// What stands behind all antecedents.
fn consequent(store: &Store, id: TermId) -> TermId
    requires { Holds store.now id }
    ensures reads { (types : Table) → tree_of types store.now result ≡ consequent (tree_of types store.now id) }
    ensures held { Holds store.now result }
{
    let Outer::Arrow(_, right) = look_at(store, id) else {
        return id;
    };
    consequent(store, right)
}

/// Whether the constant is that of a judgement, given these.
fn judges(logical: Logical, args: &[TermId]) -> bool
    ensures { (types : Table) (f : TermId → Read) (m : ASign) →
        option_map (λ j. j.sign) (judgement_as m (spine (constant.logical (logical_of types logical)) (terms_of (map f args.now)))) ≡ (if result then Some m else None) }
{
    match logical {
        Logical::Judge => args.len() == 2,
        Logical::Focus => args.len() == 3,
        _ => false,
    }
}

/// The mark again, where the atom's predicate has a definition that is inductive, or else coinductive, as is asked; a
/// judgement is taken for inductive.
fn sign_as(world: &World, inductive: bool, sign: Sign, atom: TermId) -> Option<Sign>
    requires world { IsWorld world.now }
    requires atom { HoldsIn world.now atom }
    ensures { option_map sign_of result
        ≡ sign_of_either inductive (judgement_as (sign_of sign) (read world.now atom)) (defined_as (declarations_of world.now) (sign_of sign) (read world.now atom)) }
{
    let Node::Spine(head, args) = world.store.view(atom) else {
        return None;
    };
    match *head {
        Head::Const(predicate) => {
            let Some(block) = world.block(predicate) else {
                return None;
            };
            if block.inductive == inductive {
                Some(sign)
            } else {
                None
            }
        }
        Head::Logic(logical) => {
            if inductive && judges(logical, args.as_slice()) {
                Some(sign)
            } else {
                None
            }
        }
        _ => None,
    }
}

/// The mark of the atom that the formula is, where its definition is inductive, or else coinductive, as is asked; that of a
/// judgement is taken for inductive.
fn sign_in(world: &World, inductive: bool, formula: TermId) -> Option<Sign>
    requires world { IsWorld world.now }
    requires formula { HoldsIn world.now formula }
    ensures { option_map sign_of result
        ≡ sign_of_either inductive (as_judgement (read world.now formula)) (defined_atom (declarations_of world.now) (read world.now formula)) }
{
    match shape(world, formula) {
        Form::Marked(sign, atom) => sign_as(world, inductive, sign, atom),
        Form::Other => sign_as(world, inductive, Sign::Plain, formula),
        _ => None,
    }
}

/// The mark of what a part of a conclusion is to get a size by, where it is there.
fn sign_at(world: &World, part: Part, formula: TermId) -> Option<Sign>
    requires world { IsWorld world.now }
    requires formula { HoldsIn world.now formula }
    ensures { option_map sign_of result ≡ sign_at (declarations_of world.now) part (read world.now formula) }
{
    let inner = matrix(&world.store, formula);
    match part {
        Part::Antecedent(place) => match antecedent(&world.store, place, inner) {
            Some(atom) => sign_in(world, true, atom),
            None => None,
        },
        Part::Consequent => sign_in(world, false, consequent(&world.store, inner)),
    }
}

/// Whether no place is left for parts behind so many: of coinduction no part has one.
fn none_is_left(kind: Kind, places: &[u32], count: usize) -> bool
    ensures { (D : Declarations) → signs_by kind D (drop count places.now) [] ≡ (if result then Some [] else None) }
{
    match kind {
        Kind::Induction => places.len() <= count,
        Kind::Coinduction => true,
    }
}

/// Whether no part of a conclusion has a mark where it is to get a size: for induction at the antecedents of these places, a
/// place for each part. There is no answer where one of them has nothing there that can have a size, or there are more
/// parts or fewer than places.
pub fn are_unmarked(world: &World, kind: Kind, places: &[u32], parts: &[TermId]) -> Option<bool>
    requires world { IsWorld world.now }
    requires parts { All (HoldsIn world.now) parts.now }
    ensures { result ≡ option_map are_plain (signs_by kind (declarations_of world.now) places.now (map (read world.now) parts.now)) }
{
    let mut unmarked = true;
    for index in 0..parts.len() {
        let Some(part) = part_at(kind, places, index) else {
            return None;
        };
        let Some(sign) = sign_at(world, part, parts[index]) else {
            return None;
        };
        unmarked = still_unmarked(unmarked, sign);
    }
    if none_is_left(kind, places, parts.len()) {
        Some(unmarked)
    } else {
        None
    }
}

/// Whether the mark is none, and there was none before.
fn still_unmarked(unmarked: bool, sign: Sign) -> bool
    ensures { result ≡ is_plain (sign_of sign) && unmarked }
{
    match sign {
        Sign::Plain => unmarked,
        _ => false,
    }
}
