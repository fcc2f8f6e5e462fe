//! The judgement that a formula is.
ghost use Rattle.std.specs.Prelude.{◌≡◌, All, map, IfSome};
ghost use Rattle.std.specs.Option.{option_map};
ghost use Rattle.ab_term.specs.Terms as plain;
ghost use Rattle.ab_term.specs.Terms.{spine, terms_of};
ghost use Rattle.ab_norm.specs.ab_store.specs.Trees.{logical_of};
ghost use Rattle.ab_logic.specs.Forms.{sign_of};
ghost use Rattle.ab_logic.specs.Worlds.{Holds, read};
ghost use Rattle.ab_theory.specs.Judgements.{judgement_as, as_judgement};
ghost use Rattle.ab_judgement_forms.specs.JudgementReadings.{judgement_read, HoldsJudgement};

use ab_logic::{Form, Sign, World, shape};
use ab_norm::store::{Head, Logical, Node, TermId};

/// A judgement of the specification logic: its mark, its list, the formula in focus where there is one, and its goal.
#[derive(Clone, Copy)]
pub struct Judgement {
    pub sign: Sign,
    pub context: TermId,
    pub focus: Option<TermId>,
    pub goal: TermId,
}

/// The judgement with the mark that the term is, if it is one.
fn judgement_as(world: &World, sign: Sign, term: TermId) -> Option<Judgement>
    requires { Holds world.now term }
    ensures reads { option_map (judgement_read world.now) result ≡ judgement_as (sign_of sign) (read world.now term) }
    ensures held { IfSome result (HoldsJudgement world.now) }
{
    let Node::Spine(head, args) = world.store.view(term) else {
        return None;
    };
    let Head::Logic(logical) = *head else {
        return None;
    };
    judgement_by(world, sign, logical, args.as_slice())
}

/// The judgement with the mark that the constant is of what it is given, if it is one.
fn judgement_by(world: &World, sign: Sign, logical: Logical, args: &[TermId]) -> Option<Judgement>
    requires { All (Holds world.now) args.now }
    ensures reads { option_map (judgement_read world.now) result
        ≡ judgement_as (sign_of sign) (spine (plain.logical (logical_of world.now.types logical)) (terms_of (map (read world.now) args.now))) }
    ensures held { IfSome result (HoldsJudgement world.now) }
{
    let _ = world;
    match logical {
        Logical::Judge => {
            if args.len() == 2 {
                Some(Judgement {
                    sign,
                    context: args[0],
                    focus: None,
                    goal: args[1],
                })
            } else {
                None
            }
        }
        Logical::Focus => {
            if args.len() == 3 {
                Some(Judgement {
                    sign,
                    context: args[0],
                    focus: Some(args[1]),
                    goal: args[2],
                })
            } else {
                None
            }
        }
        _ => None,
    }
}

/// The judgement that the formula is, if it is one.
pub fn as_judgement(world: &World, formula: TermId) -> Option<Judgement>
    requires { Holds world.now formula }
    ensures reads { option_map (judgement_read world.now) result ≡ as_judgement (read world.now formula) }
    ensures held { IfSome result (HoldsJudgement world.now) }
{
    match shape(world, formula) {
        Form::Marked(sign, inner) => judgement_as(world, sign, inner),
        Form::Other => judgement_as(world, Sign::Plain, formula),
        _ => None,
    }
}
