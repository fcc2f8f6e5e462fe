//! The first choice of constants by which a formula can be used.
ghost use Rattle.std.specs.Prelude.{◌≡◌, ◌≤◌, ◌∷◌, ◌++◌, [], map, IfOk, OnOk, All};
ghost use Rattle.ab_norm.specs.Nominals.{HoldsNominal};
ghost use Rattle.ab_unifiers.specs.Choices.{in_order};
ghost use Rattle.ab_alternatives.specs.ab_instances.specs.ListReadings.{names_read};
ghost use Rattle.ab_norm.specs.ab_types.specs.Ids.{HoldsType};
ghost use Rattle.ab_logic.specs.WorldGrowth.{Grows};
ghost use Rattle.ab_logic.specs.SequentReadings.{HoldsSequent, sequent_of};
ghost use Rattle.ab_formulas.specs.Sequents.{IsSequent, goal_names};
ghost use Rattle.ab_logic.specs.Worlds.{IsWorld, Holds, read, declarations_of};
ghost use Rattle.ab_uses.specs.GivenReadings.{given_of, HoldsIfAny};
ghost use Rattle.ab_theory.specs.Pieces.{pieces, parts};
ghost use Rattle.ab_theory.specs.Uses.{given_constants};
ghost use Rattle.ab_uses.specs.UseCells.{HoldsPart, parts_read};
ghost use Rattle.ab_uses.specs.NamedTerms.{terms_named, types_named};
ghost use Rattle.ab_uses.specs.Questions.{IsPosed, using_at};
ghost use Rattle.ab_uses.specs.UseReadings.{aim_of, using_of, MayBeUsed, Finds};

use crate::aim::Aim;
use crate::begun_choices::begin;
use crate::choice_trials::try_from;
use crate::formula_parts::parts_of;
use crate::given_terms::GivenTerm;
use crate::outcome::Outcome;
use crate::part::Part;
use crate::question::Question;
use crate::use_answers::Found;
use ab_alternatives::goal_constants;
use ab_alternatives::instances::constants_of;
use ab_logic::{Sequent, World};
use ab_norm::store::TermId;
use ab_norm::types::{Steps, TypeId};
use std::alloc::{AllocError, Global};

/// Puts the term that is given behind the others, where the part is one.
fn add_term(list: &mut Vec<TermId>, part: &Part) -> Result<(), AllocError>
    ensures { OnOk result (list.new.items ≡ list.old.items ++ terms_named (part.now ∷ [])) }
{
    match part {
        Part::Given(term) => {
            list.push(*term)?;
            Ok(())
        }
        Part::Variable(_, _) => Ok(()),
        Part::Constant(_) => Ok(()),
        Part::Antecedent => Ok(()),
    }
}

/// The terms that are given.
fn terms_in(alloc: Global, parts: &[Part]) -> Result<Vec<TermId>, AllocError>
    ensures { IfOk result (λ list. list.items ≡ terms_named parts.now) }
{
    let mut list = Vec::new(alloc);
    for part in parts {
        add_term(&mut list, part)?;
    }
    Ok(list)
}

/// Puts the type of the constant behind the others, where the part is one.
fn add_type(list: &mut Vec<TypeId>, part: &Part) -> Result<(), AllocError>
    ensures { OnOk result (list.new.items ≡ list.old.items ++ types_named (part.now ∷ [])) }
{
    match part {
        Part::Constant(ty) => {
            list.push(*ty)?;
            Ok(())
        }
        Part::Variable(_, _) => Ok(()),
        Part::Given(_) => Ok(()),
        Part::Antecedent => Ok(()),
    }
}

/// The types of the names for which constants are chosen.
fn types_in(alloc: Global, parts: &[Part]) -> Result<Vec<TypeId>, AllocError>
    ensures { IfOk result (λ list. list.items ≡ types_named parts.now) }
{
    let mut list = Vec::new(alloc);
    for part in parts {
        add_type(&mut list, part)?;
    }
    Ok(list)
}

/// What is asked of each choice, for a formula that is used.
fn pose(
    alloc: Global,
    world: &World,
    goal: &Sequent,
    formula: TermId,
    count: usize,
    given: &[GivenTerm],
) -> Result<Question, AllocError>
    requires world { IsWorld world.now }
    requires goal { HoldsSequent world.now goal.now }
    requires formula { Holds world.now formula }
    requires given { All (λ g. Holds world.now g.value × HoldsType world.now.types g.ty) given.now }
    ensures formula { IfOk result (λ q. q.formula ≡ formula) }
    ensures parts { IfOk result (λ q. parts_read world.now.types world.now.store q.parts.items ≡ parts (map (given_of world.now) given.now) (pieces count (read world.now formula))) }
    ensures parts_held { IfOk result (λ q. All (HoldsPart world.now.types world.now.store) q.parts.items) }
    ensures held { IfOk result (λ q. All (HoldsNominal world.now.types) q.held.items) }
    ensures names { IfOk result (λ q. names_read world.now.types q.held.items ≡ in_order (goal_names (sequent_of world.now goal.now))) }
    ensures known { IfOk result (λ q. All (HoldsNominal world.now.types) q.known.items) }
    ensures known_names { IfOk result (λ q. names_read world.now.types q.known.items
        ≡ in_order (goal_names (sequent_of world.now goal.now)) ++ in_order (given_constants (parts (map (given_of world.now) given.now) (pieces count (read world.now formula))))) }
{
    let held = goal_constants(alloc, world, goal)?;
    let parts = parts_of(alloc, world, formula, count, given)?;
    let terms = terms_in(alloc, &parts)?;
    let more = constants_of(alloc, &world.types, &world.store, &terms)?;
    let mut known = Vec::from_slice(alloc, &held)?;
    known.extend_from_slice(&more)?;
    Ok(Question {
        held,
        known,
        parts,
        formula,
    })
}

/// What comes of using a formula in the goal: it is taken apart up to the antecedent of the number, the terms that are given
/// are put for names of `forall`, and constants for names of `nabla`, by the first choice whose equations aren't apart. No
/// cell is bound in the end.
pub fn find_use<L>(
    alloc: Global,
    world: &mut World,
    goal: &Sequent,
    formula: TermId,
    count: usize,
    given: &[GivenTerm],
    aim: &Aim,
    steps: &mut Steps<L>,
) -> Result<Found, AllocError>
    requires world { IsWorld world.old }
    requires goal { HoldsSequent world.old goal.now }
    requires sequent { IsSequent (declarations_of world.old) (sequent_of world.old goal.now) }
    requires formula { Holds world.old formula }
    requires given { All (λ g. Holds world.old g.value × HoldsType world.old.types g.ty) given.now }
    requires hypotheses { All (HoldsIfAny world.old) aim.now.hypotheses.items }
    requires conclusion { HoldsIfAny world.old aim.now.conclusion }
    requires usable { MayBeUsed (declarations_of world.old) (sequent_of world.old goal.now) (read world.old formula) count (map (given_of world.old) given.now) (aim_of world.old aim.now) }
    ensures found { IfOk result (Finds (using_of world.old goal.now formula count given.now aim.now) world.new) }
    ensures grows { Grows world.old world.new }
    ensures declared { declarations_of world.new ≡ declarations_of world.old }
    ensures steps { steps.old ≤ steps.new }
{
    let question = pose(alloc, world, goal, formula, count, given)?;
    let types = types_in(alloc, &question.parts)?;
    let begun = begin(alloc, &question)?;
    match try_from(alloc, world, goal, &question, aim, &types, &begun, steps)? {
        Outcome::PassedOver | Outcome::Apart => Ok(Found::NoMatch),
        Outcome::Stuck(place) => Ok(Found::NotPattern(place)),
        Outcome::Open(name) => Ok(Found::Unresolved(name)),
        Outcome::Used(used) => Ok(Found::Used(used)),
    }
}
