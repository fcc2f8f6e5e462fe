//! The rules by which a judgement may hold, place by place: for an atom the clauses of the program with its head, and then
//! the list; else the goal, which is opened; or the parts of the formula in focus.
ghost use Rattle.std.specs.Prelude.{◌≡◌, ◌+◌, List, length, map, slice_get, IfOk, IfSome, Some};
ghost use Rattle.std.specs.Option.{option_map};
ghost use Rattle.ab_unify.specs.Problem.{cells_read};
ghost use Rattle.ab_alternatives.specs.CaseSteps.{IsLater};
ghost use Rattle.ab_logic.specs.Worlds.{IsWorld, Holds, read};
ghost use Rattle.ab_logic.specs.declared.world.World.{World as AWorld};
ghost use Rattle.ab_theory.specs.SpecRules.{by_part, is_nil};
ghost use Rattle.ab_judgements.specs.DemandReadings.{rule_read, IsTypedJudgement, IsRuleFor};
ghost use Rattle.ab_judgement_forms.specs.JudgementReadings.{HoldsJudgement};
ghost use Rattle.ab_judgement_forms.specs.PartReadings.{part_read};
ghost use Rattle.ab_judgements.specs.SubjectReadings.{HasRules};
ghost use Rattle.ab_judgements.specs.RuleWalks.{clauses_of, clause_there, slots, rules_in, rule_in, list_slot, AreParts, IsSource, HasRulesAt, IsRuled};
ghost use Rattle.ab_judgement_forms.specs.declared.judgements.Judgement.{Judgement as AKeptJudgement};
ghost use Rattle.ab_judgements.specs.declared.rule_places.Source.TheVariants.{Program};
ghost use Rattle.ab_judgements.specs.declared.subjects.Subject.TheVariants.{Judgement as AJudgement};

use crate::constants::judgement_constants;
use crate::demands::Rule;
use ab_alternatives::copy_clause;
use ab_judgement_forms::{Judgement, Kind, Part, copy_names, kind_of, parts};
use ab_logic::World;
use ab_norm::Nominal;
use ab_norm::store::TermId;
use ab_norm::types::laws::has_unique_ids;
use std::alloc::{AllocError, Global};

/// Where the rules of a judgement stand.
#[derive(Drop)]
pub enum Source {
    /// They are the clauses of the program for the goal, and behind these the rule by the list.
    Program,
    /// There is one: the goal is opened.
    Goal,
    /// They are the parts of the formula in focus.
    Focus(Vec<Part>),
}

/// A judgement, its constants, and where its rules stand.
#[derive(Drop)]
pub struct Ruled {
    pub judgement: Judgement,
    pub constants: Vec<Nominal>,
    pub source: Source,
}

/// Where the judgement's rules stand.
fn source_of(alloc: Global, world: &mut World, judgement: &Judgement) -> Result<Source, AllocError>
    requires world { IsWorld world.old }
    requires judgement { HoldsJudgement world.old judgement.now }
    requires rules { HasRules world.old (AJudgement judgement.now) }
    ensures source { IfOk result (IsSource world.new judgement.now) }
    ensures rules { IfOk result (HasRulesAt world.new judgement.now) }
    ensures later { IsLater world.old world.new }
    ensures cells { cells_read world.new.types world.new.store ≡ cells_read world.old.types world.old.store }
{
    if let Some(formula) = judgement.focus {
        let list = parts(alloc, &world.types, &mut world.store, formula)?;
        return Ok(Source::Focus(list));
    }
    match kind_of(&world.store, judgement.goal) {
        Kind::Compound => Ok(Source::Goal),
        Kind::Atomic | Kind::Undetermined => Ok(Source::Program),
    }
}

/// The judgement, with its constants and where its rules stand.
pub fn with_rules(
    alloc: Global,
    world: &mut World,
    judgement: &Judgement,
) -> Result<Ruled, AllocError>
    requires world { IsWorld world.old }
    requires judgement { HoldsJudgement world.old judgement.now }
    requires typed { IsTypedJudgement world.old judgement.now }
    requires rules { HasRules world.old (AJudgement judgement.now) }
    ensures judgement { IfOk result (λ r. r.judgement ≡ judgement.now) }
    ensures ruled { IfOk result (IsRuled world.new) }
    ensures later { IsLater world.old world.new }
    ensures cells { cells_read world.new.types world.new.store ≡ cells_read world.old.types world.old.store }
{
    let source = source_of(alloc, world, judgement)?;
    let constants = judgement_constants(alloc, world, judgement)?;
    Ok(Ruled {
        judgement: *judgement,
        constants,
        source,
    })
}

/// The places, among what was added, of the clauses of the program for the atom, in order.
fn clause_places(world: &World, atom: TermId) -> &[usize]
    requires world { IsWorld world.now }
    requires atom { Holds world.now atom }
    ensures { map (clause_there world.now) result.now ≡ map Some (clauses_of world.now (read world.now atom)) }
{
    has_unique_ids(&world.types);
    match world.head_constant(atom) {
        None => &[],
        Some(head) => world.clause_places(head),
    }
}

/// The last place.
pub fn last_place(world: &World, ruled: &Ruled) -> usize
    requires { IsRuled world.now ruled.now }
    ensures { result + 1 ≡ length (slots world.now ruled.now.judgement ruled.now.source) }
{
    match &ruled.source {
        Source::Program => clause_places(world, ruled.judgement.goal).len(),
        Source::Goal => 0,
        Source::Focus(parts) => parts.len(),
    }
}

/// Whether the list is `nil`.
fn is_nil(world: &World, list: TermId) -> bool
    requires world { IsWorld world.now }
    requires list { Holds world.now list }
    ensures { result ≡ is_nil (read world.now list) }
{
    match world.head_constant(list) {
        None => false,
        Some(constant) => world.types.const_name(constant).as_str() == "nil",
    }
}

/// The rule by the list, where there may be something in it.
fn list_rule(world: &World, list: TermId) -> Option<Rule>
    requires world { IsWorld world.now }
    requires list { Holds world.now list }
    ensures reads { option_map (rule_read world.now) result ≡ list_slot (read world.now list) }
    ensures fits { (j : AKeptJudgement) → IfSome result (IsRuleFor world.now j) }
{
    if is_nil(world, list) {
        None
    } else {
        Some(Rule::Item)
    }
}

/// The rule by the clause of this number for the judgement's goal, or behind all these by the list.
fn program_rule(
    alloc: Global,
    world: &World,
    judgement: &Judgement,
    number: usize,
) -> Result<Option<Rule>, AllocError>
    requires world { IsWorld world.now }
    requires judgement { IsTypedJudgement world.now judgement.now }
    ensures reads { IfOk result (λ found. option_map (rule_read world.now) found ≡ rule_in (slots world.now judgement.now Program) number) }
    ensures fits { IfOk result (λ found. IfSome found (IsRuleFor world.now judgement.now)) }
{
    let places = clause_places(world, judgement.goal);
    if number == places.len() {
        return Ok(list_rule(world, judgement.context));
    }
    let Some(place) = places.get(number) else {
        return Ok(None);
    };
    let Some(clause) = world.clause_at(*place) else {
        return Ok(None);
    };
    let copied = copy_clause(alloc, clause)?;
    Ok(Some(Rule::Clause(copied)))
}

/// The part again.
fn copy_part(alloc: Global, part: &Part) -> Result<Part, AllocError>
    ensures names { IfOk result (λ copied. copied.names.items ≡ part.now.names.items) }
    ensures goals { IfOk result (λ copied. copied.goals.items ≡ part.now.goals.items) }
    ensures atom { IfOk result (λ copied. copied.atom ≡ part.now.atom) }
{
    let names = copy_names(alloc, &part.names)?;
    let goals = Vec::from_slice(alloc, &part.goals)?;
    Ok(Part {
        names,
        goals,
        atom: part.atom,
    })
}

/// The rule by the part of this place, if there are so many.
fn part_rule(alloc: Global, parts: &[Part], place: usize) -> Result<Option<Rule>, AllocError>
    ensures reads { IfOk result (λ found. (w : AWorld) → option_map (rule_read w) found ≡ option_map (λ p. by_part (part_read w.types w.store p)) (slice_get parts.now place)) }
    ensures fits { IfOk result (λ found. (w : AWorld) (j : AKeptJudgement) → AreParts w j parts.now → IfSome found (IsRuleFor w j)) }
{
    match parts.get(place) {
        None => Ok(None),
        Some(part) => {
            let copied = copy_part(alloc, part)?;
            Ok(Some(Rule::Part(copied)))
        }
    }
}

/// The rule at the place, if one stands there. No other place than the last is empty, so it is the rule of this number too.
pub fn rule_at(
    alloc: Global,
    world: &World,
    ruled: &Ruled,
    place: usize,
) -> Result<Option<Rule>, AllocError>
    requires { IsRuled world.now ruled.now }
    ensures reads { IfOk result (λ found. option_map (rule_read world.now) found ≡ rule_in (slots world.now ruled.now.judgement ruled.now.source) place) }
    ensures numbered { IfOk result (λ found. option_map (rule_read world.now) found ≡ slice_get (rules_in (slots world.now ruled.now.judgement ruled.now.source)) place) }
    ensures fits { IfOk result (λ found. IfSome found (IsRuleFor world.now ruled.now.judgement)) }
{
    match &ruled.source {
        Source::Program => program_rule(alloc, world, &ruled.judgement, place),
        Source::Goal => {
            if place == 0 {
                Ok(Some(Rule::Opening))
            } else {
                Ok(None)
            }
        }
        Source::Focus(parts) => part_rule(alloc, parts, place),
    }
}
