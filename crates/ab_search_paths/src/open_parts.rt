//! Which variables of a clause or of a rule the kernel leaves open, once its conclusion is made equal to the head.
ghost use Rattle.std.specs.Prelude.{◌≡◌, ◌≤◌, All};
ghost use Rattle.ab_norm.specs.ab_store.specs.Naming.{IsTypedBy};
ghost use Rattle.ab_norm.specs.ab_store.specs.Trees.{HoldsCell};
ghost use Rattle.ab_norm.specs.Nominals.{HoldsNominal};
ghost use Rattle.ab_walk.specs.ab_next_ways.specs.ab_judgements.specs.DemandReadings.{IsRuleFor};
ghost use Rattle.ab_walk.specs.ab_next_ways.specs.ab_judgements.specs.RuleWalks.{IsRuled};
ghost use Rattle.ab_walk.specs.ab_next_ways.specs.ab_judgements.specs.ab_alternatives.specs.AtomReadings.{HoldsDefined};
ghost use Rattle.ab_walk.specs.ab_next_ways.specs.ab_judgements.specs.ab_alternatives.specs.Choices.{IsHeldFor};
ghost use Rattle.ab_walk.specs.ab_next_ways.specs.ab_judgements.specs.ab_alternatives.specs.LeftAlternatives.{constants_in};
ghost use Rattle.ab_walk.specs.ab_next_ways.specs.ab_judgements.specs.ab_alternatives.specs.ab_instances.specs.ListReadings.{names_read, given_at};
ghost use Rattle.ab_unify.specs.StoreChanges as changed;
ghost use Rattle.ab_unify.specs.StoreChanges.{IsFree};
ghost use Rattle.ab_unify.specs.UnifyAnswers.{IsTypedPair};
ghost use Rattle.ab_logic.specs.Worlds.{IsWorld, declarations_of};
ghost use Rattle.ab_logic.specs.WorldGrowth.{Grows};
ghost use Rattle.ab_search_paths.specs.Parts.{IsOfFormula};

use ab_logic::World;
use ab_norm::Nominal;
use ab_norm::store::{CellId, Equation, Store};
use ab_norm::types::Steps;
use ab_unify::{Solved, unify};
use ab_walk::next_ways::judgements::alternatives::{
    Choice, DefinedAtom, make_unfolding, mark_above,
};
use ab_walk::next_ways::judgements::{Rule, Ruled, make_demand};
use std::alloc::{AllocError, Global};

/// The places of those of the cells that are bound to nothing.
fn unbound_places(alloc: Global, store: &Store, cells: &[CellId]) -> Result<Vec<usize>, AllocError>
    requires { All (HoldsCell store.now) cells.now }
{
    let mut list = Vec::new(alloc);
    for place in 0..cells.len() {
        if store.binding(cells[place]).is_none() {
            list.push(place)?;
        }
    }
    Ok(list)
}

/// The places of those of the cells that stay open when the equations are solved. Cells are bound then.
fn open_places<L>(
    alloc: Global,
    world: &mut World,
    equations: &[Equation],
    own: &[CellId],
    steps: &mut Steps<L>,
) -> Result<Vec<usize>, AllocError>
    requires store { IsTypedBy world.old.types world.old.store }
    requires equations { All (IsTypedPair world.old.types world.old.store) equations.now }
    requires own { All (IsFree world.old.store) own.now }
    ensures grows { changed.Grows world.old.types world.old.store world.new.types world.new.store }
    ensures additions { world.new.additions ≡ world.old.additions }
    ensures steps { steps.old ≤ steps.new }
{
    let (types, store) = (&mut world.types, &mut world.store);
    let Solved::Unified(_) = unify(alloc, types, store, equations, own, steps)? else {
        return Err(AllocError);
    };
    unbound_places(alloc, &world.store, own)
}

/// The same of a choice of the atom.
fn open_of_choice<L>(
    alloc: Global,
    world: &mut World,
    atom: &DefinedAtom,
    constants: &[Nominal],
    choice: &Choice,
    steps: &mut Steps<L>,
) -> Result<Vec<usize>, AllocError>
    requires world { IsWorld world.old }
    requires atom { HoldsDefined world.old atom.now }
    requires formula { IsOfFormula world.old atom.now }
    requires constants { names_read world.old.types constants.now ≡ constants_in (given_at world.old.types world.old.store atom.now.arguments.items) }
    requires constants_held { All (HoldsNominal world.old.types) constants.now }
    requires choice { IsHeldFor world.old atom.now choice.now }
    ensures grows { changed.Grows world.old.types world.old.store world.new.types world.new.store }
    ensures additions { world.new.additions ≡ world.old.additions }
    ensures steps { steps.old ≤ steps.new }
{
    let (types, store) = (&mut world.types, &mut world.store);
    let names = choice.names.as_slice();
    let clause = choice.clause;
    let made = make_unfolding(alloc, types, store, atom, constants, clause, names, steps)?;
    open_places(alloc, world, &made.equations, &made.own, steps)
}

/// The same of a rule of the judgement.
fn open_of_rule<L>(
    alloc: Global,
    world: &mut World,
    ruled: &Ruled,
    rule: &Rule,
    steps: &mut Steps<L>,
) -> Result<Vec<usize>, AllocError>
    requires ruled { IsRuled world.old ruled.now }
    requires rule { IsRuleFor world.old ruled.now.judgement rule.now }
    ensures grows { changed.Grows world.old.types world.old.store world.new.types world.new.store }
    ensures additions { world.new.additions ≡ world.old.additions }
    ensures steps { steps.old ≤ steps.new }
{
    let judgement = &ruled.judgement;
    let mark = mark_above(judgement.sign);
    let made = make_demand(alloc, world, judgement, mark, rule, &ruled.constants, steps)?;
    open_places(alloc, world, &made.equations, &made.own, steps)
}

/// The places of the clause's variables that stay open when the atom is unfolded by the choice. `constants` are those of the atom. The
/// world's store is as it was then.
pub fn left_by_choice<L>(
    alloc: Global,
    world: &mut World,
    atom: &DefinedAtom,
    constants: &[Nominal],
    choice: &Choice,
    steps: &mut Steps<L>,
) -> Result<Vec<usize>, AllocError>
    requires world { IsWorld world.old }
    requires atom { HoldsDefined world.old atom.now }
    requires formula { IsOfFormula world.old atom.now }
    requires constants { names_read world.old.types constants.now ≡ constants_in (given_at world.old.types world.old.store atom.now.arguments.items) }
    requires constants_held { All (HoldsNominal world.old.types) constants.now }
    requires choice { IsHeldFor world.old atom.now choice.now }
    ensures grows { Grows world.old world.new }
    ensures declared { declarations_of world.new ≡ declarations_of world.old }
    ensures steps { steps.old ≤ steps.new }
{
    let mark = world.store.mark();
    let list = open_of_choice(alloc, world, atom, constants, choice, steps);
    world.store.cut_to(&mark, steps);
    list
}

/// The places of the rule's variables that stay open when the judgement is unfolded by it. The world's store is as it was then.
pub fn left_by_rule<L>(
    alloc: Global,
    world: &mut World,
    ruled: &Ruled,
    rule: &Rule,
    steps: &mut Steps<L>,
) -> Result<Vec<usize>, AllocError>
    requires ruled { IsRuled world.old ruled.now }
    requires rule { IsRuleFor world.old ruled.now.judgement rule.now }
    ensures grows { Grows world.old world.new }
    ensures declared { declarations_of world.new ≡ declarations_of world.old }
    ensures steps { steps.old ≤ steps.new }
{
    let mark = world.store.mark();
    let list = open_of_rule(alloc, world, ruled, rule, steps);
    world.store.cut_to(&mark, steps);
    list
}
