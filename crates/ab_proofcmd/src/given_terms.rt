//! Terms that are given for the names of a formula's `forall`.
ghost use Rattle.std.specs.Prelude.{◌≤◌, ◌≡◌, [], ◌∷◌, ◌++◌, map, bytes_eq, IfOk, OnOk, Err, Some, None, All};
ghost use Rattle.std.specs.List.{list_any};
ghost use Rattle.ab_grammar.specs.CommandTrees.{Instance as AnInstance};
ghost use Rattle.ab_syntax.specs.ab_expressions.specs.SyntaxTrees.{tree_of};
ghost use Rattle.ab_syntax.specs.Commands.{instance_of};
ghost use Rattle.ab_formulas.specs.Formulas.{HasOneTypeEach};
ghost use Rattle.ab_logic.specs.WorldGrowth.{Grows};
ghost use Rattle.ab_logic.specs.SequentReadings.{sequent_of, HoldsSequent};
ghost use Rattle.ab_formulas.specs.Sequents.{IsSequent, Fits, goal_names, names_of};
ghost use Rattle.ab_logic.specs.Worlds.{IsWorld, Holds, read, declarations_of};
ghost use Rattle.ab_theory.specs.Pieces.{Given, pieces};
ghost use Rattle.ab_theory.specs.Pieces as spec;
ghost use Rattle.ab_uses.specs.GivenReadings.{given_of};
ghost use Rattle.ab_effects.specs.ProofCommands.{reading_each};
ghost use Rattle.ab_effects.specs.Row.{leads, unless};
ghost use Rattle.ab_effects.specs.FormulaUses.{given_twice, strange};
ghost use Rattle.ab_hypothesis.specs.ab_steps.specs.ProofEffects.{RefusedBy};
ghost use Rattle.ab_hypothesis.specs.ab_steps.specs.declared.fault.ProofCommandFault.{ProofCommandFault as AFault};
ghost use Rattle.ab_proofcmd.specs.GivenTerms.{HoldsGiven, values_in, beside, IsNext, AreRead, AreGiven, AreNotGiven};

use crate::expressions::{fault_for, read_beside};
use ab_hypothesis::steps::ProofCommandFault;
use ab_logic::{Sequent, World};
use ab_norm::name::Name;
use ab_norm::store::TermId;
use ab_norm::types::Steps;
use ab_syntax::Instance;
use ab_uses::{GivenTerm, type_named};
use std::alloc::{AllocError, Global};

/// Whether the name is that of one of the instances.
fn is_among(name: &Name, instances: &[Instance]) -> bool
    ensures { result ≡ list_any (λ (j : AnInstance). bytes_eq j.name name.now) (map instance_of instances.now) }
{
    for instance in instances {
        if instance.name == *name {
            return true;
        }
    }
    false
}

/// Whether a term is given twice for one name.
pub(crate) fn is_given_twice(instances: &[Instance]) -> bool
    ensures { result ≡ given_twice (map instance_of instances.now) }
{
    for place in 0..instances.len() {
        if is_among(&instances[place].name, &instances[place + 1..]) {
            return true;
        }
    }
    false
}

/// Looks each name up: refused at the first that no `forall` has which is taken off.
fn look_up(
    alloc: Global,
    world: &World,
    formula: TermId,
    count: usize,
    instances: &[Instance],
) -> Result<(), ProofCommandFault>
    requires world { IsWorld world.now }
    requires formula { Holds world.now formula }
    ensures named { IfOk result (λ u. strange (pieces count (read world.now formula)) (map instance_of instances.now) ≡ None) }
    ensures refused { (fault : AFault) → result ≡ Err fault →
        RefusedBy (unless (strange (pieces count (read world.now formula)) (map instance_of instances.now)) (leads [])) fault }
{
    for instance in instances {
        if type_named(world, formula, count, &instance.name).is_none() {
            return Err(ProofCommandFault::Unknown(instance.name.copy(alloc)?));
        }
    }
    Ok(())
}

/// The term of an instance, read in the goal beside the terms before it.
fn read_next<L>(
    alloc: Global,
    world: &mut World,
    goal: &Sequent,
    formula: TermId,
    count: usize,
    instance: &Instance,
    given: &[GivenTerm],
    steps: &mut Steps<L>,
) -> Result<GivenTerm, ProofCommandFault>
    requires world { IsWorld world.old }
    requires held { HoldsSequent world.old goal.now }
    requires formula { Holds world.old formula }
    requires given { All (HoldsGiven world.old) given.now }
    requires one_type { HasOneTypeEach (goal_names (beside (sequent_of world.old goal.now) (values_in world.old given.now))) }
    ensures next { IfOk result (λ g. IsNext (declarations_of world.old) (sequent_of world.old goal.now) (values_in world.old given.now)
        (pieces count (read world.old formula)) (instance_of instance.now) (given_of world.new g)) }
    ensures held { IfOk result (HoldsGiven world.new) }
    ensures refused { (fault : AFault) → result ≡ Err fault → RefusedBy (reading_each (declarations_of world.old) (sequent_of world.old goal.now)
        (names_of (values_in world.old given.now)) (pieces count (read world.old formula)) (instance_of instance.now ∷ []) (λ gs. leads [])) fault }
    ensures grows { Grows world.old world.new }
    ensures declared { declarations_of world.new ≡ declarations_of world.old }
    ensures steps { steps.old ≤ steps.new }
{
    let name = instance.name.copy(alloc)?;
    let Some(ty) = type_named(world, formula, count, &instance.name) else {
        return Err(ProofCommandFault::Unknown(name));
    };
    match read_beside(alloc, world, goal, given, &instance.term, ty, steps) {
        Ok(value) => Ok(GivenTerm { name, ty, value }),
        Err(fault) => Err(fault_for(fault)),
    }
}

/// Puts a term behind the others.
pub(crate) fn put(given: &mut Vec<GivenTerm>, next: GivenTerm) -> Result<(), AllocError>
    ensures { OnOk result (given.new.items ≡ given.old.items ++ next ∷ []) }
{
    given.push(next)?;
    Ok(())
}

/// The terms of the instances, read in order.
fn read_each<L>(
    alloc: Global,
    world: &mut World,
    goal: &Sequent,
    formula: TermId,
    count: usize,
    instances: &[Instance],
    steps: &mut Steps<L>,
) -> Result<Vec<GivenTerm>, ProofCommandFault>
    requires world { IsWorld world.old }
    requires held { HoldsSequent world.old goal.now }
    requires formula { Holds world.old formula }
    requires one_type { HasOneTypeEach (goal_names (sequent_of world.old goal.now)) }
    ensures read { IfOk result (λ gs. AreRead (declarations_of world.old) (sequent_of world.old goal.now) [] (pieces count (read world.old formula))
        (map instance_of instances.now) (map (given_of world.new) gs.items)) }
    ensures held { IfOk result (λ gs. All (HoldsGiven world.new) gs.items) }
    ensures fits { IfOk result (λ gs. All (λ (g : Given). Fits (declarations_of world.old) (sequent_of world.old goal.now) g.value g.type) (map (given_of world.new) gs.items)) }
    ensures refused { (fault : AFault) → result ≡ Err fault → RefusedBy (reading_each (declarations_of world.old) (sequent_of world.old goal.now)
        [] (pieces count (read world.old formula)) (map instance_of instances.now) (λ gs. leads [])) fault }
    ensures grows { Grows world.old world.new }
    ensures declared { declarations_of world.new ≡ declarations_of world.old }
    ensures steps { steps.old ≤ steps.new }
{
    let mut given = Vec::new(alloc);
    for instance in instances {
        let next = read_next(alloc, world, goal, formula, count, instance, &given, steps)?;
        put(&mut given, next)?;
    }
    Ok(given)
}

/// The terms that are given for names of `forall` of the formula, as it is taken off up to the antecedent of the number. The
/// names are looked up first, all of them; then the terms are read in order, each at the type of its name and beside those
/// before it. Refused with `Unknown`, `TypeClash` or `Untyped` there; and then with `WrongShape` where one name is given
/// twice, or there are too many arguments.
pub fn read_given<L>(
    alloc: Global,
    world: &mut World,
    goal: &Sequent,
    formula: TermId,
    count: usize,
    instances: &[Instance],
    too_many: bool,
    steps: &mut Steps<L>,
) -> Result<Vec<GivenTerm>, ProofCommandFault>
    requires world { IsWorld world.old }
    requires held { HoldsSequent world.old goal.now }
    requires sequent { IsSequent (declarations_of world.old) (sequent_of world.old goal.now) }
    requires formula { Holds world.old formula }
    ensures given { IfOk result (λ gs. AreGiven (declarations_of world.old) (sequent_of world.old goal.now) (pieces count (read world.old formula))
        (map instance_of instances.now) too_many (map (given_of world.new) gs.items)) }
    ensures held { IfOk result (λ gs. All (HoldsGiven world.new) gs.items) }
    ensures fits { IfOk result (λ gs. All (λ (g : Given). Fits (declarations_of world.old) (sequent_of world.old goal.now) g.value g.type) (map (given_of world.new) gs.items)) }
    ensures names { IfOk result (λ gs. All (λ (g : Given). spec.type_named g.name (pieces count (read world.old formula)) ≡ Some g.type) (map (given_of world.new) gs.items)) }
    ensures refused { (fault : AFault) → result ≡ Err fault → AreNotGiven (declarations_of world.old) (sequent_of world.old goal.now)
        (pieces count (read world.old formula)) (map instance_of instances.now) too_many fault }
    ensures grows { Grows world.old world.new }
    ensures declared { declarations_of world.new ≡ declarations_of world.old }
    ensures steps { steps.old ≤ steps.new }
{
    look_up(alloc, world, formula, count, instances)?;
    let given = read_each(alloc, world, goal, formula, count, instances, steps)?;
    if is_given_twice(instances) || too_many {
        return Err(ProofCommandFault::WrongShape);
    }
    Ok(given)
}
