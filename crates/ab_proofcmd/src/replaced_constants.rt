//! Terms that are given for the nominal constants of a judgement.
ghost use Rattle.std.specs.Prelude.{◌≤◌, ◌≡◌, [], ◌∷◌, map, IfOk, IfSome, Err, None, All};
ghost use Rattle.std.specs.Option.{option_map};
ghost use Rattle.ab_norm.specs.ab_types.specs.Entries.{Table as ATable};
ghost use Rattle.ab_norm.specs.Nominals.{nominal_of, HoldsNominal};
ghost use Rattle.ab_syntax.specs.Commands.{instance_of};
ghost use Rattle.ab_formulas.specs.Formulas.{HasOneTypeEach};
ghost use Rattle.ab_formulas.specs.NewNames.{Label as AName};
ghost use Rattle.ab_formulas.specs.Sequents.{IsSequent, goal_names, names_of};
ghost use Rattle.ab_grammar.specs.CommandTrees as told;
ghost use Rattle.ab_logic.specs.SequentReadings.{sequent_of, HoldsSequent};
ghost use Rattle.ab_logic.specs.WorldGrowth.{Grows};
ghost use Rattle.ab_logic.specs.Worlds.{IsWorld, declarations_of};
ghost use Rattle.ab_logic.specs.declared.world.World.{World as AWorld};
ghost use Rattle.ab_theory.specs.Contexts.{AllFit};
ghost use Rattle.ab_effects.specs.ProofCommands as spec;
ghost use Rattle.ab_effects.specs.ProofCommands.{clashing, effect, no_constant, reading_for};
ghost use Rattle.ab_effects.specs.Row.{leads, unless};
ghost use Rattle.ab_uses.specs.GivenReadings.{given_of};
ghost use Rattle.ab_hypothesis.specs.ab_steps.specs.ab_kernel.specs.ab_rules.specs.RuleAnswers.{replacements, HoldsReplace};
ghost use Rattle.ab_hypothesis.specs.ab_steps.specs.ProofEffects.{RefusedBy};
ghost use Rattle.ab_hypothesis.specs.ab_steps.specs.declared.fault.ProofCommandFault.{ProofCommandFault as AFault};
ghost use Rattle.ab_proofcmd.specs.GivenTerms.{HoldsGiven, values_in, beside};
ghost use Rattle.ab_proofcmd.specs.ReplacedConstants.{replace_of, IsNextFor, AreReadFor, KnowsConstants, MayReplace};

use crate::expressions::{fault_for, read_beside};
use crate::given_terms::{is_given_twice, put};
use ab_hypothesis::steps::ProofCommandFault;
use ab_hypothesis::steps::kernel::judgements::{as_unfocused, judgement_of};
use ab_hypothesis::steps::kernel::{Replace, Replaces};
use ab_infer::nominal_number;
use ab_logic::{Sequent, World};
use ab_norm::name::Name;
use ab_norm::types::Steps;
use ab_norm::{Nominal, support};
use ab_syntax::Instance;
use ab_uses::GivenTerm;
use std::alloc::{AllocError, Global};

/// The constant of that number, if it is among these.
fn constant_numbered(names: &[Nominal], number: u128) -> Option<Nominal>
    ensures reads { (types : ATable) → option_map (nominal_of types) result ≡ spec.constant_numbered (map (nominal_of types) names.now) number }
    ensures held { (types : ATable) → All (HoldsNominal types) names.now → IfSome result (HoldsNominal types) }
{
    for constant in names {
        if constant.number == number {
            return Some(*constant);
        }
    }
    None
}

/// The constant of that name, if it is among these.
fn constant_in(names: &[Nominal], name: &Name) -> Option<Nominal>
    ensures reads { (types : ATable) → option_map (nominal_of types) result ≡ spec.constant_in (map (nominal_of types) names.now) name.now }
    ensures held { (types : ATable) → All (HoldsNominal types) names.now → IfSome result (HoldsNominal types) }
{
    match nominal_number(name) {
        Some(number) => constant_numbered(names, number),
        None => None,
    }
}

/// Looks each name up: refused at the first that is none of these constants'.
fn look_up(
    alloc: Global,
    world: &World,
    names: &[Nominal],
    instances: &[Instance],
) -> Result<(), ProofCommandFault>
    ensures known { IfOk result (λ u. no_constant (map (nominal_of world.now.types) names.now) (map instance_of instances.now) ≡ None) }
    ensures refused { (fault : AFault) → result ≡ Err fault →
        RefusedBy (unless (no_constant (map (nominal_of world.now.types) names.now) (map instance_of instances.now)) (leads [])) fault }
{
    let _ = world;
    for instance in instances {
        if constant_in(names, &instance.name).is_none() {
            return Err(ProofCommandFault::Unknown(instance.name.copy(alloc)?));
        }
    }
    Ok(())
}

/// The term of an instance, read in the goal beside the terms before it at the type of the constant.
fn read_next<L>(
    alloc: Global,
    world: &mut World,
    goal: &Sequent,
    names: &[Nominal],
    instance: &Instance,
    given: &[GivenTerm],
    steps: &mut Steps<L>,
) -> Result<GivenTerm, ProofCommandFault>
    requires world { IsWorld world.old }
    requires held { HoldsSequent world.old goal.now }
    requires names { All (HoldsNominal world.old.types) names.now }
    requires given { All (HoldsGiven world.old) given.now }
    requires one_type { HasOneTypeEach (goal_names (beside (sequent_of world.old goal.now) (values_in world.old given.now))) }
    ensures next { IfOk result (λ g. IsNextFor (declarations_of world.old) (sequent_of world.old goal.now) (values_in world.old given.now)
        (map (nominal_of world.old.types) names.now) (instance_of instance.now) (given_of world.new g)) }
    ensures held { IfOk result (HoldsGiven world.new) }
    ensures refused { (fault : AFault) → result ≡ Err fault → RefusedBy (reading_for (declarations_of world.old) (sequent_of world.old goal.now)
        (names_of (values_in world.old given.now)) (map (nominal_of world.old.types) names.now) (instance_of instance.now ∷ []) (λ rs. leads [])) fault }
    ensures grows { Grows world.old world.new }
    ensures declared { declarations_of world.new ≡ declarations_of world.old }
    ensures steps { steps.old ≤ steps.new }
{
    let name = instance.name.copy(alloc)?;
    let Some(constant) = constant_in(names, &instance.name) else {
        return Err(ProofCommandFault::Unknown(name));
    };
    let ty = constant.ty;
    match read_beside(alloc, world, goal, given, &instance.term, ty, steps) {
        Ok(value) => Ok(GivenTerm { name, ty, value }),
        Err(fault) => Err(fault_for(fault)),
    }
}

/// The terms of the instances, read in order.
fn read_each<L>(
    alloc: Global,
    world: &mut World,
    goal: &Sequent,
    names: &[Nominal],
    instances: &[Instance],
    steps: &mut Steps<L>,
) -> Result<Vec<GivenTerm>, ProofCommandFault>
    requires world { IsWorld world.old }
    requires held { HoldsSequent world.old goal.now }
    requires names { All (HoldsNominal world.old.types) names.now }
    requires one_type { HasOneTypeEach (goal_names (sequent_of world.old goal.now)) }
    ensures read { IfOk result (λ gs. AreReadFor (declarations_of world.old) (sequent_of world.old goal.now) [] (map (nominal_of world.old.types) names.now)
        (map instance_of instances.now) (map (given_of world.new) gs.items)) }
    ensures held { IfOk result (λ gs. All (HoldsGiven world.new) gs.items) }
    ensures fit { IfOk result (λ gs. AllFit (declarations_of world.old) (sequent_of world.old goal.now) [] (map replace_of (map (given_of world.new) gs.items))) }
    ensures refused { (fault : AFault) → result ≡ Err fault → RefusedBy (reading_for (declarations_of world.old) (sequent_of world.old goal.now)
        [] (map (nominal_of world.old.types) names.now) (map instance_of instances.now) (λ rs. leads [])) fault }
    ensures grows { Grows world.old world.new }
    ensures declared { declarations_of world.new ≡ declarations_of world.old }
    ensures steps { steps.old ≤ steps.new }
{
    let mut given = Vec::new(alloc);
    for instance in instances {
        let next = read_next(alloc, world, goal, names, instance, &given, steps)?;
        put(&mut given, next)?;
    }
    Ok(given)
}

/// The constants, and the terms that are put for them.
fn replaces_of(alloc: Global, given: &[GivenTerm]) -> Result<Replaces, AllocError>
    ensures reads { IfOk result (λ rs. (w : AWorld) → replacements w rs ≡ map replace_of (map (given_of w) given.now)) }
    ensures held { IfOk result (λ rs. (w : AWorld) → All (HoldsGiven w) given.now → All (HoldsReplace w) rs) }
{
    let mut replaces = Vec::new(alloc);
    for term in given {
        let number = nominal_number(&term.name).unwrap_or(0);
        let from = Nominal {
            number,
            ty: term.ty,
        };
        replaces.push(Replace {
            from,
            to: term.value,
        })?;
    }
    Ok(Replaces::from_vec(replaces))
}

/// The nominal constants of the hypothesis of that name, a judgement with nothing in focus, among which each name is that a term is
/// given for, and none twice.
fn constants_of(
    alloc: Global,
    world: &mut World,
    goal: &Sequent,
    name: &Name,
    instances: &[Instance],
) -> Result<Vec<Nominal>, ProofCommandFault>
    requires world { IsWorld world.old }
    requires held { HoldsSequent world.old goal.now }
    requires sequent { IsSequent (declarations_of world.old) (sequent_of world.old goal.now) }
    ensures knows { IfOk result (λ names. KnowsConstants (declarations_of world.old) name.now (map instance_of instances.now) (sequent_of world.old goal.now)
        (map (nominal_of world.new.types) names.items)) }
    ensures held { IfOk result (λ names. All (HoldsNominal world.new.types) names.items) }
    ensures refused { (fault : AFault) → result ≡ Err fault → (l : AName) → clashing l (sequent_of world.old goal.now) ≡ None →
        RefusedBy (effect (declarations_of world.old) l (told.inst name.now (map instance_of instances.now)) (sequent_of world.old goal.now)) fault }
    ensures grows { Grows world.old world.new }
    ensures declared { declarations_of world.new ≡ declarations_of world.old }
{
    let Some(formula) = goal.look(name) else {
        return Err(ProofCommandFault::NoHypothesis(name.copy(alloc)?));
    };
    let Some((list, judged)) = as_unfocused(world, formula) else {
        return Err(ProofCommandFault::WrongShape);
    };
    if is_given_twice(instances) {
        return Err(ProofCommandFault::WrongShape);
    }
    let judgement = judgement_of(alloc, world, list, judged)?;
    let names = support(alloc, &world.types, &world.store, judgement)?;
    look_up(alloc, world, &names, instances)?;
    Ok(names)
}

/// The terms that are given for constants of the hypothesis of that name, a judgement with nothing in focus. The names are looked up
/// first, all of them; then the terms are read in order, each at the type of its constant and beside those before it. Refused
/// with `NoHypothesis`, with `WrongShape` where it is no such judgement or one name is given twice, with `Unknown`, and with
/// what reading a term is refused with.
pub(crate) fn read_replaces<L>(
    alloc: Global,
    world: &mut World,
    goal: &Sequent,
    name: &Name,
    instances: &[Instance],
    steps: &mut Steps<L>,
) -> Result<Replaces, ProofCommandFault>
    requires world { IsWorld world.old }
    requires held { HoldsSequent world.old goal.now }
    requires sequent { IsSequent (declarations_of world.old) (sequent_of world.old goal.now) }
    ensures may { IfOk result (λ rs. MayReplace (declarations_of world.old) name.now (map instance_of instances.now) (sequent_of world.old goal.now) (replacements world.new rs)) }
    ensures held { IfOk result (All (HoldsReplace world.new)) }
    ensures refused { (fault : AFault) → result ≡ Err fault → (l : AName) → clashing l (sequent_of world.old goal.now) ≡ None →
        RefusedBy (effect (declarations_of world.old) l (told.inst name.now (map instance_of instances.now)) (sequent_of world.old goal.now)) fault }
    ensures grows { Grows world.old world.new }
    ensures declared { declarations_of world.new ≡ declarations_of world.old }
    ensures steps { steps.old ≤ steps.new }
{
    let names = constants_of(alloc, world, goal, name, instances)?;
    let given = read_each(alloc, world, goal, &names, instances, steps)?;
    Ok(replaces_of(alloc, &given)?)
}
