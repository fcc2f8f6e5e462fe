//! The rules that close a goal.
ghost use Rattle.std.specs.Prelude.{◌≡◌, ◌↔◌, IfOk, IsTrue};
ghost use Rattle.ab_logic.specs.SequentReadings.{HoldsSequent};
ghost use Rattle.ab_logic.specs.Worlds.{IsWorld, Holds, read, declarations_of};
ghost use Rattle.ab_logic.specs.WorldGrowth.{Grows};
ghost use Rattle.ab_formulas.specs.Marks.{erased};
ghost use Rattle.ab_term.specs.Names.{EqualUpToNames};
ghost use Rattle.ab_theory.specs.Steps as plain;
ghost use Rattle.ab_rules.specs.RuleAnswers.{Answers, row_at};

use crate::questions::{are_equal, are_equal_up_to_names};
use crate::step::KernelFault;
use ab_logic::{Sequent, World, as_equal, is_false, is_true};
use ab_norm::name::Name;
use ab_norm::store::TermId;
use ab_sequents::{marks_serve_in, without_marks};
use std::alloc::{AllocError, Global};

/// Whether a permutation of nominal constants sends the first formula to the second, both without their marks.
fn are_equal_without_marks(
    alloc: Global,
    world: &mut World,
    a: TermId,
    b: TermId,
) -> Result<bool, AllocError>
    requires world { IsWorld world.old }
    requires a { Holds world.old a }
    requires b { Holds world.old b }
    ensures decides { IfOk result (λ yes. IsTrue yes ↔ EqualUpToNames (erased (read world.old a)) (erased (read world.old b))) }
    ensures grows { Grows world.old world.new }
    ensures declared { declarations_of world.new ≡ declarations_of world.old }
{
    let first = without_marks(alloc, world, a)?;
    let second = without_marks(alloc, world, b)?;
    are_equal_up_to_names(alloc, world, first, second)
}

/// A hypothesis that a permutation of nominal constants sends to the conclusion, and whose marks serve it.
pub fn initial(
    alloc: Global,
    world: &mut World,
    name: &Name,
    sequent: &Sequent,
) -> Result<Vec<Sequent>, KernelFault>
    requires world { IsWorld world.old }
    requires held { HoldsSequent world.old sequent.now }
    ensures answers { Answers world.new (row_at world.old (plain.initial name.now) sequent.now) result }
    ensures grows { Grows world.old world.new }
    ensures declared { declarations_of world.new ≡ declarations_of world.old }
{
    let Some(formula) = sequent.look(name) else {
        return Err(KernelFault::RuleFails(1));
    };
    let alike = are_equal_without_marks(alloc, world, formula, sequent.conclusion)?;
    if !alike {
        return Err(KernelFault::RuleFails(2));
    }
    let serves = marks_serve_in(world, sequent.conclusion, formula);
    if !serves {
        return Err(KernelFault::RuleFails(3));
    }
    Ok(Vec::new(alloc))
}

/// The conclusion is `true`.
pub fn true_right(
    alloc: Global,
    world: &World,
    sequent: &Sequent,
) -> Result<Vec<Sequent>, KernelFault>
    requires held { HoldsSequent world.now sequent.now }
    ensures { Answers world.now (row_at world.now plain.true_right sequent.now) result }
{
    if !is_true(world, sequent.conclusion) {
        return Err(KernelFault::RuleFails(1));
    }
    Ok(Vec::new(alloc))
}

/// The conclusion equates equal terms.
pub fn equal_right(
    alloc: Global,
    world: &World,
    sequent: &Sequent,
) -> Result<Vec<Sequent>, KernelFault>
    requires world { IsWorld world.now }
    requires held { HoldsSequent world.now sequent.now }
    ensures { Answers world.now (row_at world.now plain.equal_right sequent.now) result }
{
    let Some((left, right)) = as_equal(world, sequent.conclusion) else {
        return Err(KernelFault::RuleFails(1));
    };
    if !are_equal(alloc, world, left, right)? {
        return Err(KernelFault::RuleFails(2));
    }
    Ok(Vec::new(alloc))
}

/// A hypothesis is `false`.
pub fn false_left(
    alloc: Global,
    world: &World,
    name: &Name,
    sequent: &Sequent,
) -> Result<Vec<Sequent>, KernelFault>
    requires held { HoldsSequent world.now sequent.now }
    ensures { Answers world.now (row_at world.now (plain.false_left name.now) sequent.now) result }
{
    let Some(formula) = sequent.look(name) else {
        return Err(KernelFault::RuleFails(1));
    };
    if !is_false(world, formula) {
        return Err(KernelFault::RuleFails(2));
    }
    Ok(Vec::new(alloc))
}
