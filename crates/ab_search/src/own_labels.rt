//! Labels for hypotheses that the steps of a search make at a goal. Each goal that has one is closed in the end. Automatic names may be
//! spent, so these are of another kind.
ghost use Rattle.std.specs.Prelude.{◌≡◌, ◌+◌, ◌<◌, ◌≤◌, ◌^◌, ◌++◌, codes, length, None, IfOk, IsTrue, IsFalse};
ghost use Rattle.std.specs.Fmt.{decimal};
ghost use Rattle.ab_formulas.specs.Sequents.{formula_of, IsUsed};
ghost use Rattle.ab_logic.specs.SequentReadings.{sequent_of};

use ab_logic::{Sequent, World};
use ab_norm::name::Name;
use ab_steps::kernel::judgements::alternatives::equations::Label;
use std::alloc::{AllocError, Global};

/// The name `_` with the number.
fn numbered_name(alloc: Global, number: u128) -> Result<Name, AllocError>
    ensures { IfOk result (λ name. name ≡ codes "_" ++ decimal number) }
{
    let text = format!(in alloc; "_{number}")?;
    Name::from_text(alloc, text.as_str())
}

/// How many hypotheses the goal has.
fn hypothesis_count(goal: &Sequent) -> u128
    ensures count { result ≡ length goal.now.hypotheses }
    ensures small { result < 2 ^ 64 }
{
    goal.hypotheses.as_slice().len() as u128
}

/// Whether no hypothesis of the goal has the name.
fn is_free(world: &World, goal: &Sequent, name: &Name) -> bool
    ensures free { IsTrue result → formula_of (sequent_of world.now goal.now) name.now ≡ None }
    ensures taken { IsFalse result → IsUsed (sequent_of world.now goal.now) name.now }
{
    let _ = world;
    match goal.look(name) {
        Some(_) => false,
        None => true,
    }
}

/// The first number from this one on with which `_` is the name of no hypothesis of the goal.
fn free_number(alloc: Global, world: &World, goal: &Sequent, from: u128) -> Result<u128, AllocError>
    requires small { from < 2 ^ 66 }
    ensures from { IfOk result (λ n. from ≤ n) }
    ensures near { IfOk result (λ n. n ≤ from + length goal.now.hypotheses) }
    ensures free { IfOk result (λ n. formula_of (sequent_of world.now goal.now) (codes "_" ++ decimal n) ≡ None) }
{
    let count = hypothesis_count(goal);
    for number in from..from + count + 1 {
        let name = numbered_name(alloc, number)?;
        if is_free(world, goal, &name) {
            return Ok(number);
        }
    }
    unreachable!()
}

/// A label for a new hypothesis of the goal.
pub(crate) fn own_label(alloc: Global, world: &World, goal: &Sequent) -> Result<Label, AllocError> {
    let number = free_number(alloc, world, goal, hypothesis_count(goal))?;
    Ok(Label::Given(numbered_name(alloc, number)?))
}

/// Two labels for new hypotheses of the goal.
pub(crate) fn own_labels(
    alloc: Global,
    world: &World,
    goal: &Sequent,
) -> Result<(Label, Label), AllocError> {
    let first = free_number(alloc, world, goal, hypothesis_count(goal))?;
    let second = free_number(alloc, world, goal, first + 1)?;
    let left = Label::Given(numbered_name(alloc, first)?);
    Ok((left, Label::Given(numbered_name(alloc, second)?)))
}
