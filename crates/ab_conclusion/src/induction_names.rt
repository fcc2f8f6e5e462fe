//! Names for hypotheses of induction.
ghost use Rattle.std.specs.Prelude.{◌≡◌, ◌+◌, ◌<◌, ◌^◌, ◌++◌, length, map, IfOk};
ghost use Rattle.std.specs.Fmt.{decimal};
ghost use Rattle.std.specs.Option.{option_map};
ghost use Rattle.ab_formulas.specs.NewNames.{auto};
ghost use Rattle.ab_logic.specs.SequentReadings.{sequent_of};
ghost use Rattle.ab_steps.specs.ab_kernel.specs.ab_judgements.specs.ab_alternatives.specs.ab_equations.specs.Labels.{label_of};
ghost use Rattle.ab_effects.specs.ProofCommands.{IsNamedBy, clashing};
ghost use Rattle.ab_meaning.specs.Refusals.{clash};
ghost use Rattle.ab_conclusion.specs.InductionSizes.{AreNamedBy, label_at};

use ab_logic::{Sequent, World};
use ab_steps::kernel::judgements::alternatives::equations::Label;
use ab_types::name::Name;
use std::alloc::{AllocError, Global};

/// The label's name, where a hypothesis of the goal has it already.
pub(crate) fn label_clash(
    alloc: Global,
    world: &World,
    goal: &Sequent,
    label: &Label,
) -> Result<Option<Name>, AllocError>
    ensures { IfOk result (λ found. option_map clash found ≡ clashing (label_of label.now) (sequent_of world.now goal.now)) }
{
    let _ = world;
    match label {
        Label::Auto => Ok(None),
        Label::Given(name) => {
            if goal.uses(name) {
                Ok(Some(name.copy(alloc)?))
            } else {
                Ok(None)
            }
        }
    }
}

/// The names of so many hypotheses of induction, as labels: the first the label, if there is one, and each other the word,
/// with the first number that makes it free where a hypothesis of the goal, or one before it, has the word alone.
pub(crate) fn hypothesis_labels(
    alloc: Global,
    world: &World,
    goal: &Sequent,
    count: usize,
    word: &str,
    label: &Label,
) -> Result<Vec<Label>, AllocError>
    ensures { IfOk result (λ labels. AreNamedBy word.now (label_of label.now) (sequent_of world.now goal.now) count (map label_of labels.items)) }
{
    let mut labels = Vec::new(alloc);
    let mut with_those = goal.copy(alloc)?;
    for index in 0..count {
        let name = hypothesis_name(alloc, world, &with_those, word, label, index)?;
        labels.push(Label::Given(name.copy(alloc)?))?;
        with_those = with_those.with_hypothesis(name, goal.conclusion)?;
    }
    Ok(labels)
}

/// The name of the hypothesis of this place: the label where it is the first, or else the word, with the first number that
/// makes it free where a hypothesis of the goal has the word alone.
fn hypothesis_name(
    alloc: Global,
    world: &World,
    goal: &Sequent,
    word: &str,
    label: &Label,
    index: usize,
) -> Result<Name, AllocError>
    ensures { IfOk result (IsNamedBy word.now (label_at index (label_of label.now)) (sequent_of world.now goal.now)) }
{
    match label {
        Label::Auto => first_free(alloc, world, goal, word),
        Label::Given(name) => {
            if index == 0 {
                name.copy(alloc)
            } else {
                first_free(alloc, world, goal, word)
            }
        }
    }
}

/// The word with the number behind it.
fn numbered_word(alloc: Global, word: &str, number: u128) -> Result<Name, AllocError>
    ensures { IfOk result (λ name. name ≡ word.now ++ decimal number) }
{
    let text = format!(in alloc; "{word}{number}")?;
    Name::from_text(alloc, text.as_str())
}

/// One more than the goal has hypotheses.
fn last_number(goal: &Sequent) -> u128
    ensures last { result ≡ length goal.now.hypotheses + 1 }
    ensures small { result < 2 ^ 99 }
{
    goal.hypotheses.as_slice().len() as u128 + 1
}

/// The word, where no hypothesis of the goal has that name, and else the word with the first number that makes it free.
fn first_free(alloc: Global, world: &World, goal: &Sequent, word: &str) -> Result<Name, AllocError>
    ensures { IfOk result (IsNamedBy word.now auto (sequent_of world.now goal.now)) }
{
    let _ = world;
    let alone = Name::from_text(alloc, word)?;
    if !goal.uses(&alone) {
        return Ok(alone);
    }
    let last = last_number(goal);
    for number in 1..last + 1 {
        let name = numbered_word(alloc, word, number)?;
        if !goal.uses(&name) {
            return Ok(name);
        }
    }
    unreachable!()
}
