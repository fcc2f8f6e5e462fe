//! Names for hypotheses that a command makes for itself and removes again.
ghost use Rattle.std.specs.Prelude.{◌≡◌, ◌≢◌, ◌⊎◌, ◌+◌, ◌<◌, ◌^◌, ◌↔◌, length, IfOk, IsTrue, IsFalse, None};
ghost use Rattle.ab_formulas.specs.NewNames.{given};
ghost use Rattle.ab_logic.specs.SequentReadings.{sequent_of};
ghost use Rattle.ab_formulas.specs.Sequents.{formula_of, IsUsed};
ghost use Rattle.ab_logic.specs.declared.world.World.{World as AWorld};
ghost use Rattle.ab_equations.specs.Labels.{label_of};
ghost use Rattle.ab_hypothesis.specs.OwnNames.{IsOwn, IsFirstOwn, own_numbered};

use ab_equations::Label;
use ab_logic::{Sequent, World};
use ab_norm::name::Name;
use std::alloc::{AllocError, Global};

/// The name `_` with the number.
fn numbered_name(alloc: Global, number: u128) -> Result<Name, AllocError>
    ensures { IfOk result (λ name. name ≡ own_numbered number) }
{
    let text = format!(in alloc; "_{number}")?;
    Name::from_text(alloc, text.as_str())
}

/// Whether the label is this name.
fn is_label(label: &Label, name: &Name) -> bool
    ensures { IsTrue result ↔ (label_of label.now ≡ given name.now) }
{
    match label {
        Label::Auto => false,
        Label::Given(word) => *word == *name,
    }
}

/// Whether no hypothesis of the goal has the name, and the label isn't this name.
fn is_new(world: &World, sequent: &Sequent, label: &Label, name: &Name) -> bool
    ensures new { IsTrue result → (w : AWorld) → formula_of (sequent_of w sequent.now) name.now ≡ None }
    ensures label { IsTrue result → label_of label.now ≢ given name.now }
    ensures taken { IsFalse result → IsUsed (sequent_of world.now sequent.now) name.now ⊎ (label_of label.now ≡ given name.now) }
{
    let _ = world;
    match sequent.look(name) {
        Some(_) => false,
        None => !is_label(label, name),
    }
}

/// A number above those of as many names as the goal has hypotheses, and one more.
fn last_number(sequent: &Sequent) -> u128
    ensures last { result ≡ length sequent.now.hypotheses + 2 }
    ensures small { result < 2 ^ 99 }
{
    sequent.hypotheses.as_slice().len() as u128 + 2
}

/// The first of the names `_1`, `_2`, .. that no hypothesis of the goal has, and that isn't the label.
pub fn own_name(
    alloc: Global,
    world: &World,
    sequent: &Sequent,
    label: &Label,
) -> Result<Name, AllocError>
    ensures new { IfOk result (λ name. (w : AWorld) → formula_of (sequent_of w sequent.now) name ≡ None) }
    ensures own { IfOk result (IsOwn (label_of label.now)) }
    ensures first { IfOk result (IsFirstOwn (label_of label.now) (sequent_of world.now sequent.now)) }
{
    let last = last_number(sequent);
    for number in 1..last + 1 {
        let name = numbered_name(alloc, number)?;
        if is_new(world, sequent, label, &name) {
            return Ok(name);
        }
    }
    unreachable!()
}
