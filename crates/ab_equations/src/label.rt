//! Names for new hypotheses.
ghost use Rattle.std.specs.Prelude.{◌≡◌, ℕ, ◌<◌, ◌≤◌, IfOk, IfSome, MatchOption};
ghost use Rattle.ab_logic.specs.SequentReadings.{sequent_of, HoldsSequent};
ghost use Rattle.ab_logic.specs.declared.world.World.{World as AWorld};
ghost use Rattle.ab_formulas.specs.NewNames.{IsLeast, IsFree, automatic, Names, NoName};
ghost use Rattle.ab_equations.specs.Labels.{label_of};

use ab_logic::Sequent;
use ab_norm::name::Name;
use std::alloc::{AllocError, Global};

/// The greatest number of an automatic name.
const LAST: u32 = 999_999_999;

/// How a new hypothesis is named.
#[derive(Drop)]
pub enum Label {
    /// By the next free automatic name.
    Auto,
    /// So.
    Given(Name),
}

/// A name for a new hypothesis, and the goal with it counted.
#[derive(Drop)]
pub struct Named {
    pub name: Name,
    pub sequent: Sequent,
}

/// The automatic name with the number.
fn automatic(alloc: Global, number: u32) -> Result<Name, AllocError>
    ensures { IfOk result (λ name. name ≡ automatic number) }
{
    let text = format!(in alloc; "H{number}")?;
    Name::from_text(alloc, text.as_str())
}

/// The least number above the counter whose automatic name is free.
fn next_free(alloc: Global, sequent: &Sequent) -> Result<Option<u32>, AllocError>
    ensures { IfOk result (λ found. (w : AWorld) →
        MatchOption found ((n : ℕ) → IsFree (sequent_of w sequent.now) n → ⊥) (IsLeast (IsFree (sequent_of w sequent.now)))) }
{
    for before in sequent.counter..LAST {
        let name = automatic(alloc, before + 1)?;
        if !sequent.uses(&name) {
            return Ok(Some(before + 1));
        }
    }
    Ok(None)
}

/// The name for a new hypothesis of the goal, where it gets one.
pub fn name_by(alloc: Global, label: &Label, sequent: Sequent) -> Result<Option<Named>, AllocError>
    ensures named { IfOk result (λ found. (w : AWorld) →
        MatchOption found (NoName (label_of label.now) (sequent_of w sequent))
        (λ n. Names (label_of label.now) (sequent_of w sequent) n.name (sequent_of w n.sequent))) }
    ensures held { IfOk result (λ found. (w : AWorld) → HoldsSequent w sequent → IfSome found (λ n. HoldsSequent w n.sequent)) }
{
    match label {
        Label::Auto => match next_free(alloc, &sequent)? {
            None => Ok(None),
            Some(number) => Ok(Some(Named {
                name: automatic(alloc, number)?,
                sequent: sequent.with_counter(number),
            })),
        },
        Label::Given(name) => {
            if sequent.uses(name) {
                return Ok(None);
            }
            Ok(Some(Named {
                name: name.copy(alloc)?,
                sequent,
            }))
        }
    }
}
