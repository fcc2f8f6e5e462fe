//! What a theorem assumes, by what its proof owes.
ghost use Rattle.std.specs.Prelude.{◌≡◌, ◌++◌, ◌∷◌, [], ℕ, List, length, map, IfOk};
ghost use Rattle.ab_term.specs.Terms.{Read};
ghost use Rattle.ab_formulas.specs.Declarations.{ArePlacesUpTo, a_theorem, names_at, theorems_in};
ghost use Rattle.ab_logic.specs.Worlds.{declarations_of, IsWorld};
ghost use Rattle.ab_theory.specs.Assumptions.{all_places, assumed_by};
ghost use Rattle.ab_proofcmd.specs.ab_hypothesis.specs.ab_steps.specs.ab_kernel.specs.Debts.{debt_of};
ghost use Rattle.ab_proofcmd.specs.ab_hypothesis.specs.ab_steps.specs.ab_kernel.specs.Layout.{history_of};
ghost use Rattle.ab_session.specs.PlaceMarks.{Marks};

use crate::place_marks::{mark_places, marked_places};
use ab_logic::World;
use ab_proofcmd::hypothesis::steps::kernel::{Debt, Proof};
use ab_store::name::Name;
use std::alloc::{AllocError, Global};

/// Marks the places that the debts bring.
fn mark_debts(world: &World, debts: &[Debt], marks: &mut [bool])
    requires { IsWorld world.now }
    ensures length { length marks.new ≡ length marks.old }
    ensures marked { (js : List ℕ) → Marks marks.old js → Marks marks.new (js ++ all_places (declarations_of world.now) (map debt_of debts.now)) }
{
    for debt in debts {
        match debt {
            Debt::Theorem(name) => mark_places(marks, world.assumptions(name)),
            Debt::Goal => mark_places(marks, &[world.theorems()]),
        }
    }
}

/// The places of the theorems that the next one assumes, where this is its proof.
pub(crate) fn assumed_places(
    alloc: Global,
    world: &World,
    proof: &Proof,
) -> Result<Vec<usize>, AllocError>
    requires { IsWorld world.now }
    ensures { IfOk result (λ places. places.items ≡ assumed_by (declarations_of world.now) (history_of world.now proof.now).tree) }
{
    let mut marks = vec![in alloc; false; world.theorems()]?;
    marks.push(false)?;
    mark_debts(world, proof.debts(), &mut marks);
    marked_places(alloc, &marks)
}

/// The names of the theorems of these places, where the next one gets this name.
pub(crate) fn names_of(
    alloc: Global,
    world: &World,
    next: &Name,
    places: &[usize],
) -> Result<Vec<Name>, AllocError>
    requires { ArePlacesUpTo (length (theorems_in (declarations_of world.now))) places.now }
    ensures { (F : Read) (js : List ℕ) → IfOk result (λ names. names.items ≡ names_at (declarations_of world.now ++ a_theorem next.now F js ∷ []) places.now) }
{
    let mut names = Vec::new(alloc);
    for place in places {
        let name = match world.theorem_at(*place) {
            None => next,
            Some(entry) => &entry.name,
        };
        names.push(name.copy(alloc)?)?;
    }
    Ok(names)
}
