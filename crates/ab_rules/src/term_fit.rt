//! Whether a term may be put into a goal.
ghost use Rattle.std.specs.Prelude.{◌≡◌, ◌↔◌, ◌∷◌, map, IfOk, IsTrue};
ghost use Rattle.ab_term.specs.Types.{prop};
ghost use Rattle.ab_norm.specs.ab_types.specs.Ids.{HoldsType, type_of};
ghost use Rattle.ab_formulas.specs.Declarations.{signature_in};
ghost use Rattle.ab_formulas.specs.Formulas.{IsFormula};
ghost use Rattle.ab_logic.specs.Worlds.{IsWorld, Holds, read, declarations_of};
ghost use Rattle.ab_logic.specs.SequentReadings.{HoldsSequent, sequent_of};
ghost use Rattle.ab_formulas.specs.Sequents.{Fits};

use ab_logic::{Sequent, World};
use ab_norm::store::TermId;
use ab_norm::types::TypeId;
use ab_typing::{fits, fits_as_formula};
use std::alloc::{AllocError, Global};

/// The formulas of a goal: the conclusion, and those of the hypotheses.
pub fn formulas_of(alloc: Global, sequent: &Sequent) -> Result<Vec<TermId>, AllocError>
    ensures { IfOk result (λ list. list.items ≡ sequent.now.conclusion ∷ map (λ h. h.formula) sequent.now.hypotheses) }
{
    let mut formulas = Vec::new(alloc);
    formulas.push(sequent.conclusion)?;
    for h in sequent.hypotheses.as_slice() {
        formulas.push(h.formula)?;
    }
    Ok(formulas)
}

/// Whether the term fits the goal at the type.
pub fn fits_in(
    alloc: Global,
    world: &World,
    sequent: &Sequent,
    term: TermId,
    ty: TypeId,
) -> Result<bool, AllocError>
    requires world { IsWorld world.now }
    requires held { HoldsSequent world.now sequent.now }
    requires term { Holds world.now term }
    requires ty { HoldsType world.now.types ty }
    ensures { IfOk result (λ yes. IsTrue yes ↔
        Fits (declarations_of world.now) (sequent_of world.now sequent.now) (read world.now term) (type_of world.now.types ty)) }
{
    let before = formulas_of(alloc, sequent)?;
    fits(
        alloc,
        &world.types,
        &world.store,
        sequent.variables.as_slice(),
        &before,
        term,
        ty,
    )
}

/// Whether the term is a formula that fits the goal.
pub(crate) fn formula_fits_in(
    alloc: Global,
    world: &World,
    sequent: &Sequent,
    formula: TermId,
) -> Result<bool, AllocError>
    requires world { IsWorld world.now }
    requires held { HoldsSequent world.now sequent.now }
    requires formula { Holds world.now formula }
    ensures { IfOk result (λ yes. IsTrue yes ↔
        (Fits (declarations_of world.now) (sequent_of world.now sequent.now) (read world.now formula) prop
        × IsFormula (signature_in (declarations_of world.now)) (read world.now formula))) }
{
    let before = formulas_of(alloc, sequent)?;
    fits_as_formula(
        alloc,
        &world.types,
        &world.store,
        sequent.variables.as_slice(),
        &before,
        formula,
    )
}
