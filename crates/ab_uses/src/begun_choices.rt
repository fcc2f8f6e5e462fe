//! A choice of constants that has begun.
ghost use Rattle.std.specs.Prelude.{◌≡◌, ◌∷◌, ◌++◌, [], All, IfOk};
ghost use Rattle.ab_norm.specs.ab_types.specs.Ids.{HoldsType, type_of};
ghost use Rattle.ab_norm.specs.Nominals.{nominal_of, HoldsNominal};
ghost use Rattle.ab_unifiers.specs.Choices as plain;
ghost use Rattle.ab_alternatives.specs.ab_instances.specs.ListReadings.{names_read};
ghost use Rattle.ab_uses.specs.ChoiceTrials.{IsBegun};

use crate::question::Question;
use ab_alternatives::instances::{choices, outside};
use ab_norm::Nominal;
use ab_norm::types::{TypeId, TypeTable};
use std::alloc::{AllocError, Global};

/// A choice of constants that has begun.
#[derive(Drop)]
pub(crate) struct Begun {
    /// The constants that are chosen, in the order of their names.
    pub(crate) chosen: Vec<Nominal>,
    /// The goal's constants that aren't chosen, in order of number.
    pub(crate) free: Vec<Nominal>,
    /// All constants that aren't new.
    pub(crate) held: Vec<Nominal>,
}

/// The choice of which no constant is chosen.
pub(crate) fn begin(alloc: Global, question: &Question) -> Result<Begun, AllocError>
    ensures chosen { IfOk result (λ b. b.chosen.items ≡ []) }
    ensures free { IfOk result (λ b. b.free.items ≡ question.now.held.items) }
    ensures held { IfOk result (λ b. b.held.items ≡ question.now.known.items) }
{
    let free = Vec::from_slice(alloc, &question.held)?;
    let held = Vec::from_slice(alloc, &question.known)?;
    Ok(Begun {
        chosen: Vec::new(alloc),
        free,
        held,
    })
}

/// The choice with this constant for its next name.
pub(crate) fn with_next(
    alloc: Global,
    types: &TypeTable,
    begun: &Begun,
    a: Nominal,
) -> Result<Begun, AllocError>
    requires begun { IsBegun types.now begun.now }
    requires a { HoldsNominal types.now a }
    ensures begun { IfOk result (IsBegun types.now) }
    ensures chosen { IfOk result (λ b. b.chosen.items ≡ begun.now.chosen.items ++ a ∷ []) }
    ensures free { IfOk result (λ b. names_read types.now b.free.items ≡ plain.others (nominal_of types.now a) (names_read types.now begun.now.free.items)) }
    ensures held { IfOk result (λ b. b.held.items ≡ a ∷ begun.now.held.items) }
{
    let mut chosen = Vec::from_slice(alloc, &begun.chosen)?;
    chosen.push(a)?;
    let free = outside(alloc, types, &begun.free, &[a])?;
    let mut held = Vec::new(alloc);
    held.push(a)?;
    held.extend_from_slice(&begun.held)?;
    Ok(Begun { chosen, free, held })
}

/// The constants that may be chosen for a next name of the type: the free ones of the type, in order, and then a new one.
pub(crate) fn candidates(
    alloc: Global,
    types: &TypeTable,
    ty: TypeId,
    begun: &Begun,
) -> Result<Vec<Nominal>, AllocError>
    requires ty { HoldsType types.now ty }
    requires begun { IsBegun types.now begun.now }
    ensures list { IfOk result (λ list. names_read types.now list.items
        ≡ plain.of_type (type_of types.now ty) (names_read types.now begun.now.free.items) ++ plain.new_constant (names_read types.now begun.now.held.items) (type_of types.now ty) ∷ []) }
    ensures held { IfOk result (λ list. All (HoldsNominal types.now) list.items) }
{
    let single = choices(alloc, types, &[ty], &begun.free, &begun.held)?;
    let mut list = Vec::new(alloc);
    for names in single.as_slice() {
        list.extend_from_slice(names.as_slice())?;
    }
    Ok(list)
}
