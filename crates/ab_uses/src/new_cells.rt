//! A formula is used by one choice of constants: new cells, and the formula's antecedents and result with these in it.
ghost use Rattle.std.specs.Prelude.{◌≡◌, ◌≤◌, [], map, length, false, All, Ok, Some, None};
ghost use Rattle.ab_term.specs.Types.{prop};
ghost use Rattle.ab_norm.specs.ab_types.specs.Entries.{signature, Table};
ghost use Rattle.ab_norm.specs.ab_store.specs.Trees.{Contents, tree_of};
ghost use Rattle.ab_norm.specs.ab_store.specs.Naming.{IsTypedBy, IsTerm};
ghost use Rattle.ab_norm.specs.Nominals.{HoldsNominal};
ghost use Rattle.ab_unify.specs.Problem.{cells_read};
ghost use Rattle.ab_unify.specs.StoreChanges.{Grows};
ghost use Rattle.ab_alternatives.specs.ab_instances.specs.ListReadings.{names_read};
ghost use Rattle.ab_theory.specs.Uses.{used, types_chosen};
ghost use Rattle.ab_consequences.specs.UseStages.{stages_of};
ghost use Rattle.ab_uses.specs.UseCells.{HoldsPart, part_read, parts_read, HasParts, names_left, IsMade, stages_read};
ghost use Rattle.ab_uses.specs.declared.made_uses.Made.{Made as AMade};

use crate::made_uses::Made;
use crate::one_part::take_part;
use crate::part::Part;
use ab_norm::Nominal;
use ab_norm::store::{Store, TermId};
use ab_norm::types::{Steps, TypeTable};
use std::alloc::{AllocError, Global};

/// The constants that are left for the parts behind this one.
fn left_behind<'a>(part: &Part, chosen: &'a [Nominal]) -> &'a [Nominal]
    ensures { (types : Table) (store : Contents) → result.now ≡ names_left (part_read types store part.now) chosen.now }
{
    match part {
        Part::Constant(_) => match chosen {
            [] => chosen,
            [_, rest @ ..] => rest,
        },
        _ => chosen,
    }
}

/// The use of the formula by the chosen constants: these are put for the names of its `nabla`s, in order, and a new cell, over
/// those of the constants held that aren't chosen further in, for each other name for which no term is given. None where a
/// constant stands in the formula that its name is taken off.
pub fn make_use<L>(
    alloc: Global,
    types: &mut TypeTable,
    store: &mut Store,
    held: &[Nominal],
    parts: &[Part],
    chosen: &[Nominal],
    formula: TermId,
    steps: &mut Steps<L>,
) -> Result<Option<Made>, AllocError>
    requires store { IsTypedBy types.old store.old }
    requires held { All (HoldsNominal types.old) held.now }
    requires parts { All (HoldsPart types.old store.old) parts.now }
    requires chosen { All (HoldsNominal types.old) chosen.now }
    requires formula { IsTerm types.old store.old [] formula prop }
    requires front { HasParts (signature types.old) (parts_read types.old store.old parts.now) (tree_of types.old store.old formula) }
    requires fit { map (λ a. a.type) (names_read types.old chosen.now) ≡ types_chosen (parts_read types.old store.old parts.now) }
    ensures made { (m : AMade) → result ≡ Ok (Some m) → IsMade types.new store.new (cells_read types.old store.old)
        (used (names_read types.old held.now) (length (cells_read types.old store.old)) (parts_read types.old store.old parts.now) (names_read types.old chosen.now) (tree_of types.old store.old formula)) m }
    ensures stages { (m : AMade) → result ≡ Ok (Some m) → stages_read types.new store.new m.stages.items
        ≡ stages_of (names_read types.old held.now) (length (cells_read types.old store.old)) (parts_read types.old store.old parts.now) (names_read types.old chosen.now) }
    ensures passed_over { result ≡ Ok None →
        (used (names_read types.old held.now) (length (cells_read types.old store.old)) (parts_read types.old store.old parts.now) (names_read types.old chosen.now) (tree_of types.old store.old formula)).outside ≡ false }
    ensures grows { Grows types.old store.old types.new store.new }
    ensures bindings { store.new.bindings ≡ store.old.bindings }
    ensures room { store.old.room ≤ store.new.room }
    ensures steps { steps.old ≤ steps.new }
{
    let mut made = Made {
        cells: Vec::new(alloc),
        antecedents: Vec::new(alloc),
        result: formula,
        stages: Vec::new(alloc),
    };
    let mut left = chosen;
    for part in parts {
        if !take_part(alloc, types, store, held, part, left, &mut made, steps)? {
            return Ok(None);
        }
        left = left_behind(part, left);
    }
    Ok(Some(made))
}
