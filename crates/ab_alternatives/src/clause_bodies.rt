//! An atom of a conclusion gives way to the body of a clause.
ghost use Rattle.std.specs.Prelude.{◌≡◌, ◌≤◌, ◌++◌, [], Some, map, length, All, IfOk, OnOk};
ghost use Rattle.ab_term.specs.Types.{Ty, prop};
ghost use Rattle.ab_norm.specs.ab_types.specs.Entries.{signature};
ghost use Rattle.ab_norm.specs.ab_types.specs.Ids.{HoldsConstant};
ghost use Rattle.ab_norm.specs.ab_store.specs.Trees.{Holds};
ghost use Rattle.ab_norm.specs.ab_store.specs.Naming.{IsTypedBy};
ghost use Rattle.ab_norm.specs.Nominals.{HoldsNominal};
ghost use Rattle.ab_norm.specs.TypedArguments.{AreTaken};
ghost use Rattle.ab_formulas.specs.CaseClauses.{case_of};
ghost use Rattle.ab_typing.specs.DefinitionReadings.{clause_of, name_of};
ghost use Rattle.ab_unify.specs.StoreChanges.{Grows};
ghost use Rattle.ab_instances.specs.ListReadings.{names_read, given_at};
ghost use Rattle.ab_logic.specs.Forms.{sign_of};
ghost use Rattle.ab_formulas.specs.Formulas.{IsFormula};
ghost use Rattle.ab_logic.specs.Worlds.{IsKeptClause};
ghost use Rattle.ab_alternatives.specs.LeftAlternatives.{constants_in};
ghost use Rattle.ab_alternatives.specs.RightAlternatives.{IsOpened};

use crate::alternatives::equations_between;
use crate::atoms::DefinedAtom;
use crate::mark_rules::mark_above;
use ab_instances::{instance_of, outside};
use ab_norm::Nominal;
use ab_norm::store::{CellId, Equation, Store, TermId};
use ab_norm::types::{Steps, TypeTable};
use ab_sequents::mark_atoms;
use ab_typing::ClauseTerm;
use std::alloc::{AllocError, Global};

/// What an atom of a conclusion may become: the clause's own variables, the equations, and the clause's body, with its
/// marks.
#[derive(Drop)]
pub struct Unfolding {
    pub own: Vec<CellId>,
    pub equations: Vec<Equation>,
    pub body: TermId,
}

/// The unfolding of the atom by the clause, with these constants for its names. `constants` are those of the atom. No
/// cell is bound.
pub fn make_unfolding<L>(
    alloc: Global,
    types: &mut TypeTable,
    store: &mut Store,
    atom: &DefinedAtom,
    constants: &[Nominal],
    clause: &ClauseTerm,
    names: &[Nominal],
    steps: &mut Steps<L>,
) -> Result<Unfolding, AllocError>
    requires store { IsTypedBy types.old store.old }
    requires unbound { store.old.bindings ≡ [] }
    requires arguments { All (Holds store.old) atom.now.arguments.items }
    requires predicates { All (HoldsConstant types.old) atom.now.block.predicates }
    requires taken { (A : Ty) × (signature types.old (name_of types.old atom.now.predicate) ≡ Some A) × AreTaken types.old store.old [] atom.now.arguments.items A prop }
    requires constants { names_read types.old constants.now ≡ constants_in (given_at types.old store.old atom.now.arguments.items) }
    requires constants_held { All (HoldsNominal types.old) constants.now }
    requires clause { IsKeptClause types.old store.old clause.now }
    requires formula { IsFormula (signature types.old) (case_of (clause_of types.old store.old clause.now)).body }
    requires predicate { (case_of (clause_of types.old store.old clause.now)).predicate ≡ name_of types.old atom.now.predicate }
    requires names { All (HoldsNominal types.old) names.now }
    requires fit { map (λ a. a.type) (names_read types.old names.now) ≡ map (λ z. z.type) (case_of (clause_of types.old store.old clause.now)).names }
    ensures grows { Grows types.old store.old types.new store.new }
    ensures unbound { store.new.bindings ≡ [] }
    ensures made { IfOk result (IsOpened types.old store.old (map (name_of types.old) atom.now.block.predicates) (sign_of atom.now.sign)
        (given_at types.old store.old atom.now.arguments.items)
        (record { clause = case_of (clause_of types.old store.old clause.now); names = names_read types.old names.now }) types.new store.new) }
    ensures steps { steps.old ≤ steps.new }
{
    let unchosen = outside(alloc, types, constants, names)?;
    let made = instance_of(alloc, types, store, clause, &unchosen, names, steps)?;
    let equations = equations_between(alloc, &atom.arguments, &made.arguments)?;
    let predicates = atom.block.predicates.as_slice();
    let mark = mark_above(atom.sign);
    let body = mark_atoms(alloc, types, store, predicates, mark, made.body)?;
    Ok(Unfolding {
        own: made.own,
        equations,
        body,
    })
}
