//! What an alternative of a defined atom on the left is made of, on shared terms.
ghost use Rattle.std.specs.Prelude.{◌≡◌, ◌≢◌, ◌≤◌, ◌++◌, [], Some, map, length, All, AllPairs, IfOk, OnOk};
ghost use Rattle.ab_term.specs.Types.{Ty, prop};
ghost use Rattle.ab_norm.specs.ab_types.specs.Entries.{signature};
ghost use Rattle.ab_norm.specs.ab_types.specs.Ids.{HoldsConstant};
ghost use Rattle.ab_norm.specs.ab_store.specs.Trees.{Holds, HoldsCell};
ghost use Rattle.ab_norm.specs.ab_store.specs.Naming.{IsTypedBy};
ghost use Rattle.ab_norm.specs.Nominals.{HoldsNominal};
ghost use Rattle.ab_norm.specs.TypedArguments.{AreTaken};
ghost use Rattle.ab_formulas.specs.CaseClauses.{case_of};
ghost use Rattle.ab_typing.specs.DefinitionReadings.{clause_of, name_of};
ghost use Rattle.ab_unify.specs.Problem.{cells_read, cells_at};
ghost use Rattle.ab_unify.specs.StoreChanges.{Grows};
ghost use Rattle.ab_instances.specs.ListReadings.{names_read, given_at};
ghost use Rattle.ab_logic.specs.Forms.{sign_of};
ghost use Rattle.ab_logic.specs.Worlds.{IsKeptClause};
ghost use Rattle.ab_theory.specs.RaisedAlternatives.{raised_cells};
ghost use Rattle.ab_alternatives.specs.LeftAlternatives.{constants_in, equate, IsRaised, IsMade};

use crate::atoms::DefinedAtom;
use crate::mark_rules::mark_below;
use ab_instances::{Over, instance_of, make_over, outside};
use ab_norm::Nominal;
use ab_norm::store::{CellId, Equation, Store, TermId};
use ab_norm::types::{Steps, TypeTable};
use ab_sequents::mark_atoms;
use ab_typing::ClauseTerm;
use std::alloc::{AllocError, Global};

/// An alternative: the goal's variables, raised, with the terms for the old ones where they are; the clause's own
/// variables; the equations; and the clause's body, with its marks.
#[derive(Drop)]
pub struct Alternative {
    pub raised: Over,
    pub own: Vec<CellId>,
    pub equations: Vec<Equation>,
    pub body: TermId,
}

/// The variables, raised over the constants if there are such.
fn raise_over(
    alloc: Global,
    types: &mut TypeTable,
    store: &mut Store,
    variables: &[CellId],
    fresh: &[Nominal],
) -> Result<Over, AllocError>
    requires store { IsTypedBy types.old store.old }
    requires variables { All (HoldsCell store.old) variables.now }
    requires different { AllPairs (λ c d. c ≢ d) variables.now }
    requires fresh { All (HoldsNominal types.old) fresh.now }
    ensures grows { Grows types.old store.old types.new store.new }
    ensures bindings { store.new.bindings ≡ store.old.bindings }
    ensures cells { OnOk result (cells_read types.new store.new
        ≡ cells_read types.old store.old ++ raised_cells (names_read types.old fresh.now) (cells_at types.old store.old variables.now)) }
    ensures held { IfOk result (λ over. All (Holds store.new) over.terms.items) }
    ensures raised { IfOk result (IsRaised types.old store.old variables.now (names_read types.old fresh.now) types.new store.new) }
{
    if fresh.is_empty() {
        return Ok(Over {
            cells: Vec::from_slice(alloc, variables)?,
            terms: Vec::new(alloc),
        });
    }
    make_over(alloc, types, store, variables, fresh)
}

/// Puts the terms of the first list with those of the second, one against one, behind the equations.
fn add_equations(
    left: &[TermId],
    right: &[TermId],
    equations: &mut Vec<Equation>,
) -> Result<(), AllocError>
    ensures { OnOk result (equations.new.items ≡ equations.old.items ++ equate left.now right.now) }
{
    match left {
        [] => Ok(()),
        [first, others @ ..] => match right {
            [] => Ok(()),
            [against, rest @ ..] => {
                equations.push(Equation {
                    left: *first,
                    right: *against,
                })?;
                add_equations(others, rest, equations)
            }
        },
    }
}

/// The terms of the first list with those of the second, one against one.
pub fn equations_between(
    alloc: Global,
    left: &[TermId],
    right: &[TermId],
) -> Result<Vec<Equation>, AllocError>
    ensures { IfOk result (λ es. es.items ≡ equate left.now right.now) }
{
    let mut equations = Vec::new(alloc);
    add_equations(left, right, &mut equations)?;
    Ok(equations)
}

/// The alternative of the atom by the clause, with these constants for its names. `constants` are those of the atom. No
/// cell is bound.
pub fn make_alternative<L>(
    alloc: Global,
    types: &mut TypeTable,
    store: &mut Store,
    atom: &DefinedAtom,
    constants: &[Nominal],
    clause: &ClauseTerm,
    names: &[Nominal],
    variables: &[CellId],
    steps: &mut Steps<L>,
) -> Result<Alternative, AllocError>
    requires store { IsTypedBy types.old store.old }
    requires unbound { store.old.bindings ≡ [] }
    requires arguments { All (Holds store.old) atom.now.arguments.items }
    requires predicates { All (HoldsConstant types.old) atom.now.block.predicates }
    requires taken { (A : Ty) × (signature types.old (name_of types.old atom.now.predicate) ≡ Some A) × AreTaken types.old store.old [] atom.now.arguments.items A prop }
    requires constants { names_read types.old constants.now ≡ constants_in (given_at types.old store.old atom.now.arguments.items) }
    requires constants_held { All (HoldsNominal types.old) constants.now }
    requires clause { IsKeptClause types.old store.old clause.now }
    requires predicate { (case_of (clause_of types.old store.old clause.now)).predicate ≡ name_of types.old atom.now.predicate }
    requires names { All (HoldsNominal types.old) names.now }
    requires fit { map (λ a. a.type) (names_read types.old names.now) ≡ map (λ z. z.type) (case_of (clause_of types.old store.old clause.now)).names }
    requires variables { All (HoldsCell store.old) variables.now }
    requires different { AllPairs (λ c d. c ≢ d) variables.now }
    ensures grows { Grows types.old store.old types.new store.new }
    ensures unbound { store.new.bindings ≡ [] }
    ensures made { IfOk result (IsMade types.old store.old variables.now (map (name_of types.old) atom.now.block.predicates) (sign_of atom.now.sign)
        (given_at types.old store.old atom.now.arguments.items)
        (record { clause = case_of (clause_of types.old store.old clause.now); names = names_read types.old names.now }) types.new store.new) }
    ensures steps { steps.old ≤ steps.new }
{
    let fresh = outside(alloc, types, names, constants)?;
    let unchosen = outside(alloc, types, constants, names)?;
    let raised = raise_over(alloc, types, store, variables, &fresh)?;
    let made = instance_of(alloc, types, store, clause, &unchosen, names, steps)?;
    let equations = equations_between(alloc, &atom.arguments, &made.arguments)?;
    let predicates = atom.block.predicates.as_slice();
    let mark = mark_below(atom.sign);
    let body = mark_atoms(alloc, types, store, predicates, mark, made.body)?;
    Ok(Alternative {
        raised,
        own: made.own,
        equations,
        body,
    })
}
