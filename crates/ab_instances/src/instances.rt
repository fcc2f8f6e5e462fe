//! A kept clause, with new variables for its own, and constants for its names.
ghost use Rattle.std.specs.Prelude.{◌≡◌, ◌≤◌, ◌++◌, [], map, length, codes, Some, All, IfOk, OnOk};
ghost use Rattle.ab_term.specs.Types.{Ty, prop};
ghost use Rattle.ab_term.specs.Sameness.{same_number};
ghost use Rattle.ab_term.specs.Variables.{image, image_all};
ghost use Rattle.ab_norm.specs.ab_types.specs.Entries.{signature};
ghost use Rattle.ab_norm.specs.ab_store.specs.Trees.{Holds, tree_of};
ghost use Rattle.ab_norm.specs.ab_store.specs.Naming.{IsTypedBy, IsTerm};
ghost use Rattle.ab_norm.specs.Nominals.{HoldsNominal};
ghost use Rattle.ab_norm.specs.TypedArguments.{AreTaken};
ghost use Rattle.ab_unifiers.specs.Clauses.{filled};
ghost use Rattle.ab_unifiers.specs.Alternatives.{cells_over, made_over, made_terms};
ghost use Rattle.ab_typing.specs.DefinitionReadings.{clause_of, HoldsClause};
ghost use Rattle.ab_formulas.specs.CaseClauses.{case_of, IsWellKept};
ghost use Rattle.ab_unify.specs.Problem.{cells_read, variables_read};
ghost use Rattle.ab_unify.specs.StoreChanges.{Grows};
ghost use Rattle.ab_instances.specs.ListReadings.{names_read, given_at};

use crate::cell_bindings::copy_with;
use crate::clause_heads::{arguments_of, open};
use crate::raised_variables::{as_terms, make_over};
use ab_formulas::definitions::kept_clauses_are_cases;
use ab_norm::Nominal;
use ab_norm::store::{CellId, Store, TermId};
use ab_norm::types::{Steps, TypeTable};
use ab_typing::ClauseTerm;
use std::alloc::{AllocError, Global};

/// A clause with other variables: its own ones, the arguments of its head, and its body.
#[derive(Drop)]
pub struct Instance {
    pub own: Vec<CellId>,
    pub arguments: Vec<TermId>,
    pub body: TermId,
}

/// The clause with new cells for its variables, which depend on the unchosen constants besides, and with these constants
/// for its names. No cell is bound, before and after.
pub fn instance_of<L>(
    alloc: Global,
    types: &mut TypeTable,
    store: &mut Store,
    clause: &ClauseTerm,
    unchosen: &[Nominal],
    names: &[Nominal],
    steps: &mut Steps<L>,
) -> Result<Instance, AllocError>
    requires store { IsTypedBy types.old store.old }
    requires unbound { store.old.bindings ≡ [] }
    requires clause { HoldsClause types.old store.old clause.now }
    requires kept { IsWellKept (signature types.old) (clause_of types.old store.old clause.now) }
    requires unchosen { All (HoldsNominal types.old) unchosen.now }
    requires names { All (HoldsNominal types.old) names.now }
    requires fit { map (λ a. a.type) (names_read types.old names.now) ≡ map (λ z. z.type) (case_of (clause_of types.old store.old clause.now)).names }
    ensures grows { Grows types.old store.old types.new store.new }
    ensures unbound { store.new.bindings ≡ [] }
    ensures cells { OnOk result (cells_read types.new store.new ≡ cells_read types.old store.old
        ++ cells_over (codes "x") (names_read types.old unchosen.now) (case_of (clause_of types.old store.old clause.now)).variables) }
    ensures own { IfOk result (λ made. variables_read types.new store.new made.own.items
        ≡ made_over (codes "x") (length store.old.cells) (names_read types.old unchosen.now) (case_of (clause_of types.old store.old clause.now)).variables) }
    ensures arguments { IfOk result (λ made. let c = case_of (clause_of types.old store.old clause.now) in
        given_at types.new store.new made.arguments.items ≡ image_all same_number (filled (codes "x") c
        (made_terms (codes "x") (length store.old.cells) (names_read types.old unchosen.now) c.variables) (names_read types.old names.now)) c.arguments) }
    ensures body { IfOk result (λ made. let c = case_of (clause_of types.old store.old clause.now) in
        tree_of types.new store.new made.body ≡ image same_number (filled (codes "x") c
        (made_terms (codes "x") (length store.old.cells) (names_read types.old unchosen.now) c.variables) (names_read types.old names.now)) c.body) }
    ensures arguments_typed { IfOk result (λ made. (A : Ty) →
        signature types.new (case_of (clause_of types.old store.old clause.now)).predicate ≡ Some A →
        AreTaken types.new store.new [] made.arguments.items A prop) }
    ensures arguments_held { IfOk result (λ made. All (Holds store.new) made.arguments.items) }
    ensures body_typed { IfOk result (λ made. IsTerm types.new store.new [] made.body prop) }
    ensures steps { steps.old ≤ steps.new }
{
    kept_clauses_are_cases();
    let over = make_over(alloc, types, store, clause.variables.as_slice(), unchosen)?;
    let copied = copy_with(alloc, types, store, clause, &over.terms, steps)?;
    let forms = as_terms(alloc, types, store, names)?;
    let atom = open(alloc, types, store, copied.head, &forms, steps)?;
    let arguments = arguments_of(alloc, store, atom)?;
    Ok(Instance {
        own: over.cells,
        arguments,
        body: copied.body,
    })
}
