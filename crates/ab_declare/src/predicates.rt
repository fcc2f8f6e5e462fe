//! The predicates of a definition.
ghost use Rattle.std.specs.Prelude.{◌≡◌, ◌↔◌, ℕ, List, [], ◌∷◌, map, Ok, IsTrue, MatchResult, All};
ghost use Rattle.ab_term.specs.Types.{Ty};
ghost use Rattle.ab_norm.specs.ab_types.specs.Entries.{kinds, constants, IsExtendedBy};
ghost use Rattle.ab_norm.specs.ab_types.specs.Sound.{IsTable};
ghost use Rattle.ab_meaning.specs.Types.{written_type, type_place};
ghost use Rattle.ab_syntax.specs.ab_expressions.specs.SyntaxTrees as trees;
ghost use Rattle.ab_syntax.specs.Commands.{defined_of};
ghost use Rattle.ab_declare.specs.DefinitionCommands.{EndsInProp, IsPredicate, IsNoPredicate, FirstTold};
ghost use Rattle.ab_declare.specs.Halts.{Halts, HasKinds, ArePut, ArentPut};

use crate::halt::Halt;
use crate::list_growth::put_last;
use crate::refusal::{Place, Refusal};
use ab_inference::{read_type, read_written};
use ab_norm::types::{ConstId, TableFault, TypeTable};
use ab_syntax::{Defined, TypeParse};
use std::alloc::Global;

/// Puts a predicate of the written type behind what the table holds.
fn put_predicate(alloc: Global, types: &mut TypeTable, predicate: &Defined) -> Result<ConstId, Halt>
    ensures put { MatchResult result (λ id. ArePut types.old types.new (defined_of predicate.now ∷ []) (id ∷ [])) (Halts (ArentPut types.old (defined_of predicate.now ∷ []))) }
    ensures kinds { kinds types.new ≡ kinds types.old }
    ensures kept { IsExtendedBy types.old types.new }
    ensures table { IsTable types.new }
{
    if types.look(&predicate.name).is_some() {
        let name = predicate.name.copy(alloc)?;
        return Err(Halt::Refused(Refusal::Clash(name, None)));
    }
    let written = read_written(alloc, types, &predicate.ty)?;
    match types.declare_const(predicate.name.copy(alloc)?, written.ty) {
        Ok(id) => Ok(id),
        Err(TableFault::Clash) => unreachable!(),
        Err(TableFault::UnknownKind) => unreachable!(),
        Err(TableFault::Memory(fault)) => Err(Halt::Memory(fault)),
    }
}

/// Puts the predicates behind what the table holds. Refused at the first name that is taken, or that stands in a type and is no
/// kind; what was put before it stays.
pub(crate) fn put_predicates(
    alloc: Global,
    types: &mut TypeTable,
    predicates: &[Defined],
) -> Result<Vec<ConstId>, Halt>
    requires { IsTable types.old }
    ensures put { MatchResult result (λ ids. ArePut types.old types.new (map defined_of predicates.now) ids.items) (Halts (ArentPut types.old (map defined_of predicates.now))) }
    ensures kinds { kinds types.new ≡ kinds types.old }
    ensures kept { IsExtendedBy types.old types.new }
    ensures table { IsTable types.new }
{
    let mut ids = Vec::new(alloc);
    for predicate in predicates {
        let id = put_predicate(alloc, types, predicate)?;
        put_last(&mut ids, id)?;
    }
    Ok(ids)
}

/// Whether the result of a type is that of formulas.
fn ends_in_prop(parse: &TypeParse) -> bool
    ensures { (kinds : List (List ℕ)) (A : Ty) → written_type kinds (trees.type_of parse.now) ≡ Ok A → IsTrue result ↔ EndsInProp A }
{
    match parse {
        TypeParse::Base(name, _) => name.as_str() == "prop",
        TypeParse::Arrow(_, to) => ends_in_prop(to),
    }
}

/// Where a written type begins.
fn first_place(parse: &TypeParse) -> usize
    ensures { result ≡ type_place (trees.type_of parse.now) }
{
    match parse {
        TypeParse::Base(_, place) => *place,
        TypeParse::Arrow(from, _) => first_place(from),
    }
}

/// Looks at the type of a predicate.
fn look_at_type(alloc: Global, types: &mut TypeTable, predicate: &Defined) -> Result<(), Halt>
    requires { HasKinds (kinds types.old) (defined_of predicate.now) }
    ensures looked { MatchResult result (λ u. IsPredicate (kinds types.old) (defined_of predicate.now)) (Halts (IsNoPredicate (kinds types.old) (defined_of predicate.now))) }
    ensures kinds { kinds types.new ≡ kinds types.old }
    ensures constants { constants types.new ≡ constants types.old }
    ensures kept { IsExtendedBy types.old types.new }
    ensures table { IsTable types.new }
{
    read_type(alloc, types, &predicate.ty)?;
    if ends_in_prop(&predicate.ty) {
        Ok(())
    } else {
        let place = Place::here(first_place(&predicate.ty));
        Err(Halt::Refused(Refusal::TypeClash(place)))
    }
}

/// Looks at the types of predicates. Refused at the first that doesn't end in that of formulas, or has it elsewhere.
pub(crate) fn look_at_types(
    alloc: Global,
    types: &mut TypeTable,
    predicates: &[Defined],
) -> Result<(), Halt>
    requires table { IsTable types.old }
    requires kinds { All (HasKinds (kinds types.old)) (map defined_of predicates.now) }
    ensures looked { MatchResult result (λ u. All (IsPredicate (kinds types.old)) (map defined_of predicates.now))
        (Halts (FirstTold (IsPredicate (kinds types.old)) (IsNoPredicate (kinds types.old)) (map defined_of predicates.now))) }
    ensures kinds { kinds types.new ≡ kinds types.old }
    ensures constants { constants types.new ≡ constants types.old }
    ensures kept { IsExtendedBy types.old types.new }
    ensures table { IsTable types.new }
{
    for predicate in predicates {
        look_at_type(alloc, types, predicate)?;
    }
    Ok(())
}
