//! A clause of the program, as it is written.
ghost use Rattle.std.specs.Prelude.{◌≤◌, ◌≡◌, ◌+◌, ◌<◌, ◌^◌, [], ◌∷◌, ◌++◌, IfOk, IfErr, MatchOption, None};
ghost use Rattle.ab_term.specs.Types.{o};
ghost use Rattle.ab_grammar.specs.FileTrees as file;
ghost use Rattle.ab_syntax.specs.Commands.{clause_of};
ghost use Rattle.ab_meaning.specs.Terms.{kinds_in};
ghost use Rattle.ab_formulas.specs.Declarations.{signature_in, a_program_clause};
ghost use Rattle.ab_formulas.specs.Programs.{IsProgramHead, IsProgramProposed};
ghost use Rattle.ab_typing.specs.DefinitionReadings as kept;
ghost use Rattle.ab_typing.specs.DefinitionReadings.{HoldsClause};
ghost use Rattle.ab_logic.specs.WorldGrowth.{Grows};
ghost use Rattle.ab_logic.specs.Worlds.{read, clause_read, IsWorld, declarations_of};
ghost use Rattle.ab_declare.specs.ClauseMeanings.{ClauseMeansNothing};
ghost use Rattle.ab_declare.specs.Refusals.{RefusedFor};
ghost use Rattle.ab_declare.specs.declared.refusal.Refusal.TheVariants.{BadHead};
ghost use Rattle.ab_specification.specs.ItemAnswers.{ReadsAs, ItemAnswer};

use ab_declare::{Place, Refusal, elaborate_clause};
use ab_infer::formulas;
use ab_inference::InferFault;
use ab_logic::{DefineFault, World};
use ab_norm::types::Steps;
use ab_norm::types::laws::has_unique_ids;
use ab_syntax::ClauseParse;
use ab_typing::ClauseTerm;
use std::alloc::{AllocError, Global};

/// The clause by its one reading, head and goal being formulas of the specification logic.
fn read_clause<L>(
    alloc: Global,
    world: &mut World,
    parse: &ClauseParse,
    steps: &mut Steps<L>,
) -> Result<ClauseTerm, InferFault>
    requires { IsWorld world.old }
    ensures read { IfOk result (λ k. ReadsAs (kinds_in (declarations_of world.old)) (signature_in (declarations_of world.old)) (clause_of parse.now) (kept.clause_of world.new.types world.new.store k)) }
    ensures held { IfOk result (HoldsClause world.new.types world.new.store) }
    ensures unread { IfErr result (ClauseMeansNothing (kinds_in (declarations_of world.old)) (signature_in (declarations_of world.old)) (clause_of parse.now) o) }
    ensures grows { Grows world.old world.new }
    ensures same { declarations_of world.new ≡ declarations_of world.old }
    ensures steps { steps.old ≤ steps.new }
{
    has_unique_ids(&world.types);
    let formulas = formulas(alloc, &mut world.types)?;
    elaborate_clause(
        alloc,
        &mut world.types,
        &mut world.store,
        parse,
        formulas.o,
        steps,
    )
}

/// The refusal of a clause that isn't read.
fn refusal_for(fault: InferFault) -> Result<Refusal, AllocError>
    ensures { IfOk result (RefusedFor fault) }
{
    match fault {
        InferFault::Unknown(name) => Ok(Refusal::Unknown(name, None)),
        InferFault::TypeClash(place) => Ok(Refusal::TypeClash(Place::here(place))),
        InferFault::Untyped(place) => Ok(Refusal::Untyped(Place::here(place))),
        InferFault::Memory(error) => Err(error),
    }
}

/// Puts the clause of this number behind what was declared.
fn add_clause<L>(
    world: &mut World,
    clause: ClauseTerm,
    number: usize,
    steps: &mut Steps<L>,
) -> Result<Option<Refusal>, AllocError>
    requires world { IsWorld world.old }
    requires held { HoldsClause world.old.types world.old.store clause }
    requires proposed { IsProgramProposed (signature_in (declarations_of world.old)) (kept.clause_of world.old.types world.old.store clause) }
    ensures added { IfOk result (λ r. MatchOption r
        (IsProgramHead (read world.old clause.head) × (declarations_of world.new ≡ declarations_of world.old ++ a_program_clause (clause_read world.old clause) ∷ []))
        (λ f. (¬ IsProgramHead (read world.old clause.head)) × (f ≡ BadHead number None))) }
    ensures grows { Grows world.old world.new }
    ensures steps { steps.old ≤ steps.new }
{
    match world.add_clause(clause, number, steps) {
        Ok(()) => Ok(None),
        Err(DefineFault::BadHead(number)) => Ok(Some(Refusal::BadHead(number, None))),
        Err(DefineFault::Memory(fault)) => Err(fault),
        Err(DefineFault::Clash(_)) => unreachable!(),
        Err(DefineFault::NotStratified(_)) => unreachable!(),
    }
}

/// Puts the clause behind the program; so many clauses of its file stand before it. What was made for it stays where it is refused.
pub(crate) fn declare_clause<L>(
    alloc: Global,
    world: &mut World,
    parse: &ClauseParse,
    clauses_before: usize,
    steps: &mut Steps<L>,
) -> Result<Option<Refusal>, AllocError>
    requires world { IsWorld world.old }
    requires few { clauses_before < 2 ^ 63 }
    ensures answer { IfOk result (ItemAnswer world.old world.new clauses_before (file.clause (clause_of parse.now))) }
    ensures grows { Grows world.old world.new }
    ensures steps { steps.old ≤ steps.new }
{
    match read_clause(alloc, world, parse, steps) {
        Ok(clause) => add_clause(world, clause, clauses_before + 1, steps),
        Err(fault) => Ok(Some(refusal_for(fault)?)),
    }
}
