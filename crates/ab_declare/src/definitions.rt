//! Definitions that are declared.
ghost use Rattle.std.specs.Prelude.{◌≤◌, ◌≡◌, map, IfOk, OnErr, MatchResult};
ghost use Rattle.ab_norm.specs.ab_types.specs.Sound.{IsTable};
ghost use Rattle.ab_grammar.specs.CommandTrees as command;
ghost use Rattle.ab_syntax.specs.Commands.{defined_of, clause_of};
ghost use Rattle.ab_logic.specs.WorldGrowth.{Grows};
ghost use Rattle.ab_logic.specs.Worlds.{IsWorld, declarations_of};
ghost use Rattle.ab_declare.specs.DeclarationAnswers.{Declared, IsDeclared};
ghost use Rattle.ab_declare.specs.DefinitionCommands.{DefinesNothing};
ghost use Rattle.ab_declare.specs.Halts.{halt_by, Halts};
ghost use Rattle.ab_declare.specs.Moments.{HasMore, IsRestored};

use crate::clauses::{look_at_clauses, read_clauses};
use crate::halt::Halt;
use crate::moment::Moment;
use crate::predicates::{look_at_types, put_predicates};
use crate::refusal::Refusal;
use ab_logic::{DefineFault, World};
use ab_norm::types::{ConstId, Steps};
use ab_syntax::{ClauseParse, Defined};
use ab_typing::{Block, ClauseTerm, ClauseTerms, Predicates};
use std::alloc::{AllocError, Global};

/// What is told of the fault of a definition.
fn halt_for(fault: DefineFault) -> Halt
    ensures { result ≡ halt_by fault }
{
    match fault {
        DefineFault::Clash(name) => Halt::Refused(Refusal::Clash(name, None)),
        DefineFault::NotStratified(name) => Halt::Refused(Refusal::NotStratified(name)),
        DefineFault::BadHead(number) => Halt::Refused(Refusal::BadHead(number, None)),
        DefineFault::Memory(fault) => Halt::Memory(fault),
    }
}

/// The block of the predicates and the clauses.
fn block_of(inductive: bool, predicates: Vec<ConstId>, clauses: Vec<ClauseTerm>) -> Block
    ensures { result ≡ record { inductive = inductive; predicates = predicates.items; clauses = clauses.items } }
{
    Block {
        inductive,
        predicates: Predicates::from_vec(predicates),
        clauses: ClauseTerms::from_vec(clauses),
    }
}

/// Puts a definition behind all that was declared. What was put before a fault stays.
fn try_definition<L>(
    alloc: Global,
    world: &mut World,
    inductive: bool,
    predicates: &[Defined],
    clauses: &[ClauseParse],
    steps: &mut Steps<L>,
) -> Result<(), Halt>
    requires world { IsWorld world.old }
    requires table { IsTable world.old.types }
    ensures defined { MatchResult result (λ u. IsDeclared world.old world.new (command.define inductive (map defined_of predicates.now) (map clause_of clauses.now)))
        (Halts (DefinesNothing (declarations_of world.old) inductive (map defined_of predicates.now) (map clause_of clauses.now))) }
    ensures more { OnErr result (HasMore world.old world.new) }
    ensures steps { steps.old ≤ steps.new }
{
    let ids = put_predicates(alloc, &mut world.types, predicates)?;
    look_at_clauses(alloc, &mut world.types, &world.store, clauses)?;
    look_at_types(alloc, &mut world.types, predicates)?;
    let terms = read_clauses(alloc, &mut world.types, &mut world.store, clauses, steps)?;
    let block = block_of(inductive, ids, terms);
    match world.define(block, steps) {
        Ok(()) => Ok(()),
        Err(fault) => Err(halt_for(fault)),
    }
}

/// Declares the predicates and their definition by the clauses, inductive or else coinductive. Refused, with nothing left
/// behind, in this order: at the first name in the text that is taken or stands for nothing; where a type isn't that of a
/// predicate; at the first clause that has no reading, or several; and at the first clause whose head isn't one for these
/// predicates, or with one of them to the left of an arrow in its body.
pub fn declare_definition<L>(
    alloc: Global,
    world: &mut World,
    inductive: bool,
    predicates: &[Defined],
    clauses: &[ClauseParse],
    steps: &mut Steps<L>,
) -> Result<Option<Refusal>, AllocError>
    requires world { IsWorld world.old }
    ensures answer { IfOk result (Declared world.old world.new (command.define inductive (map defined_of predicates.now) (map clause_of clauses.now))) }
    ensures err { OnErr result (IsRestored world.old world.new) }
    ensures steps { steps.old ≤ steps.new }
{
    let moment = Moment::of(world);
    match try_definition(alloc, world, inductive, predicates, clauses, steps) {
        Ok(()) => Ok(None),
        Err(Halt::Refused(refusal)) => {
            moment.cut_back(world, steps);
            Ok(Some(refusal))
        }
        Err(Halt::Memory(fault)) => {
            moment.cut_back(world, steps);
            Err(fault)
        }
    }
}
