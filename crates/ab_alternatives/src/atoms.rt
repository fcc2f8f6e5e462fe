//! Atoms whose predicates are defined.
ghost use Rattle.std.specs.Prelude.{◌≡◌, IfOk, IfSome};
ghost use Rattle.std.specs.Option.{option_map};
ghost use Rattle.ab_logic.specs.Forms.{sign_of};
ghost use Rattle.ab_logic.specs.Worlds.{IsWorld, Holds, read, declarations_of};
ghost use Rattle.ab_theory.specs.Atoms.{defined_as, defined_atom};
ghost use Rattle.ab_alternatives.specs.AtomReadings.{defined_read, HoldsDefined};

use ab_logic::{Form, Sign, World, shape};
use ab_norm::store::{Head, Node, TermId};
use ab_norm::types::ConstId;
use ab_typing::{Block, ClauseCells, ClauseTerm, ClauseTerms, Predicates};
use std::alloc::{AllocError, Global};

/// An atom whose predicate is defined: its mark, its predicate with what that is given, and the definition.
#[derive(Drop)]
pub struct DefinedAtom {
    pub sign: Sign,
    pub predicate: ConstId,
    pub arguments: Vec<TermId>,
    pub block: Block,
}

/// The clause again.
pub fn copy_clause(alloc: Global, clause: &ClauseTerm) -> Result<ClauseTerm, AllocError>
    ensures { IfOk result (λ c. c ≡ clause.now) }
{
    let variables = Vec::from_slice(alloc, clause.variables.as_slice())?;
    Ok(ClauseTerm {
        variables: ClauseCells::from_vec(variables),
        head: clause.head,
        body: clause.body,
    })
}

/// The definition again.
fn copy_block(alloc: Global, block: &Block) -> Result<Block, AllocError>
    ensures { IfOk result (λ b. b ≡ block.now) }
{
    let predicates = Vec::from_slice(alloc, block.predicates.as_slice())?;
    let mut clauses = Vec::new(alloc);
    for clause in block.clauses.as_slice() {
        clauses.push(copy_clause(alloc, clause)?)?;
    }
    Ok(Block {
        inductive: block.inductive,
        predicates: Predicates::from_vec(predicates),
        clauses: ClauseTerms::from_vec(clauses),
    })
}

/// The atom with the mark, where its predicate is defined.
fn defined_as(
    alloc: Global,
    world: &World,
    sign: Sign,
    atom: TermId,
) -> Result<Option<DefinedAtom>, AllocError>
    requires world { IsWorld world.now }
    requires atom { Holds world.now atom }
    ensures reads { IfOk result (λ found. option_map (defined_read world.now) found ≡ defined_as (declarations_of world.now) (sign_of sign) (read world.now atom)) }
    ensures held { IfOk result (λ found. IfSome found (HoldsDefined world.now)) }
{
    let Node::Spine(head, args) = world.store.view(atom) else {
        return Ok(None);
    };
    let Head::Const(predicate) = *head else {
        return Ok(None);
    };
    let Some(block) = world.block(predicate) else {
        return Ok(None);
    };
    Ok(Some(DefinedAtom {
        sign,
        predicate,
        arguments: args.copy(alloc)?.into_vec(),
        block: copy_block(alloc, block)?,
    }))
}

/// The defined atom that the formula is, if it is one.
pub fn defined_atom(
    alloc: Global,
    world: &World,
    formula: TermId,
) -> Result<Option<DefinedAtom>, AllocError>
    requires world { IsWorld world.now }
    requires formula { Holds world.now formula }
    ensures reads { IfOk result (λ found. option_map (defined_read world.now) found ≡ defined_atom (declarations_of world.now) (read world.now formula)) }
    ensures held { IfOk result (λ found. IfSome found (HoldsDefined world.now)) }
{
    match shape(world, formula) {
        Form::Marked(sign, atom) => defined_as(alloc, world, sign, atom),
        Form::Other => defined_as(alloc, world, Sign::Plain, formula),
        _ => Ok(None),
    }
}
