//! The first fault of a definition's clauses.
ghost use Rattle.std.specs.Prelude.{◌≡◌, ◌↔◌, map, Option, Some, None, IfOk, IfSome, OnOk, All};
ghost use Rattle.ab_store.specs.ab_types.specs.Ids.{HoldsConstant};
ghost use Rattle.ab_store.specs.Naming.{IsTypedBy};
ghost use Rattle.ab_formulas.specs.Faults.{IsRight, HasFault, IsRightBlock, IsFaultOf};
ghost use Rattle.ab_typing.specs.DefinitionReadings.{name_of, fault_of, clause_of, block_of, HoldsFault, HoldsClause, HoldsBlock};
ghost use Rattle.ab_typing.specs.JudgedTerms.{AreClear, AreKeeping};
ghost use Rattle.ab_typing.specs.declared.faults.ClauseFault.{ClauseFault as AFault};

use crate::definitions::{Block, ClauseTerm};
use crate::heads::is_head;
use crate::judged_terms::{Cleared, Spots};
use crate::stratification::{Part, first_in};
use ab_store::Store;
use ab_store::types::{ConstId, TypeTable};
use std::alloc::{AllocError, Global};

/// What is wrong with a definition's clauses.
#[derive(Clone, Copy)]
pub enum ClauseFault {
    /// The predicate stands to the left of an arrow in a body.
    NotStratified(ConstId),
    /// The clause of this number, counted from 1, has a head that a clause may not have.
    BadHead(usize),
}

/// The first fault of the block's clauses: clause by clause, in each the head before the body.
pub fn first_fault(
    alloc: Global,
    types: &TypeTable,
    store: &Store,
    block: &Block,
) -> Result<Option<ClauseFault>, AllocError>
    requires store { IsTypedBy types.now store.now }
    requires block { HoldsBlock types.now store.now block.now }
    ensures none { IfOk result (λ fault. (fault ≡ None) ↔ IsRightBlock (block_of types.now store.now block.now)) }
    ensures first { IfOk result (λ fault. (f : AFault) → fault ≡ Some f → IsFaultOf (block_of types.now store.now block.now) (fault_of types.now f)) }
    ensures held { IfOk result (λ fault. IfSome fault (HoldsFault types.now)) }
{
    let predicates = block.predicates.as_slice();
    let clauses = block.clauses.as_slice();
    let mut cleared = Cleared::new(alloc);
    let mut spots = Spots::new(alloc);
    for place in 0..clauses.len() {
        let clause = &clauses[place];
        if let Some(fault) = clause_fault(
            types,
            store,
            predicates,
            &mut cleared,
            &mut spots,
            place + 1,
            clause,
        )? {
            return Ok(Some(fault));
        }
    }
    Ok(None)
}

/// The fault of a clause of this number.
fn clause_fault(
    types: &TypeTable,
    store: &Store,
    predicates: &[ConstId],
    cleared: &mut Cleared,
    spots: &mut Spots,
    number: usize,
    clause: &ClauseTerm,
) -> Result<Option<ClauseFault>, AllocError>
    requires store { IsTypedBy types.now store.now }
    requires predicates { All (HoldsConstant types.now) predicates.now }
    requires clause { HoldsClause types.now store.now clause.now }
    requires cleared { AreClear (map (name_of types.now) predicates.now) types.now store.now cleared.old }
    requires spots { AreKeeping store.now spots.old }
    ensures none { IfOk result (λ fault. fault ≡ None → IsRight (map (name_of types.now) predicates.now) (clause_of types.now store.now clause.now)) }
    ensures some { IfOk result (λ fault. (f : AFault) → fault ≡ Some f →
        HasFault (map (name_of types.now) predicates.now) number (clause_of types.now store.now clause.now) (fault_of types.now f)) }
    ensures held { IfOk result (λ fault. IfSome fault (HoldsFault types.now)) }
    ensures cleared { OnOk result (AreClear (map (name_of types.now) predicates.now) types.now store.now cleared.new) }
    ensures spots { OnOk result (AreKeeping store.now spots.new) }
{
    if !is_head(types, store, predicates, spots, clause.head)? {
        return Ok(Some(ClauseFault::BadHead(number)));
    }
    match first_in(
        types,
        store,
        predicates,
        cleared,
        Part::LeftOfArrows,
        clause.body,
    )? {
        Some(predicate) => Ok(Some(ClauseFault::NotStratified(predicate))),
        None => Ok(None),
    }
}
