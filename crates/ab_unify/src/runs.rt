//! A whole run.
ghost use Rattle.std.specs.Prelude.{◌≤◌, ◌+◌, ◌++◌, ℕ, [], All, IfOk, OnOk, codes};
ghost use Rattle.ab_norm.specs.ab_store.specs.Naming.{IsTypedBy};
ghost use Rattle.ab_unify.specs.StoreChanges.{Grows, IsFree};
ghost use Rattle.ab_unify.specs.Outcome.{IsTypedEquation};
ghost use Rattle.ab_unify.specs.RuleCounts.{Takes};
ghost use Rattle.ab_unify.specs.States.{IsAtRest, state_of, Runs};

use crate::one_step::advance;
use crate::verdict::Verdict;
use ab_norm::store::Store;
use ab_norm::types::{Steps, TypeTable};
use ab_patterns::{FlexibleCells, Numbered};
use std::alloc::{AllocError, Global};
use std::collections::VecDeque;

/// Makes steps until the problem is answered.
pub(crate) fn run<L>(
    alloc: Global,
    types: &mut TypeTable,
    store: &mut Store,
    flexible: &mut FlexibleCells,
    waiting: &mut Vec<Numbered>,
    queue: &mut VecDeque<Numbered>,
    steps: &mut Steps<L>,
) -> Result<Verdict, AllocError>
    requires store { IsTypedBy types.old store.old }
    requires free { All (IsFree store.old) flexible.old.items }
    requires equations { All (IsTypedEquation types.old store.old) (waiting.old.items ++ queue.old.items) }
    requires rest { All (IsAtRest types.old store.old flexible.old.items) waiting.old.items }
    ensures grows { Grows types.old store.old types.new store.new }
    ensures steps { steps.old ≤ steps.new }
    ensures counts { OnOk result ((n : ℕ) → Takes (codes "x") (state_of types.old store.old (waiting.old.items ++ queue.old.items) flexible.old.items []) n → steps.old + n ≤ steps.new) }
    ensures runs { IfOk result (Runs types.old store.old flexible.old.items (waiting.old.items ++ queue.old.items) types.new store.new flexible.new.items) }
{
    'steps: loop {
        if let Some(verdict) = advance(alloc, types, store, flexible, waiting, queue, steps)? {
            return Ok(verdict);
        }
    }
}
