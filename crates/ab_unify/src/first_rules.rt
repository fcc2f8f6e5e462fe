//! The first equation to which a rule applies.
ghost use Rattle.std.specs.Prelude.{◌≤◌, ◌++◌, All, IfOk, OnOk};
ghost use Rattle.ab_norm.specs.ab_store.specs.Naming.{IsTypedBy};
ghost use Rattle.ab_unify.specs.StoreChanges.{Grows, IsFree};
ghost use Rattle.ab_unify.specs.Outcome.{IsTypedEquation};
ghost use Rattle.ab_unify.specs.States.{IsAtRest, Settles};

use crate::all_rules::apply_rule;
use crate::flexible_rules::Step;
use ab_norm::store::Store;
use ab_norm::types::{Steps, TypeTable};
use ab_patterns::{FlexibleCells, Numbered};
use std::alloc::{AllocError, Global};
use std::collections::VecDeque;

/// Carries out the first rule that applies to the first equation of the queue to which one does. The equations before
/// it go to those that wait, to which none applies either, and it leaves the queue.
pub(crate) fn settle<L>(
    alloc: Global,
    types: &mut TypeTable,
    store: &mut Store,
    flexible: &mut FlexibleCells,
    waiting: &mut Vec<Numbered>,
    queue: &mut VecDeque<Numbered>,
    steps: &mut Steps<L>,
) -> Result<Step, AllocError>
    requires store { IsTypedBy types.old store.old }
    requires free { All (IsFree store.old) flexible.old.items }
    requires equations { All (IsTypedEquation types.old store.old) (waiting.old.items ++ queue.old.items) }
    requires rest { All (IsAtRest types.old store.old flexible.old.items) waiting.old.items }
    ensures grows { Grows types.old store.old types.new store.new }
    ensures steps { steps.old ≤ steps.new }
    ensures equations { OnOk result (All (IsTypedEquation types.new store.new) (waiting.new.items ++ queue.new.items)) }
    ensures settles { IfOk result (Settles types.old store.old flexible.old.items (waiting.old.items ++ queue.old.items)
        types.new store.new flexible.new.items waiting.new.items queue.new.items) }
{
    'equations: while let Some(equation) = queue.pop_front() {
        match apply_rule(alloc, types, store, flexible, equation, steps)? {
            Step::NoRule => waiting.push(equation)?,
            Step::Clash => return Ok(Step::Clash),
            Step::Parts(parts) => return Ok(Step::Parts(parts)),
            Step::Replaced => return Ok(Step::Replaced),
        }
    }
    Ok(Step::NoRule)
}
