//! One step of a run.
ghost use Rattle.std.specs.Prelude.{◌≡◌, ◌≤◌, ◌+◌, ◌++◌, All, IfOk, OnOk};
ghost use Rattle.ab_norm.specs.ab_store.specs.Naming.{IsTypedBy};
ghost use Rattle.ab_unify.specs.StoreChanges.{Grows, IsFree};
ghost use Rattle.ab_unify.specs.Outcome.{IsTypedEquation};
ghost use Rattle.ab_unify.specs.States.{IsAtRest, IsStep, rules_in, Advances, verdict_on};

use crate::first_rules::settle;
use crate::flexible_rules::Step;
use crate::queues::put_back;
use crate::verdict::Verdict;
use ab_norm::store::Store;
use ab_norm::types::{Steps, TypeTable};
use ab_patterns::{FlexibleCells, Numbered};
use std::alloc::{AllocError, Global};
use std::collections::VecDeque;

/// The verdict where no rule applies to these equations, which are all that is left.
fn verdict_at_rest(waiting: &[Numbered]) -> Verdict
    ensures { result ≡ verdict_on waiting.now }
{
    match waiting {
        [] => Verdict::Unified,
        [first, ..] => Verdict::Stuck(first.place),
    }
}

/// Makes one step: the first rule that applies is carried out. Where none applies, or two sides can't become the same,
/// the verdict is answered.
pub(crate) fn advance<L>(
    alloc: Global,
    types: &mut TypeTable,
    store: &mut Store,
    flexible: &mut FlexibleCells,
    waiting: &mut Vec<Numbered>,
    queue: &mut VecDeque<Numbered>,
    steps: &mut Steps<L>,
) -> Result<Option<Verdict>, AllocError>
    requires store { IsTypedBy types.old store.old }
    requires free { All (IsFree store.old) flexible.old.items }
    requires equations { All (IsTypedEquation types.old store.old) (waiting.old.items ++ queue.old.items) }
    requires rest { All (IsAtRest types.old store.old flexible.old.items) waiting.old.items }
    ensures grows { Grows types.old store.old types.new store.new }
    ensures steps { steps.old ≤ steps.new }
    ensures counts { IfOk result (λ v. steps.old + rules_in v ≤ steps.new) }
    ensures equations { OnOk result (All (IsTypedEquation types.new store.new) (waiting.new.items ++ queue.new.items)) }
    ensures rest { OnOk result (All (IsAtRest types.new store.new flexible.new.items) waiting.new.items) }
    ensures advances { IfOk result (Advances types.old store.old flexible.old.items (waiting.old.items ++ queue.old.items)
        types.new store.new flexible.new.items (waiting.new.items ++ queue.new.items)) }
{
    match settle(alloc, types, store, flexible, waiting, queue, steps)? {
        Step::NoRule => Ok(Some(verdict_at_rest(waiting))),
        Step::Clash => {
            steps.tick();
            Ok(Some(Verdict::Apart))
        }
        Step::Parts(mut parts) => {
            steps.tick();
            put_back(&mut parts, queue)?;
            Ok(None)
        }
        Step::Replaced => {
            steps.tick();
            put_back(waiting, queue)?;
            Ok(None)
        }
    }
}
