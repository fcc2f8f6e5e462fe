//! Equations in a queue.
ghost use Rattle.std.specs.Prelude.{◌≡◌, ◌++◌, [], IfOk, OnOk};
ghost use Rattle.ab_unify.specs.States.{numbered_from};

use ab_norm::store::Equation;
use ab_patterns::Numbered;
use std::alloc::{AllocError, Global};
use std::collections::VecDeque;

/// The equations, each with its number, from 0.
pub(crate) fn number_equations(
    alloc: Global,
    equations: &[Equation],
) -> Result<VecDeque<Numbered>, AllocError>
    ensures { IfOk result (λ all. all.items ≡ numbered_from 0 equations.now) }
{
    let mut all = VecDeque::new(alloc);
    for (place, equation) in equations.iter().enumerate() {
        all.push_back(Numbered {
            place,
            left: equation.left,
            right: equation.right,
        })?;
    }
    Ok(all)
}

/// Moves the equations to the front of the queue, in their order.
pub(crate) fn put_back(
    equations: &mut Vec<Numbered>,
    queue: &mut VecDeque<Numbered>,
) -> Result<(), AllocError>
    ensures queue { OnOk result (queue.new.items ≡ equations.old.items ++ queue.old.items) }
    ensures none { OnOk result (equations.new.items ≡ []) }
{
    while let Some(equation) = equations.pop() {
        queue.push_front(equation)?;
    }
    Ok(())
}
