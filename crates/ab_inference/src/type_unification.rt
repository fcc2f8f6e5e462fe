//! Equations between type variables.
ghost use Rattle.std.specs.Prelude.{◌≡◌, length, true, false, IfOk};
ghost use Rattle.ab_store.specs.ab_types.specs.Sound.{IsTable};
ghost use Rattle.ab_inference.specs.Solutions.{AreFormed, AreHeld};
ghost use Rattle.ab_inference.specs.Work.{WithinOne, Meeting, Part};

use crate::equations::meet;
use crate::shape::Shape;
use crate::work::Wanted;
use ab_store::types::TypeTable;
use std::alloc::{AllocError, Global};

/// Changes what is known of the variables so that its solutions are those that meet the equation, and says whether
/// there may be any.
pub fn unify(
    alloc: Global,
    types: &TypeTable,
    shapes: &mut [Shape],
    wanted: Wanted,
) -> Result<bool, AllocError>
    requires table { IsTable types.now }
    requires formed { AreFormed shapes.old }
    requires held { AreHeld types.now shapes.old }
    requires within { WithinOne types.now (length shapes.old) wanted }
    ensures met { IfOk result (λ yes. yes ≡ true → Meeting types.now shapes.old shapes.new wanted) }
    ensures apart { IfOk result (λ yes. yes ≡ false → Part types.now shapes.old wanted) }
{
    let mut work = vec![in alloc; wanted]?;
    while let Some(next) = work.pop() {
        if !meet(types, shapes, &mut work, next)? {
            return Ok(false);
        }
    }
    Ok(true)
}
