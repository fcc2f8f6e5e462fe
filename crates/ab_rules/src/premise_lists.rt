//! Lists of one premise and of two.
ghost use Rattle.std.specs.Prelude.{◌≡◌, ◌∷◌, [], IfOk};

use ab_logic::Sequent;
use std::alloc::{AllocError, Global};

/// One premise.
pub fn one(alloc: Global, first: Sequent) -> Result<Vec<Sequent>, AllocError>
    ensures { IfOk result (λ v. v.items ≡ first ∷ []) }
{
    let mut premises = Vec::with_capacity(alloc, 1)?;
    premises.push(first)?;
    Ok(premises)
}

/// Two premises.
pub fn two(alloc: Global, first: Sequent, second: Sequent) -> Result<Vec<Sequent>, AllocError>
    ensures { IfOk result (λ v. v.items ≡ first ∷ second ∷ []) }
{
    let mut premises = Vec::with_capacity(alloc, 2)?;
    premises.push(first)?;
    premises.push(second)?;
    Ok(premises)
}
