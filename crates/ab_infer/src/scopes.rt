//! Scopes.
ghost use Rattle.std.specs.Prelude.{◌≡◌, IfOk, true, false};
ghost use Rattle.ab_norm.specs.ab_types.specs.Entries.{Table};
ghost use Rattle.ab_norm.specs.ab_store.specs.Trees.{Contents};
ghost use Rattle.ab_infer.specs.NameScopes as resolving;
ghost use Rattle.ab_infer.specs.ScopeReadings.{scope_of, HoldsScope};

use crate::scope::Place;
use ab_norm::Nominal;
use ab_norm::store::CellId;
use std::alloc::{AllocError, Global};

/// What an expression may name beside bound names and the table's constants.
#[derive(Drop)]
pub struct Scope {
    /// The sequent's variables.
    pub variables: Vec<CellId>,
    /// The nominal constants whose types are settled: those of the sequent, and of the command's terms that were read before.
    pub nominals: Vec<Nominal>,
    /// Whether nominal names may be used.
    pub in_proof: bool,
}

/// The scope in which names are resolved.
pub(crate) fn resolution_scope(
    alloc: Global,
    scope: &Scope,
) -> Result<crate::scope::Scope, AllocError>
    ensures same { IfOk result (λ inner. (types : Table) (store : Contents) → resolving.scope_of types store inner ≡ scope_of types store scope.now) }
    ensures held { IfOk result (λ inner. (types : Table) (store : Contents) → HoldsScope types store scope.now → resolving.HoldsScope types store inner) }
{
    let mut variables = Vec::new(alloc);
    variables.extend_from_slice(&scope.variables)?;
    let mut nominals = Vec::new(alloc);
    nominals.extend_from_slice(&scope.nominals)?;
    let place = if scope.in_proof {
        Place::Proof
    } else {
        Place::Elsewhere
    };
    Ok(crate::scope::Scope {
        variables,
        nominals,
        place,
    })
}
