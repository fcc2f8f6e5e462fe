//! The clauses of a definition.
ghost use Rattle.std.specs.Prelude.{◌≤◌, ◌≡◌, map, MatchResult, All};
ghost use Rattle.ab_norm.specs.ab_types.specs.Entries.{kinds, constants, signature, IsExtendedBy};
ghost use Rattle.ab_norm.specs.ab_types.specs.Sound.{IsTable};
ghost use Rattle.ab_norm.specs.ab_store.specs.Naming.{IsTypedBy};
ghost use Rattle.ab_syntax.specs.Commands.{clause_of};
ghost use Rattle.ab_declare.specs.CellGrowth.{AddsVariables};
ghost use Rattle.ab_declare.specs.DefinitionCommands.{FirstTold, IsNamed, IsUnnamed, IsRead, IsUnread};
ghost use Rattle.ab_declare.specs.Halts.{Halts, AreReadAs};

use crate::clause_elaboration::{elaborate_clause, look_at_names};
use crate::halt::Halt;
use crate::list_growth::put_last;
use crate::types::formula_type;
use ab_norm::store::Store;
use ab_norm::types::{Steps, TypeTable};
use ab_syntax::ClauseParse;
use ab_typing::ClauseTerm;
use std::alloc::Global;

/// Looks at the names of the clauses. Refused at the first that stands for nothing.
pub(crate) fn look_at_clauses(
    alloc: Global,
    types: &mut TypeTable,
    store: &Store,
    clauses: &[ClauseParse],
) -> Result<(), Halt>
    requires table { IsTable types.old }
    requires store { IsTypedBy types.old store.now }
    ensures named { MatchResult result (λ u. All (IsNamed (kinds types.old) (signature types.old)) (map clause_of clauses.now))
        (Halts (FirstTold (IsNamed (kinds types.old) (signature types.old)) (IsUnnamed (kinds types.old) (signature types.old)) (map clause_of clauses.now))) }
    ensures kinds { kinds types.new ≡ kinds types.old }
    ensures constants { constants types.new ≡ constants types.old }
    ensures kept { IsExtendedBy types.old types.new }
    ensures table { IsTable types.new }
{
    for clause in clauses {
        look_at_names(alloc, types, store, clause)?;
    }
    Ok(())
}

/// The clauses as they are kept, head and body being formulas. Refused at the first that has no reading, or several.
pub(crate) fn read_clauses<L>(
    alloc: Global,
    types: &mut TypeTable,
    store: &mut Store,
    clauses: &[ClauseParse],
    steps: &mut Steps<L>,
) -> Result<Vec<ClauseTerm>, Halt>
    requires table { IsTable types.old }
    requires store { IsTypedBy types.old store.old }
    ensures read { MatchResult result (λ terms. AreReadAs types.new store.new (map clause_of clauses.now) terms.items)
        (Halts (FirstTold (IsRead (kinds types.old) (signature types.old)) (IsUnread (kinds types.old) (signature types.old)) (map clause_of clauses.now))) }
    ensures kinds { kinds types.new ≡ kinds types.old }
    ensures constants { constants types.new ≡ constants types.old }
    ensures kept { IsExtendedBy types.old types.new }
    ensures table { IsTable types.new }
    ensures adds { AddsVariables types.new store.old store.new }
    ensures steps { steps.old ≤ steps.new }
{
    let formula = formula_type(alloc, types)?;
    let mut terms = Vec::new(alloc);
    for clause in clauses {
        let term = elaborate_clause(alloc, types, store, clause, formula, steps)?;
        put_last(&mut terms, term)?;
    }
    Ok(terms)
}
