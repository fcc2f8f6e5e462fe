//! Elaboration of an expression.
ghost use Rattle.std.specs.Prelude.{◌≡◌, ◌≤◌, []};
ghost use Rattle.ab_norm.specs.ab_types.specs.Entries.{kinds, constants, IsExtendedBy};
ghost use Rattle.ab_norm.specs.ab_types.specs.Ids.{HoldsType, type_of};
ghost use Rattle.ab_norm.specs.ab_types.specs.Sound.{IsTable};
ghost use Rattle.ab_norm.specs.ab_store.specs.Naming.{IsTypedBy};
ghost use Rattle.ab_norm.specs.NodeGrowth.{AddsTypedTerms};
ghost use Rattle.ab_grammar.specs.Tree as tree;
ghost use Rattle.ab_syntax.specs.ab_expressions.specs.SyntaxTrees.{tree_of};
ghost use Rattle.ab_meaning.specs.Scopes.{resolved};
ghost use Rattle.ab_infer.specs.ElaborationAnswers.{IsAnswer};
ghost use Rattle.ab_infer.specs.ScopeReadings.{scope_of, HoldsScope};

use crate::answers::answer;
use crate::expression_walk::row_of;
use crate::ids::{formulas, numbers};
use crate::readings::read_steps;
use crate::scopes::{Scope, resolution_scope};
use ab_inference::InferFault;
use ab_norm::store::{Store, TermId};
use ab_norm::types::{Steps, TypeId, TypeTable};
use ab_syntax::Parse;
use std::alloc::Global;

/// Where an expression begins.
fn place_of(parse: &Parse) -> usize
    ensures { result ≡ tree.place_of (tree_of parse.now) }
{
    match parse {
        Parse::Name(_, place)
        | Parse::Apply(_, _, place)
        | Parse::Abs(_, _, place)
        | Parse::Join(_, _, _, place)
        | Parse::Bind(_, _, _, place)
        | Parse::Judge(_, _, _, place) => *place,
    }
}

/// The term that an expression means at a type: eta-long, with its redexes reduced and the hints as they are written. `Unknown`
/// has the first name in the text that stands for nothing, `TypeClash` the place where the expression begins, which has no
/// reading, and `Untyped` the place of the first name to which two readings give different types, in bytes. `Memory` says that
/// there was none.
pub fn elaborate<L>(
    alloc: Global,
    types: &mut TypeTable,
    store: &mut Store,
    scope: &Scope,
    parse: &Parse,
    expected: TypeId,
    steps: &mut Steps<L>,
) -> Result<TermId, InferFault>
    requires table { IsTable types.old }
    requires store { IsTypedBy types.old store.old }
    requires scope { HoldsScope types.old store.old scope.now }
    requires expected { HoldsType types.old expected }
    ensures answer { IsAnswer types.new store.new (resolved (scope_of types.old store.old scope.now) [] (tree_of parse.now))
        (type_of types.old expected) (tree.place_of (tree_of parse.now)) result }
    ensures kinds { kinds types.new ≡ kinds types.old }
    ensures constants { constants types.new ≡ constants types.old }
    ensures kept { IsExtendedBy types.old types.new }
    ensures table { IsTable types.new }
    ensures adds { AddsTypedTerms types.new store.old store.new }
    ensures steps { steps.old ≤ steps.new }
{
    let inner = resolution_scope(alloc, scope)?;
    let formulas = formulas(alloc, types)?;
    let row = row_of(alloc, types, store, formulas, &inner, parse)?;
    let numbers = numbers(alloc, &row.names)?;
    let outcome = read_steps(
        alloc,
        types,
        store,
        formulas,
        row.variables.len(),
        &numbers,
        &row.steps,
        &row.marks,
        expected,
        steps,
    )?;
    answer(outcome, place_of(parse))
}
