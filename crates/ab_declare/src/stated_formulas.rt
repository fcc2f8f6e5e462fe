//! The formulas that theorems state.
ghost use Rattle.std.specs.Prelude.{◌≤◌, ◌≡◌, [], IfOk, OnErr};
ghost use Rattle.ab_term.specs.Types.{prop};
ghost use Rattle.ab_norm.specs.ab_types.specs.Entries.{kinds, constants, signature, IsExtendedBy};
ghost use Rattle.ab_norm.specs.ab_types.specs.Sound.{IsTable};
ghost use Rattle.ab_norm.specs.ab_store.specs.Naming.{IsTypedBy};
ghost use Rattle.ab_norm.specs.NodeGrowth.{AddsTypedTerms};
ghost use Rattle.ab_grammar.specs.Tree.{place_of};
ghost use Rattle.ab_syntax.specs.ab_expressions.specs.SyntaxTrees.{tree_of};
ghost use Rattle.ab_meaning.specs.Scopes.{resolved, elsewhere};
ghost use Rattle.ab_infer.specs.ElaborationAnswers.{IsAnswer};
ghost use Rattle.ab_logic.specs.Worlds.{IsWorld};
ghost use Rattle.ab_declare.specs.DeclarationAnswers.{Stated};
ghost use Rattle.ab_declare.specs.Moments.{IsRestored};

use crate::moment::Moment;
use crate::refusal::{Refusal, refusal_for};
use crate::types::formula_type;
use ab_infer::elaborate;
use ab_infer::scopes::Scope;
use ab_inference::InferFault;
use ab_logic::World;
use ab_norm::name::Name;
use ab_norm::store::{Store, TermId};
use ab_norm::types::{Steps, TypeTable};
use ab_syntax::Parse;
use std::alloc::{AllocError, Global};

/// What is stated under a name.
#[derive(Drop)]
pub enum Statement {
    Formula(TermId),
    /// The name is taken, or the expression isn't one formula.
    Refused(Refusal),
}

/// The formula that the expression is, where what is declared alone is known.
fn read_formula<L>(
    alloc: Global,
    types: &mut TypeTable,
    store: &mut Store,
    parse: &Parse,
    steps: &mut Steps<L>,
) -> Result<TermId, InferFault>
    requires table { IsTable types.old }
    requires store { IsTypedBy types.old store.old }
    ensures answer { IsAnswer types.new store.new
        (resolved (record { kinds = kinds types.old; constants = signature types.old; variables = []; nominals = []; place = elsewhere }) [] (tree_of parse.now))
        prop (place_of (tree_of parse.now)) result }
    ensures kinds { kinds types.new ≡ kinds types.old }
    ensures constants { constants types.new ≡ constants types.old }
    ensures kept { IsExtendedBy types.old types.new }
    ensures adds { AddsTypedTerms types.new store.old store.new }
    ensures steps { steps.old ≤ steps.new }
{
    let prop = formula_type(alloc, types)?;
    let scope = Scope {
        variables: Vec::new(alloc),
        nominals: Vec::new(alloc),
        in_proof: false,
    };
    elaborate(alloc, types, store, &scope, parse, prop, steps)
}

/// The formula that the expression states, under a name that no theorem has. Refused, with nothing left behind: where
/// the name is taken, and where the expression has no reading as a formula, or several.
pub fn state_formula<L>(
    alloc: Global,
    world: &mut World,
    name: &Name,
    parse: &Parse,
    steps: &mut Steps<L>,
) -> Result<Statement, AllocError>
    requires world { IsWorld world.old }
    ensures answer { IfOk result (Stated world.old world.new name.now (tree_of parse.now)) }
    ensures err { OnErr result (IsRestored world.old world.new) }
    ensures steps { steps.old ≤ steps.new }
{
    if world.theorem(name).is_some() {
        return Ok(Statement::Refused(Refusal::Clash(name.copy(alloc)?, None)));
    }
    let moment = Moment::of(world);
    match read_formula(alloc, &mut world.types, &mut world.store, parse, steps) {
        Ok(formula) => Ok(Statement::Formula(formula)),
        Err(fault) => {
            moment.cut_back(world, steps);
            Ok(Statement::Refused(refusal_for(fault)?))
        }
    }
}
