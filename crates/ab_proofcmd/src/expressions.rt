//! The expressions of proof commands.
ghost use Rattle.std.specs.Prelude.{◌≤◌, ◌≡◌, All};
ghost use Rattle.ab_term.specs.Types.{prop, olist};
ghost use Rattle.ab_norm.specs.ab_types.specs.Ids.{HoldsType, type_of};
ghost use Rattle.ab_syntax.specs.ab_expressions.specs.SyntaxTrees.{tree_of};
ghost use Rattle.ab_formulas.specs.Formulas.{HasOneTypeEach};
ghost use Rattle.ab_logic.specs.WorldGrowth.{Grows};
ghost use Rattle.ab_logic.specs.SequentReadings.{sequent_of, HoldsSequent};
ghost use Rattle.ab_formulas.specs.Sequents.{IsSequent, goal_names};
ghost use Rattle.ab_logic.specs.Worlds.{IsWorld, declarations_of};
ghost use Rattle.ab_proofcmd.specs.GivenTerms.{HoldsGiven, values_in, beside};
ghost use Rattle.ab_proofcmd.specs.GoalExpressions as spec;
ghost use Rattle.ab_proofcmd.specs.GoalExpressions.{IsReadAs};

use crate::goal_scopes::scope_of;
use ab_declare::formula_type;
use ab_hypothesis::steps::ProofCommandFault;
use ab_hypothesis::steps::kernel::judgements::list_type;
use ab_infer::elaborate;
use ab_inference::InferFault;
use ab_logic::{Sequent, World};
use ab_norm::store::TermId;
use ab_norm::types::laws::has_unique_ids;
use ab_norm::types::{Steps, TypeId};
use ab_syntax::Parse;
use ab_uses::GivenTerm;
use std::alloc::Global;

/// The term that the expression means at the type in the goal, where these terms were given before.
pub(crate) fn read_beside<L>(
    alloc: Global,
    world: &mut World,
    goal: &Sequent,
    given: &[GivenTerm],
    parse: &Parse,
    expected: TypeId,
    steps: &mut Steps<L>,
) -> Result<TermId, InferFault>
    requires world { IsWorld world.old }
    requires held { HoldsSequent world.old goal.now }
    requires given { All (HoldsGiven world.old) given.now }
    requires one_type { HasOneTypeEach (goal_names (beside (sequent_of world.old goal.now) (values_in world.old given.now))) }
    requires expected { HoldsType world.old.types expected }
    ensures reads { IsReadAs (declarations_of world.old) (beside (sequent_of world.old goal.now) (values_in world.old given.now))
        (tree_of parse.now) (type_of world.old.types expected) world.new result }
    ensures grows { Grows world.old world.new }
    ensures declared { declarations_of world.new ≡ declarations_of world.old }
    ensures steps { steps.old ≤ steps.new }
{
    has_unique_ids(&world.types);
    let scope = scope_of(alloc, world, goal, given)?;
    elaborate(
        alloc,
        &mut world.types,
        &mut world.store,
        &scope,
        parse,
        expected,
        steps,
    )
}

/// The term that the expression means in the goal at the type.
pub(crate) fn read_term<L>(
    alloc: Global,
    world: &mut World,
    goal: &Sequent,
    parse: &Parse,
    expected: TypeId,
    steps: &mut Steps<L>,
) -> Result<TermId, InferFault>
    requires world { IsWorld world.old }
    requires held { HoldsSequent world.old goal.now }
    requires sequent { IsSequent (declarations_of world.old) (sequent_of world.old goal.now) }
    requires expected { HoldsType world.old.types expected }
    ensures reads { IsReadAs (declarations_of world.old) (sequent_of world.old goal.now) (tree_of parse.now) (type_of world.old.types expected) world.new result }
    ensures grows { Grows world.old world.new }
    ensures declared { declarations_of world.new ≡ declarations_of world.old }
    ensures steps { steps.old ≤ steps.new }
{
    read_beside(alloc, world, goal, &[], parse, expected, steps)
}

/// The term that the expression means in the goal at the type of formulas.
pub(crate) fn read_formula<L>(
    alloc: Global,
    world: &mut World,
    goal: &Sequent,
    parse: &Parse,
    steps: &mut Steps<L>,
) -> Result<TermId, InferFault>
    requires world { IsWorld world.old }
    requires held { HoldsSequent world.old goal.now }
    requires sequent { IsSequent (declarations_of world.old) (sequent_of world.old goal.now) }
    ensures reads { IsReadAs (declarations_of world.old) (sequent_of world.old goal.now) (tree_of parse.now) prop world.new result }
    ensures grows { Grows world.old world.new }
    ensures declared { declarations_of world.new ≡ declarations_of world.old }
    ensures steps { steps.old ≤ steps.new }
{
    has_unique_ids(&world.types);
    let expected = formula_type(alloc, &mut world.types)?;
    read_term(alloc, world, goal, parse, expected, steps)
}

/// The term that the expression means in the goal at the type of lists.
pub(crate) fn read_list<L>(
    alloc: Global,
    world: &mut World,
    goal: &Sequent,
    parse: &Parse,
    steps: &mut Steps<L>,
) -> Result<TermId, InferFault>
    requires world { IsWorld world.old }
    requires held { HoldsSequent world.old goal.now }
    requires sequent { IsSequent (declarations_of world.old) (sequent_of world.old goal.now) }
    ensures reads { IsReadAs (declarations_of world.old) (sequent_of world.old goal.now) (tree_of parse.now) olist world.new result }
    ensures grows { Grows world.old world.new }
    ensures declared { declarations_of world.new ≡ declarations_of world.old }
    ensures steps { steps.old ≤ steps.new }
{
    let expected = list_type(alloc, world)?;
    read_term(alloc, world, goal, parse, expected, steps)
}

/// Why a command is refused whose expression isn't read.
pub(crate) fn fault_for(fault: InferFault) -> ProofCommandFault
    ensures { result ≡ spec.fault_for fault }
{
    match fault {
        InferFault::Unknown(name) => ProofCommandFault::Unknown(name),
        InferFault::TypeClash(place) => ProofCommandFault::TypeClash(place),
        InferFault::Untyped(place) => ProofCommandFault::Untyped(place),
        InferFault::Memory(error) => ProofCommandFault::Memory(error),
    }
}
