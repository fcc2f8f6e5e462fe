//! A term for the name of an `exists`.
ghost use Rattle.std.specs.Prelude.{◌≤◌, ◌≡◌, ◌≢◌, [], Err, IfOk, OnErr};
ghost use Rattle.ab_grammar.specs.CommandTrees as told;
ghost use Rattle.ab_syntax.specs.ab_expressions.specs.SyntaxTrees.{tree_of};
ghost use Rattle.ab_formulas.specs.NewNames as plain;
ghost use Rattle.ab_logic.specs.Worlds.{IsWorld};
ghost use Rattle.ab_hypothesis.specs.ab_steps.specs.ab_kernel.specs.Layout.{history_of, IsProof, goals_of};
ghost use Rattle.ab_hypothesis.specs.ab_steps.specs.ProofEffects.{IsApplied, IsRefused};
ghost use Rattle.ab_hypothesis.specs.ab_steps.specs.Progress.{Follows};
ghost use Rattle.ab_hypothesis.specs.ab_steps.specs.declared.fault.ProofCommandFault.{ProofCommandFault};

use crate::expressions::{fault_for, read_term};
use ab_hypothesis::steps::kernel::{Proof, Step};
use ab_hypothesis::steps::{ProofCommandFault, first_goal, surely};
use ab_logic::{World, as_exists};
use ab_norm::types::Steps;
use ab_syntax::Parse;
use std::alloc::Global;

/// The body of the conclusion, an `exists`, with the term for the bound name is to be derived. It is refused, and leaves the
/// proof as it was, where the conclusion is no `exists`, a name of the expression stands for nothing, or it has no reading
/// at the name's type, or several.
pub fn exists<L>(
    alloc: Global,
    world: &mut World,
    proof: &mut Proof,
    term: &Parse,
    steps: &mut Steps<L>,
) -> Result<(), ProofCommandFault>
    requires world { IsWorld world.old }
    requires proof { IsProof world.old proof.old }
    requires open { goals_of world.old proof.old ≢ [] }
    ensures follows { Follows world.old proof.old world.new proof.new }
    ensures applied { IfOk result (λ u. (l : plain.Label) → IsApplied l (told.exists (tree_of term.now)) world.old proof.old world.new proof.new) }
    ensures refused { (fault : ProofCommandFault) → result ≡ Err fault → (l : plain.Label) → IsRefused l (told.exists (tree_of term.now)) world.old proof.old fault }
    ensures unchanged { OnErr result (history_of world.new proof.new ≡ history_of world.old proof.old) }
    ensures steps { steps.old ≤ steps.new }
{
    let goal = first_goal(world, proof);
    let Some((ty, _)) = as_exists(world, goal.conclusion) else {
        return Err(ProofCommandFault::WrongShape);
    };
    match read_term(alloc, world, goal, term, ty, steps) {
        Ok(given) => {
            surely(world, proof, 0, Step::ExistsRight(given), steps)?;
            Ok(())
        }
        Err(fault) => Err(fault_for(fault)),
    }
}
