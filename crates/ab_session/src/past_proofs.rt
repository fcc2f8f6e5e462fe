//! The open proof as it was before a command.
ghost use Rattle.std.specs.Prelude.{◌≡◌, List, Option, length};
ghost use Rattle.ab_proofcmd.specs.ab_hypothesis.specs.ab_steps.specs.ab_kernel.specs.Layout.{Held, Beyond};
ghost use Rattle.ab_session.specs.Origins.{CameBy};
ghost use Rattle.ab_session.specs.declared.attempt.Attempt.{Attempt as AnAttempt};

use crate::attempt::Attempt;
use crate::command_history::Deed;
use ab_logic::World;
use ab_proofcmd::hypothesis::steps::kernel::Proof;
use ab_store::types::Steps;

/// Takes steps back until only so many stand. Each node is then as it was.
fn rewind_proof<L>(world: &mut World, proof: &mut Proof, count: usize, steps: &mut Steps<L>)
    ensures back { (p : Held) → Beyond p proof.old → count ≡ length p.journal → proof.new ≡ p }
    ensures world { world.new ≡ world.old }
    ensures steps { steps.new ≡ steps.old }
{
    while proof.steps() > count {
        let _ = proof.unrefine(world, steps);
    }
}

/// The attempt that was open before a command which did this with it, and the proofs of theorems as they were. It takes no
/// memory, and counts no step.
pub(crate) fn reopen<L>(
    deed: Deed,
    count: usize,
    attempt: Option<Attempt>,
    proofs: &mut Vec<Proof>,
    world: &mut World,
    steps: &mut Steps<L>,
) -> Option<Attempt>
    requires { (ps : List Held) × (a : Option AnAttempt) × CameBy deed count ps a proofs.old.items attempt }
    ensures before { (ps : List Held) (a : Option AnAttempt) → CameBy deed count ps a proofs.old.items attempt → (proofs.new.items ≡ ps) × (result ≡ a) }
    ensures world { world.new ≡ world.old }
    ensures steps { steps.new ≡ steps.old }
{
    match deed {
        Deed::Began => None,
        Deed::GaveUp(attempt) => Some(attempt),
        Deed::Went => {
            let mut attempt = attempt?;
            rewind_proof(world, &mut attempt.proof, count, steps);
            Some(attempt)
        }
        Deed::Completed(name, formula) => {
            let mut proof = proofs.pop()?;
            rewind_proof(world, &mut proof, count, steps);
            Some(Attempt {
                name,
                formula,
                proof,
            })
        }
    }
}
