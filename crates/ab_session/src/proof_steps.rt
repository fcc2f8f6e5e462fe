//! Proof commands that are carried out on a proof: `search` by its tree, and each other by its row.
ghost use Rattle.std.specs.Prelude.{◌≡◌, ◌≢◌, [], IfOk, IfSome, IsNone, OnErr};
ghost use Rattle.std.specs.Option.{option_copied};
ghost use Rattle.ab_grammar.specs.CommandTrees.{search};
ghost use Rattle.ab_syntax.specs.Commands.{proof_command_of};
ghost use Rattle.ab_formulas.specs.NewNames.{Label};
ghost use Rattle.ab_logic.specs.Worlds.{IsWorld};
ghost use Rattle.ab_proofcmd.specs.ab_hypothesis.specs.ab_steps.specs.ab_kernel.specs.Layout.{history_of, IsProof, goals_of};
ghost use Rattle.ab_proofcmd.specs.ab_hypothesis.specs.ab_steps.specs.Progress.{Advances, Follows};
ghost use Rattle.ab_proofcmd.specs.ab_hypothesis.specs.ab_steps.specs.ProofEffects.{OwesFor};
ghost use Rattle.ab_effects.specs.ProofCommands.{given_label};
ghost use Rattle.ab_proofcmd.specs.RowCommands.{HasRow};
ghost use Rattle.ab_session.specs.ProofAttempts.{IsMade, IsDenied};

use crate::refusals::refusal_of_fault;
use ab_logic::World;
use ab_proofcmd::apply_proof_command;
use ab_proofcmd::hypothesis::steps::kernel::Proof;
use ab_search::{SearchFault, search};
use ab_states::specification::declare::Refusal;
use ab_store::name::Name;
use ab_store::types::Steps;
use ab_syntax::ProofCommand;
use std::alloc::{AllocError, Global};

/// Closes the first goal where its search tree has an answer, or refuses as the tree says.
fn by_search<L>(
    alloc: Global,
    world: &mut World,
    proof: &mut Proof,
    depth: u32,
    steps: &mut Steps<L>,
) -> Result<Option<Refusal>, AllocError>
    requires world { IsWorld world.old }
    requires proof { IsProof world.old proof.old }
    requires open { goals_of world.old proof.old ≢ [] }
    ensures follows { Follows world.old proof.old world.new proof.new }
    ensures made { (l : Label) → IfOk result (λ o. IsNone o → IsMade l (search depth) world.old proof.old world.new proof.new) }
    ensures denied { (l : Label) → IfOk result (λ o. IfSome o (IsDenied l (search depth) world.old proof.old)) }
    ensures same { IfOk result (λ o. IfSome o (λ r. history_of world.new proof.new ≡ history_of world.old proof.old)) }
    ensures err { OnErr result (history_of world.new proof.new ≡ history_of world.old proof.old) }
{
    match search(alloc, world, proof, depth, steps) {
        Ok(()) => Ok(None),
        Err(SearchFault::NotFound) => Ok(Some(Refusal::NotFound)),
        Err(SearchFault::NotPattern(number)) => Ok(Some(Refusal::NotPattern(number))),
        Err(SearchFault::Memory(fault)) => Err(fault),
    }
}

/// Does what the command's row says, or refuses as the row does.
fn by_row<L>(
    alloc: Global,
    world: &mut World,
    proof: &mut Proof,
    label: Option<&Name>,
    command: &ProofCommand,
    steps: &mut Steps<L>,
) -> Result<Option<Refusal>, AllocError>
    requires world { IsWorld world.old }
    requires proof { IsProof world.old proof.old }
    requires open { goals_of world.old proof.old ≢ [] }
    requires row { HasRow (proof_command_of command.now) }
    ensures advances { Advances world.old proof.old world.new proof.new }
    ensures owes { IfOk result (λ o. IsNone o → OwesFor (proof_command_of command.now) world.old proof.old world.new proof.new) }
    ensures made { IfOk result (λ o. IsNone o → IsMade (given_label (option_copied label.entry)) (proof_command_of command.now) world.old proof.old world.new proof.new) }
    ensures denied { IfOk result (λ o. IfSome o (IsDenied (given_label (option_copied label.entry)) (proof_command_of command.now) world.old proof.old)) }
    ensures same { IfOk result (λ o. IfSome o (λ r. history_of world.new proof.new ≡ history_of world.old proof.old)) }
    ensures err { OnErr result (history_of world.new proof.new ≡ history_of world.old proof.old) }
{
    match apply_proof_command(alloc, world, proof, label, command, steps) {
        Ok(()) => Ok(None),
        Err(fault) => Ok(Some(refusal_of_fault(fault)?)),
    }
}

/// Carries out a proof command at the first goal, with the label before it. What is refused leaves the proof as it was.
pub(crate) fn carry_out<L>(
    alloc: Global,
    world: &mut World,
    proof: &mut Proof,
    label: Option<&Name>,
    command: &ProofCommand,
    steps: &mut Steps<L>,
) -> Result<Option<Refusal>, AllocError>
    requires world { IsWorld world.old }
    requires proof { IsProof world.old proof.old }
    requires open { goals_of world.old proof.old ≢ [] }
    ensures advances { Advances world.old proof.old world.new proof.new }
    ensures owes { IfOk result (λ o. IsNone o → OwesFor (proof_command_of command.now) world.old proof.old world.new proof.new) }
    ensures made { IfOk result (λ o. IsNone o → IsMade (given_label (option_copied label.entry)) (proof_command_of command.now) world.old proof.old world.new proof.new) }
    ensures denied { IfOk result (λ o. IfSome o (IsDenied (given_label (option_copied label.entry)) (proof_command_of command.now) world.old proof.old)) }
    ensures same { IfOk result (λ o. IfSome o (λ r. history_of world.new proof.new ≡ history_of world.old proof.old)) }
    ensures err { OnErr result (history_of world.new proof.new ≡ history_of world.old proof.old) }
{
    match command {
        ProofCommand::Search(depth) => by_search(alloc, world, proof, *depth, steps),
        _ => by_row(alloc, world, proof, label, command, steps),
    }
}
