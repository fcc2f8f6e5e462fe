//! A proof command that has a row is carried out.
ghost use Rattle.std.specs.Prelude.{◌≤◌, ◌≡◌, ◌≢◌, [], Err, IfOk, OnOk, OnErr};
ghost use Rattle.std.specs.Option.{option_copied};
ghost use Rattle.ab_syntax.specs.Commands.{proof_command_of};
ghost use Rattle.ab_logic.specs.Worlds.{IsWorld};
ghost use Rattle.ab_equations.specs.Labels.{label_of};
ghost use Rattle.ab_hypothesis.specs.ab_steps.specs.ab_kernel.specs.Layout.{history_of, IsProof, goals_of};
ghost use Rattle.ab_hypothesis.specs.ab_steps.specs.ProofEffects.{IsApplied, OwesFor, IsRefused};
ghost use Rattle.ab_hypothesis.specs.ab_steps.specs.Progress.{Advances};
ghost use Rattle.ab_hypothesis.specs.ab_steps.specs.declared.fault.ProofCommandFault.{ProofCommandFault as AFault};
ghost use Rattle.ab_effects.specs.ProofCommands.{given_label};
ghost use Rattle.ab_proofcmd.specs.RowCommands.{HasRow};

use crate::application::apply;
use crate::assertions::assert;
use crate::backchaining::backchain;
use crate::judgement_commands::{inst, monotone};
use crate::witnesses::exists;
use ab_conclusion::{coinduction, induction, intros, left, right, skip, split, split_all, unfold};
use ab_equations::Label;
use ab_hypothesis::steps::ProofCommandFault;
use ab_hypothesis::steps::kernel::Proof;
use ab_hypothesis::{case, clear, cut, permute, rename};
use ab_logic::World;
use ab_norm::name::Name;
use ab_norm::types::Steps;
use ab_syntax::ProofCommand;
use std::alloc::{AllocError, Global};

/// How the first new hypothesis is named.
fn label_wanted(alloc: Global, label: Option<&Name>) -> Result<Label, AllocError>
    ensures { IfOk result (λ wanted. label_of wanted ≡ given_label (option_copied label.entry)) }
{
    match label {
        Some(name) => Ok(Label::Given(name.copy(alloc)?)),
        None => Ok(Label::Auto),
    }
}

/// Carries out a proof command at the first open goal, with the label before it. The premises of the command's row take
/// that goal's place. What is refused leaves the proof as it was.
pub fn apply_proof_command<L>(
    alloc: Global,
    world: &mut World,
    proof: &mut Proof,
    label: Option<&Name>,
    command: &ProofCommand,
    steps: &mut Steps<L>,
) -> Result<(), ProofCommandFault>
    requires world { IsWorld world.old }
    requires proof { IsProof world.old proof.old }
    requires open { goals_of world.old proof.old ≢ [] }
    requires row { HasRow (proof_command_of command.now) }
    ensures follows { Advances world.old proof.old world.new proof.new }
    ensures owes { OnOk result (OwesFor (proof_command_of command.now) world.old proof.old world.new proof.new) }
    ensures applied { IfOk result (λ u. IsApplied (given_label (option_copied label.entry)) (proof_command_of command.now) world.old proof.old world.new proof.new) }
    ensures refused { (fault : AFault) → result ≡ Err fault →
        IsRefused (given_label (option_copied label.entry)) (proof_command_of command.now) world.old proof.old fault }
    ensures unchanged { OnErr result (history_of world.new proof.new ≡ history_of world.old proof.old) }
    ensures steps { steps.old ≤ steps.new }
{
    let wanted = label_wanted(alloc, label)?;
    match command {
        ProofCommand::Intros(names) => intros(alloc, world, proof, names.as_slice(), steps),
        ProofCommand::Induction(places) => {
            induction(alloc, world, proof, &wanted, places.as_slice(), steps)
        }
        ProofCommand::Coinduction => coinduction(alloc, world, proof, &wanted, steps),
        ProofCommand::Case(name, keep) => case(alloc, world, proof, &wanted, name, *keep, steps),
        ProofCommand::Split => split(world, proof, steps),
        ProofCommand::SplitAll => split_all(world, proof, steps),
        ProofCommand::Left => left(world, proof, steps),
        ProofCommand::Right => right(world, proof, steps),
        ProofCommand::Unfold => unfold(alloc, world, proof, steps),
        ProofCommand::Exists(term) => exists(alloc, world, proof, term, steps),
        ProofCommand::Assert(formula) => assert(alloc, world, proof, &wanted, formula, steps),
        ProofCommand::Clear(names) => clear(alloc, world, proof, names.as_slice(), steps),
        ProofCommand::Rename(name, to) => rename(alloc, world, proof, name, to, steps),
        ProofCommand::Apply(name, arguments, given) => {
            let list = arguments.as_slice();
            let terms = given.as_slice();
            apply(alloc, world, proof, &wanted, name, list, terms, steps)
        }
        ProofCommand::Backchain(name, given) => {
            backchain(alloc, world, proof, name, given.as_slice(), steps)
        }
        ProofCommand::Permute(numbers, name) => {
            let order = numbers.as_slice();
            permute(alloc, world, proof, order, name.as_ref(), steps)
        }
        ProofCommand::Cut(name, other) => cut(alloc, world, proof, &wanted, name, other, steps),
        ProofCommand::Inst(name, given) => {
            inst(alloc, world, proof, &wanted, name, given.as_slice(), steps)
        }
        ProofCommand::Monotone(name, list) => {
            monotone(alloc, world, proof, &wanted, name, list, steps)
        }
        ProofCommand::Skip => skip(world, proof, steps),
        ProofCommand::Search(_) => unreachable!(),
    }
}
