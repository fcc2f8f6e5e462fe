//! A proof command that an attempt takes, up to the theorem.
ghost use Rattle.std.specs.Prelude.{◌≡◌, ◌++◌, ◌∷◌, [], ℕ, None, length, IfOk, OnOk, OnErr};
ghost use Rattle.std.specs.Option.{option_copied};
ghost use Rattle.ab_syntax.specs.Commands.{proof_command_of};
ghost use Rattle.ab_formulas.specs.Declarations.{ArePlacesUpTo, a_theorem, names_at, signature_in, theorem_in, theorems_in};
ghost use Rattle.ab_formulas.specs.Formulas.{IsSentence};
ghost use Rattle.ab_logic.specs.WorldGrowth.{Grows};
ghost use Rattle.ab_logic.specs.Worlds.{read, Holds, declarations_of, IsWorld};
ghost use Rattle.ab_effects.specs.ProofCommands.{given_label};
ghost use Rattle.ab_theory.specs.Assumptions.{assumed_by};
ghost use Rattle.ab_proofcmd.specs.ab_hypothesis.specs.ab_steps.specs.ab_kernel.specs.Layout.{history_of};
ghost use Rattle.ab_states.specs.Reply.{reply_of, done};
ghost use Rattle.ab_session.specs.Sessions.{IsTried};
ghost use Rattle.ab_session.specs.ProofAttempts.{IsUnchanged, Advanced};

use crate::assumptions::{assumed_places, names_of};
use crate::attempt::Attempt;
use crate::proof_steps::carry_out;
use ab_logic::{DefineFault, World};
use ab_proofcmd::hypothesis::steps::take_back;
use ab_states::Reply;
use ab_states::specification::declare::{Moment, Refusal};
use ab_store::TermId;
use ab_store::name::Name;
use ab_store::types::Steps;
use ab_syntax::ProofCommand;
use std::alloc::{AllocError, Global};

/// What a proof command led to.
#[derive(Drop)]
pub(crate) enum Outcome {
    Refused(Refusal),
    /// Goals are left.
    Left,
    /// No goal is left, and the theorem is added, which is answered so.
    Completed(Reply),
}

/// Adds a theorem of a new name, which assumes those of these places.
fn add_theorem(
    alloc: Global,
    world: &mut World,
    name: &Name,
    formula: TermId,
    assumed: Vec<usize>,
) -> Result<(), AllocError>
    requires world { IsWorld world.old }
    requires formula { Holds world.old formula }
    requires sentence { IsSentence (signature_in (declarations_of world.old)) (read world.old formula) }
    requires new_name { theorem_in (declarations_of world.old) name.now ≡ None }
    requires places { ArePlacesUpTo (length (theorems_in (declarations_of world.old))) assumed.items }
    ensures added { OnOk result (declarations_of world.new ≡ declarations_of world.old ++ a_theorem name.now (read world.old formula) assumed.items ∷ []) }
    ensures grows { OnOk result (Grows world.old world.new) }
    ensures err { OnErr result (world.new ≡ world.old) }
{
    match world.add_theorem(name.copy(alloc)?, formula, assumed) {
        Ok(()) => Ok(()),
        Err(DefineFault::Memory(fault)) => Err(fault),
        Err(DefineFault::Clash(_)) => unreachable!(),
        Err(DefineFault::NotStratified(_)) => unreachable!(),
        Err(DefineFault::BadHead(_)) => unreachable!(),
    }
}

/// Adds the theorem whose last goal is closed, with what it assumes: the reply that tells of it.
fn conclude(alloc: Global, world: &mut World, attempt: &Attempt) -> Result<Reply, AllocError>
    requires world { IsWorld world.old }
    requires formula { Holds world.old attempt.now.formula }
    requires sentence { IsSentence (signature_in (declarations_of world.old)) (read world.old attempt.now.formula) }
    requires new_name { theorem_in (declarations_of world.old) attempt.now.name ≡ None }
    ensures added { OnOk result (declarations_of world.new ≡ declarations_of world.old
        ++ a_theorem attempt.now.name (read world.old attempt.now.formula) (assumed_by (declarations_of world.old) (history_of world.old attempt.now.proof).tree) ∷ []) }
    ensures replied { IfOk result (λ r. reply_of world.new r
        ≡ done attempt.now.name (names_at (declarations_of world.new) (assumed_by (declarations_of world.old) (history_of world.old attempt.now.proof).tree))) }
    ensures grows { OnOk result (Grows world.old world.new) }
    ensures err { OnErr result (world.new ≡ world.old) }
{
    let places = assumed_places(alloc, world, &attempt.proof)?;
    let names = names_of(alloc, world, &attempt.name, &places)?;
    let name = attempt.name.copy(alloc)?;
    add_theorem(alloc, world, &attempt.name, attempt.formula, places)?;
    Ok(Reply::done(name, names))
}

/// Carries out a proof command on an attempt. Where no goal is left of it, the theorem is added to the world. What is
/// refused leaves both as they were, and so does want of memory.
pub(crate) fn advance<L>(
    alloc: Global,
    world: &mut World,
    attempt: &mut Attempt,
    label: Option<&Name>,
    command: &ProofCommand,
    steps: &mut Steps<L>,
) -> Result<Outcome, AllocError>
    requires world { IsWorld world.old }
    requires attempt { IsTried world.old attempt.old }
    ensures advanced { IfOk result (Advanced (given_label (option_copied label.entry)) (proof_command_of command.now) world.old attempt.old world.new attempt.new) }
    ensures err { OnErr result (IsUnchanged world.old attempt.old world.new attempt.new) }
{
    let moment = Moment::of(world);
    let standing = attempt.proof.steps();
    let refused = carry_out(alloc, world, &mut attempt.proof, label, command, steps)?;
    if let Some(refusal) = refused {
        moment.cut_back(world, steps);
        return Ok(Outcome::Refused(refusal));
    }
    if !attempt.proof.is_closed() {
        return Ok(Outcome::Left);
    }
    match conclude(alloc, world, attempt) {
        Ok(reply) => Ok(Outcome::Completed(reply)),
        Err(fault) => {
            take_back(world, &mut attempt.proof, standing, steps);
            Err(fault)
        }
    }
}
