//! The block that answers a command.
ghost use Rattle.std.specs.Prelude.{◌≡◌, ◌++◌, [], map, length, OnOk, IfOk, IfSome};
ghost use Rattle.std.specs.Option.{option_copied};
ghost use Rattle.ab_term.specs.Variables.{variables};
ghost use Rattle.ab_logic.specs.Worlds.{IsWorld};
ghost use Rattle.ab_states.specs.ab_kernel.specs.Layout.{IsProof};
ghost use Rattle.ab_states.specs.State.{State, goals_of, goals_in};
ghost use Rattle.ab_states.specs.Reply.{SpeaksOfNoGoal, reply_of};
ghost use Rattle.ab_blocks.specs.Blocks.{text, block};

use crate::goals::write_goals;
use crate::refusals::{write_names, write_refusal};
use ab_logic::World;
use ab_print::{show_reply, show_term};
use ab_states::Reply;
use ab_states::kernel::Proof;
use std::alloc::{AllocError, Global};

/// Appends what stands behind the number of kept commands.
fn write_text(
    alloc: Global,
    world: &World,
    reply: &Reply,
    out: &mut Vec<u8>,
) -> Result<(), AllocError>
    requires world { IsWorld world.now }
    requires reply { SpeaksOfNoGoal world.now reply.now }
    ensures { OnOk result (out.new.items ≡ out.old.items ++ text (reply_of world.now reply.now)) }
{
    match reply {
        Reply::Accepted => Ok(()),
        Reply::Completed(name) => {
            out.extend_from_slice(b"Proof completed: ")?;
            out.extend_from_slice(name.as_str().as_bytes())?;
            out.push(b'.')?;
            Ok(())
        }
        Reply::Admitted(name, assumed) => {
            out.extend_from_slice(b"Proof completed, assuming")?;
            write_names(assumed.as_slice(), out)?;
            out.extend_from_slice(b": ")?;
            out.extend_from_slice(name.as_str().as_bytes())?;
            out.push(b'.')?;
            Ok(())
        }
        Reply::Shown(name, formula) => {
            out.extend_from_slice(name.as_str().as_bytes())?;
            out.extend_from_slice(b" : ")?;
            show_term(alloc, world, *formula, out)
        }
        Reply::Quit => out.extend_from_slice(b"Quit."),
        Reply::Refused(refusal) => write_refusal(refusal, out),
    }
}

/// The block of a reply, where so many commands are kept and the proof, if one is open, is this one.
pub fn block(
    alloc: Global,
    world: &World,
    kept: usize,
    reply: &Reply,
    proof: Option<&Proof>,
    all_subgoals: bool,
) -> Result<Vec<u8>, AllocError>
    requires world { IsWorld world.now }
    requires reply { SpeaksOfNoGoal world.now reply.now }
    requires proof { IfSome (option_copied proof) (IsProof world.now) }
    ensures { (s : State) → length s.kept ≡ kept → s.all_subgoals ≡ all_subgoals → goals_of s ≡ goals_in world.now (option_copied proof.entry) →
        IfOk result (λ b. b.items ≡ block (reply_of world.now reply.now) s) }
{
    let mut line = Vec::new(alloc);
    write_text(alloc, world, reply, &mut line)?;
    let mut out = Vec::new(alloc);
    show_reply(alloc, kept, &line, &mut out)?;
    if let Some(proof) = proof {
        write_goals(alloc, world, proof, all_subgoals, &mut out)?;
    }
    Ok(out)
}
