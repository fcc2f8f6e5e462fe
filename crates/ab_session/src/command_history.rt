//! Commands that are kept, and what it takes to go back before each.
ghost use Rattle.std.specs.Prelude.{◌≡◌, ◌<◌, [], ◌∷◌, ◌++◌, None, is_some, IfOk, OnOk, vec_len, vec_capacity};
ghost use Rattle.std.specs.List.{list_any};
ghost use Rattle.ab_session.specs.declared.command_history.Kept.{Kept as AKept};

use crate::attempt::Attempt;
use ab_sigmod::Spec;
use ab_states::specification::declare::Moment;
use ab_store::TermId;
use ab_store::name::Name;
use std::alloc::{AllocError, Global};

/// How a session was before a command, so far as it takes to go back there.
#[derive(Clone, Copy)]
pub struct Before {
    /// How much the world held.
    pub(crate) moment: Moment,
    /// How many steps stood in the open proof.
    pub(crate) steps: usize,
    pub(crate) all_subgoals: bool,
}

/// What a command did with the open proof.
#[derive(Drop)]
pub enum Deed {
    /// It went on with it, where one was open.
    Went,
    /// It began it.
    Began,
    /// It completed it, and the theorem of this name states this.
    Completed(Name, TermId),
    /// It gave it up.
    GaveUp(Attempt),
}

/// A kept command.
#[derive(Drop)]
pub struct Kept {
    pub(crate) bytes: Vec<u8>,
    /// The specification that it read, if it read one.
    pub(crate) spec: Option<Spec>,
    pub(crate) before: Before,
    pub(crate) deed: Deed,
}

/// Makes room for one command more, and a copy of the bytes of this one.
pub(crate) fn make_room(
    alloc: Global,
    kept: &mut Vec<Kept>,
    command: &[u8],
) -> Result<Vec<u8>, AllocError>
    ensures command { IfOk result (λ bytes. bytes.items ≡ command.now) }
    ensures kept { kept.new.items ≡ kept.old.items }
    ensures room { OnOk result (vec_len kept.new < vec_capacity kept.new) }
{
    kept.reserve(1)?;
    Vec::from_slice(alloc, command)
}

/// Keeps a command that read no file, in the room that was made for it.
pub(crate) fn keep(kept: &mut Vec<Kept>, bytes: Vec<u8>, before: Before, deed: Deed)
    requires { vec_len kept.old < vec_capacity kept.old }
    ensures { kept.new.items ≡ kept.old.items ++ record { bytes = bytes; spec = None; before = before; deed = deed } ∷ [] }
{
    kept.push_reserved(Kept {
        bytes,
        spec: None,
        before,
        deed,
    });
}

/// Whether one of the commands read a specification.
pub(crate) fn reads_files(kept: &[Kept]) -> bool
    ensures { result ≡ list_any (λ (k : AKept). is_some k.spec) kept.now }
{
    for command in kept {
        if command.spec.is_some() {
            return true;
        }
    }
    false
}
