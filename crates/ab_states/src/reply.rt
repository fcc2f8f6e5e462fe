//! What a session answers to a command.
ghost use Rattle.std.specs.Prelude.{◌≡◌};
ghost use Rattle.ab_logic.specs.declared.world.World.{World as AWorld};
ghost use Rattle.ab_states.specs.Reply.{reply_of, done};

use crate::names::Names;
use ab_specification::declare::Refusal;
use ab_store::TermId;
use ab_store::name::Name;

/// What a session answers to a command.
#[derive(Drop)]
pub enum Reply {
    Accepted,
    /// The last goal was closed: the theorem of this name is proved.
    Completed(Name),
    /// The last goal was closed: the theorem of this name assumes the theorems of these names, in order.
    Admitted(Name, Names),
    /// The theorem of this name has this formula.
    Shown(Name, TermId),
    /// The script ends here.
    Quit,
    Refused(Refusal),
}

impl Reply {
    /// The reply to the command that closed the last goal of this theorem, which assumes those of these names.
    pub fn done(name: Name, assumed: Vec<Name>) -> Reply
        ensures { (w : AWorld) → reply_of w result ≡ done name assumed.items }
    {
        if assumed.is_empty() {
            Reply::Completed(name)
        } else {
            Reply::Admitted(name, Names::from_vec(assumed))
        }
    }
}
