//! Laws of the states that sessions have, and of going back.
ghost use Rattle.std.specs.Prelude.{◌≡◌, ℕ, List};
ghost use Rattle.ab_sigmod.specs.FileLoads.{Load};
ghost use Rattle.ab_states.specs.State.{State, empty};
ghost use Rattle.ab_states.specs.Reply.{Reply};
ghost use Rattle.ab_states.specs.StateEffects.{HasEffect};
ghost use Rattle.ab_states.specs.Replay.{IsReplayed};
ghost use Rattle.ab_session.specs.Contents.{Contents};
ghost use Rattle.ab_session.specs.Origins.{CameFrom, IsSession, Precedes, IsSame};
ghost use Rattle.ab_session.specs.Lasting.{Lasts};

/// The state in which a session begins, and the state behind each command, is the one that its kept commands lead to.
pub fn kept_commands_replay()
    ensures begins { IsReplayed empty }
    ensures goes_on { (s t : State) (bytes : List ℕ) (loads : List Load) (reply : Reply) → IsReplayed s → HasEffect s bytes loads reply t → IsReplayed t }
{}

/// A session came from one session by its last kept command, to each node, cell, type, declaration and step of a proof, but for
/// room: so what is kept of a command determines where going back leads.
pub fn a_session_came_from_one()
    ensures { (d e s : Contents) → CameFrom d s → CameFrom e s → IsSame d e }
{}

/// What a session holds lasts in all that come from it: each id of its world reads there as it did, and each theorem has the derivation that
/// it had. So going back changes no reading and no derivation of what was there.
pub fn earlier_sessions_last()
    ensures { (s t : Contents) → IsSession t → Precedes s t → Lasts s t }
{}
