//! Each command has one effect on a state.
ghost use Rattle.std.specs.Prelude.{◌≡◌, ◌++◌, ℕ, List};
ghost use Rattle.ab_sigmod.specs.FileLoads.{Load};
ghost use Rattle.ab_states.specs.State.{State, Entry, empty};
ghost use Rattle.ab_states.specs.Reply.{Reply};
ghost use Rattle.ab_states.specs.StateEffects.{HasEffect};
ghost use Rattle.ab_states.specs.Replay.{Replays};
ghost use Rattle.ab_determinism.specs.Sound.{AreSound, IsSound};

/// The bytes of a command have one effect on a state, whatever it takes back, where loads begin alike: one reply, one state
/// behind it, and one front of the loads that the command asks for. What numbers a goal's variables are given meanwhile makes
/// no difference, since a state speaks of names alone. What was declared is to be sound, as it is in each state that a session
/// reaches.
pub fn commands_have_one_effect()
    ensures replies { (s : State) (bytes : List ℕ) (loads others rest more : List Load) (r q : Reply) (t u : State) → AreSound s.declarations → loads ++ rest ≡ others ++ more
        → HasEffect s bytes loads r t → HasEffect s bytes others q u → r ≡ q }
    ensures states { (s : State) (bytes : List ℕ) (loads others rest more : List Load) (r q : Reply) (t u : State) → AreSound s.declarations → loads ++ rest ≡ others ++ more
        → HasEffect s bytes loads r t → HasEffect s bytes others q u → t ≡ u }
    ensures loads { (s : State) (bytes : List ℕ) (loads others rest more : List Load) (r q : Reply) (t u : State) → AreSound s.declarations → loads ++ rest ≡ others ++ more
        → HasEffect s bytes loads r t → HasEffect s bytes others q u → loads ≡ others }
{}

/// A session begins in a sound state, and effects keep states sound: what is declared is, and a formula that is being proved
/// is a sentence.
pub fn effects_keep_states_sound()
    ensures kept { (s : State) (bytes : List ℕ) (loads : List Load) (r : Reply) (t : State) → IsSound s → HasEffect s bytes loads r t → IsSound t }
    ensures beginning { IsSound empty }
{}

/// So replaying commands leads to one state.
pub fn commands_replay_to_one_state()
    ensures { (s t u : State) (commands : List Entry) → IsSound s → Replays s commands t → Replays s commands u → t ≡ u }
{}
