//! States that derivations bear out.
ghost use Rattle.std.specs.Prelude.{◌≡◌, ℕ, List, All, Some};
ghost use Rattle.ab_formulas.specs.NamedGoals.{Goal, IsNumbered};
ghost use Rattle.ab_formulas.specs.Sequents.{Sequent};
ghost use Rattle.ab_sigmod.specs.FileLoads.{Load};
ghost use Rattle.ab_states.specs.State.{Attempt, State, empty};
ghost use Rattle.ab_states.specs.Reply.{Reply};
ghost use Rattle.ab_states.specs.Replay.{IsReplayed};
ghost use Rattle.ab_states.specs.StateEffects.{HasEffect};
ghost use Rattle.ab_determinism.specs.Sound.{IsSound};
ghost use Rattle.ab_state_derivations.specs.DerivedStates.{HasDerivations, HasHistory, SearchIsDerived, IsTrueOf};

/// EFFECTS KEEP DERIVATIONS: a session begins in a state that derivations bear out, with each state that was passed through, and each command that
/// has an effect leads to such a state, and tells of theorems what is true. And each goal of the open proof of such a state is a sequent, with names
/// for the numbers of its variables.
pub fn effects_keep_derivations()
    ensures beginning { HasHistory empty }
    ensures kept { (s t : State) (bytes : List ℕ) (loads : List Load) (r : Reply) → IsSound s → IsReplayed s → HasHistory s → HasEffect s bytes loads r t → HasHistory t }
    ensures told { (s t : State) (bytes : List ℕ) (loads : List Load) (r : Reply) → IsSound s → IsReplayed s → HasHistory s → HasEffect s bytes loads r t → IsTrueOf t r }
    ensures here { (s : State) → IsReplayed s → HasHistory s → HasDerivations s }
    ensures sequents { (s : State) (a : Attempt) → IsSound s → HasDerivations s → s.attempt ≡ Some a → All (λ (g : Goal). (t : Sequent) × IsNumbered s.declarations g t) a.goals }
{}

/// In a session a search closes only goals that are derived.
pub fn what_a_session_closes_by_search_is_derived()
    ensures { (s : State) (bytes : List ℕ) → IsSound s → IsReplayed s → SearchIsDerived s bytes }
{}
