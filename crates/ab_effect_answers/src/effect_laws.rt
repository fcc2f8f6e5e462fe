//! Each command has an effect.
ghost use Rattle.std.specs.Prelude.{ℕ, List};
ghost use Rattle.ab_sigmod.specs.FileLoads.{FilesSeen};
ghost use Rattle.ab_states.specs.State.{State};
ghost use Rattle.ab_existence.specs.Certainty.{IsCertain};
ghost use Rattle.ab_effect_answers.specs.WholeStates.{IsWhole};
ghost use Rattle.ab_effect_answers.specs.SomeEffects.{CommandFindsNames, HasSomeEffect};

/// EACH COMMAND HAS AN EFFECT on each whole state, whatever its bytes say and whatever is told of the files: there is a reply and a
/// next state, where names are found for all that a proof command makes.
pub fn each_command_has_an_effect()
    ensures { (before : FilesSeen) (s : State) (bytes : List ℕ) → IsWhole s → CommandFindsNames s bytes → IsCertain (HasSomeEffect before s bytes) }
{}
