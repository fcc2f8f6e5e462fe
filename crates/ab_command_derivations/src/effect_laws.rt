//! What a proof command does to a goal is derived from the goals to which it leads.
ghost use Rattle.std.specs.Prelude.{List};
ghost use Rattle.ab_grammar.specs.CommandTrees.{ProofCommand};
ghost use Rattle.ab_formulas.specs.Declarations.{Declarations};
ghost use Rattle.ab_formulas.specs.NewNames.{Label};
ghost use Rattle.ab_formulas.specs.Sequents.{Sequent, IsSequent};
ghost use Rattle.ab_effects.specs.Debts.{debts_at};
ghost use Rattle.ab_effects.specs.ProofCommands.{effect};
ghost use Rattle.ab_effects.specs.Row.{Leads};
ghost use Rattle.ab_derived_goals.specs.Derived.{AreSound, IsDerivedAlike};
ghost use Rattle.ab_command_derivations.specs.Readings.{ReadingsFit, NumbersHaveNames};

/// EACH EFFECT IS DERIVED: where a proof command leads from a goal to goals, the goal has a derivation from just these, with names for the numbers of
/// their variables, in which each step is taken by its rule, and which owes what the command owes.
pub fn each_effect_is_derived()
    ensures { (D : Declarations) → AreSound D → ReadingsFit D → NumbersHaveNames → (l : Label) (command : ProofCommand) (s : Sequent) (ps : List Sequent) → IsSequent D s →
        Leads (effect D l command s) ps → IsDerivedAlike D s ps (debts_at s command) }
{}
