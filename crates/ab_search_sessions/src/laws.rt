//! What is asked where an answer is a proof, of a session: no formula of its states says a judgement that coinduction marks, and `member` is defined.

ghost use Rattle.std.specs.Prelude.{◌≡◌, ℕ, List, ◌++◌, Some, Contains};
ghost use Rattle.ab_grammar.specs.CommandTrees.{Command};
ghost use Rattle.ab_formulas.specs.Declarations.{Declarations, Extends};
ghost use Rattle.ab_formulas.specs.NamedGoals.{Goal, IsNumbered};
ghost use Rattle.ab_formulas.specs.Sequents.{Sequent};
ghost use Rattle.ab_theory.specs.Derivations.{Derivation};
ghost use Rattle.ab_logic.specs.Worlds.{first_declarations};
ghost use Rattle.ab_declare.specs.DeclarationCommands.{Declares};
ghost use Rattle.ab_specification.specs.FileDeclarations.{PlacedItem, AllDeclare};
ghost use Rattle.ab_search_trees.specs.Outcomes.{closed, ComesTo};
ghost use Rattle.ab_search_proofs.specs.Whole.{IsWhole};
ghost use Rattle.ab_search_layers.specs.Layered.{MemberIsDefined};
ghost use Rattle.ab_search_answers.specs.Unmarked.{HaveNoHash};
ghost use Rattle.ab_states.specs.State.{Attempt, State, Entry, empty};
ghost use Rattle.ab_states.specs.Replay.{Replays};
ghost use Rattle.ab_search_sessions.specs.UnhashedStates.{IsUnhashedState};

/// WHAT IS BUILT IN has none.
pub fn what_is_built_in_has_no_coinductive_judgement()
    ensures { HaveNoHash first_declarations }
{}

/// WHAT A COMMAND DECLARES brings none.
pub fn commands_declare_no_coinductive_judgement()
    ensures { (D more : Declarations) (c : Command) → Declares D c more → HaveNoHash D → HaveNoHash (D ++ more) }
{}

/// NOR DO the files of a specification.
pub fn files_declare_no_coinductive_judgement()
    ensures { (D more : Declarations) (items : List PlacedItem) → AllDeclare D items more → HaveNoHash D → HaveNoHash (D ++ more) }
{}

/// `member` stays defined as it is built in, whatever is declared behind.
pub fn member_stays_defined()
    ensures { (D : Declarations) → Extends first_declarations D → MemberIsDefined D }
{}

/// NO FORMULA OF A SESSION'S STATE says such a judgement, whatever commands it keeps: no body of a definition, no theorem, and no formula of a goal.
pub fn sessions_have_no_coinductive_judgement()
    ensures { (es : List Entry) (t : State) → Replays empty es t → IsUnhashedState t }
{}

/// WHAT `search` CLOSES IN A SESSION IS DERIVED: nothing is asked of what is declared, nor of the goal of the open proof that it closes.
pub fn what_search_closes_in_a_session_is_derived()
    ensures { (es : List Entry) (t : State) (a : Attempt) (g : Goal) (depth : ℕ) (s : Sequent) → Replays empty es t → t.attempt ≡ Some a → Contains a.goals g → IsNumbered t.declarations g s →
        ComesTo t.declarations depth s closed → (d : Derivation) × IsWhole t.declarations s d }
{}
