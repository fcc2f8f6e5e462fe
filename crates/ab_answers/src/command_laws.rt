//! Each proof command leads to goals or is refused.
ghost use Rattle.std.specs.Prelude.{ℕ, ◌<◌, ◌^◌, List, length};
ghost use Rattle.ab_grammar.specs.CommandTrees.{ProofCommand};
ghost use Rattle.ab_formulas.specs.Declarations.{Declarations, HaveDefinitions};
ghost use Rattle.ab_formulas.specs.NewNames.{Label};
ghost use Rattle.ab_formulas.specs.Sequents.{Sequent, IsSequent};
ghost use Rattle.ab_meaning.specs.Refusals.{Refusal};
ghost use Rattle.ab_effects.specs.ProofCommands.{effect, IsNamedBy};
ghost use Rattle.ab_effects.specs.Row.{Leads, Refuses};
ghost use Rattle.ab_search_trees.specs.Outcomes.{Outcome, ComesTo};
ghost use Rattle.ab_existence.specs.Certainty.{IsCertain, OneHolds};
ghost use Rattle.ab_answers.specs.FindsNames.{FindsNames};

/// A HYPOTHESIS OF INDUCTION FINDS A NAME for its word, where there are fewer than 2 ^ 99 hypotheses.
pub fn hypotheses_of_induction_find_names()
    ensures { (word : List ℕ) (l : Label) (s : Sequent) → length s.hypotheses < 2 ^ 99 → IsCertain ((name : List ℕ) × IsNamedBy word l s name) }
{}

/// EACH PROOF COMMAND LEADS OR IS REFUSED by its row, at each sequent, whatever it is given, where names are found for all that it
/// makes.
pub fn each_proof_command_leads_or_is_refused()
    ensures { (D : Declarations) (l : Label) (command : ProofCommand) (s : Sequent) → IsSequent D s → FindsNames D command s →
        OneHolds ((ps : List Sequent) × Leads (effect D l command s) ps) ((f : Refusal) × Refuses (effect D l command s) f) }
{}

/// EACH SEARCH COMES TO AN OUTCOME, at each sequent and to each depth: so `search`, which has no row, closes the goal or is refused.
pub fn each_search_comes_to_an_outcome()
    ensures { (D : Declarations) (depth : ℕ) (s : Sequent) → HaveDefinitions D → IsSequent D s → (o : Outcome) × ComesTo D depth s o }
{}
