//! No proof command makes a goal in which coinduction has marked a judgement.
ghost use Rattle.std.specs.Prelude.{◌≡◌, List, All};
ghost use Rattle.ab_grammar.specs.CommandTrees.{ProofCommand};
ghost use Rattle.ab_formulas.specs.Declarations.{Declarations, HaveSentences, HaveDefinitions};
ghost use Rattle.ab_formulas.specs.NamedGoals.{named};
ghost use Rattle.ab_formulas.specs.NewNames.{Label};
ghost use Rattle.ab_formulas.specs.Sequents.{Sequent, IsSequent};
ghost use Rattle.ab_search_answers.specs.Unmarked.{HaveNoHash};
ghost use Rattle.ab_effects.specs.ProofCommands.{effect};
ghost use Rattle.ab_effects.specs.Row.{Leads};
ghost use Rattle.ab_unhashed_goals.specs.Unhashed.{NoJudgementIsHashed, NoTheoremIsHashed};

/// NO PROOF COMMAND BRINGS ONE: where no judgement of a goal is marked as coinduction marks, nor one of a theorem or of a definition's body, none is
/// in the goals to which a proof command leads.
pub fn effects_bring_no_coinductive_judgement()
    ensures { (D : Declarations) → HaveSentences D → HaveDefinitions D → HaveNoHash D → NoTheoremIsHashed D → (l : Label) (command : ProofCommand) (s : Sequent) (ps : List Sequent) →
        IsSequent D s → NoJudgementIsHashed s → Leads (effect D l command s) ps → All NoJudgementIsHashed ps }
{}

/// NOR DO OTHER NUMBERS for a goal's variables.
pub fn numbers_bring_no_coinductive_judgement()
    ensures { (s t : Sequent) → named s ≡ named t → NoJudgementIsHashed s → NoJudgementIsHashed t }
{}
