//! A formula in which nominal constants changed places stands for the formula, and steps by what stands for another are allowed.
ghost use Rattle.std.specs.Prelude.{◌≡◌, ◌≤◌, ℕ, List, [], ◌++◌, map, length, All, Contains, Option, Some, None, IfSome};
ghost use Rattle.ab_formulas.specs.Marks.{MarksServeIn};
ghost use Rattle.ab_theory.specs.Pieces.{Given, pieces, behind, antecedent_count, AllServe};
ghost use Rattle.ab_theory.proofs.RulesParts.{MayStand};
ghost use Rattle.ab_effects.specs.FormulaUses.{using};
ghost use Rattle.ab_effects.specs.ProofCommands.{repeated};
ghost use Rattle.ab_consequences.specs.UseRows.{AreFitting};
ghost use Rattle.ab_unifiers.specs.Replacements.{Cell};
ghost use Rattle.ab_theory.specs.Equations.{AreCells, made};
ghost use Rattle.ab_theory.specs.Derivations.{Derivation};
ghost use Rattle.ab_theory.proofs.Sequents.{IsGoal};
ghost use Rattle.ab_search_proofs.specs.Whole.{IsWhole};
ghost use Rattle.ab_theory.specs.UseAnswers.{Using, IsFirst, IsSolvedBy, IsUsedFor};
ghost use Rattle.ab_theory.specs.Uses.{given_constants};
ghost use Rattle.ab_consequences.specs.Leading.{Stage, LeadsBy, HasNamed};
ghost use Rattle.ab_consequences.specs.UsesFollow.{MayUse, IsLeftIn, StagesLead};
ghost use Rattle.ab_consequences.specs.UseStages.{stages_of, stage_under};
ghost use Rattle.ab_consequences.specs.NewConstants.{constants_for, pairs_for};
ghost use Rattle.ab_term.specs.Types.{Ty};
ghost use Rattle.ab_term.specs.Terms.{Nominal, Read};
ghost use Rattle.ab_term.specs.Names.{permute, HasOneTypeEach};
ghost use Rattle.ab_term.specs.Variables.{at_once};
ghost use Rattle.ab_term.specs.Sameness.{same_number};
ghost use Rattle.ab_unifiers.specs.Choices.{in_order};
ghost use Rattle.ab_formulas.specs.Cycles.{MayCycle, type_among, cycle};
ghost use Rattle.ab_formulas.specs.Declarations.{Declarations, signature_in};
ghost use Rattle.ab_formulas.specs.NewNames.{given};
ghost use Rattle.ab_formulas.specs.Sequents.{Variable, Sequent, IsSequent, formula_of, formulas_of, goal_names, proving, assuming};
ghost use Rattle.ab_theory.specs.Steps.{initial, cut_formula};
ghost use Rattle.ab_consequences.specs.Standing.{StandsFor, IsAllowed};

/// Where some numbers of nominal constants change places at the type at which one of them stands, each formula of the goal is one
/// of the goal still, and stands for what it was.
pub fn permuted_formulas_stand()
    ensures { (D : Declarations) (s : Sequent) (ns : List ℕ) (A : Ty) (F : Read) → IsSequent D s → MayCycle ns (goal_names s) →
        type_among ns (goal_names s) ≡ Some A → Contains (formulas_of s) F → StandsFor D s (permute (cycle A ns) F) F }
{}

/// A formula that stands for another may be cut in under a new name; a hypothesis with the other closes the goal that asks for it, and
/// as a hypothesis it closes the goal that asks for the other.
pub fn what_stands_for_a_formula_follows()
    ensures cut { (D : Declarations) (s : Sequent) (F G : Read) (y : List ℕ) → StandsFor D s F G → formula_of s y ≡ None → IsAllowed D (cut_formula F (given y)) s }
    ensures from { (D : Declarations) (s : Sequent) (F G : Read) (x : List ℕ) → StandsFor D s F G → formula_of s x ≡ Some G → IsAllowed D (initial x) (proving F s) }
    ensures back { (D : Declarations) (s : Sequent) (F : Read) (y : List ℕ) → StandsFor D s F s.conclusion → formula_of s y ≡ None → IsAllowed D (initial y) (assuming y F s) }
{}

/// WHAT A FORMULA LEADS TO FOLLOWS: a goal that has the formula, with hypotheses that meet its antecedents, and that asks for what the
/// formula leads to, has a derivation in which each step is taken by its rule, no goal is open, and nothing is owed.
pub fn what_a_formula_leads_to_follows()
    ensures { (D : Declarations) (N : List Nominal) (cells : List (Cell (List ℕ))) (ss : List Stage) (F : Read) (Hs : List Read) (k : Sequent) (x : List ℕ) (zs : List (List ℕ)) →
        HasOneTypeEach N → IsGoal D N k → AreCells cells k → LeadsBy (signature_in D) k.variables N ss F Hs k.conclusion →
        formula_of k x ≡ Some F → HasNamed k zs Hs → (d : Derivation) × IsWhole D k d }
{}

/// WHAT A USE LEADS TO FOLLOWS: where a formula may be used so and this is left of it, each goal that has the formula, what is given for
/// its antecedents and what is awaited, and that asks for what the use is for, has a derivation in which each step is taken by its
/// rule, no goal is open, and nothing is owed.
pub fn what_a_use_leads_to_follows()
    ensures { (D : Declarations) (u : Using) (K : Read) → MayUse D u → IsUsedFor u K →
        (k : Sequent) (x : List ℕ) (zs : List (List ℕ)) → IsLeftIn u K k x zs → (d : Derivation) × IsWhole D k d }
{}

/// NEW CONSTANTS FILL WHAT A USE LEAVES OPEN: with the least numbers that no constant has which is known, one after another, for
/// the variables that are left open, the formula leads to what the use is for by the stages of its parts. Put in one by one the
/// constants are the one substitution.
pub fn new_constants_fill_what_a_use_leaves_open()
    ensures leads { (D : Declarations) (cells : List (Cell (List ℕ))) (u : Using) (names known : List Nominal) (K : Read) → MayUse D u → AreCells cells u.goal →
        IsFirst cells u names → (is : IsSolvedBy cells u names K []) →
        ((a : Nominal) → Contains (names ++ (goal_names u.goal ++ given_constants u.parts)) a → Contains known a) →
        StagesLead D u K (constants_for known (made cells is.more is.answer) ++ (names ++ (goal_names u.goal ++ given_constants u.parts)))
        (map (stage_under (pairs_for known (made cells is.more is.answer))) (map (stage_under is.answer) (stages_of (in_order (goal_names u.goal)) (length cells) u.parts names))) }
    ensures one_by_one { (known : List Nominal) (ys : List Variable) → at_once same_number (pairs_for known ys) ≡ pairs_for known ys }
{}

/// WHAT `apply` AND `backchain` ASK says that the formula may be used so: it is one of the goal or a theorem, the terms that are given
/// fit, there are antecedents for all that is given, and the marks of what is given serve.
pub fn what_is_asked_of_a_use_suffices()
    ensures apply { (D : Declarations) (s : Sequent) (F : Read) (n : ℕ) (gs : List Given) (hs : List (Option Read)) →
        IsSequent D s → MayStand (signature_in D) s.variables (goal_names s) F → AreFitting D s (pieces n F) gs → n ≤ antecedent_count F →
        All (λ o. IfSome o (MayStand (signature_in D) s.variables (goal_names s))) hs → length hs ≡ n → AllServe (pieces n F) hs →
        MayUse D (using s gs (pieces n F) (record { hypotheses = hs; conclusion = None }) F) }
    ensures backchain { (D : Declarations) (s : Sequent) (F : Read) (n : ℕ) (gs : List Given) →
        IsSequent D s → MayStand (signature_in D) s.variables (goal_names s) F → AreFitting D s (pieces n F) gs → n ≤ antecedent_count F →
        MarksServeIn s.conclusion (behind n F) →
        MayUse D (using s gs (pieces n F) (record { hypotheses = repeated n; conclusion = Some s.conclusion }) F) }
{}
