//! Each proof command has one answer at a goal.
ghost use Rattle.std.specs.Prelude.{◌≡◌, ℕ, List, map};
ghost use Rattle.ab_term.specs.Terms.{Read};
ghost use Rattle.ab_grammar.specs.CommandTrees.{ProofCommand, search};
ghost use Rattle.ab_unifiers.specs.Member.{HasMember};
ghost use Rattle.ab_formulas.specs.Declarations.{Declarations, HaveDefinitions, HaveSentences, signature_in};
ghost use Rattle.ab_formulas.specs.Programs.{HavePrograms};
ghost use Rattle.ab_formulas.specs.NewNames.{Label};
ghost use Rattle.ab_formulas.specs.Sequents.{Sequent, IsSequent};
ghost use Rattle.ab_theory.specs.UseAnswers.{Using, IsUsedFor, NothingMatches, IsOutsideAt, IsLeftOpen};
ghost use Rattle.ab_formulas.specs.NamedGoals.{with_names, named};
ghost use Rattle.ab_infer.specs.Lists.{HasLists};
ghost use Rattle.ab_effects.specs.ProofCommands.{effect};
ghost use Rattle.ab_meaning.specs.Refusals.{Refusal};
ghost use Rattle.ab_effects.specs.Row.{Leads, Refuses};
ghost use Rattle.ab_states.specs.ab_specification.specs.ab_declare.specs.declared.refusal.Refusal.{Refusal as Told};
ghost use Rattle.ab_states.specs.ProofCommandEffects.{Makes, Denies};
ghost use Rattle.ab_determinism.specs.OpeningCommands.{OpensNothing};
ghost use Rattle.ab_determinism.specs.UsesByNames.{IsSameUse};

/// A proof command that opens no formula, unfolds none and uses none by its instances has one answer at a goal: where it leads
/// to goals it isn't refused, it is refused for one cause at most, and the goals are one list. So each refusal comes exactly
/// where what it speaks of is the first of what is asked that isn't there.
pub fn proof_commands_have_one_answer()
    ensures apart { (D : Declarations) (l : Label) (command : ProofCommand) (s : Sequent) (ps : List Sequent) (f : Refusal) → OpensNothing command →
        Leads (effect D l command s) ps → Refuses (effect D l command s) f → ⊥ }
    ensures one_refusal { (D : Declarations) (l : Label) (command : ProofCommand) (s : Sequent) (f g : Refusal) → OpensNothing command →
        Refuses (effect D l command s) f → Refuses (effect D l command s) g → f ≡ g }
    ensures one_list { (D : Declarations) (l : Label) (command : ProofCommand) (s : Sequent) (ps qs : List Sequent) → OpensNothing command →
        Leads (effect D l command s) ps → Leads (effect D l command s) qs → ps ≡ qs }
{}

/// EACH PROOF COMMAND HAS ONE ANSWER at a sequent, also where it opens formulas, takes the conclusion apart, splits the goal by
/// a defined atom or a judgement, unfolds one or uses a formula by its instances: it leads to goals or is refused, for one cause, and the
/// goals are one list with names for the numbers of their variables. A new variable may have any number that is free. The
/// numbers of the sequent's own variables change nothing either: the answer is one at any two sequents that are one goal with
/// names for numbers. What is defined is to be defined by clauses of case analysis, the program's clauses are to be typed, theorems
/// are to be sentences, the sign `::` is to be the constant that makes lists, and `member` to be typed.
pub fn every_proof_command_has_one_answer()
    ensures apart { (D : Declarations) (l : Label) (command : ProofCommand) (s u : Sequent) (ps : List Sequent) (f : Refusal) → HasLists D → HaveSentences D → HaveDefinitions D → HavePrograms D → HasMember (signature_in D) → IsSequent D s → IsSequent D u → named s ≡ named u →
        Leads (effect D l command s) ps → Refuses (effect D l command u) f → ⊥ }
    ensures one_refusal { (D : Declarations) (l : Label) (command : ProofCommand) (s u : Sequent) (f g : Refusal) → HasLists D → HaveSentences D → HaveDefinitions D → HavePrograms D → HasMember (signature_in D) → IsSequent D s → IsSequent D u → named s ≡ named u →
        Refuses (effect D l command s) f → Refuses (effect D l command u) g → f ≡ g }
    ensures one_list { (D : Declarations) (l : Label) (command : ProofCommand) (s u : Sequent) (ps qs : List Sequent) → HasLists D → HaveSentences D → HaveDefinitions D → HavePrograms D → HasMember (signature_in D) → IsSequent D s → IsSequent D u → named s ≡ named u →
        Leads (effect D l command s) ps → Leads (effect D l command u) qs → map named ps ≡ map named qs }
{}

/// A SEARCH HAS ONE ANSWER, though it has no row: in two goals that are the same with names for numbers it doesn't close one and
/// get refused in the other, and it is refused for at most one cause.
pub fn searches_have_one_answer()
    ensures apart { (D : Declarations) (l : Label) (depth : ℕ) (s u : Sequent) (ps : List Sequent) (r : Told) → HaveDefinitions D → HavePrograms D → IsSequent D s → IsSequent D u → named s ≡ named u →
        Makes D l (search depth) s ps → Denies D l (search depth) u r → ⊥ }
    ensures one_refusal { (D : Declarations) (l : Label) (depth : ℕ) (s u : Sequent) (r q : Told) → HaveDefinitions D → HavePrograms D → IsSequent D s → IsSequent D u → named s ≡ named u →
        Denies D l (search depth) s r → Denies D l (search depth) u q → r ≡ q }
{}

/// USING A FORMULA HAS ONE OUTCOME, whatever the numbers: in two goals that are the same with names for numbers it leaves the
/// same with names for numbers, or can't be used for one cause. The new variables, and the cells that they are numbered
/// behind, make no difference.
pub fn formulas_are_used_in_one_way()
    ensures used { (D : Declarations) (a b : Using) (K L : Read) → IsSameUse D a b → IsUsedFor a K → IsUsedFor b L → with_names a.goal.variables K ≡ with_names b.goal.variables L }
    ensures one_equation { (D : Declarations) (a b : Using) (i j : ℕ) → IsSameUse D a b → IsOutsideAt a i → IsOutsideAt b j → i ≡ j }
    ensures one_variable { (D : Declarations) (a b : Using) (x y : List ℕ) → IsSameUse D a b → IsLeftOpen a x → IsLeftOpen b y → x ≡ y }
    ensures used_or_nothing { (D : Declarations) (a b : Using) (K : Read) → IsSameUse D a b → IsUsedFor a K → NothingMatches b → ⊥ }
    ensures used_or_outside { (D : Declarations) (a b : Using) (K : Read) (i : ℕ) → IsSameUse D a b → IsUsedFor a K → IsOutsideAt b i → ⊥ }
    ensures used_or_open { (D : Declarations) (a b : Using) (K : Read) (x : List ℕ) → IsSameUse D a b → IsUsedFor a K → IsLeftOpen b x → ⊥ }
    ensures nothing_or_outside { (D : Declarations) (a b : Using) (i : ℕ) → IsSameUse D a b → NothingMatches a → IsOutsideAt b i → ⊥ }
    ensures nothing_or_open { (D : Declarations) (a b : Using) (x : List ℕ) → IsSameUse D a b → NothingMatches a → IsLeftOpen b x → ⊥ }
    ensures outside_or_open { (D : Declarations) (a b : Using) (i : ℕ) (x : List ℕ) → IsSameUse D a b → IsOutsideAt a i → IsLeftOpen b x → ⊥ }
{}
