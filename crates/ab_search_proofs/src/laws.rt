//! The steps of the kernel that carry out what a search shows: each is allowed at every sequent like the goal, and its premises are like the
//! goals that are shown next.

ghost use Rattle.std.specs.Prelude.{◌≡◌, ◌≢◌, ℕ, List, [], ◌∷◌, ◌++◌, All, Contains, map, codes, true, false, Some, None};
ghost use Rattle.ab_term.specs.Types.{Ty};
ghost use Rattle.ab_term.specs.Terms.{Nominal, Variable, Read};
ghost use Rattle.ab_term.specs.Typing.{HasType};
ghost use Rattle.ab_term.specs.Names.{support, EqualUpToNames};
ghost use Rattle.ab_term.specs.Substitution.{instance};
ghost use Rattle.ab_term.specs.Translation.{EqualPastHints};
ghost use Rattle.ab_term.specs.Abstraction.{over};
ghost use Rattle.ab_unifiers.specs.Clauses.{Clause, name_term};
ghost use Rattle.ab_unifiers.specs.Choices.{in_order};
ghost use Rattle.ab_unifiers.specs.Member.{HasMember};
ghost use Rattle.ab_formulas.specs.Declarations.{Declarations, HaveSentences, HaveDefinitions, signature_in};
ghost use Rattle.ab_formulas.specs.BodyMarks.{MayBeUnfolded, mark_above};
ghost use Rattle.ab_formulas.specs.Formulas.{IsFormula, IsSentence};
ghost use Rattle.ab_formulas.specs.Forms.{truth, equal, both, either, implies, for_all, exists, nabla, form_of};
ghost use Rattle.ab_formulas.specs.Marks.{erased, MarksServeIn};
ghost use Rattle.ab_formulas.specs.GoalTerms.{HoldsOnly};
ghost use Rattle.ab_formulas.specs.NewNames.{Label, Names};
ghost use Rattle.ab_formulas.specs.Programs.{HavePrograms, program_in};
ghost use Rattle.ab_formulas.specs.Sequents.{Sequent, IsSequent, formulas};
ghost use Rattle.ab_theory.specs.Derivations.{Derivation, IsDerivation};
ghost use Rattle.ab_theory.specs.Atoms.{Defined};
ghost use Rattle.ab_theory.specs.Judgements.{Judgement, as_judgement};
ghost use Rattle.ab_theory.specs.Opening.{compound, atomic, kind_of, open_goal, conjunction_of};
ghost use Rattle.ab_theory.specs.Parts.{Part, parts_of};
ghost use Rattle.ab_theory.specs.SpecRules.{SpecRule, rules_of, is_nil, some_item};
ghost use Rattle.ab_theory.specs.Steps.{initial, true_right, and_right, or_right, arrow_right, for_all_right, exists_right, nabla_right, equal_right, definition_right};
ghost use Rattle.ab_search_trees.specs.Guesses.{a_variable};
ghost use Rattle.ab_search_proofs.specs.Likeness.{StandIn, replaced, IsLikeGoal, AreLike};
ghost use Rattle.ab_search_proofs.specs.Taking.{LeadsTo};
ghost use Rattle.ab_search_proofs.specs.Whole.{themselves, IsWhole};
ghost use Rattle.ab_search_proofs.specs.Coming.{ComesTo};
ghost use Rattle.ab_search_proofs.specs.Proved.{IsByClause, IsByRule, body_by, Proved};

/// Where nothing is left to show the step closes the sequent: `true`, a hypothesis that serves, two sides that are the same.
pub fn closing_steps()
    ensures truth { (D : Declarations) (vs : List StandIn) (Hs : List Read) (C : Read) (s : Sequent) → IsLikeGoal D vs Hs C s →
        form_of C ≡ truth → LeadsTo D true_right s (AreLike D vs Hs []) }
    ensures hypothesis { (D : Declarations) (vs : List StandIn) (Hs : List Read) (C B : Read) (s : Sequent) → IsSequent D s → IsLikeGoal D vs Hs C s →
        Contains Hs B → EqualUpToNames (erased B) (erased C) → MarksServeIn C B →
        (name : List ℕ) × LeadsTo D (initial name) s (AreLike D vs Hs []) }
    ensures equality { (D : Declarations) (vs : List StandIn) (Hs : List Read) (C t u : Read) (A : Ty) (s : Sequent) → IsLikeGoal D vs Hs C s →
        form_of C ≡ equal A t u → EqualPastHints t u → LeadsTo D equal_right s (AreLike D vs Hs []) }
{}

/// Connectives: a conjunction by both parts, a disjunction by one, an implication with a new hypothesis, if it gets a name.
pub fn steps_of_connectives()
    ensures both { (D : Declarations) (vs : List StandIn) (Hs : List Read) (C A B : Read) (s : Sequent) → IsLikeGoal D vs Hs C s →
        form_of C ≡ both A B → LeadsTo D and_right s (AreLike D vs Hs (A ∷ B ∷ [])) }
    ensures left { (D : Declarations) (vs : List StandIn) (Hs : List Read) (C A B : Read) (s : Sequent) → IsLikeGoal D vs Hs C s →
        form_of C ≡ either A B → LeadsTo D (or_right true) s (AreLike D vs Hs (A ∷ [])) }
    ensures right { (D : Declarations) (vs : List StandIn) (Hs : List Read) (C A B : Read) (s : Sequent) → IsLikeGoal D vs Hs C s →
        form_of C ≡ either A B → LeadsTo D (or_right false) s (AreLike D vs Hs (B ∷ [])) }
    ensures assuming { (D : Declarations) (vs : List StandIn) (Hs : List Read) (C A B : Read) (s u : Sequent) (l : Label) (name : List ℕ) → IsLikeGoal D vs Hs C s →
        form_of C ≡ implies A B → Names l s name u → LeadsTo D (arrow_right l) s (AreLike D vs (Hs ++ A ∷ []) (B ∷ [])) }
{}

/// Quantifiers: `nabla` by the least constant that the sequent leaves, whatever constant the goal took; `exists` by some term that fits, like
/// the goal's; `forall` by a new variable, which stands in for the goal's.
pub fn steps_of_quantifiers()
    ensures constant { (D : Declarations) (vs : List StandIn) (Hs : List Read) (C F : Read) (A : Ty) (a : Nominal) (s : Sequent) → IsLikeGoal D vs Hs C s →
        form_of C ≡ nabla A F → a.type ≡ A → ¬ Contains (support C) a → LeadsTo D nabla_right s (AreLike D vs Hs (instance F (name_term (codes "x") a) ∷ [])) }
    ensures term { (D : Declarations) (vs : List StandIn) (Hs : List Read) (C F t : Read) (A : Ty) (s : Sequent) → IsSequent D s → IsLikeGoal D vs Hs C s →
        form_of C ≡ exists A F → HasType (signature_in D) [] t A → HoldsOnly (map replaced vs) t →
        (u : Read) × LeadsTo D (exists_right u) s (AreLike D vs Hs (instance F t ∷ [])) }
    ensures variable { (D : Declarations) (vs : List StandIn) (Hs : List Read) (C F : Read) (A : Ty) (n : ℕ) (s : Sequent) → IsLikeGoal D vs Hs C s →
        form_of C ≡ for_all A F → All (λ (y : Variable ℕ). y.name ≢ n) (map replaced vs) →
        LeadsTo D for_all_right s (λ ps. (v : StandIn) × (replaced v ≡ record { name = n; type = over (in_order (support C)) A }) × AreLike D (v ∷ vs) Hs (instance F (a_variable n (in_order (support C)) A) ∷ []) ps) }
{}

/// A clause of a definition: the conclusion unfolds by some choice, and what it unfolds to comes to the clause's body, by terms for the variables
/// that are left open and by constants for the clause's names.
pub fn step_of_a_clause()
    ensures { (D : Declarations) (vs : List StandIn) (Hs : List Read) (C : Read) (s : Sequent) (d : Defined) (c : Clause (List ℕ)) (us : List Read) (ns : List Nominal) →
        HaveDefinitions D → IsSequent D s → IsLikeGoal D vs Hs C s → IsByClause D (map replaced vs) C d c us ns →
        (place : ℕ) × LeadsTo D (definition_right place) s (λ ps. (t : Sequent) × (ps ≡ t ∷ []) × ComesTo D vs Hs (body_by d c us ns) t) }
{}

/// A rule of the specification logic, for a judgement: in the same way.
pub fn step_of_a_rule()
    ensures { (D : Declarations) (vs : List StandIn) (Hs us : List Read) (C B : Read) (s : Sequent) → HavePrograms D → HasMember (signature_in D) → IsSequent D s → IsLikeGoal D vs Hs C s → IsByRule D (map replaced vs) C us B →
        (place : ℕ) × LeadsTo D (definition_right place) s (λ ps. (t : Sequent) × (ps ≡ t ∷ []) × ComesTo D vs Hs B t) }
{}

/// The rules that demand nothing else are solved everywhere: a judgement whose goal is made of others opens, all layers at once; and an atom may come
/// of some formula of a list that isn't `nil`.
pub fn rules_of_goals_and_lists_are_solved()
    ensures opening { (D : Declarations) → HasMember (signature_in D) → (ys : List (Variable ℕ)) (C : Read) → IsFormula (signature_in D) C → HoldsOnly ys C → (j : Judgement) → as_judgement C ≡ Some j → MayBeUnfolded j.sign →
        j.focus ≡ None → kind_of j.goal ≡ compound → IsByRule D ys C [] (open_goal (mark_above j.sign) j.context j.goal) }
    ensures listing { (D : Declarations) → HasMember (signature_in D) → (ys : List (Variable ℕ)) (C : Read) → IsFormula (signature_in D) C → HoldsOnly ys C → (j : Judgement) → as_judgement C ≡ Some j → MayBeUnfolded j.sign →
        j.focus ≡ None → kind_of j.goal ≡ atomic → is_nil j.context ≡ false → IsByRule D ys C [] (some_item (mark_above j.sign) j.context j.goal) }
{}

/// A part of the formula in focus that has no names is solved everywhere, where its atom is the goal: what is left are its goals, opened.
pub fn parts_without_names_are_solved()
    ensures { (D : Declarations) → HasMember (signature_in D) → (ys : List (Variable ℕ)) (C : Read) → IsFormula (signature_in D) C → HoldsOnly ys C → (j : Judgement) → as_judgement C ≡ Some j → MayBeUnfolded j.sign →
        (F : Read) → j.focus ≡ Some F → (rs : List SpecRule) → rules_of (program_in D) j ≡ Some rs → (p : Part) → Contains (parts_of F) p → p.names ≡ [] → EqualPastHints p.atom j.goal →
        IsByRule D ys C [] (conjunction_of (map (open_goal (mark_above j.sign) j.context) p.goals)) }
{}

/// WHERE A SEARCH BEGINS: a sequent is like the goal that it is itself, each of its variables standing in for itself.
pub fn a_sequent_is_like_itself()
    ensures { (D : Declarations) (s : Sequent) → IsSequent D s → IsLikeGoal D (themselves s) (formulas s.hypotheses) s.conclusion s }
{}

/// WHAT A SEARCH PROVES IS DERIVED: each sequent that is like a proved goal has a whole derivation, which takes no theorem and admits nothing.
pub fn proved_goals_are_derived()
    ensures { (D : Declarations) → HaveSentences D → HaveDefinitions D → HavePrograms D → HasMember (signature_in D) → (vs : List StandIn) (Hs : List Read) (C : Read) → Proved D (map replaced vs) Hs C →
        (s : Sequent) → IsSequent D s → IsLikeGoal D vs Hs C s → (d : Derivation) × IsWhole D s d }
{}

/// So a sentence that a search proves has a derivation, without gaps.
pub fn proved_sentences_have_derivations()
    ensures { (D : Declarations) → HaveSentences D → HaveDefinitions D → HavePrograms D → HasMember (signature_in D) → (F : Read) → IsSentence (signature_in D) F → Proved D [] [] F →
        (d : Derivation) × IsDerivation D F d }
{}
