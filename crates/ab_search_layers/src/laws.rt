//! What a search proves by opening judgements layer by layer is derived by the rules, which open all layers at once.

ghost use Rattle.std.specs.Prelude.{◌≡◌, ℕ, List, [], ◌++◌, map, Some, None, All, Contains};
ghost use Rattle.ab_term.specs.Terms.{Read};
ghost use Rattle.ab_term.specs.Terms as tree;
ghost use Rattle.ab_term.specs.Typing.{Signature};
ghost use Rattle.ab_term.specs.Variables.{Substitution, variables, value_in, image, IsTyped};
ghost use Rattle.ab_term.specs.Sameness.{same_number};
ghost use Rattle.ab_unifiers.specs.Member.{HasMember};
ghost use Rattle.ab_formulas.specs.Declarations.{Declarations, HaveSentences, HaveDefinitions, signature_in};
ghost use Rattle.ab_formulas.specs.Formulas.{IsSentence};
ghost use Rattle.ab_formulas.specs.Programs.{HavePrograms};
ghost use Rattle.ab_formulas.specs.Marks.{plain};
ghost use Rattle.ab_formulas.specs.Sequents.{Variable, Sequent, IsSequent, in_terms};
ghost use Rattle.ab_theory.specs.Derivations.{Derivation, IsDerivation};
ghost use Rattle.ab_theory.specs.Opening.{open_goal, conjunction_of};
ghost use Rattle.ab_theory.specs.Unfolding.{exists_all};
ghost use Rattle.ab_search_trees.specs.Judgements.{judged};
ghost use Rattle.ab_search_proofs.specs.Likeness.{StandIn, replaced, IsLikeGoal};
ghost use Rattle.ab_search_proofs.specs.Whole.{IsWhole};
ghost use Rattle.ab_search_layers.specs.Layered.{OpensTo, MemberIsDefined, Layered};
ghost use Rattle.ab_search_layers.specs.Taken.{Taking};
ghost use Rattle.ab_search_layers.specs.Closed.{Open, Closes, IsShown, CloseInTurn};

/// WHAT A SEARCH PROVES IS DERIVED: each sequent that is like a goal proved so has a whole derivation, which takes no theorem and admits nothing.
pub fn layered_goals_are_derived()
    ensures { (D : Declarations) → HaveSentences D → HaveDefinitions D → HavePrograms D → HasMember (signature_in D) → MemberIsDefined D → (vs : List StandIn) (Hs : List Read) (C : Read) → Layered D (map replaced vs) Hs C →
        (s : Sequent) → IsSequent D s → IsLikeGoal D vs Hs C s → (d : Derivation) × IsWhole D s d }
{}

/// So a sentence that a search proves so has a derivation, without gaps.
pub fn layered_sentences_have_derivations()
    ensures { (D : Declarations) → HaveSentences D → HaveDefinitions D → HavePrograms D → HasMember (signature_in D) → MemberIsDefined D → (F : Read) → IsSentence (signature_in D) F → Layered D [] [] F →
        (d : Derivation) × IsDerivation D F d }
{}

/// GOALS ARE OPENED LAYER BY LAYER down to all that the rules open them to. And goals that are opened before terms are put in open to those that are
/// opened after: so does what a rule leaves of them, closed over variables that are neither replaced nor put in.
pub fn goals_open_layer_by_layer()
    ensures goal { (L G : Read) → OpensTo (judged L G) (open_goal plain L G) }
    ensures early { (sg : Signature) (r : Substitution ℕ (List ℕ)) → IsTyped sg r → (L G : Read) → OpensTo (image same_number r (open_goal plain L G)) (open_goal plain (image same_number r L) (image same_number r G)) }
    ensures body { (sg : Signature) (r : Substitution ℕ (List ℕ)) → IsTyped sg r → (L : Read) (Gs : List Read) (ys : List Variable) →
        ((y : Variable) → Contains ys y → (value_in same_number r (in_terms y) ≡ None) × ((z : tree.Variable ℕ) (u : Read) → value_in same_number r z ≡ Some u → ¬ Contains (variables u) (in_terms y))) →
        OpensTo (image same_number r (exists_all ys (conjunction_of (map (open_goal plain L) Gs)))) (exists_all ys (conjunction_of (map (open_goal plain (image same_number r L)) (map (image same_number r) Gs)))) }
{}

/// STEPS THAT CLOSE GOALS PROVE THEM, each layer by layer.
pub fn closing_steps_prove()
    ensures { (D : Declarations) (gs : List Open) (es : List (Read × Taking)) → Closes D gs es → All (IsShown D) gs }
{}

/// THE STEPS ARE IN ORDER: the first goals are closed by the first steps, and the others by those that are left.
pub fn first_closed()
    ensures { (D : Declarations) (gs hs : List Open) (es : List (Read × Taking)) → Closes D (gs ++ hs) es → CloseInTurn D gs hs es }
{}
