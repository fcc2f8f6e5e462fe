//! Evidence for the steps by clauses and by the list of a judgement.

ghost use Rattle.std.specs.Prelude.{◌≡◌, ◌⊎◌, ℕ, ◌≤◌, List, [], map, length, true, false, codes, Some, Contains};
ghost use Rattle.ab_term.specs.Terms.{Nominal, Variable, Read};
ghost use Rattle.ab_term.specs.Names.{support_of_all};
ghost use Rattle.ab_term.specs.Variables.{Substitution, variables, image, image_all, composition, IsTyped};
ghost use Rattle.ab_term.specs.Sameness.{same_number};
ghost use Rattle.ab_unifiers.specs.Replacements.{Cell, holds};
ghost use Rattle.ab_unifiers.specs.Unification.{unified, Solves};
ghost use Rattle.ab_unifiers.specs.Alternatives.{made_terms};
ghost use Rattle.ab_unifiers.specs.Choices.{in_order, outside};
ghost use Rattle.ab_formulas.specs.Declarations.{Declarations, HaveDefinitions, signature_in};
ghost use Rattle.ab_unifiers.specs.Member.{HasMember};
ghost use Rattle.ab_formulas.specs.Formulas.{IsFormula};
ghost use Rattle.ab_formulas.specs.GoalTerms.{HoldsOnly};
ghost use Rattle.ab_theory.specs.Atoms.{Defined, Choice, defined_atom, choices_of};
ghost use Rattle.ab_theory.specs.Judgements.{Judgement, as_judgement};
ghost use Rattle.ab_theory.specs.SpecRules.{by_list, is_nil};
ghost use Rattle.ab_search_trees.specs.Goals.{Goal, Now};
ghost use Rattle.ab_search_trees.specs.Judgements.{search_rules};
ghost use Rattle.ab_search_trees.specs.Ways.{unfolds, demanded, by_choice};
ghost use Rattle.ab_search_trees.specs.Outcomes.{filling};
ghost use Rattle.ab_search_trees.specs.Tree.{problem_of, now_after};
ghost use Rattle.ab_search_trees.proofs.Carried.{AreFlexible};
ghost use Rattle.ab_search_trees.proofs.Facts.{IsTask};
ghost use Rattle.ab_search_trees.proofs.Shows.{IsLater};
ghost use Rattle.ab_search_proofs.specs.Proved.{IsByClause, IsByRule, body_by};
ghost use Rattle.ab_search_clauses.specs.Paths.{IsAtLast, at_last, atom_at_last, terms_at_last};

/// EVIDENCE FOR A CLAUSE. Where a search goes on from a goal by a choice of a clause and its constants, and solves its equations, the clause gives the
/// atom that the conclusion is at last, by what its variables stand for at last; it is solved wherever that atom comes to stand; and
/// what it leaves to be shown is what the way's goal is at last.
pub fn clauses_of_answers_are_solved()
    ensures { (D : Declarations) (now : Now) (g : Goal) (depth : ℕ) (d : Defined) (c : Choice) (ys : List (Variable ℕ))
        (more : List (Cell (List ℕ))) (q later fill : Substitution ℕ (List ℕ)) →
        let w = by_choice D now g depth d c in
        HaveDefinitions D → AreFlexible now → IsTask (signature_in D) now g →
        defined_atom D g.conclusion ≡ Some d → unfolds d.sign ≡ true → Contains (choices_of g.constants d) c →
        IsAtLast (signature_in D) now g w c.names ys later fill →
        Solves (codes "x") (problem_of w) (unified more q) →
        IsByClause D ys (at_last later fill g.conclusion) (atom_at_last later fill d) c.clause (terms_at_last later fill now d c) c.names
        × ((h : Goal) → Contains w.goals h → at_last later fill h.conclusion ≡ body_by (atom_at_last later fill d) c.clause (terms_at_last later fill now d c) c.names) }
{}

/// ON THE PATH OF AN ANSWER. From the place down to the answer there is put in what solves the way's equations, what is unified later, and a constant
/// for each variable that is open at the answer, one that isn't held there. Then by what becomes of the variables that the way brings the clause gives the
/// conclusion with all that put in, and leaves the way's goal with all that put in.
pub fn clauses_on_the_path_of_an_answer_are_solved()
    ensures { (D : Declarations) (now last : Now) (g : Goal) (depth : ℕ) (d : Defined) (c : Choice) (ys : List (Variable ℕ))
        (more : List (Cell (List ℕ))) (q n : Substitution ℕ (List ℕ)) →
        let w = by_choice D now g depth d c in
        let r = composition same_number q (composition same_number n (filling last.held last.flexible)) in
        let atom : Defined = record d { arguments = image_all same_number r d.arguments } in
        let us = map (image same_number r) (made_terms (codes "x") (length now.cells) (outside (in_order (support_of_all d.arguments)) c.names) c.clause.variables) in
        HaveDefinitions D → AreFlexible now → IsTask (signature_in D) now g → ((a : Nominal) → Contains g.constants a → Contains now.held a) →
        defined_atom D g.conclusion ≡ Some d → unfolds d.sign ≡ true → Contains (choices_of g.constants d) c →
        Solves (codes "x") (problem_of w) (unified more q) → IsLater (signature_in D) (now_after now w more q) n →
        ((a : Nominal) → Contains (now_after now w more q).held a → Contains last.held a) →
        ((u : Read) → ((y : Variable ℕ) → Contains (variables u) y → Contains (variables g.conclusion) y ⊎ ((holds w.flexible y ≡ true) × (length now.cells ≤ y.name))) → HoldsOnly ys (image same_number r u)) →
        IsByClause D ys (image same_number r g.conclusion) atom c.clause us c.names
        × ((h : Goal) → Contains w.goals h → image same_number r h.conclusion ≡ body_by atom c.clause us c.names) }
{}

/// A JUDGEMENT BY THE LIST. Where a search goes on from a judgement by some formula of its list, the judgement that it is in the end has that rule
/// wherever it comes to stand, unless its list is empty then: terms put in may make it so, and then it has no such rule.
pub fn judgements_by_the_list_are_solved()
    ensures { (D : Declarations) (C : Read) (j : Judgement) (ys : List (Variable ℕ)) (r : Substitution ℕ (List ℕ)) (n : ℕ) →
        HasMember (signature_in D) → IsFormula (signature_in D) C → as_judgement C ≡ Some j → unfolds j.sign ≡ true → Contains (search_rules D j) by_list →
        IsTyped (signature_in D) r → HoldsOnly ys (image same_number r C) → is_nil (image same_number r j.context) ≡ false →
        IsByRule D ys (image same_number r C) [] (image same_number r (demanded n j by_list).body) }
{}
