//! Evidence for the steps by clauses of the program.

ghost use Rattle.std.specs.Prelude.{◌≡◌, ◌⊎◌, ℕ, ◌≤◌, List, [], length, true, codes, Some, Contains};
ghost use Rattle.ab_term.specs.Terms.{Variable, Read};
ghost use Rattle.ab_term.specs.Variables.{Substitution, variables, image, composition};
ghost use Rattle.ab_term.specs.Sameness.{same_number};
ghost use Rattle.ab_unifiers.specs.Replacements.{Cell, holds};
ghost use Rattle.ab_unifiers.specs.Unification.{unified, Solves};
ghost use Rattle.ab_unifiers.specs.Clauses.{Clause};
ghost use Rattle.ab_unifiers.specs.Member.{HasMember};
ghost use Rattle.ab_formulas.specs.Declarations.{Declarations, signature_in};
ghost use Rattle.ab_formulas.specs.GoalTerms.{HoldsOnly};
ghost use Rattle.ab_formulas.specs.Marks.{plain};
ghost use Rattle.ab_formulas.specs.Programs.{HavePrograms};
ghost use Rattle.ab_theory.specs.Judgements.{Judgement, as_judgement};
ghost use Rattle.ab_theory.specs.SpecRules.{by_clause};
ghost use Rattle.ab_search_trees.specs.Goals.{Goal, Now};
ghost use Rattle.ab_search_trees.specs.Judgements.{search_rules};
ghost use Rattle.ab_search_trees.specs.Ways.{demanded, by_rule};
ghost use Rattle.ab_search_trees.specs.Outcomes.{filling};
ghost use Rattle.ab_search_trees.specs.Tree.{problem_of, now_after};
ghost use Rattle.ab_search_trees.proofs.Carried.{AreFlexible};
ghost use Rattle.ab_search_trees.proofs.Facts.{IsTask};
ghost use Rattle.ab_search_trees.proofs.Shows.{IsLater};
ghost use Rattle.ab_search_proofs.specs.Proved.{IsByRule};
ghost use Rattle.ab_search_clauses.specs.Paths.{IsAtLast, at_last};

/// EVIDENCE FOR A CLAUSE OF THE PROGRAM. Where a search goes on from an unmarked judgement by a clause, and solves what it demands, the judgement has that
/// rule wherever it comes to stand at last, and what the rule leaves is what the way's goal is at last.
pub fn judgements_by_a_clause_are_solved()
    ensures { (D : Declarations) (now : Now) (g : Goal) (depth : ℕ) (j : Judgement) (c : Clause (List ℕ)) (ys : List (Variable ℕ))
        (more : List (Cell (List ℕ))) (q later fill : Substitution ℕ (List ℕ)) →
        let w = by_rule D now g depth j (by_clause c) in
        HavePrograms D → HasMember (signature_in D) → AreFlexible now → IsTask (signature_in D) now g →
        as_judgement g.conclusion ≡ Some j → j.sign ≡ plain → Contains (search_rules D j) (by_clause c) →
        IsAtLast (signature_in D) now g w [] ys later fill →
        Solves (codes "x") (problem_of w) (unified more q) →
        (us : List Read) × IsByRule D ys (at_last later fill g.conclusion) us (at_last later fill (demanded (length now.cells) j (by_clause c)).body) }
{}

/// ON THE PATH OF AN ANSWER. From the place down to the answer there is put in what solves the way's equations, what is unified later, and a constant
/// for each variable that is open at the answer. Then the judgement that the conclusion is with all that put in has the rule, which leaves the way's goal
/// with all that put in.
pub fn judgements_on_the_path_of_an_answer_are_solved()
    ensures { (D : Declarations) (now last : Now) (g : Goal) (depth : ℕ) (j : Judgement) (c : Clause (List ℕ)) (ys : List (Variable ℕ))
        (more : List (Cell (List ℕ))) (q n : Substitution ℕ (List ℕ)) →
        let w = by_rule D now g depth j (by_clause c) in
        let r = composition same_number q (composition same_number n (filling last.held last.flexible)) in
        HavePrograms D → HasMember (signature_in D) → AreFlexible now → IsTask (signature_in D) now g →
        as_judgement g.conclusion ≡ Some j → j.sign ≡ plain → Contains (search_rules D j) (by_clause c) →
        Solves (codes "x") (problem_of w) (unified more q) → IsLater (signature_in D) (now_after now w more q) n →
        ((u : Read) → ((y : Variable ℕ) → Contains (variables u) y → Contains (variables g.conclusion) y ⊎ ((holds w.flexible y ≡ true) × (length now.cells ≤ y.name))) → HoldsOnly ys (image same_number r u)) →
        (us : List Read) × IsByRule D ys (image same_number r g.conclusion) us (image same_number r (demanded (length now.cells) j (by_clause c)).body) }
{}
