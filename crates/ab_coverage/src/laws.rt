//! Laws of case analysis: that no instance is lost.

ghost use Rattle.std.specs.Prelude.{◌≡◌, ℕ, List, map, length, Option, Some, None, All, Contains};
ghost use Rattle.ab_term.specs.Terms.{Read};
ghost use Rattle.ab_term.specs.Typing.{Signature};
ghost use Rattle.ab_term.specs.Sameness.{same_number};
ghost use Rattle.ab_term.specs.Variables.{Substitution, image, IsTyped};
ghost use Rattle.ab_unifiers.specs.Replacements.{Cell};
ghost use Rattle.ab_unifiers.specs.Unifiers.{AreKnown};
ghost use Rattle.ab_unifiers.specs.InstanceCover.{IsCleanFor};
ghost use Rattle.ab_unifiers.specs.Member.{HasMember};
ghost use Rattle.ab_formulas.specs.BodyMarks.{marked_in};
ghost use Rattle.ab_formulas.specs.Formulas.{IsFormula};
ghost use Rattle.ab_formulas.specs.Marks.{Sign, plain, erased};
ghost use Rattle.ab_formulas.specs.Declarations.{Declarations, signature_in};
ghost use Rattle.ab_formulas.specs.Programs.{program_in, HavePrograms};
ghost use Rattle.ab_formulas.specs.Sequents.{Sequent, IsSequent, formula_of, in_terms, without};
ghost use Rattle.ab_formulas.specs.NewNames.{IsNoVariable};
ghost use Rattle.ab_theory.specs.Analysis.{scope_of};
ghost use Rattle.ab_theory.specs.InstanceCoverage.{AddsBehind};
ghost use Rattle.ab_theory.specs.JudgementCases.{judgement_case};
ghost use Rattle.ab_theory.specs.Judgements.{Judgement, as_judgement};
ghost use Rattle.ab_theory.specs.Opening.{open_goal};
ghost use Rattle.ab_theory.specs.Parts.{Part, parts_of};
ghost use Rattle.ab_theory.specs.SpecInstances.{IsInstance};
ghost use Rattle.ab_theory.specs.SpecRules.{SpecRule, by_part, rules_of};
ghost use Rattle.ab_theory.specs.Splits.{Case, IsCase, Arises, Split};
ghost use Rattle.ab_coverage.specs.GoalFormulas.{Carries};
ghost use Rattle.ab_coverage.specs.OpenedFormulas.{FullyEqual, NearlyEqual};
ghost use Rattle.ab_coverage.specs.TakenNames.{closes, part_under, IsTaken, taken_off};
ghost use Rattle.ab_coverage.specs.JudgementCover.{judgement_under, RuleMeets, IsMetByOne};

/// COVER OF JUDGEMENTS: each instance of a hypothesis that is a judgement, under a clean substitution, is met by a rule of it, whatever the
/// answer to what the rule demands. Bodies are compared with all judgements opened. Of a focused judgement it is the part by which the
/// instance comes: names that the instance's body closes by `exists` and the part's doesn't are taken off, for any terms that are
/// put in for them, and outermost `exists` whose name doesn't stand in the body don't count.
pub fn judgements_cover()
    ensures unfocused { (D : Declarations) → HavePrograms D → HasMember (signature_in D) → (cells : List (Cell (List ℕ))) (s t : Sequent) (H name : List ℕ) (F : Read) (j : Judgement) (rs : List SpecRule) →
        IsSequent D s → formula_of s H ≡ Some F → as_judgement F ≡ Some j → j.focus ≡ None → rules_of (program_in D) j ≡ Some rs →
        (q : Substitution ℕ (List ℕ)) → IsTyped (signature_in D) q → IsCleanFor (scope_of cells s) q →
        (B : Read) → IsInstance (signature_in D) (program_in D) (judgement_under q j) B →
        (r : SpecRule) × Contains rs r × RuleMeets FullyEqual (signature_in D) s t name q B j r }
    ensures focused_ones { (D : Declarations) → HavePrograms D → HasMember (signature_in D) → (cells : List (Cell (List ℕ))) (s t : Sequent) (H name : List ℕ) (F G : Read) (j : Judgement) (rs : List SpecRule) →
        IsSequent D s → AreKnown cells (map in_terms s.variables) → formula_of s H ≡ Some F → as_judgement F ≡ Some j → j.focus ≡ Some G → rules_of (program_in D) j ≡ Some rs →
        (q : Substitution ℕ (List ℕ)) → IsTyped (signature_in D) q → IsCleanFor (scope_of cells s) q →
        (B : Read) (i : IsInstance (signature_in D) (program_in D) (judgement_under q j) B) →
        (p : Part) × Contains (parts_of G) p × Contains rs (by_part p) × (i.rule ≡ by_part (part_under q p)) ×
        ((terms : List (Option Read)) → IsTaken (signature_in D) (closes (length cells) p) (closes i.number (part_under q p)) p.names terms →
        RuleMeets (λ u v. NearlyEqual u (taken_off (closes i.number (part_under q p)) terms v)) (signature_in D) s t name q B j (by_part p)) }
{}

/// For the names of a part that are taken off there are terms, so that what is said of all such terms isn't said of none.
pub fn names_can_be_taken_off()
    ensures { (sg : Signature) (q : Substitution ℕ (List ℕ)) (n m : ℕ) (p : Part) → (terms : List (Option Read)) × IsTaken sg (closes n p) (closes m (part_under q p)) p.names terms }
{}

/// COVER OF JUDGEMENTS, by goals: where a goal is split by the rules of a judgement of it, each instance of the judgement under a clean
/// substitution is met by one of the goals, whatever new variables are called, if cases add their cells behind the others.
pub fn judged_goals_cover()
    ensures unfocused { (D : Declarations) → HavePrograms D → HasMember (signature_in D) → (cells : List (Cell (List ℕ))) (s t : Sequent) (H name : List ℕ) (F : Read) (j : Judgement) (rs : List SpecRule) (gs : List Sequent) →
        IsSequent D s → AreKnown cells (map in_terms s.variables) → formula_of s H ≡ Some F → as_judgement F ≡ Some j → j.focus ≡ None → rules_of (program_in D) j ≡ Some rs →
        All (λ r. AddsBehind (λ k hint x. IsNoVariable k x) cells (judgement_case s t name j r)) rs → Split (λ k hint x. IsNoVariable k x) cells (map (judgement_case s t name j) rs) gs →
        (q : Substitution ℕ (List ℕ)) → IsTyped (signature_in D) q → IsCleanFor (scope_of cells s) q →
        (B : Read) → IsInstance (signature_in D) (program_in D) (judgement_under q j) B →
        IsMetByOne FullyEqual (signature_in D) (λ k hint x. IsNoVariable k x) s t name j gs q B }
    ensures focused_ones { (D : Declarations) → HavePrograms D → HasMember (signature_in D) → (cells : List (Cell (List ℕ))) (s t : Sequent) (H name : List ℕ) (F G : Read) (j : Judgement) (rs : List SpecRule) (gs : List Sequent) →
        IsSequent D s → AreKnown cells (map in_terms s.variables) → formula_of s H ≡ Some F → as_judgement F ≡ Some j → j.focus ≡ Some G → rules_of (program_in D) j ≡ Some rs →
        All (λ r. AddsBehind (λ k hint x. IsNoVariable k x) cells (judgement_case s t name j r)) rs → Split (λ k hint x. IsNoVariable k x) cells (map (judgement_case s t name j) rs) gs →
        (q : Substitution ℕ (List ℕ)) → IsTyped (signature_in D) q → IsCleanFor (scope_of cells s) q →
        (B : Read) (i : IsInstance (signature_in D) (program_in D) (judgement_under q j) B) →
        (p : Part) × Contains (parts_of G) p × (i.rule ≡ by_part (part_under q p)) ×
        ((terms : List (Option Read)) → IsTaken (signature_in D) (closes (length cells) p) (closes i.number (part_under q p)) p.names terms →
        IsMetByOne (λ u v. NearlyEqual u (taken_off (closes i.number (part_under q p)) terms v)) (signature_in D) (λ k hint x. IsNoVariable k x) s t name j gs q B) }
{}

/// NAMES OF NEW VARIABLES COME OFF: what a substitution makes of a case's formulas under the answer, another makes of the formulas of the goal
/// that arises, in which the variables that were made have names of their own. So what is met under the answer is met by the goal itself.
pub fn names_of_new_variables_come_off()
    ensures { (D : Declarations) (c : Case) → IsCase D c → (after : List (Cell (List ℕ))) (g : Sequent) (a : Arises (λ k hint x. IsNoVariable k x) c after g) →
        (r : Substitution ℕ (List ℕ)) → IsTyped (signature_in D) r → (then : Substitution ℕ (List ℕ)) × IsTyped (signature_in D) then × Carries then r a.answer c.goal g }
{}

/// MARKS COME OFF: taken off a formula before a substitution or after it, they leave the same. A body whose atoms were marked is the body then,
/// and a goal that was opened with marks is the goal opened without.
pub fn marks_come_off()
    ensures substitutions { (f : Substitution ℕ (List ℕ)) (sg : Signature) (F : Read) → IsFormula sg F → erased (image same_number f F) ≡ image same_number f (erased F) }
    ensures bodies { (ps : List (List ℕ)) (m : Sign) (F : Read) → erased (marked_in ps m F) ≡ erased F }
    ensures goals { (m : Sign) (L G : Read) → erased (open_goal m L G) ≡ open_goal plain L G }
{}
