//! Laws of case analysis: which constants are chosen, what an alternative gives, and that none is missed.

ghost use Rattle.std.specs.Prelude.{◌≡◌, ◌≢◌, ◌⊎◌, ℕ, ◌<◌, ◌≤◌, List, [], ◌∷◌, map, length, All, AllPairs, Contains, true, Some};
ghost use Rattle.ab_term.specs.Types.{Ty, prop};
ghost use Rattle.ab_term.specs.Terms.{Nominal, Variable, constant, Term, spine, Terms};
ghost use Rattle.ab_term.specs.Typing.{Signature, HasType};
ghost use Rattle.ab_term.specs.Translation.{EqualPastHints};
ghost use Rattle.ab_term.specs.Names.{support, EqualUpToNames, IsOrderOf};
ghost use Rattle.ab_term.specs.Variables.{Substitution, IsClean, variables, value_in, image, IsTyped};
ghost use Rattle.ab_term.specs.Sameness.{same_number};
ghost use Rattle.ab_unifiers.specs.Replacements.{Cell};
ghost use Rattle.ab_unifiers.specs.Unification.{Answer, unified, Solves};
ghost use Rattle.ab_unifiers.specs.Unifiers.{AreTyped, AreKnown, Unifies, given};
ghost use Rattle.ab_unifiers.specs.Clauses.{Clause, numbered, put_together, head_of, Each, Within, IsClause, HoldsNone, Instance};
ghost use Rattle.ab_unifiers.specs.Choices.{in_order, choices, is_number_of, new_constant};
ghost use Rattle.ab_unifiers.specs.Alternatives.{Scope, Alternative, Side, on_left, cells_of, alternatives};
ghost use Rattle.ab_unifiers.specs.Member.{member_clauses, HasMember};
ghost use Rattle.ab_unifiers.specs.Prefixes.{prefix, opened, own_terms, clause_of, IsKept};
ghost use Rattle.ab_unifiers.specs.Premises.{Premise, LeadsTo, IsStuckAt, IsMet};
ghost use Rattle.ab_unifiers.specs.InstanceCover.{IsScope, IsOf, IsCleanFor, IsCovered, CoversEquality};

/// The clauses of `member` are clauses, where its constants have their types.
pub fn member_is_defined()
    ensures { (sg : Signature) → HasMember sg → All (IsClause sg) member_clauses }
{}

/// What is kept is a clause: its head is the kept head, with the clause's names put for the binders of the prefix.
pub fn kept_clauses_are_clauses<Hint>()
    ensures well { (sg : Signature) (x : Hint) (cells : List (Cell Hint)) (ys : List (Variable ℕ)) (head body : Term ℕ Hint) →
        IsKept sg ys head body → IsClause sg (clause_of x cells ys head body) }
    ensures whole { (sg : Signature) (x : Hint) (cells : List (Cell Hint)) (ys : List (Variable ℕ)) (head body : Term ℕ Hint) →
        IsKept sg ys head body → let own = cells_of x cells ys in
        head_of (clause_of x cells ys head body) ≡ opened (image same_number (put_together ys (own_terms x (numbered 0 own))) head)
        (own_terms x (numbered (length own) (prefix head))) }
{}

/// The list of choices, for names of these types, free constants, and constants that are held, the free ones among
/// them. No choice stands there twice. Each is one: different constants of these types, each free or new. And every
/// list of different constants of these types, each free or not of the sequent, is matched place by place by a
/// choice: by the same constant where it is free, else by a new one or again by the same.
pub fn choices_are_complete()
    ensures once { (As : List Ty) (free held : List Nominal) → ((b : Nominal) → Contains free b → Contains held b) →
        AllPairs (λ a b. a ≢ b) free → AllPairs (λ xs ys. xs ≢ ys) (choices As free held) }
    ensures right { (As : List Ty) (free held : List Nominal) → ((b : Nominal) → Contains free b → Contains held b) →
        (cs : List Nominal) → Contains (choices As free held) cs →
        (map (λ a. a.type) cs ≡ As) × AllPairs (λ a b. a ≢ b) cs ×
        ((c : Nominal) → Contains cs c → Contains free c ⊎ ¬ (Contains held c)) }
    ensures all { (As : List Ty) (free sequent held : List Nominal) → ((b : Nominal) → Contains free b → Contains held b) →
        ((b : Nominal) → Contains sequent b → Contains held b) →
        (ns : List Nominal) → map (λ a. a.type) ns ≡ As → AllPairs (λ a b. a ≢ b) ns →
        ((n : Nominal) → Contains ns n → Contains free n ⊎ ¬ (Contains sequent n)) →
        (cs : List Nominal) × Contains (choices As free held) cs × AllPairs (λ a b. a ≢ b) cs ×
        Each (λ n c. (n.type ≡ c.type) × (((n ≡ c) × Contains free n) ⊎ (¬ (Contains sequent n) × ¬ (Contains held c)))) ns cs }
{}

/// An atom's constants stand in order of number, each once.
pub fn constants_are_in_order()
    ensures { (xs : List Nominal) → IsOrderOf (in_order xs) xs }
{}

/// A new constant isn't held, and has the least number from 1 on that no constant that is held has.
pub fn new_constants_are_least()
    ensures new { (held : List Nominal) (A : Ty) → ¬ (Contains held (new_constant held A)) }
    ensures least { (held : List Nominal) (A : Ty) (i : ℕ) → 1 ≤ i → i < (new_constant held A).number → is_number_of held i ≡ true }
{}

/// An alternative, on either side, is a typed problem for unification: its equations are typed, and what may be
/// replaced has the number of a cell.
pub fn alternatives_are_problems<Hint>()
    ensures typed { (sg : Signature) (x : Hint) (side : Side) (sequent : Scope Hint) (clauses : List (Clause Hint)) (p : List ℕ) (ts : Terms ℕ Hint) →
        All (IsClause sg) clauses → IsScope sequent → IsOf sg sequent (spine (constant p) ts) prop →
        (alt : Alternative Hint) → Contains (alternatives x side sequent clauses (spine (constant p) ts)) alt → AreTyped sg alt.equations }
    ensures known { (sg : Signature) (x : Hint) (side : Side) (sequent : Scope Hint) (clauses : List (Clause Hint)) (p : List ℕ) (ts : Terms ℕ Hint) →
        All (IsClause sg) clauses → IsScope sequent → IsOf sg sequent (spine (constant p) ts) prop →
        (alt : Alternative Hint) → Contains (alternatives x side sequent clauses (spine (constant p) ts)) alt → AreKnown alt.cells alt.flexible }
{}

/// An alternative, on either side, whose equations are unified gives an instance: of the atom, its variables raised
/// and then replaced by what was put in, with the alternative's body. What is put in holds none of the chosen
/// constants; what unification answers never does.
pub fn alternatives_give_instances<Hint>()
    ensures any_unifier { (sg : Signature) (x : Hint) (side : Side) (sequent : Scope Hint) (clauses : List (Clause Hint)) (p : List ℕ) (ts : Terms ℕ Hint) →
        All (IsClause sg) clauses → IsScope sequent → IsOf sg sequent (spine (constant p) ts) prop →
        (alt : Alternative Hint) → Contains (alternatives x side sequent clauses (spine (constant p) ts)) alt →
        (q : Substitution ℕ Hint) → IsTyped sg q →
        ((y : Variable ℕ) (t : Term ℕ Hint) → value_in same_number q y ≡ Some t → HoldsNone sg alt.chosen t) →
        Unifies q alt.equations →
        Instance sg x clauses (image same_number q (image same_number alt.raised (spine (constant p) ts))) (image same_number q alt.body) }
    ensures answers { (sg : Signature) (x : Hint) (side : Side) (sequent : Scope Hint) (clauses : List (Clause Hint)) (p : List ℕ) (ts : Terms ℕ Hint) →
        All (IsClause sg) clauses → IsScope sequent → IsOf sg sequent (spine (constant p) ts) prop →
        (alt : Alternative Hint) → Contains (alternatives x side sequent clauses (spine (constant p) ts)) alt →
        (more : List (Cell Hint)) (q : Substitution ℕ Hint) →
        Solves x (given alt.equations alt.cells alt.flexible) (unified more q) →
        Instance sg x clauses (image same_number q (image same_number alt.raised (spine (constant p) ts))) (image same_number q alt.body) }
{}

/// An analysis leads to premises or is stuck, not both, and each in one way.
pub fn analyses_are_determined<Hint>()
    ensures some { (x : Hint) (alts : List (Alternative Hint)) →
        ((ps : List (Premise Hint)) × LeadsTo x alts ps) ⊎ ((i : ℕ) × IsStuckAt x alts i) }
    ensures not_both { (x : Hint) (alts : List (Alternative Hint)) (ps : List (Premise Hint)) (i : ℕ) →
        LeadsTo x alts ps → ¬ (IsStuckAt x alts i) }
    ensures one_list { (x : Hint) (alts : List (Alternative Hint)) (ps qs : List (Premise Hint)) →
        LeadsTo x alts ps → LeadsTo x alts qs → ps ≡ qs }
    ensures one_place { (x : Hint) (alts : List (Alternative Hint)) (i j : ℕ) →
        IsStuckAt x alts i → IsStuckAt x alts j → i ≡ j }
{}

/// COVER: each instance of the atom under a clean substitution is met by an alternative on the left, whatever the
/// answer to its equations. Where no clause has `nabla` names, up to hints alone; else up to permutations of
/// constants, which may differ from formula to formula.
pub fn cases_cover<Hint>()
    ensures without_names { (sg : Signature) (x : Hint) (sequent : Scope Hint) (clauses : List (Clause Hint)) (p : List ℕ) (ts : Terms ℕ Hint) →
        All (IsClause sg) clauses → All (λ c. c.names ≡ []) clauses → IsScope sequent → IsOf sg sequent (spine (constant p) ts) prop →
        (s : Substitution ℕ Hint) → IsTyped sg s → IsCleanFor sequent s →
        (B : Term ℕ Hint) → Instance sg x clauses (image same_number s (spine (constant p) ts)) B →
        IsCovered EqualPastHints sg x sequent clauses (spine (constant p) ts) s B }
    ensures with_names { (sg : Signature) (x : Hint) (sequent : Scope Hint) (clauses : List (Clause Hint)) (p : List ℕ) (ts : Terms ℕ Hint) →
        All (IsClause sg) clauses → IsScope sequent → IsOf sg sequent (spine (constant p) ts) prop →
        (s : Substitution ℕ Hint) → IsTyped sg s → IsCleanFor sequent s →
        (B : Term ℕ Hint) → Instance sg x clauses (image same_number s (spine (constant p) ts)) B →
        IsCovered EqualUpToNames sg x sequent clauses (spine (constant p) ts) s B }
{}

/// COVER, by premises: where the analysis of an atom leads to premises, each instance of the atom under a clean
/// substitution is met by one of them. Where no clause has `nabla` names, up to hints alone; else up to permutations
/// of constants, which may differ from formula to formula.
pub fn premises_cover<Hint>()
    ensures without_names { (sg : Signature) (x : Hint) (sequent : Scope Hint) (clauses : List (Clause Hint)) (p : List ℕ) (ts : Terms ℕ Hint) →
        All (IsClause sg) clauses → All (λ c. c.names ≡ []) clauses → IsScope sequent → IsOf sg sequent (spine (constant p) ts) prop →
        (ps : List (Premise Hint)) → LeadsTo x (alternatives x on_left sequent clauses (spine (constant p) ts)) ps →
        (s : Substitution ℕ Hint) → IsTyped sg s → IsCleanFor sequent s →
        (B : Term ℕ Hint) → Instance sg x clauses (image same_number s (spine (constant p) ts)) B →
        IsMet EqualPastHints sg sequent ps s B }
    ensures with_names { (sg : Signature) (x : Hint) (sequent : Scope Hint) (clauses : List (Clause Hint)) (p : List ℕ) (ts : Terms ℕ Hint) →
        All (IsClause sg) clauses → IsScope sequent → IsOf sg sequent (spine (constant p) ts) prop →
        (ps : List (Premise Hint)) → LeadsTo x (alternatives x on_left sequent clauses (spine (constant p) ts)) ps →
        (s : Substitution ℕ Hint) → IsTyped sg s → IsCleanFor sequent s →
        (B : Term ℕ Hint) → Instance sg x clauses (image same_number s (spine (constant p) ts)) B →
        IsMet EqualUpToNames sg sequent ps s B }
{}

/// COVER for an equation of the sequent: a clean substitution that makes both sides equal is, on the sequent's
/// formulas, the answer and then another one. So there is an answer, unless the equation is stuck.
pub fn equations_cover<Hint>()
    ensures { (sg : Signature) (x : Hint) (sequent : Scope Hint) → IsScope sequent →
        (t u : Term ℕ Hint) (A : Ty) → HasType sg [] t A → HasType sg [] u A →
        Within (variables t) sequent.variables → Within (variables u) sequent.variables →
        (s : Substitution ℕ Hint) → IsTyped sg s → IsClean s (t ∷ u ∷ []) →
        EqualPastHints (image same_number s t) (image same_number s u) →
        (a : Answer Hint) →
        Solves x (given (record { place = 0; left = t; right = u } ∷ []) sequent.cells sequent.variables) a →
        CoversEquality sg sequent a s }
{}
