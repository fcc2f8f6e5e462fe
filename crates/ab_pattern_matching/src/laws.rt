//! What unifies, matches.

ghost use Rattle.std.specs.Prelude.{◌≡◌, ℕ, List, ◌++◌, map, true, false, Some};
ghost use Rattle.ab_term.specs.Terms.{Nominal, Variable, Term, Terms};
ghost use Rattle.ab_term.specs.Typing.{Signature};
ghost use Rattle.ab_term.specs.Names.{moved_by, permute, rename_all, IsPermutationTable};
ghost use Rattle.ab_term.specs.Translation.{forget, forget_all};
ghost use Rattle.ab_term.specs.Variables.{Substitution, variables, variables_of_all, image_by, image_all_by};
ghost use Rattle.ab_unifiers.specs.Replacements.{Cell, holds};
ghost use Rattle.ab_unifiers.specs.Unification.{Equation, Answer, unified, Solves};
ghost use Rattle.ab_unifiers.specs.Unifiers.{given, AreTyped, AreKnown, AreOver};
ghost use Rattle.ab_unifiers.specs.Clauses.{Clause, Each, Within, IsClause};
ghost use Rattle.ab_unifiers.specs.Alternatives.{Scope, on_right, alternative};
ghost use Rattle.ab_search_trees.specs.Lifting.{Guess, IsGuessFor, MakesEqual};
ghost use Rattle.ab_pattern_matching.specs.Reading.{HasNoneOf, IsGuessOver, LeftsWithout, HoldNoneOf, ReadInTurn, ArePutIn, turned};
ghost use Rattle.ab_pattern_matching.specs.Raising.{Bare, Raising, raised, AreRaised, AreRaisings, missing};

/// Where equations are unified, those of the variables that no left side holds can be read off in turn, with terms for all
/// others; whatever terms make the sides the same.
pub fn what_unifies_is_read_off<Hint>()
    ensures { (sg : Signature) (x : Hint) (es : List (Equation Hint)) (cells more : List (Cell Hint)) (ys zs : List (Variable ℕ))
        (q : Substitution ℕ Hint) (f : Guess) →
        AreTyped sg es → AreKnown cells ys → AreOver cells es → IsGuessFor sg ys f → MakesEqual f es →
        Within zs ys → LeftsWithout zs es → Solves x (given es cells ys) (unified more q) → ReadInTurn zs f es }
{}

/// MATCHING: where no left side holds a variable that may be replaced, and these can be read off in turn, with terms that make
/// the sides the same and hold none of their constants, the equations are unified.
pub fn what_is_read_off_unifies<Hint>()
    ensures { (sg : Signature) (x : Hint) (es : List (Equation Hint)) (cells : List (Cell Hint)) (zs : List (Variable ℕ))
        (ns : List Nominal) (f : Guess) →
        AreTyped sg es → AreKnown cells zs → AreOver cells es → HoldNoneOf ns es → IsGuessOver sg zs ns f → MakesEqual f es →
        LeftsWithout zs es → ReadInTurn zs f es →
        (more : List (Cell Hint)) × (q : Substitution ℕ Hint) × Solves x (given es cells zs) (unified more q) }
{}

/// WHAT UNIFIES, MATCHES. Equations are unified over some variables, `zs` among them, which no left side holds. Then terms
/// that make the sides the same are put in for the others, terms that hold none of `zs`. What becomes of the equations is
/// unified over `zs` alone.
pub fn what_unifies_matches<Hint>()
    ensures { (sg : Signature) (x : Hint) (es ds : List (Equation Hint)) (cells more others : List (Cell Hint)) (ys zs : List (Variable ℕ))
        (q : Substitution ℕ Hint) (f : Guess) →
        AreTyped sg es → AreKnown cells ys → AreOver cells es → IsGuessFor sg ys f → MakesEqual f es →
        Within zs ys → LeftsWithout zs es → Solves x (given es cells ys) (unified more q) →
        ((y : Variable ℕ) (v : Term ℕ (Unit {0})) → holds zs y ≡ false → f y ≡ Some v → HasNoneOf zs v) →
        ArePutIn zs f es ds → AreKnown others zs → AreOver others ds →
        (most : List (Cell Hint)) × (r : Substitution ℕ Hint) × Solves x (given ds others zs) (unified most r) }
{}

/// AND OVER OTHER CONSTANTS. The variables that no left side holds are raised over some constants; in the second equations they
/// have other numbers and are raised over other constants, up to a permutation. What becomes of the left sides is what the
/// guess makes of them, permuted, and no constant stands there over which the first variables are raised and the second
/// aren't. So the second equations are unified over their own variables alone.
pub fn what_unifies_matches_over_other_constants<Hint>()
    ensures { (sg : Signature) (x : Hint) (es ds : List (Equation Hint)) (cells more others : List (Cell Hint)) (ys ws : List (Variable ℕ))
        (ts : List Bare) (r s : Raising) (ps : List (Nominal × Nominal)) (q : Substitution ℕ Hint) (f : Guess) →
        AreTyped sg es → AreKnown cells ys → AreOver cells es → IsGuessFor sg ys f → MakesEqual f es →
        Within (map (raised r) ws) ys → LeftsWithout (map (raised r) ws) es → Solves x (given es cells ys) (unified more q) →
        AreRaised r ws ts es → AreRaised s ws (map (permute ps) ts) ds → AreRaisings sg ws ts r s f ps →
        Each (λ (e d : Equation Hint). forget d.left ≡ permute ps (image_by f (forget e.left))) es ds →
        AreTyped sg ds → AreKnown others (map (raised s) ws) → AreOver others ds → LeftsWithout (map (raised s) ws) ds →
        HoldNoneOf (missing r s ps) ds →
        (most : List (Cell Hint)) × (p : Substitution ℕ Hint) × Solves x (given ds others (map (raised s) ws)) (unified most p) }
{}

/// THE SIDES MAY CHANGE PLACES: typed equations have the same answer the other way round.
pub fn turned_equations_have_the_same_answer<Hint>()
    ensures { (sg : Signature) (x : Hint) (es : List (Equation Hint)) (cells : List (Cell Hint)) (ys : List (Variable ℕ)) (a : Answer Hint) →
        AreTyped sg es → AreKnown cells ys → Solves x (given es cells ys) a → Solves x (given (map turned es) cells ys) a }
{}

/// AN ALTERNATIVE ON THE RIGHT, AGAIN. With the goal's variables flexible, an alternative of an atom is unified. Then the guess is
/// put in for the goal's variables, and nominal constants are permuted; and the same clause, with its names permuted, is an
/// alternative of the new atom, over whatever cells. It is unified too.
pub fn alternatives_unify_again<Hint>()
    ensures { (sg : Signature) (x : Hint) (c : Clause Hint) (ns : List Nominal) (ps : List (Nominal × Nominal)) (first second : Scope Hint)
        (args again : Terms ℕ Hint) (ys : List (Variable ℕ)) (more : List (Cell Hint)) (q : Substitution ℕ Hint) (f : Guess) →
        let a = alternative x first args c ns on_right in
        let b = alternative x second again c (map (moved_by ps) ns) on_right in
        IsClause sg c → map (λ n. n.type) ns ≡ map (λ z. z.type) c.names → IsPermutationTable ps →
        AreTyped sg a.equations → AreKnown a.cells (ys ++ a.flexible) → AreOver a.cells a.equations →
        IsGuessFor sg (ys ++ a.flexible) f → MakesEqual f a.equations →
        Solves x (given a.equations a.cells (ys ++ a.flexible)) (unified more q) →
        AreKnown first.cells (variables_of_all args) → AreKnown second.cells (variables_of_all again) →
        ((y : Variable ℕ) (v : Term ℕ (Unit {0})) → f y ≡ Some v → AreKnown first.cells (variables v) × AreKnown second.cells (variables v)) →
        forget_all again ≡ rename_all (moved_by ps) (image_all_by f (forget_all args)) →
        AreTyped sg b.equations → AreKnown b.cells b.flexible → AreOver b.cells b.equations →
        (most : List (Cell Hint)) × (r : Substitution ℕ Hint) × Solves x (given b.equations b.cells b.flexible) (unified most r) }
{}
