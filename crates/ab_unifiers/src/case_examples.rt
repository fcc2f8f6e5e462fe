//! Worked instances: the alternatives are those that one writes by hand.
ghost use Rattle.std.specs.Prelude.{◌≡◌, [], ◌∷◌, map, codes};
ghost use Rattle.ab_term.specs.Types.{arrow, o, olist};
ghost use Rattle.ab_term.specs.Logical.{nabla};
ghost use Rattle.ab_term.specs.Terms.{constant, logical, lam, spine, terms_of};
ghost use Rattle.ab_unifiers.specs.Alternatives.{on_left, on_right, alternatives};
ghost use Rattle.ab_unifiers.specs.Member.{before, in_the_list, member_clauses};
ghost use Rattle.ab_unifiers.specs.Prefixes.{clause_of};
ghost use Rattle.ab_unifiers.specs.CaseExamples.{i, n, the, cell, at, known, bound, under, true_term, equal, asked, dis, name, nat, plus, ctx, two, one, formula_and_list, kept_cells};

/// Alternatives of some atoms.
pub fn alternatives_compute()
    // dis (X n1) (Y n1): the names are n1 and a new constant, a new one and n1, or two new ones
    ensures equations { map (λ a. a.equations) (alternatives (codes "x") on_left two (dis ∷ []) (known (codes "dis") (at (cell 0 (arrow i i)) (the 1 ∷ []) ∷ at (cell 1 (arrow i i)) (the 1 ∷ []) ∷ []))) ≡
        (equal 0 (at (cell 2 (arrow i (arrow i i))) (the 2 ∷ the 1 ∷ [])) (the 1) ∷ equal 1 (at (cell 3 (arrow i (arrow i i))) (the 2 ∷ the 1 ∷ [])) (the 2) ∷ []) ∷
        (equal 0 (at (cell 2 (arrow i (arrow i i))) (the 2 ∷ the 1 ∷ [])) (the 2) ∷ equal 1 (at (cell 3 (arrow i (arrow i i))) (the 2 ∷ the 1 ∷ [])) (the 1) ∷ []) ∷
        (equal 0 (at (cell 2 (arrow i (arrow i (arrow i i)))) (the 2 ∷ the 3 ∷ the 1 ∷ [])) (the 2) ∷ equal 1 (at (cell 3 (arrow i (arrow i (arrow i i)))) (the 2 ∷ the 3 ∷ the 1 ∷ [])) (the 3) ∷ []) ∷ [] }
    // their bodies, and what X and Y become
    ensures raised { map (λ a. a.raised) (alternatives (codes "x") on_left two (dis ∷ []) (known (codes "dis") (at (cell 0 (arrow i i)) (the 1 ∷ []) ∷ at (cell 1 (arrow i i)) (the 1 ∷ []) ∷ []))) ≡
        ((cell 0 (arrow i i), under i (at (cell 2 (arrow i (arrow i i))) (the 2 ∷ bound 0 ∷ []))) ∷ (cell 1 (arrow i i), under i (at (cell 3 (arrow i (arrow i i))) (the 2 ∷ bound 0 ∷ []))) ∷ []) ∷
        ((cell 0 (arrow i i), under i (at (cell 2 (arrow i (arrow i i))) (the 2 ∷ bound 0 ∷ []))) ∷ (cell 1 (arrow i i), under i (at (cell 3 (arrow i (arrow i i))) (the 2 ∷ bound 0 ∷ []))) ∷ []) ∷
        ((cell 0 (arrow i i), under i (at (cell 2 (arrow i (arrow i (arrow i i)))) (the 2 ∷ the 3 ∷ bound 0 ∷ []))) ∷ (cell 1 (arrow i i), under i (at (cell 3 (arrow i (arrow i (arrow i i)))) (the 2 ∷ the 3 ∷ bound 0 ∷ []))) ∷ []) ∷ [] }
    ensures chosen { map (λ a. a.chosen) (alternatives (codes "x") on_left two (dis ∷ []) (known (codes "dis") (at (cell 0 (arrow i i)) (the 1 ∷ []) ∷ at (cell 1 (arrow i i)) (the 1 ∷ []) ∷ []))) ≡
        (n 1 ∷ n 2 ∷ []) ∷ (n 2 ∷ n 1 ∷ []) ∷ (n 2 ∷ n 3 ∷ []) ∷ [] }
    ensures fresh { map (λ a. a.fresh) (alternatives (codes "x") on_left two (dis ∷ []) (known (codes "dis") (at (cell 0 (arrow i i)) (the 1 ∷ []) ∷ at (cell 1 (arrow i i)) (the 1 ∷ []) ∷ []))) ≡
        (n 2 ∷ []) ∷ (n 2 ∷ []) ∷ (n 2 ∷ n 3 ∷ []) ∷ [] }
    // name (X n1), on the left and on the right: n1, or a new constant
    ensures name_left { map (λ a. a.equations) (alternatives (codes "x") on_left two (name ∷ []) (known (codes "name") (at (cell 0 (arrow i i)) (the 1 ∷ []) ∷ []))) ≡
        (equal 0 (at (cell 0 (arrow i i)) (the 1 ∷ [])) (the 1) ∷ []) ∷ (equal 0 (at (cell 2 (arrow i (arrow i i))) (the 2 ∷ the 1 ∷ [])) (the 2) ∷ []) ∷ [] }
    ensures name_right { map (λ a. a.equations) (alternatives (codes "x") on_right two (name ∷ []) (known (codes "name") (at (cell 0 (arrow i i)) (the 1 ∷ []) ∷ []))) ≡
        (equal 0 (at (cell 0 (arrow i i)) (the 1 ∷ [])) (the 1) ∷ []) ∷ (equal 0 (at (cell 0 (arrow i i)) (the 1 ∷ [])) (the 2) ∷ []) ∷ [] }
    // what may be replaced: on the right nothing of the sequent; on the left its variables, raised or not, and then
    // the clause's
    ensures may_stay { map (λ a. a.flexible) (alternatives (codes "x") on_right two (ctx ∷ []) (known (codes "ctx") (at (cell 0 (arrow i i)) (the 1 ∷ []) ∷ []))) ≡
        (cell 2 i ∷ cell 3 i ∷ []) ∷ (cell 2 (arrow i i) ∷ cell 3 (arrow i i) ∷ []) ∷ [] }
    ensures may_go { map (λ a. a.flexible) (alternatives (codes "x") on_left two (ctx ∷ []) (known (codes "ctx") (at (cell 0 (arrow i i)) (the 1 ∷ []) ∷ []))) ≡
        (cell 0 (arrow i i) ∷ cell 1 (arrow i i) ∷ cell 2 i ∷ cell 3 i ∷ []) ∷
        (cell 2 (arrow i (arrow i i)) ∷ cell 3 (arrow i (arrow i i)) ∷ cell 4 (arrow i i) ∷ cell 5 (arrow i i) ∷ []) ∷ [] }
    // nat N: z, and s of a new variable
    ensures naturals { map asked (alternatives (codes "x") on_left one nat (known (codes "nat") (at (cell 0 i) [] ∷ []))) ≡
        (equal 0 (at (cell 0 i) []) (known (codes "z") []) ∷ [], true_term) ∷
        (equal 0 (at (cell 0 i) []) (known (codes "s") (at (cell 1 i) [] ∷ [])) ∷ [], known (codes "nat") (at (cell 1 i) [] ∷ [])) ∷ [] }
    // plus z z N
    ensures sums { map asked (alternatives (codes "x") on_left one plus (known (codes "plus") (known (codes "z") [] ∷ known (codes "z") [] ∷ at (cell 0 i) [] ∷ []))) ≡
        (equal 0 (known (codes "z") []) (known (codes "z") []) ∷ equal 1 (known (codes "z") []) (at (cell 1 i) []) ∷ equal 2 (at (cell 0 i) []) (at (cell 1 i) []) ∷ [], true_term) ∷ (
          equal 0 (known (codes "z") []) (known (codes "s") (at (cell 1 i) [] ∷ [])) ∷ equal 1 (known (codes "z") []) (at (cell 2 i) []) ∷ equal 2 (at (cell 0 i) []) (known (codes "s") (at (cell 3 i) [] ∷ [])) ∷ [],
          known (codes "plus") (at (cell 1 i) [] ∷ at (cell 2 i) [] ∷ at (cell 3 i) [] ∷ []),
        ) ∷ [] }
    // ctx N: only a new name, and the clause's variables don't see it
    ensures contexts { map asked (alternatives (codes "x") on_left one (ctx ∷ []) (known (codes "ctx") (at (cell 0 i) [] ∷ []))) ≡
        (equal 0 (at (cell 1 (arrow i i)) (the 1 ∷ [])) (known (codes "c") (known (codes "of") (the 1 ∷ at (cell 2 i) [] ∷ []) ∷ at (cell 3 i) [] ∷ [])) ∷ [], known (codes "ctx") (at (cell 3 i) [] ∷ [])) ∷ [] }
    // and ctx (X n1): the name n1, or a new one; the clause's variables are over what wasn't chosen
    ensures over_unchosen { map asked (alternatives (codes "x") on_left two (ctx ∷ []) (known (codes "ctx") (at (cell 0 (arrow i i)) (the 1 ∷ []) ∷ []))) ≡
        (equal 0 (at (cell 0 (arrow i i)) (the 1 ∷ [])) (known (codes "c") (known (codes "of") (the 1 ∷ at (cell 2 i) [] ∷ []) ∷ at (cell 3 i) [] ∷ [])) ∷ [], known (codes "ctx") (at (cell 3 i) [] ∷ [])) ∷
        (equal 0 (at (cell 2 (arrow i (arrow i i))) (the 2 ∷ the 1 ∷ [])) (known (codes "c") (known (codes "of") (the 2 ∷ at (cell 4 (arrow i i)) (the 1 ∷ []) ∷ []) ∷ at (cell 5 (arrow i i)) (the 1 ∷ []) ∷ [])) ∷ [], known (codes "ctx") (at (cell 5 (arrow i i)) (the 1 ∷ []) ∷ [])) ∷ [] }
    // member F L: the list begins with F, or F is in what follows
    ensures members { map asked (alternatives (codes "x") on_left formula_and_list member_clauses (spine (constant (codes "member")) (in_the_list (at (cell 0 o) []) (at (cell 1 olist) [])))) ≡
        (equal 0 (at (cell 0 o) []) (at (cell 2 o) []) ∷ equal 1 (at (cell 1 olist) []) (before (at (cell 2 o) []) (at (cell 3 olist) [])) ∷ [], true_term) ∷ (
          equal 0 (at (cell 0 o) []) (at (cell 2 o) []) ∷ equal 1 (at (cell 1 olist) []) (before (at (cell 3 o) []) (at (cell 4 olist) [])) ∷ [],
          spine (constant (codes "member")) (in_the_list (at (cell 2 o) []) (at (cell 4 olist) [])),
        ) ∷ [] }
    // a constant that the sequent holds and the atom doesn't is neither chosen nor new
    ensures held { map (λ a. a.chosen) (alternatives (codes "x") on_left (record { cells = two.cells; variables = two.variables; constants = n 1 ∷ n 2 ∷ [] }) (name ∷ []) (known (codes "name") (at (cell 0 (arrow i i)) (the 1 ∷ []) ∷ []))) ≡
        (n 1 ∷ []) ∷ (n 3 ∷ []) ∷ [] }
{}

/// A clause as it is kept, and the clause that it is: `nabla x, ctx (c (of x T) L) := ctx L`, with T and L the
/// cells 7 and 4.
pub fn kept_clauses_compute()
    ensures { clause_of (codes "x") kept_cells (cell 7 i ∷ cell 4 i ∷ [])
        (spine (logical (nabla i)) (terms_of (lam i (codes "x") (known (codes "ctx") (known (codes "c") (known (codes "of") (bound 0 ∷ at (cell 7 i) [] ∷ []) ∷ at (cell 4 i) [] ∷ []) ∷ [])) ∷ [])))
        (known (codes "ctx") (at (cell 4 i) [] ∷ [])) ≡ ctx }
{}
