//! Worked steps: the rules do what one does by hand.
ghost use Rattle.std.specs.Prelude.{◌≡◌, [], ◌∷◌, ◌++◌, codes};
ghost use Rattle.ab_term.specs.Types.{arrow};
ghost use Rattle.ab_unifiers.specs.Unification.{unified, apart, stuck, finished, goes_on, next, Solves};
ghost use Rattle.ab_unifiers.specs.Unifiers.{given};
ghost use Rattle.ab_unifiers.specs.Examples.{i, cell, n1, n2, n3, name, known, at, over, two_cells, problem};

/// The first step of some problems in X (cell 0) and Y (cell 1), X older.
pub fn steps_compute()
    // X n1 n2 = Y n2: X becomes x\ x1\ Y x1
    ensures subset { next (codes "x") (problem (two_cells (arrow i (arrow i i)) (arrow i i)) (cell 0 (arrow i (arrow i i)) ∷ cell 1 (arrow i i) ∷ [])
        (at (cell 0 (arrow i (arrow i i))) (n1 ∷ n2 ∷ [])) (at (cell 1 (arrow i i)) (n2 ∷ []))) ≡
        goes_on (record {
          equations = [];
          cells = two_cells (arrow i (arrow i i)) (arrow i i);
          flexible = cell 1 (arrow i i) ∷ [];
          pairs = (cell 0 (arrow i (arrow i i)), over (over (at (cell 1 (arrow i i)) (name 0 ∷ [])))) ∷ [];
        }) }
    // X n1 n2 = Y n2 n3: both become a new variable over n2
    ensures common { next (codes "x") (problem (two_cells (arrow i (arrow i i)) (arrow i (arrow i i))) (cell 0 (arrow i (arrow i i)) ∷ cell 1 (arrow i (arrow i i)) ∷ [])
        (at (cell 0 (arrow i (arrow i i))) (n1 ∷ n2 ∷ [])) (at (cell 1 (arrow i (arrow i i))) (n2 ∷ n3 ∷ []))) ≡
        goes_on (record {
          equations = [];
          cells = two_cells (arrow i (arrow i i)) (arrow i (arrow i i)) ++ record { hint = codes "X"; type = arrow i i } ∷ [];
          flexible = cell 2 (arrow i i) ∷ [];
          pairs = (cell 0 (arrow i (arrow i i)), over (over (at (cell 2 (arrow i i)) (name 0 ∷ [])))) ∷
              (cell 1 (arrow i (arrow i i)), over (over (at (cell 2 (arrow i i)) (name 1 ∷ [])))) ∷ [];
        }) }
    // Y n1 n2 = Y n1 n3: Y becomes a new variable over n1
    ensures one { next (codes "x") (problem (two_cells (arrow i (arrow i i)) (arrow i (arrow i i))) (cell 1 (arrow i (arrow i i)) ∷ [])
        (at (cell 1 (arrow i (arrow i i))) (n1 ∷ n2 ∷ [])) (at (cell 1 (arrow i (arrow i i))) (n1 ∷ n3 ∷ []))) ≡
        goes_on (record {
          equations = [];
          cells = two_cells (arrow i (arrow i i)) (arrow i (arrow i i)) ++ record { hint = codes "Y"; type = arrow i i } ∷ [];
          flexible = cell 2 (arrow i i) ∷ [];
          pairs = (cell 1 (arrow i (arrow i i)), over (over (at (cell 2 (arrow i i)) (name 1 ∷ [])))) ∷ [];
        }) }
    // X n1 = c (x\ c (Y x n2) (Y n1 x)): Y n2's name goes, and X becomes y\ c (x\ c (Y' x) (Y' y))
    ensures pruned { next (codes "x") (problem (two_cells (arrow i i) (arrow i (arrow i i))) (cell 0 (arrow i i) ∷ cell 1 (arrow i (arrow i i)) ∷ [])
        (at (cell 0 (arrow i i)) (n1 ∷ [])) (known (over (known (at (cell 1 (arrow i (arrow i i))) (name 0 ∷ n2 ∷ []) ∷ at (cell 1 (arrow i (arrow i i))) (n1 ∷ name 0 ∷ []) ∷ [])) ∷ []))) ≡
        goes_on (record {
          equations = [];
          cells = two_cells (arrow i i) (arrow i (arrow i i)) ++ record { hint = codes "Y"; type = arrow i i } ∷ [];
          flexible = cell 2 (arrow i i) ∷ [];
          pairs = (cell 1 (arrow i (arrow i i)), over (over (at (cell 2 (arrow i i)) (name 1 ∷ [])))) ∷
              (cell 0 (arrow i i), over (known (over (known (at (cell 2 (arrow i i)) (name 0 ∷ []) ∷ at (cell 2 (arrow i i)) (name 1 ∷ []) ∷ [])) ∷ []))) ∷ [];
        }) }
    // X n1 = c n2: n2 is foreign
    ensures foreign { next (codes "x") (problem (two_cells (arrow i i) i) (cell 0 (arrow i i) ∷ []) (at (cell 0 (arrow i i)) (n1 ∷ [])) (known (n2 ∷ []))) ≡ finished apart }
    // X = c X
    ensures occurs { next (codes "x") (problem (two_cells i i) (cell 0 i ∷ []) (at (cell 0 i) []) (known (at (cell 0 i) [] ∷ []))) ≡ finished apart }
    // X n1 n1 = n1
    ensures no_pattern { next (codes "x") (problem (two_cells (arrow i (arrow i i)) i) (cell 0 (arrow i (arrow i i)) ∷ []) (at (cell 0 (arrow i (arrow i i))) (n1 ∷ n1 ∷ [])) n1) ≡ finished (stuck 0) }
{}

/// Whole rows of steps, with X (cell 0) and Y (cell 1).
pub fn rows_of_steps_compute()
    // X (Y n1) = n1 and Y n1 = n1: the first is no pattern before the second is solved
    ensures later { Solves (codes "x")
        (given (record { place = 0; left = at (cell 0 (arrow i i)) (at (cell 1 (arrow i i)) (n1 ∷ []) ∷ []); right = n1 } ∷
        record { place = 1; left = at (cell 1 (arrow i i)) (n1 ∷ []); right = n1 } ∷ [])
        (two_cells (arrow i i) (arrow i i)) (cell 0 (arrow i i) ∷ cell 1 (arrow i i) ∷ []))
        (unified (two_cells (arrow i i) (arrow i i)) ((cell 1 (arrow i i), over (name 0)) ∷ (cell 0 (arrow i i), over (name 0)) ∷ [])) }
    // Y n1 = n1 and X (Y n1) n1 = n1: the second becomes X n1 n1 = n1
    ensures left { Solves (codes "x")
        (given (record { place = 0; left = at (cell 1 (arrow i i)) (n1 ∷ []); right = n1 } ∷
        record { place = 1; left = at (cell 0 (arrow i (arrow i i))) (at (cell 1 (arrow i i)) (n1 ∷ []) ∷ n1 ∷ []); right = n1 } ∷ [])
        (two_cells (arrow i (arrow i i)) (arrow i i)) (cell 0 (arrow i (arrow i i)) ∷ cell 1 (arrow i i) ∷ []))
        (stuck 1) }
    // X n1 = n1 and X n2 = n1: X is the identity, and n2 isn't n1
    ensures apart { Solves (codes "x")
        (given (record { place = 0; left = at (cell 0 (arrow i i)) (n1 ∷ []); right = n1 } ∷
        record { place = 1; left = at (cell 0 (arrow i i)) (n2 ∷ []); right = n1 } ∷ [])
        (two_cells (arrow i i) (arrow i i)) (cell 0 (arrow i i) ∷ [])) apart }
{}
