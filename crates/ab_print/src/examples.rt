//! Worked instances: the definitions give the goals that one writes by hand.
ghost use Rattle.std.specs.Prelude.{◌≡◌, [], ◌∷◌, codes};
ghost use Rattle.ab_print.specs.Examples.{all_names, known, unknown, local, fresh_one, implies, equal, all, smaller, same_size, nat, plus, zero_term, with_name, goal_of, right_zero, by_induction};
ghost use Rattle.ab_print.specs.GoalText.{goal_lines, other_goal, reply_line};

/// Goals of a proof by induction.
pub fn goals_compute()
    ensures without_variables { goal_lines all_names (goal_of [] (by_induction ∷ []) (all (codes "N") (implies (same_size (nat (local 0))) (right_zero (local 0))))) ≡
        codes "IH : forall N, nat N * -> plus N z N\n============================\n forall N, nat N @ -> plus N z N\n" }
    // a variable's name in a formula that doesn't hold it is free for a bound name
    ensures with_a_variable { goal_lines all_names (goal_of (0 ∷ []) (by_induction ∷ with_name (codes "H1") (same_size (nat (unknown 0 []))) ∷ []) (right_zero (unknown 0 []))) ≡
        codes "Variables: N\nIH : forall N, nat N * -> plus N z N\nH1 : nat N @\n============================\n plus N z N\n" }
    ensures with_names { goal_lines all_names (goal_of (1 ∷ 2 ∷ 3 ∷ 4 ∷ 5 ∷ [])
        (with_name (codes "H2") (known (codes "member") (known (codes "of") (unknown 1 (fresh_one ∷ []) ∷ unknown 2 (fresh_one ∷ []) ∷ []) ∷ known (codes "::") (known (codes "of") (fresh_one ∷ unknown 4 [] ∷ []) ∷ unknown 5 [] ∷ []) ∷ []))
        ∷ with_name (codes "H4") (smaller (known (codes "ctx") (unknown 5 [] ∷ []))) ∷ [])
        (equal (unknown 2 (fresh_one ∷ [])) (unknown 3 (fresh_one ∷ [])))) ≡
        codes "Variables: E T1 T2 T L1\nH2 : member (of (E n1) (T1 n1)) (of n1 T :: L1)\nH4 : ctx L1 *\n============================\n T1 n1 = T2 n1\n" }
    ensures without_anything { goal_lines all_names (goal_of [] [] (plus zero_term zero_term zero_term)) ≡
        codes "============================\n plus z z z\n" }
    // here the name isn't free: the variable stands in the body
    ensures not_free { goal_lines all_names (goal_of (0 ∷ []) [] (all (codes "N") (equal (local 0) (unknown 0 [])))) ≡
        codes "Variables: N\n============================\n forall N1, N1 = N\n" }
{}

/// Goals that aren't the first, and replies.
pub fn lines_compute()
    ensures second { other_goal all_names 2 (plus (known (codes "s") (unknown 0 [] ∷ [])) zero_term (known (codes "s") (unknown 0 [] ∷ []))) ≡
        codes "Subgoal 2 is:\n plus (s N) z (s N)\n" }
    ensures twelfth { other_goal all_names 12 (all (codes "X") (equal (local 0) (local 0))) ≡ codes "Subgoal 12 is:\n forall X, X = X\n" }
    ensures number_alone { reply_line 9 [] ≡ codes "[9]\n" }
    ensures text { reply_line 12 (codes "Proof completed: plus_zero.") ≡ codes "[12] Proof completed: plus_zero.\n" }
{}
