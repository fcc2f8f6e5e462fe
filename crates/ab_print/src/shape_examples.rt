//! Worked instances: the definitions give the bytes that one writes by hand.
ghost use Rattle.std.specs.Prelude.{◌≡◌, codes};
ghost use Rattle.ab_term.specs.Logical.{disjunction, at_sign, spec_universal, spec_implication};
ghost use Rattle.ab_term.specs.Terms.{logical, index};
ghost use Rattle.ab_print.specs.ShapeExamples.{i, shown, alone, of, of_two, known, unknown, nominal_of, under, all, some, implies, and, equal, p, nil, cons, holds, holds_by};

/// Names of bound names.
pub fn names_compute()
    // a hint that doesn't stand in the body is free, whatever the names around it
    ensures not_in_the_body { shown (all (codes "X") (implies (all (codes "X") (p (alone (index 0)))) (p (alone (index 0))))) ≡
        codes "forall X, (forall X, p X) -> p X" }
    // one that stands there isn't: the stem, and the first number
    ensures in_the_body { shown (all (codes "X") (all (codes "X") (equal (alone (index 0)) (alone (index 1))))) ≡
        codes "forall X X1, X1 = X" }
    ensures first_number { shown (all (codes "X1") (all (codes "X2") (all (codes "X2") (and (equal (alone (index 2)) (alone (index 1))) (p (alone (index 0))))))) ≡
        codes "forall X1 X2 X3, X1 = X2 /\\ p X3" }
    ensures second_number { shown (all (codes "X1") (all (codes "X2") (equal (alone (index 1)) (of_two (known (codes "g")) (alone (index 0)) (alone (unknown (codes "X2"))))))) ≡
        codes "forall X1 X3, X1 = g X3 X2" }
    // a constant, a nominal constant and `nil` keep their names
    ensures constants { shown (all (codes "c") (equal (alone (index 0)) (alone (known (codes "c"))))) ≡
        codes "forall c1, c1 = c" }
    ensures nominal_constants { shown (some (codes "n1") (equal (alone (index 0)) (alone (nominal_of 1)))) ≡
        codes "exists n2, n2 = n1" }
    ensures lists { shown (all (codes "nil") (holds (cons (p (alone (index 0))) nil) (p (alone (index 0))))) ≡
        codes "forall nil1, {p nil1 |- p nil1}" }
{}

/// Quantifiers, abstractions and eta-long names.
pub fn binders_compute()
    ensures two_kinds { shown (all (codes "X") (some (codes "Y") (all (codes "Z") (p (alone (index 1)))))) ≡
        codes "forall X, exists Y, forall Z, p Y" }
    ensures as_an_operand { shown (and (some (codes "X") (p (alone (index 0)))) (some (codes "Y") (p (alone (index 0))))) ≡
        codes "(exists X, p X) /\\ exists Y, p Y" }
    ensures before_an_operand { shown (and (and (p (alone (known (codes "c")))) (all (codes "X") (p (alone (index 0))))) (p (alone (known (codes "d"))))) ≡
        codes "p c /\\ (forall X, p X) /\\ p d" }
    ensures a_name { shown (p (under (codes "x") (of (known (codes "f")) (alone (index 0))))) ≡
        codes "p f" }
    ensures a_name_of_two { shown (p (under (codes "x") (under (codes "y") (of_two (known (codes "g")) (alone (index 1)) (alone (index 0)))))) ≡
        codes "p g" }
    ensures not_only_a_name { shown (p (under (codes "x") (of_two (known (codes "g")) (alone (known (codes "c"))) (alone (index 0))))) ≡
        codes "p x\\ g c x" }
    ensures the_sign_of_lists { shown (p (under (codes "x") (under (codes "l") (cons (alone (index 1)) (alone (index 0)))))) ≡
        codes "p ::" }
    // the body of an abstraction stays as it is
    ensures a_body { shown (p (under (codes "x") (under (codes "y") (of (known (codes "f")) (alone (index 0)))))) ≡
        codes "p x\\ y\\ f y" }
    ensures exchanged { shown (p (under (codes "x") (under (codes "y") (of_two (known (codes "g")) (alone (index 0)) (alone (index 1)))))) ≡
        codes "p x\\ y\\ g y x" }
    ensures first_argument { shown (of_two (known (codes "q")) (under (codes "x") (alone (index 0))) (under (codes "x") (alone (index 0)))) ≡
        codes "q (x\\ x) x\\ x" }
    ensures before_a_bracket { shown (p (p (under (codes "x") (alone (index 0))))) ≡
        codes "p (p x\\ x)" }
    ensures sides { shown (equal (under (codes "x") (of (known (codes "f")) (alone (index 0)))) (under (codes "x") (alone (index 0)))) ≡
        codes "f = x\\ x" }
    ensures pi { shown (of_two (logical spec_implication) (of (logical (spec_universal i)) (under (codes "x") (p (alone (index 0))))) (of (logical (spec_universal i)) (under (codes "x") (p (alone (index 0)))))) ≡
        codes "pi (x\\ p x) => pi x\\ p x" }
{}

/// Signs, marks and judgements.
pub fn forms_compute()
    ensures groups { shown (implies (implies (p (alone (known (codes "a")))) (p (alone (known (codes "b"))))) (implies (p (alone (known (codes "c")))) (p (alone (known (codes "d")))))) ≡
        codes "(p a -> p b) -> p c -> p d" }
    ensures levels { shown (and (and (p (alone (known (codes "a")))) (p (alone (known (codes "b"))))) (of_two (logical disjunction) (p (alone (known (codes "c")))) (p (alone (known (codes "d")))))) ≡
        codes "p a /\\ p b /\\ (p c \\/ p d)" }
    ensures mark { shown (implies (of (logical (at_sign 2)) (p (alone (known (codes "a"))))) (p (alone (known (codes "b"))))) ≡
        codes "p a @@ -> p b" }
    ensures mark_behind_an_abstraction { shown (of (logical (at_sign 1)) (p (under (codes "x") (alone (index 0))))) ≡
        codes "p (x\\ x) @" }
    ensures mark_behind_a_judgement { shown (of (logical (at_sign 1)) (holds nil (p (alone (known (codes "a")))))) ≡
        codes "{p a}@" }
    ensures in_the_order_of_writing { shown (holds (cons (p (alone (known (codes "a")))) (cons (p (alone (known (codes "b")))) (alone (unknown (codes "L"))))) (p (alone (known (codes "c"))))) ≡
        codes "{L, p b, p a |- p c}" }
    ensures without_nil { shown (holds (cons (p (alone (known (codes "a")))) nil) (p (alone (known (codes "c"))))) ≡
        codes "{p a |- p c}" }
    ensures nil_before_a_name { shown (holds (cons (alone (unknown (codes "A"))) nil) (alone (unknown (codes "G")))) ≡
        codes "{nil, A |- G}" }
    ensures focus { shown (holds_by (alone (unknown (codes "L"))) (of (logical (spec_universal i)) (under (codes "x") (p (alone (index 0))))) (p (alone (known (codes "c"))))) ≡
        codes "{L, [pi x\\ p x] |- p c}" }
    ensures focus_alone { shown (holds_by nil (p (alone (known (codes "a")))) (p (alone (known (codes "c"))))) ≡
        codes "{[p a] |- p c}" }
    ensures items_and_goal { shown (holds (cons (of (logical (spec_universal i)) (under (codes "x") (p (alone (index 0))))) nil) (of (logical (spec_universal i)) (under (codes "x") (p (alone (index 0)))))) ≡
        codes "{pi (x\\ p x) |- pi x\\ p x}" }
{}
