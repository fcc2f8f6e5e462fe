//! Worked instances: the definitions compute what one writes by hand, hints included.

ghost use Rattle.std.specs.Prelude.{◌≡◌, [], ◌∷◌, codes};
ghost use Rattle.ab_term.specs.Types.{arrow};
ghost use Rattle.ab_term.specs.Terms.{constant, nominal, index, lam, spine, no_terms, term};
ghost use Rattle.ab_term.specs.Substitution.{instance};
ghost use Rattle.ab_term.specs.Beta.{atom, abstraction, application};
ghost use Rattle.ab_term.specs.Normal.{normal};
ghost use Rattle.ab_term.specs.Abstraction.{abstracted};
ghost use Rattle.ab_term.specs.Examples.{i, name, name_of, known, known_of, constant_of, only_s};

/// Heads that become abstractions are applied at once, and a term that is put in keeps its names' binders.
pub fn instances_compute()
    // f\ f (x\ x) at g\ g c is c
    ensures higher_order { instance (lam (arrow (arrow i i) i) (codes "f") (name_of 0 (lam i (codes "x") (name 0))))
        (lam (arrow i i) (codes "g") (name_of 0 (known (codes "c")))) ≡
        known (codes "c") }
    // f\ x\ f (f x) at y\ s y is x\ s (s x)
    ensures twice { instance (lam (arrow i i) (codes "f") (lam i (codes "x") (name_of 1 (name_of 1 (name 0)))))
        (lam i (codes "y") (known_of (codes "s") (name 0))) ≡
        lam i (codes "x") (known_of (codes "s") (known_of (codes "s") (name 0))) }
    // F\ p (x\ F x) at y\ ab (z\ y) is p (x\ ab (z\ x)): an eta-long argument keeps its binder's hint
    ensures hints { instance (lam (arrow i i) (codes "F") (known_of (codes "p") (lam i (codes "x") (name_of 1 (name 0)))))
        (lam i (codes "y") (known_of (codes "ab") (lam i (codes "z") (name 1)))) ≡
        known_of (codes "p") (lam i (codes "x") (known_of (codes "ab") (lam i (codes "z") (name 1)))) }
{}

/// Names become bound, and come back; a redex is reduced, and a head gets the arguments that its type takes.
pub fn abstractions_compute()
    // p (x\ n1 x) over n1 is y\ p (x\ y x)
    ensures closed { abstracted (codes "y") (arrow (arrow i i) i) (nominal (constant_of (arrow i i)) ∷ [])
        (known_of (codes "p") (lam i (codes "x") (spine (nominal (constant_of (arrow i i))) (term (name 0) no_terms)))) ≡
        lam (arrow i i) (codes "y") (known_of (codes "p") (lam i (codes "x") (name_of 1 (name 0)))) }
    // (f\ f) s, where s takes one argument, is x\ s x
    ensures long { normal only_s (codes "x") []
        (application (abstraction (arrow i i) (codes "f") (atom (index 0))) (atom (constant (codes "s")))) ≡
        lam i (codes "x") (known_of (codes "s") (name 0)) }
{}
