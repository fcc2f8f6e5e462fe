//! Bound names are printed so that each stands for itself.
ghost use Rattle.std.specs.Prelude.{◌≡◌, ℕ, ◌+◌, ◌-◌, ◌^◌, ◌<◌, List, ◌∷◌, length, Contains};
ghost use Rattle.std.specs.List.{filter_map};
ghost use Rattle.ab_term.specs.Types.{Ty};
ghost use Rattle.ab_term.specs.Terms.{Term, lam};
ghost use Rattle.ab_print.specs.PrintedNames.{free_heads};
ghost use Rattle.ab_print.specs.NameAssignment.{names_in, bound_name};
ghost use Rattle.ab_print.specs.NameScopes.{ArePrintedApart, IsShort};

/// No bound name captures: it is no printed name of what stands in its binder's body. The numbers of
/// names are those of 64 bits, so fewer heads than that may stand there.
pub fn bound_names_capture_nothing<Var>()
    ensures { (name : Var → List ℕ) (names : List (List ℕ)) (A : Ty) (x : List ℕ) (t : Term Var (List ℕ)) →
        IsShort (free_heads (lam A x t)) → Contains (names_in name names (free_heads (lam A x t))) (bound_name name names x t) → ⊥ }
{}

/// No two variables in scope are printed alike: where different heads of an abstraction have different printed
/// names, so have those of its body, under the name that its bound name gets.
pub fn names_in_scope_differ<Var>()
    ensures { (name : Var → List ℕ) (names : List (List ℕ)) (A : Ty) (x : List ℕ) (t : Term Var (List ℕ)) →
        IsShort (free_heads (lam A x t)) → ArePrintedApart name names (free_heads (lam A x t)) →
        ArePrintedApart name (bound_name name names x t ∷ names) (free_heads t) }
{}
