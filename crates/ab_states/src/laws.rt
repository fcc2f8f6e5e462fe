//! Laws of what theorems assume.
ghost use Rattle.std.specs.Prelude.{◌≡◌, ◌<◌, ◌⊎◌, ◌↔◌, ℕ, List, [], Contains, IsSome};
ghost use Rattle.ab_formulas.specs.Declarations.{Declarations, theorem_in, assumed_in};
ghost use Rattle.ab_theory.specs.Derivations.{Derivation, debts, theorem_taken, gaps};
ghost use Rattle.ab_states.specs.DerivedTheorems.{IsDerived, AreDerived, IsProved};

/// A theorem assumes itself, where goals were admitted in its derivation, and what those theorems assume that the derivation takes;
/// and nothing else.
pub fn theorems_assume_what_has_gaps()
    ensures { (D : Declarations) (place j : ℕ) (d : Derivation) (is : IsDerived D place d) → AreDerived D → Contains is.assumed j
        ↔ (((j ≡ place) × (0 < gaps d)) ⊎ ((name : List ℕ) × Contains (debts d) (theorem_taken name) × Contains (assumed_in D name) j)) }
{}

/// A theorem that assumes nothing is proved, where each theorem has its derivation.
pub fn what_assumes_nothing_is_proved()
    ensures { (D : Declarations) (name : List ℕ) → AreDerived D → IsSome (theorem_in D name) → assumed_in D name ≡ [] → IsProved D name }
{}
