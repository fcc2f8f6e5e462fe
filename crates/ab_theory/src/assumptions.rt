//! Laws of what derivations owe, and of what theorems assume by it.

ghost use Rattle.std.specs.Prelude.{◌≡◌, ◌≤◌, ◌+◌, ◌↔◌, ℕ, List, [], ◌++◌, length, Some, Contains, IsSome};
ghost use Rattle.ab_formulas.specs.Declarations.{Declarations, ArePlacesUpTo, assumed_in, theorem_in, theorems_in};
ghost use Rattle.ab_formulas.specs.Sequents.{Sequent};
ghost use Rattle.ab_theory.specs.Steps.{Step};
ghost use Rattle.ab_theory.specs.Derivations.{Derivation, goal, Valid, goal_at, refined, Debt, theorem_taken, debts_of, debts, OwesMore, goals_admitted, gaps};
ghost use Rattle.ab_theory.specs.Assumptions.{all_places, assumed_by, with_debts};

/// A step that is taken at an open goal owes its debts and no others, and admits as many goals more as there are among them.
pub fn a_step_owes()
    ensures owes { (place : ℕ) (step : Step) (s : Sequent) (ps : List Sequent) (d : Derivation) →
        goal_at d place ≡ Some s → OwesMore (debts_of step) d (refined place step ps d) }
    ensures gaps { (place : ℕ) (step : Step) (s : Sequent) (ps : List Sequent) (d : Derivation) →
        goal_at d place ≡ Some s → gaps (refined place step ps d) ≡ gaps d + goals_admitted (debts_of step) }
{}

/// Debts add up.
pub fn debts_add_up()
    ensures none { (d : Derivation) → OwesMore [] d d }
    ensures same { (d e : Derivation) → debts d ≡ debts e → OwesMore [] d e }
    ensures more { (ts us : List Debt) (d e f : Derivation) → OwesMore ts d e → OwesMore us e f → OwesMore (ts ++ us) d f }
{}

/// The places that the next theorem assumes are all those up to its own that its derivation's debts bring, in growing order.
pub fn assumed_places_are_in_order()
    ensures grow { (D : Declarations) (d : Derivation) → ArePlacesUpTo (length (theorems_in D)) (assumed_by D d) }
    ensures all { (D : Declarations) (d : Derivation) (j : ℕ) →
        Contains (assumed_by D d) j ↔ (j ≤ length (theorems_in D)) × Contains (all_places D (debts d)) j }
{}

/// A derivation that begins assumes nothing, and one that owes more assumes what the debts bring, and nothing else.
pub fn assumed_places_follow_debts()
    ensures begun { (D : Declarations) (s : Sequent) → assumed_by D (goal s) ≡ [] }
    ensures more { (D : Declarations) (ts : List Debt) (d e : Derivation) → OwesMore ts d e → assumed_by D e ≡ with_debts D ts (assumed_by D d) }
{}

/// Where theorems assume places of theorems alone, a derivation that makes the next theorem assume nothing admits no goal, and takes
/// theorems that assume nothing.
pub fn what_assumes_nothing_has_no_gaps()
    ensures { (D : Declarations) (d : Derivation) → ((n : List ℕ) (j : ℕ) → Contains (assumed_in D n) j → j ≤ length (theorems_in D)) →
        assumed_by D d ≡ [] → (gaps d ≡ 0) × ((n : List ℕ) → Contains (debts d) (theorem_taken n) → assumed_in D n ≡ []) }
{}

/// What is valid takes theorems that are there.
pub fn theorems_taken_are_declared()
    ensures { (D : Declarations) (d : Derivation) (n : List ℕ) → Valid D d → Contains (debts d) (theorem_taken n) → IsSome (theorem_in D n) }
{}
