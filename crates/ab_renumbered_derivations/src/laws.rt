//! Derivations by other numbers.
ghost use Rattle.std.specs.Prelude.{◌≡◌, map};
ghost use Rattle.ab_formulas.specs.Declarations.{Declarations};
ghost use Rattle.ab_formulas.specs.NamedGoals.{named};
ghost use Rattle.ab_formulas.specs.Sequents.{Sequent, IsSequent};
ghost use Rattle.ab_theory.specs.Derivations.{Derivation, root, Valid, open_goals, debts};
ghost use Rattle.ab_derived_goals.specs.Derived.{AreSound, IsDerivedAlike};

/// NUMBERS OF VARIABLES MAKE NO DIFFERENCE: where a sequent has a derivation, each sequent that is the same with names for numbers is derived from
/// goals that are the same, and owes the same.
pub fn derivations_by_other_numbers()
    ensures { (D : Declarations) (d : Derivation) (s : Sequent) → AreSound D → Valid D d → IsSequent D (root d) → IsSequent D s → named s ≡ named (root d) →
        IsDerivedAlike D s (open_goals d) (debts d) }
{}
