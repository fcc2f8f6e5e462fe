//! New variables find names.
ghost use Rattle.std.specs.Prelude.{ℕ, ◌<◌, ◌^◌, List, length};
ghost use Rattle.ab_formulas.specs.Declarations.{Declarations};
ghost use Rattle.ab_formulas.specs.FreeStems.{taken_names};
ghost use Rattle.ab_formulas.specs.NewNames.{IsNamedFor};
ghost use Rattle.ab_formulas.specs.Sequents.{Sequent};
ghost use Rattle.ab_existence.specs.Certainty.{IsCertain};

/// A NEW VARIABLE FINDS A NAME, whatever its hint, where fewer than 2 ^ 99 are taken. (Without a bound that is false: the number
/// behind a stem is written with at most 64 digits.)
pub fn new_variables_find_names()
    ensures { (D : Declarations) (s : Sequent) (hint : List ℕ) → length (taken_names D s) < 2 ^ 99 → IsCertain ((name : List ℕ) × IsNamedFor D s hint name) }
{}
