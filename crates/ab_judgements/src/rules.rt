//! Whether it is known by which rules a judgement may hold.
ghost use Rattle.std.specs.Prelude.{◌≡◌, None, IsTrue, IsFalse, IsSome};
ghost use Rattle.ab_formulas.specs.Programs.{Program};
ghost use Rattle.ab_theory.specs.SpecRules.{rules_of};
ghost use Rattle.ab_judgement_forms.specs.JudgementReadings.{judgement_read, HoldsJudgement};

use ab_judgement_forms::{Judgement, has_undetermined_atom, is_undetermined, kind_of};
use ab_logic::World;

/// Whether it is known by which rules the judgement may hold: its goal is determined, and so is each atom of the formula in
/// focus.
pub fn knows_rules(world: &World, judgement: &Judgement) -> bool
    requires { HoldsJudgement world.now judgement.now }
    ensures yes { IsTrue result → (cs : Program) → IsSome (rules_of cs (judgement_read world.now judgement.now)) }
    ensures no { IsFalse result → (cs : Program) → rules_of cs (judgement_read world.now judgement.now) ≡ None }
{
    if is_undetermined(kind_of(&world.store, judgement.goal)) {
        return false;
    }
    match judgement.focus {
        None => true,
        Some(formula) => !has_undetermined_atom(&world.store, formula),
    }
}
