//! What the steps of a proof owe: the theorems that they take, and the goals that they admit.
ghost use Rattle.std.specs.Prelude.{◌≡◌, ◌++◌, List, OnOk, OnErr, map};
ghost use Rattle.std.specs.Option.{option_copied};
ghost use Rattle.ab_logic.specs.declared.world.World.{World as AWorld};
ghost use Rattle.ab_theory.specs.Derivations.{Debt as ADebt, debts_of, goals_admitted};
ghost use Rattle.ab_kernel.specs.Debts.{debt_of, owed, owed_at};
ghost use Rattle.ab_rules.specs.RuleAnswers.{step_of};

use ab_norm::name::Name;
use ab_rules::Step;
use std::alloc::{AllocError, Global};

/// What a step of a proof owes.
#[derive(Drop)]
pub enum Debt {
    /// The theorem of this name, which the step takes.
    Theorem(Name),
    /// The goal, which the step admits.
    Goal,
}

/// Notes what the step owes behind the other debts.
pub(crate) fn note_debt(alloc: Global, debts: &mut Vec<Debt>, step: &Step) -> Result<(), AllocError>
    ensures noted { OnOk result ((w : AWorld) → owed debts.new.items ≡ debts_of (step_of w step.now) ++ owed debts.old.items) }
    ensures err { OnErr result (debts.new.items ≡ debts.old.items) }
{
    match step {
        Step::UseTheorem(name, _) => {
            let taken = name.copy(alloc)?;
            debts.push(Debt::Theorem(taken))?;
            Ok(())
        }
        Step::Skip => {
            debts.push(Debt::Goal)?;
            Ok(())
        }
        _ => Ok(()),
    }
}

/// Forgets what the step owes, if there is one, whose debts are the last.
pub(crate) fn forget_debt(debts: &mut Vec<Debt>, step: Option<&Step>)
    ensures { (w : AWorld) (rest : List ADebt) → owed debts.old.items ≡ owed_at w (option_copied step.entry) ++ rest → owed debts.new.items ≡ rest }
{
    match step {
        Some(Step::UseTheorem(_, _) | Step::Skip) => {
            let _ = debts.pop();
        }
        _ => {}
    }
}

/// How many goals are admitted.
pub(crate) fn count_gaps(debts: &[Debt]) -> usize
    ensures { result ≡ goals_admitted (map debt_of debts.now) }
{
    let mut count = 0;
    for debt in debts {
        if let Debt::Goal = debt {
            count += 1;
        }
    }
    count
}
