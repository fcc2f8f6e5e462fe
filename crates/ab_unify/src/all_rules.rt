//! All rules, for one equation.
ghost use Rattle.std.specs.Prelude.{◌≡◌, ◌≤◌, ℕ, List, All, IfOk, codes};
ghost use Rattle.ab_norm.specs.ab_types.specs.Entries.{Table};
ghost use Rattle.ab_norm.specs.ab_store.specs.Naming.{IsTypedBy};
ghost use Rattle.ab_norm.specs.NodeGrowth.{AddsTypedTerms};
ghost use Rattle.ab_patterns.specs.EquationReadings.{equation_of, EquationIsResolved};
ghost use Rattle.ab_patterns.specs.ab_unifiers.specs.Unification.{rule};
ghost use Rattle.ab_unify.specs.Problem.{cells_read, variables_read};
ghost use Rattle.ab_unify.specs.StoreChanges.{Grows, IsFree};
ghost use Rattle.ab_unify.specs.Outcome.{equation_read, IsTypedEquation, Tells};

use crate::flexible_rules::Step;
use crate::rule_choices::solve_flexible;
use ab_norm::copy_resolved;
use ab_norm::store::Store;
use ab_norm::types::{Steps, TypeTable};
use ab_patterns::{FlexibleCells, Numbered, Simple, try_simple_rules};
use std::alloc::{AllocError, Global};

/// The equation with the bindings put in.
fn resolved_equation<L>(
    alloc: Global,
    types: &TypeTable,
    store: &mut Store,
    equation: Numbered,
    steps: &mut Steps<L>,
) -> Result<Numbered, AllocError>
    requires store { IsTypedBy types.now store.old }
    requires equation { IsTypedEquation types.now store.old equation }
    ensures adds { AddsTypedTerms types.now store.old store.new }
    ensures reads { IfOk result (λ e. equation_of types.now store.new e ≡ equation_read types.now store.old equation) }
    ensures resolved { IfOk result (EquationIsResolved store.new) }
    ensures typed { IfOk result (IsTypedEquation types.now store.new) }
    ensures steps { steps.old ≤ steps.new }
{
    let left = copy_resolved(alloc, types, store, equation.left, steps)?;
    let right = copy_resolved(alloc, types, store, equation.right, steps)?;
    Ok(Numbered {
        place: equation.place,
        left,
        right,
    })
}

/// Carries out the first rule that applies to an equation in which no bound cell stands.
fn apply_to_resolved<L>(
    alloc: Global,
    types: &mut TypeTable,
    store: &mut Store,
    flexible: &mut FlexibleCells,
    equation: Numbered,
    steps: &mut Steps<L>,
) -> Result<Step, AllocError>
    requires store { IsTypedBy types.old store.old }
    requires free { All (IsFree store.old) flexible.old.items }
    requires equation { IsTypedEquation types.old store.old equation }
    requires resolved { EquationIsResolved store.old equation }
    ensures grows { Grows types.old store.old types.new store.new }
    ensures steps { steps.old ≤ steps.new }
    ensures tells { IfOk result (λ r. Tells types.old store.old flexible.old.items types.new store.new flexible.new.items r
        (rule (codes "x") (cells_read types.old store.old) (variables_read types.old store.old flexible.old.items) (equation_of types.old store.old equation))) }
{
    match try_simple_rules(alloc, types, store, flexible, equation)? {
        Simple::Clash => Ok(Step::Clash),
        Simple::Parts(parts) => Ok(Step::Parts(parts)),
        Simple::NoRule => solve_flexible(
            alloc,
            types,
            store,
            flexible,
            equation.place,
            equation.left,
            equation.right,
            steps,
        ),
    }
}

/// Carries out the first rule that applies to the equation, and says what it made of it.
pub(crate) fn apply_rule<L>(
    alloc: Global,
    types: &mut TypeTable,
    store: &mut Store,
    flexible: &mut FlexibleCells,
    equation: Numbered,
    steps: &mut Steps<L>,
) -> Result<Step, AllocError>
    requires store { IsTypedBy types.old store.old }
    requires free { All (IsFree store.old) flexible.old.items }
    requires equation { IsTypedEquation types.old store.old equation }
    ensures grows { Grows types.old store.old types.new store.new }
    ensures steps { steps.old ≤ steps.new }
    ensures tells { IfOk result (λ r. Tells types.old store.old flexible.old.items types.new store.new flexible.new.items r
        (rule (codes "x") (cells_read types.old store.old) (variables_read types.old store.old flexible.old.items) (equation_read types.old store.old equation))) }
{
    let plain = resolved_equation(alloc, types, store, equation, steps)?;
    apply_to_resolved(alloc, types, store, flexible, plain, steps)
}
