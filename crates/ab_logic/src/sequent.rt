//! Sequents over shared terms.
ghost use Rattle.std.specs.Prelude.{◌≡◌, ◌↔◌, IfOk, IfSome, IsTrue, IsErrOf, Ok, Some, None};
ghost use Rattle.ab_store.specs.declared.node.TermId.{TermId};
ghost use Rattle.std.specs.Option.{option_map};
ghost use Rattle.ab_logic.specs.Worlds.{Holds, HoldsCell, read, variable_of};
ghost use Rattle.ab_logic.specs.SequentReadings.{HoldsSequent, sequent_of, hypothesis_of};
ghost use Rattle.ab_formulas.specs.Sequents.{formula_of, proving, assuming, without, counted, over, IsUsed};
ghost use Rattle.ab_logic.specs.declared.world.World.{World};

use crate::lists::{Hypotheses, Variables};
use ab_store::name::Name;
use ab_store::{CellId, TermId};
use std::alloc::{AllocError, Global};

/// A named formula that a goal assumes.
#[derive(Drop)]
pub struct Hypothesis {
    pub name: Name,
    pub formula: TermId,
}

/// A goal: the formula that is to be derived, what is assumed, the variables that both may hold, and the
/// last number that was given to a hypothesis.
#[derive(Drop)]
pub struct Sequent {
    pub variables: Variables,
    pub hypotheses: Hypotheses,
    pub conclusion: TermId,
    pub counter: u32,
}

/// Why there is no answer about a goal.
#[derive(Clone, Copy)]
pub enum SequentFault {
    /// No hypothesis has that name.
    NoHypothesis,
}

impl Hypothesis {
    /// The same hypothesis again.
    pub fn copy(&self, alloc: Global) -> Result<Hypothesis, AllocError>
        ensures { IfOk result (λ h. h ≡ self.now) }
    {
        Ok(Hypothesis {
            name: self.name.copy(alloc)?,
            formula: self.formula,
        })
    }
}

impl Sequent {
    /// The formula of the hypothesis of that name. Refused exactly where there is none.
    pub fn hypothesis(&self, name: &Name) -> Result<TermId, SequentFault>
        ensures there { (w : World) (t : TermId) → result ≡ Ok t → formula_of (sequent_of w self.now) name.now ≡ Some (read w t) }
        ensures absent { (w : World) → IsErrOf result SequentFault.NoHypothesis ↔ (formula_of (sequent_of w self.now) name.now ≡ None) }
        ensures held { (w : World) → HoldsSequent w self.now → IfOk result (Holds w) }
    {
        match self.look(name) {
            Some(formula) => Ok(formula),
            None => Err(SequentFault::NoHypothesis),
        }
    }

    /// The formula of the hypothesis of that name, where there is one.
    pub fn look(&self, name: &Name) -> Option<TermId>
        ensures reads { (w : World) → option_map (read w) result ≡ formula_of (sequent_of w self.now) name.now }
        ensures held { (w : World) → HoldsSequent w self.now → IfSome result (Holds w) }
    {
        for h in self.hypotheses.as_slice() {
            if h.name == *name {
                return Some(h.formula);
            }
        }
        None
    }

    /// Whether a hypothesis has that name.
    pub fn uses(&self, name: &Name) -> bool
        ensures { (w : World) → IsTrue result ↔ IsUsed (sequent_of w self.now) name.now }
    {
        self.look(name).is_some()
    }

    /// The same goal again.
    pub fn copy(&self, alloc: Global) -> Result<Sequent, AllocError>
        ensures { IfOk result (λ s. s ≡ self.now) }
    {
        let mut hypotheses = Vec::new(alloc);
        for h in self.hypotheses.as_slice() {
            hypotheses.push(h.copy(alloc)?)?;
        }
        Ok(Sequent {
            variables: self.variables.copy(alloc)?,
            hypotheses: Hypotheses::from_vec(hypotheses),
            conclusion: self.conclusion,
            counter: self.counter,
        })
    }

    /// The same goal, but for the hypothesis of that name.
    pub fn copy_without(&self, alloc: Global, name: &Name) -> Result<Sequent, AllocError>
        ensures reads { IfOk result (λ s. (w : World) → sequent_of w s ≡ without name.now (sequent_of w self.now)) }
        ensures held { IfOk result (λ s. (w : World) → HoldsSequent w self.now → HoldsSequent w s) }
    {
        let mut hypotheses = Vec::new(alloc);
        for h in self.hypotheses.as_slice() {
            if h.name != *name {
                hypotheses.push(h.copy(alloc)?)?;
            }
        }
        Ok(Sequent {
            variables: self.variables.copy(alloc)?,
            hypotheses: Hypotheses::from_vec(hypotheses),
            conclusion: self.conclusion,
            counter: self.counter,
        })
    }

    /// The goal with another conclusion.
    pub fn with_conclusion(self, conclusion: TermId) -> Sequent
        ensures reads { (w : World) → sequent_of w result ≡ proving (read w conclusion) (sequent_of w self) }
        ensures held { (w : World) → HoldsSequent w self → Holds w conclusion → HoldsSequent w result }
    {
        Sequent {
            variables: self.variables,
            hypotheses: self.hypotheses,
            conclusion,
            counter: self.counter,
        }
    }

    /// The goal with one hypothesis more, behind the others.
    pub fn with_hypothesis(self, name: Name, formula: TermId) -> Result<Sequent, AllocError>
        ensures reads { IfOk result (λ s. (w : World) → sequent_of w s ≡ assuming name (read w formula) (sequent_of w self)) }
        ensures held { IfOk result (λ s. (w : World) → HoldsSequent w self → Holds w formula → HoldsSequent w s) }
    {
        let mut hypotheses = self.hypotheses.into_vec();
        hypotheses.push(Hypothesis { name, formula })?;
        Ok(Sequent {
            variables: self.variables,
            hypotheses: Hypotheses::from_vec(hypotheses),
            conclusion: self.conclusion,
            counter: self.counter,
        })
    }

    /// The goal with another number of the last named hypothesis.
    pub fn with_counter(self, counter: u32) -> Sequent
        ensures reads { (w : World) → sequent_of w result ≡ counted counter (sequent_of w self) }
        ensures held { (w : World) → HoldsSequent w self → HoldsSequent w result }
    {
        Sequent {
            variables: self.variables,
            hypotheses: self.hypotheses,
            conclusion: self.conclusion,
            counter,
        }
    }

    /// The goal with one variable more, behind the others.
    pub fn over(self, cell: CellId) -> Result<Sequent, AllocError>
        ensures reads { IfOk result (λ s. (w : World) → sequent_of w s ≡ over (variable_of w cell) (sequent_of w self)) }
        ensures held { IfOk result (λ s. (w : World) → HoldsSequent w self → HoldsCell w cell → HoldsSequent w s) }
    {
        let mut variables = self.variables.into_vec();
        variables.push(cell)?;
        Ok(Sequent {
            variables: Variables::from_vec(variables),
            hypotheses: self.hypotheses,
            conclusion: self.conclusion,
            counter: self.counter,
        })
    }
}
