//! Proofs in progress: derivations with open goals, made by steps of the rules alone.
ghost use Rattle.std.specs.Prelude.{◌≡◌, ℕ, ◌+◌, ◌<◌, ◌≤◌, [], ◌++◌, ◌↔◌, ◌⊎◌, Contains, length, IsTrue, IfOk, IfSome, MatchOption, ◌∷◌, OnOk, OnErr, map, slice_get, vec_len, vec_capacity, reverse};
ghost use Rattle.std.specs.Option.{option_copied, option_map};
ghost use Rattle.ab_logic.specs.Worlds.{IsWorld, Holds, read, declarations_of};
ghost use Rattle.ab_logic.specs.WorldGrowth.{Grows};
ghost use Rattle.ab_logic.specs.declared.world.World.{World as AWorld};
ghost use Rattle.ab_logic.specs.SequentReadings.{sequent_of, HoldsSequent};
ghost use Rattle.ab_term.specs.Terms.{Read};
ghost use Rattle.ab_unify.specs.Problem.{cells_read};
ghost use Rattle.ab_term.specs.Names.{support};
ghost use Rattle.ab_term.specs.Variables.{variables};
ghost use Rattle.ab_formulas.specs.Declarations.{signature_in};
ghost use Rattle.ab_formulas.specs.Formulas.{IsFormula, IsSentence, HasOneTypeEach};
ghost use Rattle.ab_rules.specs.RuleAnswers.{step_of, HoldsStep, IsMemory};
ghost use Rattle.ab_rules.specs.declared.step.KernelFault.{KernelFault};
ghost use Rattle.ab_theory.specs.Derivations.{root, Valid, open_goals, goal_at, IsTreeOf, IsDerivation, Debt as ADebt, debts_of, debts, gaps, beginning, proves, IsStep, GoalFails, GoalStuck, undone};
ghost use Rattle.ab_kernel.specs.Layout.{history_of, IsProof, before_last, Beyond};
ghost use Rattle.ab_kernel.specs.Nodes.{open_node, numbers_up};
ghost use Rattle.ab_kernel.specs.NodeTrees.{StandsFor};
ghost use Rattle.ab_kernel.specs.Debts.{debt_of, owed};

use crate::debt::{Debt, count_gaps, forget_debt, note_debt};
use crate::goal_numbers::{replace_goal, restore_goal};
use crate::node::{Children, ProofNode, clear_at, fill_at, take_in};
use crate::rule_table::premises;
use ab_logic::{Hypotheses, Sequent, Variables, World};
use ab_norm::store::TermId;
use ab_norm::types::Steps;
use ab_rules::{KernelFault, Step};
use std::alloc::{AllocError, Global};
use std::marker::Model;

/// What it takes to take a step back.
#[derive(Clone, Copy)]
pub struct Refinement {
    /// The place of its goal among the open goals, from 0 at the left.
    pub(crate) place: usize,
    /// The number of that goal's node.
    pub node: usize,
    /// How many premises took its place.
    pub premises: usize,
}

/// A derivation with open goals.
#[derive(Drop)]
pub struct Proof {
    /// The derivation's nodes. The root has the number 0, and each step's premises have the next ones.
    nodes: Vec<ProofNode>,
    /// The numbers of the open goals, the first goal last.
    open: Vec<usize>,
    /// The steps that stand, the latest last.
    journal: Vec<Refinement>,
    /// What they owe, the latest last.
    debts: Vec<Debt>,
}

impl Model for Proof {
    ghost use Rattle.ab_kernel.specs.Layout.{Held, held, IsSound};

    ghost Value = { Held };

    ghost view = { held };

    ghost invariant = { IsSound };
}

/// Makes room for so many more goals, and for a step.
fn make_room(
    numbers: &mut Vec<usize>,
    journal: &mut Vec<Refinement>,
    count: usize,
) -> Result<(), AllocError>
    ensures numbers { numbers.new.items ≡ numbers.old.items }
    ensures journal { journal.new.items ≡ journal.old.items }
    ensures numbers_room { OnOk result (vec_len numbers.old + count ≤ vec_capacity numbers.new) }
    ensures journal_room { OnOk result (vec_len journal.new < vec_capacity journal.new) }
    ensures capacity { vec_capacity numbers.old ≤ vec_capacity numbers.new }
{
    numbers.reserve(count)?;
    journal.reserve(1)
}

/// Puts the premises behind the nodes, notes what the step owes, and makes room for the premises' numbers and for the step.
fn prepare(
    alloc: Global,
    nodes: &mut Vec<ProofNode>,
    numbers: &mut Vec<usize>,
    journal: &mut Vec<Refinement>,
    debts: &mut Vec<Debt>,
    step: &Step,
    premises: Vec<Sequent>,
) -> Result<Children, AllocError>
    ensures children { IfOk result (λ children. children ≡ numbers_up (length nodes.old.items) (length premises.items)) }
    ensures added { OnOk result (nodes.new.items ≡ nodes.old.items ++ map open_node premises.items) }
    ensures err { OnErr result (nodes.new.items ≡ nodes.old.items) }
    ensures numbers { numbers.new.items ≡ numbers.old.items }
    ensures journal { journal.new.items ≡ journal.old.items }
    ensures numbers_room { OnOk result (vec_len numbers.old + vec_len premises ≤ vec_capacity numbers.new) }
    ensures journal_room { OnOk result (vec_len journal.new < vec_capacity journal.new) }
    ensures capacity { vec_capacity numbers.old ≤ vec_capacity numbers.new }
    ensures noted { OnOk result ((w : AWorld) → owed debts.new.items ≡ debts_of (step_of w step.now) ++ owed debts.old.items) }
    ensures forgotten { OnErr result (owed debts.new.items ≡ owed debts.old.items) }
{
    make_room(numbers, journal, premises.len())?;
    note_debt(alloc, debts, step)?;
    match take_in(alloc, nodes, premises) {
        Ok(children) => Ok(children),
        Err(fault) => {
            forget_debt(debts, Some(step));
            Err(fault)
        }
    }
}

/// Counts a step of work for each premise.
fn count_premises<L>(count: usize, steps: &mut Steps<L>)
    ensures { steps.new ≡ steps.old + count }
{
    for _ in 0..count {
        steps.tick();
    }
}

impl Proof {
    /// The proof of a formula, of which nothing is done: it has one open goal.
    pub fn start(
        alloc: Global,
        world: &World,
        formula: TermId,
        counter: u32,
    ) -> Result<Proof, AllocError>
        requires world { IsWorld world.now }
        requires formula { Holds world.now formula }
        requires is_formula { IsFormula (signature_in (declarations_of world.now)) (read world.now formula) }
        requires closed { variables (read world.now formula) ≡ [] }
        requires one_type { HasOneTypeEach (support (read world.now formula)) }
        requires counter { counter ≤ 999999999 }
        ensures begins { IfOk result (λ p. history_of world.now p ≡ beginning (proves (read world.now formula) counter)) }
        ensures proof { IfOk result (IsProof world.now) }
    {
        let root = Sequent {
            variables: Variables::from_vec(Vec::new(alloc)),
            hypotheses: Hypotheses::from_vec(Vec::new(alloc)),
            conclusion: formula,
            counter,
        };
        let mut nodes = Vec::new(alloc);
        nodes.push(ProofNode::open(alloc, root))?;
        let mut open = Vec::new(alloc);
        open.push(0)?;
        Ok(Proof {
            nodes,
            open,
            journal: Vec::new(alloc),
            debts: Vec::new(alloc),
        })
    }

    /// Takes a step at the open goal of this place, counted from 0 at the left. Its premises take
    /// the goal's place in order, and their number is the answer. A rule that fails, an equation
    /// outside the patterns, and want of memory change nothing of the proof, and leave in the world
    /// what it declares and what ids stand for.
    pub fn refine<L>(
        &mut self,
        world: &mut World,
        place: usize,
        step: Step,
        steps: &mut Steps<L>,
    ) -> Result<usize, KernelFault>
        requires world { IsWorld world.old }
        requires proof { IsProof world.old self.old }
        requires step { HoldsStep world.old step }
        requires place { place < length (open_goals (history_of world.old self.old).tree) }
        ensures step { IfOk result (λ n. IsStep (declarations_of world.old) place (step_of world.old step) n (history_of world.old self.old) (history_of world.new self.new)) }
        ensures refused { (i : ℕ) → result ≡ Err (KernelFault.RuleFails i) → GoalFails (declarations_of world.old) (cells_read world.old.types world.old.store) place (step_of world.old step) i (history_of world.old self.old).tree }
        ensures refuses { (i : ℕ) → GoalFails (declarations_of world.old) (cells_read world.old.types world.old.store) place (step_of world.old step) i (history_of world.old self.old).tree → (result ≡ Err (KernelFault.RuleFails i)) ⊎ IsMemory result }
        ensures stuck { (i : ℕ) → result ≡ Err (KernelFault.NotPattern i) →
            GoalStuck (declarations_of world.old) (cells_read world.old.types world.old.store) place (step_of world.old step) i (history_of world.old self.old).tree }
        ensures sticks { (i : ℕ) → GoalStuck (declarations_of world.old) (cells_read world.old.types world.old.store) place (step_of world.old step) i (history_of world.old self.old).tree →
            (result ≡ Err (KernelFault.NotPattern i)) ⊎ IsMemory result }
        ensures proof { IsProof world.new self.new }
        ensures err { OnErr result (self.new ≡ self.old) }
        ensures grows { Grows world.old world.new }
        ensures declared { declarations_of world.new ≡ declarations_of world.old }
        ensures layout { OnOk result (Beyond self.old self.new) }
        ensures work { IfOk result (λ n. steps.old + n ≤ steps.new) }
        ensures steps { steps.old ≤ steps.new }
    {
        let at = self.open.len() - 1 - place;
        let node = self.open[at];
        let alloc = *self.nodes.allocator();
        let made = match premises(alloc, world, &step, &self.nodes[node].sequent, steps) {
            Ok(made) => made,
            Err(fault) => {
                drop(step);
                return Err(fault);
            }
        };
        let count = made.len();
        let first = self.nodes.len();
        let children = match prepare(
            alloc,
            &mut self.nodes,
            &mut self.open,
            &mut self.journal,
            &mut self.debts,
            &step,
            made,
        ) {
            Ok(children) => children,
            Err(fault) => {
                drop(step);
                return Err(KernelFault::Memory(fault));
            }
        };
        replace_goal(&mut self.open, at, first, count);
        fill_at(&mut self.nodes, node, step, children);
        self.journal.push_reserved(Refinement {
            place,
            node,
            premises: count,
        });
        count_premises(count, steps);
        Ok(count)
    }

    /// Takes the last step back that still stands. It answers false, and changes nothing, where
    /// there is none. It takes no memory, costs what it undoes, and counts no step.
    pub fn unrefine<L>(&mut self, world: &mut World, steps: &mut Steps<L>) -> bool
        ensures some { (w : AWorld) → IsTrue result ↔ (0 < length (history_of w self.old).earlier) }
        ensures undone { (w : AWorld) → history_of w self.new ≡ undone 1 (history_of w self.old) }
        ensures layout { self.new ≡ before_last self.old }
        ensures proof { (w : AWorld) → IsProof w self.old → IsProof w self.new }
        ensures root { (w : AWorld) → root (history_of w self.new).tree ≡ root (history_of w self.old).tree }
        ensures world { world.new ≡ world.old }
        ensures steps { steps.new ≡ steps.old }
    {
        let _ = world;
        let _ = steps;
        match self.journal.pop() {
            None => false,
            Some(last) => {
                let at = self.open.len() - (last.place + last.premises);
                restore_goal(&mut self.open, at, last.premises, last.node);
                forget_debt(&mut self.debts, self.nodes[last.node].step.as_ref());
                self.nodes.truncate(self.nodes.len() - last.premises);
                clear_at(&mut self.nodes, last.node);
                true
            }
        }
    }

    /// How many goals are open.
    pub fn open_goals(&self) -> usize
        ensures { (w : AWorld) → result ≡ length (open_goals (history_of w self.now).tree) }
    {
        self.open.len()
    }

    /// The open goal of this place, counted from 0 at the left.
    pub fn goal(&self, place: usize) -> Option<&Sequent>
        ensures reads { (w : AWorld) → option_map (sequent_of w) (option_copied result) ≡ goal_at (history_of w self.now).tree place }
        ensures held { (w : AWorld) → IsProof w self.now → IfSome (option_copied result) (HoldsSequent w) }
    {
        if place < self.open.len() {
            let node = self.open[self.open.len() - 1 - place];
            Some(&self.nodes[node].sequent)
        } else {
            None
        }
    }

    /// The first open goal.
    pub fn current(&self) -> Option<&Sequent>
        ensures reads { (w : AWorld) → option_map (sequent_of w) (option_copied result) ≡ goal_at (history_of w self.now).tree 0 }
        ensures held { (w : AWorld) → IsProof w self.now → IfSome (option_copied result) (HoldsSequent w) }
    {
        self.goal(0)
    }

    /// Whether no goal is open. Then the formula that the proof began with is derived, but for the goals that were admitted.
    pub fn is_closed(&self) -> bool
        ensures closed { (w : AWorld) → IsTrue result ↔ (open_goals (history_of w self.now).tree ≡ []) }
        ensures derivation { (w : AWorld) (F : Read) → IsTrue result → IsProof w self.now → IsSentence (signature_in (declarations_of w)) F →
            root (history_of w self.now).tree ≡ proves F 0 → IsTreeOf (declarations_of w) F (history_of w self.now).tree }
        ensures whole { (w : AWorld) (F : Read) → IsTrue result → IsProof w self.now → IsSentence (signature_in (declarations_of w)) F →
            root (history_of w self.now).tree ≡ proves F 0 → gaps (history_of w self.now).tree ≡ 0 → IsDerivation (declarations_of w) F (history_of w self.now).tree }
    {
        self.open.is_empty()
    }

    /// How many goals were admitted. It takes no memory.
    pub fn gaps(&self) -> usize
        ensures { (w : AWorld) → result ≡ gaps (history_of w self.now).tree }
    {
        count_gaps(&self.debts)
    }

    /// What the derivation owes: the theorems that it takes, and the goals that it admits.
    pub fn debts(&self) -> &[Debt]
        ensures { (w : AWorld) (t : ADebt) → Contains (map debt_of result.now) t ↔ Contains (debts (history_of w self.now).tree) t }
    {
        &self.debts
    }

    /// The node of that number. The root has the number 0, and the nodes are the derivation from
    /// there on, by the numbers of each node's children.
    pub fn node(&self, place: usize) -> Option<&ProofNode>
        ensures node { option_copied result ≡ slice_get self.now.nodes place }
        ensures tree { (w : AWorld) → StandsFor w self.now.nodes (history_of w self.now).tree 0 }
    {
        self.nodes.get(place)
    }

    /// How many nodes there are.
    pub fn nodes(&self) -> usize
        ensures { result ≡ length self.now.nodes }
    {
        self.nodes.len()
    }

    /// What it takes to take the step of this place back, counted from 0 at the first that stands.
    pub fn refinement(&self, place: usize) -> Option<Refinement>
        ensures { result ≡ slice_get (reverse self.now.journal) place }
    {
        self.journal.get(place).copied()
    }

    /// How many steps stand.
    pub fn steps(&self) -> usize
        ensures { (w : AWorld) → result ≡ length (history_of w self.now).earlier }
    {
        self.journal.len()
    }
}
