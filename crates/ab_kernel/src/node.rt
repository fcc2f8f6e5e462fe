//! The nodes of a derivation, each with its number.
ghost use Rattle.std.specs.Prelude.{◌≡◌, ◌+◌, ◌^◌, ◌<◌, ◌++◌, IfOk, OnOk, OnErr, map, length, Some, None, [], vec_len, slice_set};
ghost use Rattle.ab_kernel.specs.Nodes.{cleared, open_node, node_at, numbers_up};

use ab_logic::Sequent;
use ab_rules::Step;
use std::alloc::{AllocError, Global};
use std::marker::Model;

/// The numbers of a node's children, from left to right. Contracts see the list.
#[derive(Drop)]
pub struct Children {
    numbers: Vec<usize>,
}

impl Model for Children {
    ghost use Rattle.std.specs.Prelude.{List, ℕ};

    ghost Value = { List ℕ };

    ghost view = { λ list. list.numbers.items };
}

impl Children {
    /// The numbers of a vector, in its memory.
    pub fn from_vec(numbers: Vec<usize>) -> Children
        ensures { result ≡ numbers.items }
    {
        Children { numbers }
    }

    /// The numbers as a vector, in the memory of the list.
    pub fn into_vec(self) -> Vec<usize>
        ensures { result.items ≡ self }
    {
        self.numbers
    }

    /// The numbers as a slice.
    pub fn as_slice(&self) -> &[usize]
        ensures { result.now ≡ self.now }
    {
        &self.numbers
    }
}

/// A node of a derivation: its goal, the step that was taken there, if one was, and the numbers of the nodes that
/// it led to.
#[derive(Drop)]
pub struct ProofNode {
    pub sequent: Sequent,
    pub step: Option<Step>,
    pub children: Children,
}

impl ProofNode {
    /// A goal at which no step was taken.
    pub(crate) fn open(alloc: Global, sequent: Sequent) -> ProofNode
        ensures { result ≡ open_node sequent }
    {
        ProofNode {
            sequent,
            step: None,
            children: Children::from_vec(Vec::new(alloc)),
        }
    }

    /// Notes the step that is taken at the node.
    pub(crate) fn fill(&mut self, step: Step, children: Children)
        ensures { self.new ≡ record { sequent = self.old.sequent; step = Some step; children = children } }
    {
        self.step = Some(step);
        self.children = children;
    }

    /// Forgets the step that was taken at the node.
    pub(crate) fn clear(&mut self, nothing: Children)
        requires { nothing ≡ [] }
        ensures { self.new ≡ cleared self.old }
    {
        self.step = None;
        self.children = nothing;
    }
}

/// A node for each goal, of which nothing is done.
fn open_nodes(alloc: Global, sequents: Vec<Sequent>) -> Result<Vec<ProofNode>, AllocError>
    ensures { IfOk result (λ v. v.items ≡ map open_node sequents.items) }
{
    let mut nodes = Vec::new(alloc);
    for sequent in sequents {
        nodes.push(ProofNode::open(alloc, sequent))?;
    }
    Ok(nodes)
}

/// As many numbers from the first on.
fn numbers_from(alloc: Global, first: usize, count: usize) -> Result<Children, AllocError>
    requires { first + count < 2 ^ 64 }
    ensures { IfOk result (λ children. children ≡ numbers_up first count) }
{
    let mut numbers = Vec::new(alloc);
    for number in first..first + count {
        numbers.push(number)?;
    }
    Ok(Children::from_vec(numbers))
}

/// Puts a node for each premise behind the others, and answers their numbers.
pub(crate) fn take_in(
    alloc: Global,
    nodes: &mut Vec<ProofNode>,
    premises: Vec<Sequent>,
) -> Result<Children, AllocError>
    ensures children { IfOk result (λ children. children ≡ numbers_up (length nodes.old.items) (length premises.items)) }
    ensures added { OnOk result (nodes.new.items ≡ nodes.old.items ++ map open_node premises.items) }
    ensures err { OnErr result (nodes.new.items ≡ nodes.old.items) }
{
    let children = numbers_from(alloc, nodes.len(), premises.len())?;
    let mut fresh = open_nodes(alloc, premises)?;
    nodes.append(&mut fresh)?;
    Ok(children)
}

/// Notes the step that is taken at the node of this number.
pub(crate) fn fill_at(nodes: &mut Vec<ProofNode>, node: usize, step: Step, children: Children)
    requires { node < vec_len nodes.old }
    ensures { nodes.new.items ≡ slice_set nodes.old.items node
        (record { sequent = (node_at nodes.old.items node).sequent; step = Some step; children = children }) }
{
    nodes[node].fill(step, children);
}

/// Forgets the step that was taken at the node of this number.
pub(crate) fn clear_at(nodes: &mut Vec<ProofNode>, node: usize)
    requires { node < vec_len nodes.old }
    ensures { nodes.new.items ≡ slice_set nodes.old.items node (cleared (node_at nodes.old.items node)) }
{
    let nothing = Children::from_vec(Vec::new(*nodes.allocator()));
    nodes[node].clear(nothing);
}
