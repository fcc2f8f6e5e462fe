//! Terms of a certificate.
ghost use Rattle.std.specs.Prelude.{◌≡◌, map};
ghost use Rattle.std.specs.List.{flat_map};
ghost use Rattle.ab_cert.specs.Pieces.{term_pieces};
ghost use Rattle.ab_cert.specs.TermNodes.{node_of, node_pieces, term_nodes, term_in};

use crate::head::CertHead;
use crate::type_tree::TypeTree;
use ab_name::Name;

/// A node of a term.
#[derive(Drop)]
pub enum TermNode {
    /// The type and the hint of a bound variable; what it reaches over is behind it.
    Lam(TypeTree, Name),
    /// A head and the number of its arguments, which are behind it.
    Spine(CertHead, usize),
}

/// A term, as its nodes in prefix order, so that no depth is too great. Contracts see the term (`term_of`).
#[derive(Drop)]
pub struct CertTree {
    nodes: Vec<TermNode>,
    ghost whole: { flat_map node_pieces (map node_of nodes.items) ≡ term_pieces (term_in (map node_of nodes.items)) },
}

impl CertTree {
    ghost use Rattle.ab_cert.specs.Values.{term_of};

    /// The term of these nodes, in their memory.
    pub fn from_nodes(nodes: Vec<TermNode>) -> CertTree
        requires { term_nodes (term_in (map node_of nodes.items)) ≡ map node_of nodes.items }
        ensures { term_of result ≡ term_in (map node_of nodes.items) }
    {
        CertTree { nodes }
    }

    /// The nodes of the term.
    pub fn nodes(&self) -> &[TermNode]
        ensures meant { term_in (map node_of result.now) ≡ term_of self.now }
        ensures spelled { flat_map node_pieces (map node_of result.now) ≡ term_pieces (term_of self.now) }
    {
        &self.nodes
    }
}
