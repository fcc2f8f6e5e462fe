//! Types of a certificate.
ghost use Rattle.std.specs.Prelude.{◌≡◌};
ghost use Rattle.ab_cert.specs.TypeNodes.{type_nodes, type_in};

use ab_name::Name;

/// A node of a type.
#[derive(Drop)]
pub enum TypeNode {
    /// A kind.
    Base(Name),
    /// A type of functions; what it goes from and what it goes to are behind it.
    Arrow,
}

/// A type, as its nodes in prefix order, so that no depth is too great. Contracts see the type (`type_of`).
#[derive(Drop)]
pub struct TypeTree {
    nodes: Vec<TypeNode>,
    ghost whole: { type_nodes (type_in nodes.items) ≡ nodes.items },
}

impl TypeTree {
    ghost use Rattle.ab_cert.specs.Signs.{type_of};

    /// The type of these nodes, in their memory.
    pub fn from_nodes(nodes: Vec<TypeNode>) -> TypeTree
        requires { type_nodes (type_in nodes.items) ≡ nodes.items }
        ensures { type_of result ≡ type_in nodes.items }
    {
        TypeTree { nodes }
    }

    /// The nodes of the type.
    pub fn nodes(&self) -> &[TypeNode]
        ensures { result.now ≡ type_nodes (type_of self.now) }
    {
        &self.nodes
    }
}
