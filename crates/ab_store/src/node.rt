//! The numbers of terms and cells, and the nodes of terms.
ghost use Rattle.std.specs.Prelude.{◌≡◌, IfOk};
ghost use Rattle.ab_store.specs.Marks.{cell_in_node};
ghost use Rattle.ab_store.specs.NamedTypes.{type_in_logical, type_in_head, type_in_node};

use crate::list::Arguments;
use ab_types::name::Name;
use ab_types::{ConstId, TypeId};
use std::alloc::{AllocError, Global};

/// A term of a store.
#[derive(Clone, Copy, PartialEq, Eq, PartialOrd, Ord, Hash)]
pub struct TermId(pub(crate) usize);

impl TermId {
    /// The place of the term among those of its store, counted from 0.
    pub fn place(self) -> usize
        ensures { result ≡ self.0 }
    {
        self.0
    }
}

/// A cell of a store: a variable that stands for a term.
#[derive(Clone, Copy, PartialEq, Eq, PartialOrd, Ord, Hash)]
pub struct CellId(pub(crate) usize);

/// A logical constant.
#[derive(Clone, Copy, PartialEq, Eq)]
pub enum Logical {
    /// `true`.
    True,
    /// `false`.
    False,
    /// `/\`.
    And,
    /// `\/`.
    Or,
    /// `->`.
    Arrow,
    /// `=` at a type.
    Equal(TypeId),
    /// `forall` over a type.
    Forall(TypeId),
    /// `exists` over a type.
    Exists(TypeId),
    /// `nabla` over a type.
    Nabla(TypeId),
    /// `{L |- G}`, given L and G.
    Judge,
    /// `{L, [F] |- A}`, given L, F and A.
    Focus,
    /// The size mark `*` of a level.
    Star(u128),
    /// The size mark `@` of a level.
    At(u128),
    /// The size mark `+` of a level.
    Plus(u128),
    /// The size mark `#` of a level.
    Hash(u128),
    /// `pi` over a type.
    Pi(TypeId),
    /// `=>`.
    Imply,
    /// `&`.
    With,
}

impl Logical {
    /// The type that the constant is at, if it is at one.
    fn ty(self) -> Option<TypeId>
        ensures { result ≡ type_in_logical self }
    {
        match self {
            Logical::Equal(ty) => Some(ty),
            Logical::Forall(ty) => Some(ty),
            Logical::Exists(ty) => Some(ty),
            Logical::Nabla(ty) => Some(ty),
            Logical::Pi(ty) => Some(ty),
            _ => None,
        }
    }
}

/// What is given arguments.
#[derive(Clone, Copy, PartialEq, Eq)]
pub enum Head {
    /// A constant of the table.
    Const(ConstId),
    /// A logical constant.
    Logic(Logical),
    /// A nominal constant, by its number and type.
    Nominal(u128, TypeId),
    /// A cell of the store.
    Cell(CellId),
    /// A bound name, by the number of binders between it and its own.
    Index(usize),
}

impl Head {
    /// The type that the head names, if it names one.
    fn ty(self) -> Option<TypeId>
        ensures { result ≡ type_in_head self }
    {
        match self {
            Head::Logic(logical) => logical.ty(),
            Head::Nominal(_, ty) => Some(ty),
            _ => None,
        }
    }
}

/// A node of a term.
#[derive(Drop)]
pub enum Node {
    /// An abstraction over a type, with the hint of its binder and its body.
    Lam(TypeId, Name, TermId),
    /// A head with the arguments that it is given.
    Spine(Head, Arguments),
}

impl Node {
    /// The cell that the node's head is, if it is one.
    pub(crate) fn cell(&self) -> Option<CellId>
        ensures { result ≡ cell_in_node self.now }
    {
        match self {
            Node::Lam(_, _, _) => None,
            Node::Spine(head, _) => match *head {
                Head::Cell(cell) => Some(cell),
                _ => None,
            },
        }
    }

    /// The type that the node names, if it names one.
    pub(crate) fn ty(&self) -> Option<TypeId>
        ensures { result ≡ type_in_node self.now }
    {
        match self {
            Node::Lam(ty, _, _) => Some(*ty),
            Node::Spine(head, _) => head.ty(),
        }
    }

    /// The same node again.
    pub fn copy(&self, alloc: Global) -> Result<Node, AllocError>
        ensures { IfOk result (λ node. node ≡ self.now) }
    {
        match self {
            Node::Lam(ty, hint, body) => Ok(Node::Lam(*ty, hint.copy(alloc)?, *body)),
            Node::Spine(head, args) => Ok(Node::Spine(*head, args.copy(alloc)?)),
        }
    }
}

/// An equation between two terms.
#[derive(Clone, Copy)]
pub struct Equation {
    /// The left side.
    pub left: TermId,
    /// The right side.
    pub right: TermId,
}

/// A cell, and the term that it is bound to.
#[derive(Clone, Copy)]
pub struct Binding {
    pub cell: CellId,
    pub term: TermId,
}

/// What a store keeps of a cell: its hint, and the type of what it stands for.
#[derive(Drop)]
pub struct CellEntry {
    pub(crate) hint: Name,
    pub(crate) ty: TypeId,
}
