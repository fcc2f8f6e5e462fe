//! Terms taken out of a store, with what their bound names need.
use ab_store::Head;
use ab_store::name::Name;
use ab_store::types::TypeId;

/// A head of a term, and the number of binders around it.
#[derive(Clone, Copy)]
pub struct Seen {
    pub head: Head,
    pub binders: usize,
}

/// The part of a binder: among the heads of the whole term, those of its body stand from the first number on, and before
/// the second; and the numbers of those that are its bound name, in order.
#[derive(Drop)]
pub struct Part {
    pub start: usize,
    pub end: usize,
    pub bound: Vec<usize>,
}

/// A term.
#[cycle(drawings)]
#[derive(Drop)]
pub enum Drawing {
    /// An abstraction: its type, the hint of its binder, the binder's part, and its body.
    Lam(TypeId, Name, Part, Box<Drawing>),
    /// A head with its arguments.
    Spine(Head, Box<Drawings>),
}

/// Arguments, each with the name of which it is the eta-long form, where it is one.
#[cycle(drawings)]
#[derive(Drop)]
pub enum Drawings {
    End,
    More(Box<Drawing>, Option<Head>, Box<Drawings>),
}
