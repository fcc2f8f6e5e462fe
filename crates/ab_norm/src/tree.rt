//! Terms as trees of their own.
use crate::items::Items;
use ab_store::Head;
use ab_store::name::Name;
use ab_store::types::TypeId;

/// A term, with nothing shared.
#[derive(Drop)]
pub enum Tree {
    /// An abstraction over a type, with the hint of its binder and its body.
    Lam(TypeId, Name, Box<Tree>),
    /// A head with the arguments that it is given.
    Spine(Head, Items<Tree>),
}
