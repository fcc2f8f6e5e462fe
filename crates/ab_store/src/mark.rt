//! Marks of a store.

/// How many bindings, nodes and cells a store had.
#[derive(Clone, Copy)]
pub struct Mark {
    pub(crate) bindings: usize,
    pub(crate) nodes: usize,
    pub(crate) cells: usize,
}
