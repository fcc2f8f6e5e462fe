//! How a run goes over its script.

/// What is printed of the answers to commands.
#[derive(Clone, Copy)]
pub enum Showing {
    /// Their blocks.
    Blocks,
    /// The first line of each block that reports a completed theorem or a refusal.
    FirstLines,
    /// One line in place of all blocks: it sums up the drill of so many theorems.
    Summary(u64),
}

/// How a run goes over its script.
#[derive(Clone, Copy)]
pub struct Way {
    /// Whether it ends at the first refusal.
    pub stops: bool,
    pub showing: Showing,
}
