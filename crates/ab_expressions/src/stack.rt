//! A stack of what isn't finished yet.
ghost use Rattle.std.specs.Prelude.{◌≡◌, ◌∷◌, [], IfOk, MatchOption, reverse};

use std::alloc::{AllocError, Global};

/// What isn't finished yet, the innermost last, and the memory for what is read.
#[derive(Drop)]
pub(crate) struct Stack<F> {
    pub alloc: Global,
    pub items: Vec<F>,
}

impl<F: Drop> Stack<F> {
    /// A stack of nothing.
    pub(crate) fn new(alloc: Global) -> Stack<F>
        ensures { result.items.items ≡ [] }
    {
        let items = Vec::new(alloc);
        Stack { alloc, items }
    }

    /// Puts a frame on top.
    pub(crate) fn push(&mut self, frame: F) -> Result<(), AllocError>
        ensures { IfOk result (λ r. reverse self.new.items.items ≡ frame ∷ reverse self.old.items.items) }
    {
        self.items.push(frame)?;
        Ok(())
    }

    /// Takes the innermost frame.
    pub(crate) fn pop(&mut self) -> Option<F>
        ensures { MatchOption result ((reverse self.old.items.items ≡ []) × (reverse self.new.items.items ≡ [])) (λ frame. reverse self.old.items.items ≡ frame ∷ reverse self.new.items.items) }
    {
        self.items.pop()
    }
}
