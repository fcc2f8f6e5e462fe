//! Lists in trees.
ghost use Rattle.std.specs.Prelude.{◌≡◌};
ghost use Rattle.ab_expressions.specs.Items.{list_of};

/// A list, as a tree holds it. Contracts see the list of its items (`list_of`).
#[derive(Drop)]
pub struct Items<T> {
    items: Vec<T>,
}

impl<T> Items<T> {
    /// The items of a vector, in its memory.
    pub fn from_vec(items: Vec<T>) -> Items<T>
        ensures { list_of result ≡ items.items }
    {
        Items { items }
    }

    /// The items as a vector, in the memory of the list.
    pub fn into_vec(self) -> Vec<T>
        ensures { result.items ≡ list_of self }
    {
        self.items
    }

    /// The items as a slice.
    pub fn as_slice(&self) -> &[T]
        ensures { result.now ≡ list_of self.now }
    {
        &self.items
    }
}
