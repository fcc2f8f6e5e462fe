//! The names of theorems that one assumes.
ghost use Rattle.std.specs.Prelude.{◌≡◌};

use ab_store::name::Name;
use std::marker::Model;

/// The names of theorems that one assumes. Contracts see the list of them.
#[derive(Drop)]
pub struct Names {
    names: Vec<Name>,
}

impl Model for Names {
    ghost use Rattle.std.specs.Prelude.{ℕ, List};

    ghost Value = { List (List ℕ) };

    ghost view = { λ list. list.names.items };
}

impl Names {
    /// The names of a vector, in its memory.
    pub fn from_vec(names: Vec<Name>) -> Names
        ensures { result ≡ names.items }
    {
        Names { names }
    }

    /// The names as a vector, in the memory of the list.
    pub fn into_vec(self) -> Vec<Name>
        ensures { result.items ≡ self }
    {
        self.names
    }

    /// The names as a slice.
    pub fn as_slice(&self) -> &[Name]
        ensures { result.now ≡ self.now }
    {
        &self.names
    }
}
