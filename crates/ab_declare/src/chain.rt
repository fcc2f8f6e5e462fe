//! The names of a chain of files.
ghost use Rattle.std.specs.Prelude.{◌≡◌};
ghost use Rattle.ab_syntax.specs.ab_expressions.specs.Items.{list_of};

use ab_norm::name::Name;
use ab_syntax::Items;
use std::marker::Model;

/// The names of a chain of files. Contracts see it as the list of them.
#[derive(Drop)]
pub struct Chain {
    names: Items<Name>,
}

impl Model for Chain {
    ghost use Rattle.std.specs.Prelude.{ℕ, List};
    ghost use Rattle.ab_syntax.specs.ab_expressions.specs.Items.{list_of};

    ghost Value = { List (List ℕ) };

    ghost view = { λ chain. list_of chain.names };
}

impl Chain {
    /// The chain of these names, in their memory.
    pub fn from_names(names: Items<Name>) -> Chain
        ensures { result ≡ list_of names }
    {
        Chain { names }
    }

    /// The names as a slice.
    pub fn as_slice(&self) -> &[Name]
        ensures { result.now ≡ self.now }
    {
        self.names.as_slice()
    }
}
