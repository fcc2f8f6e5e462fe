//! What is put for nominal constants, in order.
ghost use Rattle.std.specs.Prelude.{◌≡◌};

use ab_norm::Nominal;
use ab_norm::store::TermId;
use std::marker::Model;

/// A nominal constant, and the term that is put for it.
#[derive(Clone, Copy)]
pub struct Replace {
    pub from: Nominal,
    pub to: TermId,
}

/// A list of such pairs. Contracts see it as the list.
#[derive(Drop)]
pub struct Replaces {
    items: Vec<Replace>,
}

impl Model for Replaces {
    ghost use Rattle.std.specs.Prelude.{List};
    ghost use Rattle.ab_rules.specs.declared.replaces.Replace.{Replace};

    ghost Value = { List Replace };

    ghost view = { λ list. list.items.items };
}

impl Replaces {
    /// The pairs of a vector, in its memory.
    pub fn from_vec(items: Vec<Replace>) -> Replaces
        ensures { result ≡ items.items }
    {
        Replaces { items }
    }

    /// The pairs as a vector, in the memory of the list.
    pub fn into_vec(self) -> Vec<Replace>
        ensures { result.items ≡ self }
    {
        self.items
    }

    /// The pairs as a slice.
    pub fn as_slice(&self) -> &[Replace]
        ensures { result.now ≡ self.now }
    {
        &self.items
    }
}
