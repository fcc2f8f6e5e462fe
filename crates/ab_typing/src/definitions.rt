//! Definitions as they are kept.
ghost use Rattle.std.specs.Prelude.{◌≡◌};

use ab_store::types::ConstId;
use ab_store::{CellId, TermId};
use std::marker::Model;

/// A list of cells. Contracts see it as the list.
#[derive(Drop)]
pub struct ClauseCells {
    cells: Vec<CellId>,
}

impl Model for ClauseCells {
    ghost use Rattle.std.specs.Prelude.{List};
    ghost use Rattle.ab_store.specs.declared.node.CellId.{CellId};

    ghost Value = { List CellId };

    ghost view = { λ list. list.cells.items };
}

impl ClauseCells {
    /// The cells of a vector, in its memory.
    pub fn from_vec(cells: Vec<CellId>) -> ClauseCells
        ensures { result ≡ cells.items }
    {
        ClauseCells { cells }
    }

    /// The cells as a vector, in the memory of the list.
    pub fn into_vec(self) -> Vec<CellId>
        ensures { result.items ≡ self }
    {
        self.cells
    }

    /// The cells as a slice.
    pub fn as_slice(&self) -> &[CellId]
        ensures { result.now ≡ self.now }
    {
        &self.cells
    }
}

/// A list of constants. Contracts see it as the list.
#[derive(Drop)]
pub struct Predicates {
    constants: Vec<ConstId>,
}

impl Model for Predicates {
    ghost use Rattle.std.specs.Prelude.{List};
    ghost use Rattle.ab_store.specs.ab_types.specs.declared.ids.ConstId.{ConstId};

    ghost Value = { List ConstId };

    ghost view = { λ list. list.constants.items };
}

impl Predicates {
    /// The constants of a vector, in its memory.
    pub fn from_vec(constants: Vec<ConstId>) -> Predicates
        ensures { result ≡ constants.items }
    {
        Predicates { constants }
    }

    /// The constants as a vector, in the memory of the list.
    pub fn into_vec(self) -> Vec<ConstId>
        ensures { result.items ≡ self }
    {
        self.constants
    }

    /// The constants as a slice.
    pub fn as_slice(&self) -> &[ConstId]
        ensures { result.now ≡ self.now }
    {
        &self.constants
    }
}

/// A clause: its variables, its head under the prefix of `nabla` binders, and its body.
#[derive(Drop)]
pub struct ClauseTerm {
    pub variables: ClauseCells,
    pub head: TermId,
    pub body: TermId,
}

/// A list of clauses. Contracts see it as the list.
#[derive(Drop)]
pub struct ClauseTerms {
    clauses: Vec<ClauseTerm>,
}

impl Model for ClauseTerms {
    ghost use Rattle.std.specs.Prelude.{List};
    ghost use Rattle.ab_typing.specs.declared.definitions.ClauseTerm.{ClauseTerm};

    ghost Value = { List ClauseTerm };

    ghost view = { λ list. list.clauses.items };
}

impl ClauseTerms {
    /// The clauses of a vector, in its memory.
    pub fn from_vec(clauses: Vec<ClauseTerm>) -> ClauseTerms
        ensures { result ≡ clauses.items }
    {
        ClauseTerms { clauses }
    }

    /// The clauses as a vector, in the memory of the list.
    pub fn into_vec(self) -> Vec<ClauseTerm>
        ensures { result.items ≡ self }
    {
        self.clauses
    }

    /// The clauses as a slice.
    pub fn as_slice(&self) -> &[ClauseTerm]
        ensures { result.now ≡ self.now }
    {
        &self.clauses
    }
}

/// A definition, inductive or else coinductive, of predicates by clauses.
#[derive(Drop)]
pub struct Block {
    pub inductive: bool,
    pub predicates: Predicates,
    pub clauses: ClauseTerms,
}
