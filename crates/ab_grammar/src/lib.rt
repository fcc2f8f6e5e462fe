//! The grammar of expressions and types, apart from any parser: definitions and laws.
#![tactic(auto)]

mod file;
mod head;
mod laws;

pub use file::FileKind;
pub use head::{Head, ProofHead, Stand};
pub use laws::{
    one_answer_for_a_command, one_answer_for_a_title, one_answer_for_a_type,
    one_answer_for_an_expression, one_answer_for_an_item, one_command, one_item, one_place,
    one_text, one_title, one_tree, one_type,
};

/// What binds names before a formula.
#[derive(Clone, Copy)]
pub enum Quant {
    /// `forall`
    Forall,
    /// `exists`
    Exists,
    /// `nabla`
    Nabla,
}

/// A sign between two operands.
#[derive(Clone, Copy)]
pub enum Infix {
    /// `->`
    Arrow,
    /// `\/`
    Or,
    /// `/\`
    And,
    /// `=`
    Equal,
    /// `=>`
    Imply,
    /// `&`
    With,
    /// `::`
    Cons,
}
