//! The trees of expressions and types, as they are written.
//!
//! A place is a number of bytes from the first byte of the text's first token. That of a tree is the place of
//! its first token that isn't an opening parenthesis.
use crate::items::Items;
use ab_grammar::{Infix, Quant};
use ab_name::Name;

/// A type.
#[derive(Drop)]
pub enum TypeParse {
    /// A word, and its place.
    Base(Name, usize),
    /// What stands left and right of `->`.
    Arrow(Box<TypeParse>, Box<TypeParse>),
}

/// A name that a quantifier binds.
#[derive(Drop)]
pub struct Binder {
    pub name: Name,
    /// The type, where one is written.
    pub ty: Option<TypeParse>,
    /// The place of the name.
    pub place: usize,
}

/// A formula or a term. The last number of each is its place.
#[derive(Drop)]
pub enum Parse {
    /// A name, `true` or `false`.
    Name(Name, usize),
    /// A head and its arguments, of which there is one at least.
    Apply(Box<Parse>, Items<Parse>, usize),
    /// `x\ e`
    Abs(Name, Box<Parse>, usize),
    /// Two operands, and the sign between them.
    Join(Infix, Box<Parse>, Box<Parse>, usize),
    /// A quantifier, its binders, of which there is one at least, and what it reaches over.
    Bind(Quant, Items<Binder>, Box<Parse>, usize),
    /// A judgement: its context, the formula in brackets where there is one, and its goal.
    Judge(Items<Parse>, Option<Box<Parse>>, Box<Parse>, usize),
}
