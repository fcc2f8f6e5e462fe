//! What is printed of a term, as a tree of the program.
use ab_grammar::{Infix, Quant};

/// What is printed of a term, with the name of each bound name.
#[cycle(shapes)]
#[derive(Drop)]
pub enum Shape {
    /// A name.
    Word(Vec<u8>),
    /// `true`
    True,
    /// `false`
    False,
    /// `nil`
    Empty,
    /// A name with its arguments, of which there is one at least.
    Applied(Vec<u8>, Box<Shapes>),
    /// `x\ e`
    Abstraction(Vec<u8>, Box<Shape>),
    /// Two operands, and the sign between them.
    Join(Infix, Box<Shape>, Box<Shape>),
    /// A quantifier over one name. Equal quantifiers in a row are printed as one.
    Bind(Quant, Vec<u8>, Box<Shape>),
    /// `pi x\ e`
    Pi(Vec<u8>, Box<Shape>),
    /// A judgement: the items of its list in the order of writing, and its goal.
    Judge(Box<Shapes>, Box<Shape>),
    /// A judgement with a focused formula, which stands between the two.
    Focus(Box<Shapes>, Box<Shape>, Box<Shape>),
    /// An atom or a judgement with a size mark: the mark's sign, its level, and what it stands behind.
    Marked(u8, u128, Box<Shape>),
    /// A logical constant without the arguments that it takes.
    Broken,
}

/// A list of these.
#[cycle(shapes)]
#[derive(Drop)]
pub enum Shapes {
    End,
    More(Box<Shape>, Box<Shapes>),
}
