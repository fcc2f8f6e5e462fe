//! Expressions whose names are resolved, as rows of steps that make them.
ghost use Rattle.std.specs.Prelude.{◌≡◌};
ghost use Rattle.ab_inference.specs.Sketches.{mark_place};
ghost use Rattle.ab_inference.specs.Verdicts.{mark_of};

use ab_store::Head;
use ab_store::name::Name;
use ab_store::types::TypeId;

/// What binds a name.
#[derive(Clone, Copy)]
pub enum Binds {
    Forall,
    Exists,
    Nabla,
    Pi,
}

/// A step, which takes the last expressions made and makes one of them. Variables are those of types.
#[derive(Drop)]
pub enum Op {
    /// A bound name: the number of binders between it and its own, and its variable.
    Bound(usize, usize),
    /// A head, and its type.
    Known(Head, TypeId),
    /// A free name, by its number, and its place.
    Free(usize, usize),
    /// The last but one is given the last.
    Apply,
    /// The last is given the last but one.
    Behind,
    /// An abstraction: its name, variable and place.
    Abs(Name, usize, usize),
    /// An equation, and the variable of its sides.
    Equal(usize),
    /// A quantifier: its name, variable and place, and the type where one is written.
    Bind(Binds, Name, usize, usize, Option<TypeId>),
}

/// A name whose type is to be found, in the order of the text.
#[derive(Clone, Copy)]
pub enum Mark {
    /// A binder, by its variable, and its place.
    Binder(usize, usize),
    /// A free name, by its number, and its place.
    Free(usize, usize),
}

impl Mark {
    /// The place.
    pub fn place(&self) -> usize
        ensures { result ≡ mark_place (mark_of self.now) }
    {
        match self {
            Mark::Binder(_, place) | Mark::Free(_, place) => *place,
        }
    }
}
