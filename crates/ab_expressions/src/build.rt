//! Trees of expressions, made of their parts.
ghost use Rattle.std.specs.Prelude.{◌≡◌, ◌++◌, ◌∷◌, [], IfOk, map};
ghost use Rattle.ab_grammar.specs.Tree as tree;
ghost use Rattle.ab_expressions.specs.SyntaxTrees.{tree_of};

use crate::items::Items;
use crate::tree::Parse;
use ab_name::Name;
use std::alloc::{AllocError, Global};

/// A value in a box.
pub fn new_box<T: Drop>(alloc: Global, value: T) -> Result<Box<T>, AllocError>
    ensures { IfOk result (λ r. r.value ≡ value) }
{
    Ok(Box::new(alloc, value)?)
}

/// Where an expression begins, past parentheses.
pub fn place_of(parse: &Parse) -> usize
    ensures { result ≡ tree.place_of (tree_of parse.now) }
{
    match parse {
        Parse::Name(_, place) => *place,
        Parse::Apply(_, _, place) => *place,
        Parse::Abs(_, _, place) => *place,
        Parse::Join(_, _, _, place) => *place,
        Parse::Bind(_, _, _, place) => *place,
        Parse::Judge(_, _, _, place) => *place,
    }
}

/// A head with its arguments and one more.
pub(crate) fn apply(
    alloc: Global,
    head: Box<Parse>,
    args: Vec<Parse>,
    last: Box<Parse>,
) -> Result<Box<Parse>, AllocError>
    ensures { IfOk result (λ r. tree_of r.value ≡ tree.applied (tree_of head.value) (map tree_of args.items ++ tree_of last.value ∷ [])) }
{
    let mut args = args;
    args.push(Box::into_inner(last))?;
    let place = place_of(&head);
    new_box(alloc, Parse::Apply(head, Items::from_vec(args), place))
}

/// `pi` applied to an abstraction.
pub(crate) fn pi(alloc: Global, place: usize, body: Box<Parse>) -> Result<Box<Parse>, AllocError>
    ensures { IfOk result (λ r. tree_of r.value ≡ tree.pi_of place (tree_of body.value)) }
{
    let name = Name::from_text(alloc, "pi")?;
    let head = new_box(alloc, Parse::Name(name, place))?;
    apply(alloc, head, Vec::new(alloc), body)
}
