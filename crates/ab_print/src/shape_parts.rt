//! Shapes made of the shapes of their parts.
ghost use Rattle.std.specs.Prelude.{◌≡◌, true, IfOk, codes, if◌then◌else◌};
ghost use Rattle.ab_print.specs.NameAssignment as plain;
ghost use Rattle.ab_print.specs.Shapes as shapes;
ghost use Rattle.ab_print.specs.Values.{shape_of, shapes_of};

use crate::shape::{Shape, Shapes};
use ab_grammar::{Infix, Quant};
use std::alloc::{AllocError, Global};

/// Two operands with a sign between them.
pub fn between(sign: Infix, operands: Shapes) -> Shape
    ensures { shape_of result ≡ plain.between sign (shapes_of operands) }
{
    let Shapes::More(first, others) = operands else {
        return Shape::Broken;
    };
    let Shapes::More(second, end) = Box::into_inner(others) else {
        return Shape::Broken;
    };
    let Shapes::End = Box::into_inner(end) else {
        return Shape::Broken;
    };
    Shape::Join(sign, first, second)
}

/// `true` or `false`, which take nothing.
pub fn truth_value(value: bool, operands: Shapes) -> Shape
    ensures { shape_of result ≡ plain.constant_of (if value then (codes "true") else (codes "false")) (shapes_of operands) }
{
    let Shapes::End = operands else {
        return Shape::Broken;
    };
    if value { Shape::True } else { Shape::False }
}

/// A quantifier before an abstraction.
pub fn quantified_shape(quant: Quant, operands: Shapes) -> Shape
    ensures { shape_of result ≡ plain.quantified quant (shapes_of operands) }
{
    let Shapes::More(first, end) = operands else {
        return Shape::Broken;
    };
    let Shapes::End = Box::into_inner(end) else {
        return Shape::Broken;
    };
    let Shape::Abstraction(name, body) = Box::into_inner(first) else {
        return Shape::Broken;
    };
    Shape::Bind(quant, name, body)
}

/// `pi` before an abstraction.
pub fn with_pi(operands: Shapes) -> Shape
    ensures { shape_of result ≡ plain.with_pi (shapes_of operands) }
{
    let Shapes::More(first, end) = operands else {
        return Shape::Broken;
    };
    let Shapes::End = Box::into_inner(end) else {
        return Shape::Broken;
    };
    let Shape::Abstraction(name, body) = Box::into_inner(first) else {
        return Shape::Broken;
    };
    Shape::Pi(name, body)
}

/// An atom or a judgement with a size mark.
pub fn with_mark(sign: u8, level: u128, operands: Shapes) -> Shape
    ensures { shape_of result ≡ plain.with_mark sign level (shapes_of operands) }
{
    let Shapes::More(first, end) = operands else {
        return Shape::Broken;
    };
    let Shapes::End = Box::into_inner(end) else {
        return Shape::Broken;
    };
    Shape::Marked(sign, level, first)
}

/// A name with its arguments, where it has any.
pub fn with_name(alloc: Global, name: Vec<u8>, arguments: Shapes) -> Result<Shape, AllocError>
    ensures { IfOk result (λ s. shape_of s ≡ plain.name_form name.items (shapes_of arguments)) }
{
    match arguments {
        Shapes::End => Ok(Shape::Word(name)),
        Shapes::More(first, others) => {
            let arguments = Shapes::More(first, others);
            Ok(Shape::Applied(name, Box::new(alloc, arguments)?))
        }
    }
}

/// A constant with its arguments: `nil` is the empty list, and `::` a sign.
pub fn with_constant(alloc: Global, name: &[u8], arguments: Shapes) -> Result<Shape, AllocError>
    ensures { IfOk result (λ s. shape_of s ≡ plain.constant_form name.now (shapes_of arguments)) }
{
    match arguments {
        Shapes::End if name == b"nil".as_slice() => Ok(Shape::Empty),
        Shapes::End => Ok(Shape::Word(Vec::from_slice(alloc, name)?)),
        Shapes::More(first, others) if name == b"::".as_slice() => Ok(between(
            Infix::Cons,
            Shapes::More(first, others),
        )),
        Shapes::More(first, others) => {
            let arguments = Shapes::More(first, others);
            let name = Vec::from_slice(alloc, name)?;
            Ok(Shape::Applied(name, Box::new(alloc, arguments)?))
        }
    }
}

/// Whether the list ends in `nil`.
fn ends_empty(list: &Shape) -> bool
    ensures { result ≡ plain.ends_empty (shape_of list.now) }
{
    match list {
        Shape::Join(Infix::Cons, _, rest) => ends_empty(rest),
        Shape::Empty => true,
        _ => false,
    }
}

/// The items of a list in the order of writing, before these.
fn written_from(alloc: Global, items: Shapes, list: Shape) -> Result<Shapes, AllocError>
    ensures { IfOk result (λ written. shapes_of written ≡ plain.written_from (shapes_of items) (shape_of list)) }
{
    match list {
        Shape::Join(Infix::Cons, first, rest) => {
            let items = Box::new(alloc, items)?;
            written_from(alloc, Shapes::More(first, items), Box::into_inner(rest))
        }
        Shape::Empty => Ok(items),
        end => {
            let end = Box::new(alloc, end)?;
            let items = Box::new(alloc, items)?;
            Ok(Shapes::More(end, items))
        }
    }
}

/// With `nil` before a name that would else be read as a list.
fn guard_list(alloc: Global, ends_empty: bool, items: Shapes) -> Result<Shapes, AllocError>
    ensures { IfOk result (λ guarded. shapes_of guarded ≡ plain.guarded ends_empty (shapes_of items)) }
{
    if !ends_empty || !begins_with_name(&items) {
        return Ok(items);
    }
    let first = Box::new(alloc, Shape::Empty)?;
    let items = Box::new(alloc, items)?;
    Ok(Shapes::More(first, items))
}

/// Whether the first of the items is a name alone.
fn begins_with_name(items: &Shapes) -> bool
    ensures { plain.guarded true (shapes_of items.now) ≡ (if result then (shapes.shape shapes.empty (shapes_of items.now)) else (shapes_of items.now)) }
{
    match items {
        Shapes::End => false,
        Shapes::More(first, _) => match &**first {
            Shape::Word(_) => true,
            _ => false,
        },
    }
}

/// The items of a list, as a judgement writes them.
fn list_items(alloc: Global, list: Shape) -> Result<Shapes, AllocError>
    ensures { IfOk result (λ items. shapes_of items ≡ plain.written (shape_of list)) }
{
    let ends_empty = ends_empty(&list);
    let items = written_from(alloc, Shapes::End, list)?;
    guard_list(alloc, ends_empty, items)
}

/// A judgement of a list and a goal.
pub fn judgement_shape(alloc: Global, operands: Shapes) -> Result<Shape, AllocError>
    ensures { IfOk result (λ s. shape_of s ≡ plain.judged (shapes_of operands)) }
{
    let Shapes::More(list, others) = operands else {
        return Ok(Shape::Broken);
    };
    let Shapes::More(goal, end) = Box::into_inner(others) else {
        return Ok(Shape::Broken);
    };
    let Shapes::End = Box::into_inner(end) else {
        return Ok(Shape::Broken);
    };
    let items = list_items(alloc, Box::into_inner(list))?;
    Ok(Shape::Judge(Box::new(alloc, items)?, goal))
}

/// A judgement of a list, a focused formula and a goal.
pub fn judged_in_focus(alloc: Global, operands: Shapes) -> Result<Shape, AllocError>
    ensures { IfOk result (λ s. shape_of s ≡ plain.judged_in_focus (shapes_of operands)) }
{
    let Shapes::More(list, others) = operands else {
        return Ok(Shape::Broken);
    };
    let Shapes::More(formula, others) = Box::into_inner(others) else {
        return Ok(Shape::Broken);
    };
    let Shapes::More(goal, end) = Box::into_inner(others) else {
        return Ok(Shape::Broken);
    };
    let Shapes::End = Box::into_inner(end) else {
        return Ok(Shape::Broken);
    };
    let items = list_items(alloc, Box::into_inner(list))?;
    Ok(Shape::Focus(Box::new(alloc, items)?, formula, goal))
}
