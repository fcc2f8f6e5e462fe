//! Shapes as bytes, with the parentheses that the grammar needs.
ghost use Rattle.std.specs.Prelude.{◌≡◌, ℕ, List, ◌++◌, Bool, true, OnOk, replicate, codes, if◌then◌else◌};
ghost use Rattle.ab_grammar.specs.Token.{sign, quantifier};
ghost use Rattle.ab_print.specs.Shapes as plain;
ghost use Rattle.ab_print.specs.Shapes.{is_none};
ghost use Rattle.ab_print.specs.ShapeText.{level_of, reaches_far, is_enclosed, behind, part_bytes, token_bytes, placed, bare, arguments, context, further, items, bytes};
ghost use Rattle.ab_print.specs.NameAssignment.{same_quantifier};
ghost use Rattle.ab_print.specs.Values.{shape_of, shapes_of};
ghost use Rattle.ab_print.specs.QuantifierRows.{rest};

use crate::levels as signs;
use crate::levels::{left, right};
use crate::shape::{Shape, Shapes};
use ab_grammar::{Infix, Quant};
use std::alloc::AllocError;

/// A sign, with its spaces.
fn sign_text(operator: Infix) -> &'static [u8]
    ensures { result.now ≡ token_bytes (sign operator) }
{
    match operator {
        Infix::Arrow => b" -> ",
        Infix::Or => b" \\/ ",
        Infix::And => b" /\\ ",
        Infix::Equal => b" = ",
        Infix::Imply => b" => ",
        Infix::With => b" & ",
        Infix::Cons => b" :: ",
    }
}

fn quantifier_text(quant: Quant) -> &'static [u8]
    ensures { result.now ≡ token_bytes (quantifier quant 0) }
{
    match quant {
        Quant::Forall => b"forall",
        Quant::Exists => b"exists",
        Quant::Nabla => b"nabla",
    }
}

/// Whether the shape stands in parentheses where an expression of the level is asked.
fn is_enclosed(shape: &Shape, level: usize, is_last: bool) -> bool
    ensures { result ≡ is_enclosed level is_last (shape_of shape.now) }
{
    match shape {
        Shape::Abstraction(..) | Shape::Bind(..) => !is_last,
        Shape::Join(sign, _, _) => signs::level(*sign) < level,
        Shape::Applied(..) | Shape::Pi(..) | Shape::Marked(..) => 8 < level,
        _ => 9 < level,
    }
}

fn is_same(quant: Quant, other: Quant) -> bool
    ensures { result ≡ same_quantifier quant other }
{
    match (quant, other) {
        (Quant::Forall, Quant::Forall) => true,
        (Quant::Exists, Quant::Exists) => true,
        (Quant::Nabla, Quant::Nabla) => true,
        _ => false,
    }
}

/// Whether nothing stands in the list.
fn is_none(shapes: &Shapes) -> bool
    ensures { result ≡ is_none (shapes_of shapes.now) }
{
    match shapes {
        Shapes::End => true,
        Shapes::More(..) => false,
    }
}

fn is_judgement(shape: &Shape) -> bool
    ensures { (mark : List ℕ) → behind (shape_of shape.now) mark ≡ (if result then mark else (codes " " ++ mark)) }
{
    match shape {
        Shape::Judge(..) | Shape::Focus(..) => true,
        _ => false,
    }
}

/// A sign as often as the level says.
fn write_signs(sign: u8, level: u128, out: &mut Vec<u8>) -> Result<(), AllocError>
    ensures { OnOk result (out.new.items ≡ out.old.items ++ replicate level sign) }
{
    for _ in 0..level {
        out.push(sign)?;
    }
    Ok(())
}

/// The mark behind an atom or a judgement.
fn write_mark(marked: &Shape, sign: u8, level: u128, out: &mut Vec<u8>) -> Result<(), AllocError>
    ensures { OnOk result (out.new.items ≡ out.old.items ++ behind (shape_of marked.now) (replicate level sign)) }
{
    if !is_judgement(marked) {
        out.push(b' ')?;
    }
    write_signs(sign, level, out)
}

/// The bytes of a shape that stands by itself.
pub fn write(shape: &Shape, out: &mut Vec<u8>) -> Result<(), AllocError>
    ensures { OnOk result (out.new.items ≡ out.old.items ++ bytes (shape_of shape.now)) }
{
    write_bare(shape, true, out)
}

/// A shape where an expression of the level is asked, in parentheses where they are needed.
#[cycle(written)]
fn write_placed(
    shape: &Shape,
    level: usize,
    is_last: bool,
    out: &mut Vec<u8>,
) -> Result<(), AllocError>
    ensures { OnOk result (out.new.items ≡ out.old.items ++ placed part_bytes level is_last (shape_of shape.now) (bare part_bytes (shape_of shape.now))) }
{
    if !is_enclosed(shape, level, is_last) {
        return write_bare(shape, is_last, out);
    }
    out.push(b'(')?;
    write_bare(shape, true, out)?;
    out.push(b')')?;
    Ok(())
}

/// A shape without parentheses around it.
#[cycle(written)]
fn write_bare(shape: &Shape, is_last: bool, out: &mut Vec<u8>) -> Result<(), AllocError>
    ensures { OnOk result (out.new.items ≡ out.old.items ++ bare part_bytes (shape_of shape.now) is_last) }
{
    match shape {
        Shape::Word(name) => out.extend_from_slice(name),
        Shape::True => out.extend_from_slice(b"true"),
        Shape::False => out.extend_from_slice(b"false"),
        Shape::Empty => out.extend_from_slice(b"nil"),
        Shape::Applied(name, arguments) => {
            out.extend_from_slice(name)?;
            write_arguments(arguments, is_last, out)
        }
        Shape::Abstraction(name, body) => write_abstraction(name, body, out),
        Shape::Join(sign, first, second) => {
            write_placed(first, left(*sign), false, out)?;
            out.extend_from_slice(sign_text(*sign))?;
            write_placed(second, right(*sign), is_last, out)
        }
        Shape::Bind(quant, name, body) => {
            out.extend_from_slice(quantifier_text(*quant))?;
            out.push(b' ')?;
            out.extend_from_slice(name)?;
            write_rest(*quant, body, out)
        }
        Shape::Pi(name, body) => write_pi(name, body, is_last, out),
        Shape::Judge(context, goal) => {
            out.push(b'{')?;
            write_context(context, out)?;
            write_goal(goal, out)
        }
        Shape::Focus(context, formula, goal) => {
            out.push(b'{')?;
            write_items(context, out)?;
            write_focused(formula, out)?;
            write_goal(goal, out)
        }
        Shape::Marked(sign, level, marked) => {
            write_placed(marked, 8, false, out)?;
            write_mark(marked, *sign, *level, out)
        }
        Shape::Broken => Ok(()),
    }
}

/// `x\ e`
#[cycle(written)]
fn write_abstraction(name: &[u8], body: &Shape, out: &mut Vec<u8>) -> Result<(), AllocError>
    ensures { OnOk result (out.new.items ≡ out.old.items ++ (name.now ++ (codes "\\ " ++ bare part_bytes (shape_of body.now) true))) }
{
    out.extend_from_slice(name)?;
    out.extend_from_slice(b"\\ ")?;
    write_bare(body, true, out)
}

/// `pi` before an abstraction, which is in parentheses where something follows.
#[cycle(written)]
fn write_pi(name: &[u8], body: &Shape, is_last: bool, out: &mut Vec<u8>) -> Result<(), AllocError>
    ensures { OnOk result (out.new.items ≡ out.old.items ++ bare part_bytes (plain.pi name.now (shape_of body.now)) is_last) }
{
    out.extend_from_slice(b"pi ")?;
    if is_last {
        return write_abstraction(name, body, out);
    }
    out.push(b'(')?;
    write_abstraction(name, body, out)?;
    out.push(b')')?;
    Ok(())
}

/// A formula in brackets, and the turnstile.
#[cycle(written)]
fn write_focused(formula: &Shape, out: &mut Vec<u8>) -> Result<(), AllocError>
    ensures { OnOk result (out.new.items ≡ out.old.items ++ (codes "[" ++ (bare part_bytes (shape_of formula.now) true ++ (codes "]" ++ codes " |- ")))) }
{
    out.push(b'[')?;
    write_bare(formula, true, out)?;
    out.extend_from_slice(b"] |- ")
}

/// The goal of a judgement, and the end of it.
#[cycle(written)]
fn write_goal(goal: &Shape, out: &mut Vec<u8>) -> Result<(), AllocError>
    ensures { OnOk result (out.new.items ≡ out.old.items ++ (bare part_bytes (shape_of goal.now) true ++ codes "}")) }
{
    write_bare(goal, true, out)?;
    out.push(b'}')?;
    Ok(())
}

/// What a quantifier binds behind its first name, and what it reaches over.
#[cycle(written)]
fn write_rest(quant: Quant, body: &Shape, out: &mut Vec<u8>) -> Result<(), AllocError>
    ensures { OnOk result (out.new.items ≡ out.old.items ++ rest quant (shape_of body.now)) }
{
    match body {
        Shape::Bind(inner, name, reached) if is_same(quant, *inner) => {
            out.push(b' ')?;
            out.extend_from_slice(name)?;
            write_rest(quant, reached, out)
        }
        _ => {
            out.extend_from_slice(b", ")?;
            write_bare(body, true, out)
        }
    }
}

/// Arguments, each behind a space.
#[cycle(written)]
fn write_arguments(given: &Shapes, is_last: bool, out: &mut Vec<u8>) -> Result<(), AllocError>
    ensures { OnOk result (out.new.items ≡ out.old.items ++ arguments part_bytes (shapes_of given.now) is_last) }
{
    match given {
        Shapes::End => Ok(()),
        Shapes::More(first, others) => {
            out.push(b' ')?;
            write_placed(first, 9, is_none(others) && is_last, out)?;
            write_arguments(others, is_last, out)
        }
    }
}

/// The items of a judgement's list, and the turnstile behind them, where there are items.
#[cycle(written)]
fn write_context(listed: &Shapes, out: &mut Vec<u8>) -> Result<(), AllocError>
    ensures { OnOk result (out.new.items ≡ out.old.items ++ context part_bytes (shapes_of listed.now)) }
{
    match listed {
        Shapes::End => Ok(()),
        Shapes::More(first, others) => {
            write_placed(first, 1, false, out)?;
            write_further(others, out)
        }
    }
}

/// The items behind the first, and the turnstile.
#[cycle(written)]
fn write_further(listed: &Shapes, out: &mut Vec<u8>) -> Result<(), AllocError>
    ensures { OnOk result (out.new.items ≡ out.old.items ++ further part_bytes (shapes_of listed.now)) }
{
    match listed {
        Shapes::End => out.extend_from_slice(b" |- "),
        Shapes::More(first, others) => {
            out.extend_from_slice(b", ")?;
            write_placed(first, 1, false, out)?;
            write_further(others, out)
        }
    }
}

/// Items, each with its comma.
#[cycle(written)]
fn write_items(listed: &Shapes, out: &mut Vec<u8>) -> Result<(), AllocError>
    ensures { OnOk result (out.new.items ≡ out.old.items ++ items part_bytes (shapes_of listed.now)) }
{
    match listed {
        Shapes::End => Ok(()),
        Shapes::More(first, others) => {
            write_placed(first, 1, false, out)?;
            out.extend_from_slice(b", ")?;
            write_items(others, out)
        }
    }
}
