//! Logical constants with what they are given.
ghost use Rattle.std.specs.Prelude.{◌≡◌, IfOk};
ghost use Rattle.ab_store.specs.ab_types.specs.Entries.{Table};
ghost use Rattle.ab_store.specs.Trees.{Contents, logical_of, head_reading};
ghost use Rattle.ab_print.specs.NameAssignment as plain;
ghost use Rattle.ab_print.specs.Values.{shape_of, shapes_of};

use crate::shape::{Shape, Shapes};
use crate::shape_parts::{
    between, judged_in_focus, judgement_shape, quantified_shape, truth_value, with_mark, with_pi,
};
use ab_grammar::{Infix, Quant};
use ab_store::{Head, Logical};
use std::alloc::{AllocError, Global};

/// Whether the head stands before an abstraction: a quantifier, or `pi`.
pub(crate) fn takes_binder(head: Head) -> bool
    ensures { (types : Table) (store : Contents) → result ≡ plain.takes_binder (head_reading types store head) }
{
    match head {
        Head::Logic(Logical::Forall(_) | Logical::Exists(_) | Logical::Nabla(_) | Logical::Pi(_)) =>
            true,
        _ => false,
    }
}

/// What is printed for a logical constant, given its arguments as they are printed.
pub(crate) fn logical_form(
    alloc: Global,
    logical: Logical,
    arguments: Shapes,
) -> Result<Shape, AllocError>
    ensures { IfOk result (λ s. (types : Table) → shape_of s ≡ plain.logical_form (logical_of types logical) (shapes_of arguments)) }
{
    match logical {
        Logical::True => Ok(truth_value(true, arguments)),
        Logical::False => Ok(truth_value(false, arguments)),
        Logical::And => Ok(between(Infix::And, arguments)),
        Logical::Or => Ok(between(Infix::Or, arguments)),
        Logical::Arrow => Ok(between(Infix::Arrow, arguments)),
        Logical::Equal(_) => Ok(between(Infix::Equal, arguments)),
        Logical::Forall(_) => Ok(quantified_shape(Quant::Forall, arguments)),
        Logical::Exists(_) => Ok(quantified_shape(Quant::Exists, arguments)),
        Logical::Nabla(_) => Ok(quantified_shape(Quant::Nabla, arguments)),
        Logical::Judge => judgement_shape(alloc, arguments),
        Logical::Focus => judged_in_focus(alloc, arguments),
        Logical::Star(level) => Ok(with_mark(b'*', level, arguments)),
        Logical::At(level) => Ok(with_mark(b'@', level, arguments)),
        Logical::Plus(level) => Ok(with_mark(b'+', level, arguments)),
        Logical::Hash(level) => Ok(with_mark(b'#', level, arguments)),
        Logical::Pi(_) => Ok(with_pi(arguments)),
        Logical::Imply => Ok(between(Infix::Imply, arguments)),
        Logical::With => Ok(between(Infix::With, arguments)),
    }
}
