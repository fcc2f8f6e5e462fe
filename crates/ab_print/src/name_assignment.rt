//! Names are given to bound names, from the outside in.
ghost use Rattle.std.specs.Prelude.{◌≡◌, ℕ, List, [], ◌++◌, codes, decimal, IfOk, IfSome, OnOk, None, if◌then◌else◌};
ghost use Rattle.std.specs.Option.{option_map};
ghost use Rattle.ab_term.specs.Terms as tree;
ghost use Rattle.ab_store.specs.ab_types.specs.Entries.{Table};
ghost use Rattle.ab_store.specs.Trees.{Contents, head_reading};
ghost use Rattle.ab_print.specs.PrintedNames.{name_of};
ghost use Rattle.ab_print.specs.NameAssignment as plain;
ghost use Rattle.ab_print.specs.Values.{shape_of, shapes_of};
ghost use Rattle.ab_print.specs.Drawings.{IsHeld, term_of, terms_of};
ghost use Rattle.ab_print.specs.Places.{places_at};
ghost use Rattle.ab_print.specs.BinderNames.{names_in};
ghost use Rattle.ab_print.specs.GoalText.{cell_name};
ghost use Rattle.ab_print.specs.NameUses.{IsReady, AreReady};

use crate::bound_names::choose;
use crate::drawings::{Drawing, Drawings};
use crate::logic::{logical_form, takes_binder};
use crate::places::{Places, enter, leave};
use crate::shape::{Shape, Shapes};
use crate::shape_parts::{with_constant, with_name};
use ab_store::types::TypeTable;
use ab_store::{Head, Store};
use itoa::Buffer;
use std::alloc::{AllocError, Global};

/// A nominal constant's printed name.
fn nominal_name(alloc: Global, number: u128) -> Result<Vec<u8>, AllocError>
    ensures { IfOk result (λ name. name.items ≡ codes "n" ++ decimal number) }
{
    let mut name = Vec::from_slice(alloc, b"n")?;
    let mut buffer = Buffer::new();
    name.extend_from_slice(buffer.format(number).as_bytes())?;
    Ok(name)
}

/// The name of the binder of that index, the innermost of which stands last.
fn bound_name(alloc: Global, names: &[Vec<u8>], index: usize) -> Result<Option<Vec<u8>>, AllocError>
    ensures { IfOk result (λ o. (name : ℕ → List ℕ) → option_map (λ v. v.items) o ≡ name_of name (names_in names.now) (tree.index index)) }
{
    if names.len() <= index {
        return Ok(None);
    }
    let name = Vec::from_slice(alloc, &names[names.len() - 1 - index])?;
    Ok(Some(name))
}

/// The printed name of a head, where it has one.
pub(crate) fn head_name(
    alloc: Global,
    types: &TypeTable,
    store: &Store,
    names: &[Vec<u8>],
    head: Head,
) -> Result<Option<Vec<u8>>, AllocError>
    requires { IsHeld types.now store.now head }
    ensures { IfOk result (λ o. option_map (λ v. v.items) o ≡ name_of (cell_name store.now) (names_in names.now) (head_reading types.now store.now head)) }
{
    match head {
        Head::Const(constant) => Ok(Some(Vec::from_slice(
            alloc,
            types.const_name(constant).as_str().as_bytes(),
        )?)),
        Head::Logic(_) => Ok(None),
        Head::Nominal(number, _) => Ok(Some(nominal_name(alloc, number)?)),
        Head::Cell(cell) => Ok(Some(Vec::from_slice(
            alloc,
            store.cell_name(cell).as_str().as_bytes(),
        )?)),
        Head::Index(index) => bound_name(alloc, names, index),
    }
}

/// What is printed for a head, given its arguments as they are printed.
fn head_form(
    alloc: Global,
    types: &TypeTable,
    store: &Store,
    names: &[Vec<u8>],
    head: Head,
    arguments: Shapes,
) -> Result<Shape, AllocError>
    requires { IsHeld types.now store.now head }
    ensures { IfOk result (λ s. shape_of s ≡ plain.head_form (cell_name store.now) (names_in names.now) (head_reading types.now store.now head) (shapes_of arguments)) }
{
    match head {
        Head::Const(constant) => with_constant(
            alloc,
            types.const_name(constant).as_str().as_bytes(),
            arguments,
        ),
        Head::Logic(logical) => logical_form(alloc, logical, arguments),
        _ => match head_name(alloc, types, store, names, head)? {
            Some(name) => with_name(alloc, name, arguments),
            None => with_name(alloc, Vec::new(alloc), arguments),
        },
    }
}

/// What is printed of a term. The names are those of the binders around it, the innermost last.
#[cycle(named)]
fn name(
    alloc: Global,
    types: &TypeTable,
    store: &Store,
    drawing: &Drawing,
    names: &mut Vec<Vec<u8>>,
    places: &mut Places,
) -> Result<Shape, AllocError>
    requires ready { IsReady types.now store.now names.old.items places.old drawing.now }
    ensures shape { IfOk result (λ s. shape_of s ≡ plain.named (cell_name store.now) (names_in names.old.items) (term_of types.now store.now drawing.now)) }
    ensures names { OnOk result (names.new.items ≡ names.old.items) }
    ensures places { OnOk result ((x : List ℕ) → places_at places.new x ≡ places_at places.old x) }
{
    match drawing {
        Drawing::Lam(_, hint, part, body) => {
            let chosen = choose(alloc, places, part, hint.as_str().as_bytes())?;
            let outer = enter(alloc, places, &chosen, &part.bound)?;
            names.push(Vec::from_slice(alloc, &chosen)?)?;
            let body = name(alloc, types, store, body, names, places)?;
            let _ = names.pop();
            leave(alloc, places, &chosen, outer)?;
            Ok(Shape::Abstraction(chosen, Box::new(alloc, body)?))
        }
        Drawing::Spine(head, drawings) => {
            let binds = takes_binder(*head);
            let arguments = name_all(alloc, types, store, binds, drawings, names, places)?;
            head_form(alloc, types, store, names, *head, arguments)
        }
    }
}

/// The name that an argument is, but none for the abstraction that a quantifier stands before.
fn unless_bound(binds: bool, alone: Option<Head>) -> Option<Head>
    ensures alone { (types : Table) (store : Contents) → option_map (head_reading types store) result ≡ (if binds then None else (option_map (head_reading types store) alone)) }
    ensures held { (types : Table) (store : Contents) → IfSome alone (IsHeld types store) → IfSome result (IsHeld types store) }
{
    if binds { None } else { alone }
}

/// Arguments: those that are eta-long names as the names, but not the abstraction that a quantifier stands before.
#[cycle(named)]
fn name_all(
    alloc: Global,
    types: &TypeTable,
    store: &Store,
    binds: bool,
    drawings: &Drawings,
    names: &mut Vec<Vec<u8>>,
    places: &mut Places,
) -> Result<Shapes, AllocError>
    requires ready { AreReady types.now store.now names.old.items places.old drawings.now }
    ensures shapes { IfOk result (λ ss. shapes_of ss ≡ plain.named_all (cell_name store.now) binds (names_in names.old.items) (terms_of types.now store.now drawings.now)) }
    ensures names { OnOk result (names.new.items ≡ names.old.items) }
    ensures places { OnOk result ((x : List ℕ) → places_at places.new x ≡ places_at places.old x) }
{
    match drawings {
        Drawings::End => Ok(Shapes::End),
        Drawings::More(first, alone, others) => {
            let alone = unless_bound(binds, *alone);
            let first = name_alone(alloc, types, store, first, alone, names, places)?;
            let others = name_all(alloc, types, store, binds, others, names, places)?;
            Ok(Shapes::More(Box::new(alloc, first)?, Box::new(alloc, others)?))
        }
    }
}

/// A term, or the name of which it is the eta-long form.
#[cycle(named)]
pub(crate) fn name_alone(
    alloc: Global,
    types: &TypeTable,
    store: &Store,
    drawing: &Drawing,
    alone: Option<Head>,
    names: &mut Vec<Vec<u8>>,
    places: &mut Places,
) -> Result<Shape, AllocError>
    requires ready { IsReady types.now store.now names.old.items places.old drawing.now }
    requires alone { IfSome alone (IsHeld types.now store.now) }
    ensures shape { IfOk result (λ s. shape_of s ≡ plain.contracted (cell_name store.now) (names_in names.old.items) (option_map (head_reading types.now store.now) alone)
        (plain.named (cell_name store.now) (names_in names.old.items) (term_of types.now store.now drawing.now))) }
    ensures names { OnOk result (names.new.items ≡ names.old.items) }
    ensures places { OnOk result ((x : List ℕ) → places_at places.new x ≡ places_at places.old x) }
{
    match alone {
        Some(head) => head_form(alloc, types, store, names, head, Shapes::End),
        None => name(alloc, types, store, drawing, names, places),
    }
}
