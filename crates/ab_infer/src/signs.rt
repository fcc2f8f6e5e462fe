//! Signs between two operands.
ghost use Rattle.std.specs.Prelude.{◌≡◌, List, IfOk, OnOk, MatchOption};
ghost use Rattle.ab_norm.specs.ab_types.specs.Sound.{IsTable};
ghost use Rattle.ab_norm.specs.ab_types.specs.Ids.{HoldsType, type_of};
ghost use Rattle.ab_term.specs.Types.{arrow};
ghost use Rattle.ab_grammar.specs.declared.Infix.TheVariants.{Equal};
ghost use Rattle.ab_norm.specs.ab_store.specs.declared.node.CellEntry.{CellEntry};
ghost use Rattle.ab_inference.specs.Inferences.{IsFormulas};
ghost use Rattle.ab_infer.specs.Rows.{IsGround, AddsTypes};
ghost use Rattle.ab_infer.specs.WalkMoves.{IsConnective, MeetsSign, PutsBetween, PutsBehind};

use crate::row::Row;
use crate::scope::Scope;
use ab_grammar::Infix;
use ab_inference::{Formulas, Op};
use ab_norm::name::Name;
use ab_norm::store::{Head, Logical, Store};
use ab_norm::types::{TypeId, TypeTable};
use std::alloc::{AllocError, Global};

/// The type of what takes two terms of a type to a third.
fn pairing_type(types: &mut TypeTable, ty: TypeId) -> Result<TypeId, AllocError>
    requires table { IsTable types.old }
    requires ty { HoldsType types.old ty }
    ensures held { IfOk result (HoldsType types.new) }
    ensures is { IfOk result (λ id. type_of types.new id ≡ arrow (type_of types.old ty) (arrow (type_of types.old ty) (type_of types.old ty))) }
    ensures adds { AddsTypes types.old types.new }
    ensures table { IsTable types.new }
{
    let last = types.arrow(ty, ty)?;
    types.arrow(ty, last)
}

/// The constant `::` and its type.
fn cons(alloc: Global, types: &TypeTable) -> Result<(Head, TypeId), AllocError>
    requires { IsTable types.now }
    ensures { (cells : List CellEntry) → IfOk result (λ found. IsConnective types.now cells Infix.Cons found.0 found.1) }
{
    let name = Name::from_text(alloc, "::")?;
    let id = types.look(&name).unwrap();
    Ok((Head::Const(id), types.const_type(id)))
}

/// The head that a sign stands for and its type, or nothing for an equation.
pub(crate) fn connective(
    alloc: Global,
    types: &mut TypeTable,
    formulas: Formulas,
    sign: Infix,
) -> Result<Option<(Head, TypeId)>, AllocError>
    requires table { IsTable types.old }
    requires formulas { IsFormulas types.old formulas }
    ensures head { (cells : List CellEntry) → IfOk result (λ found. MatchOption found (sign ≡ Equal) (λ p. IsConnective types.new cells sign p.0 p.1)) }
    ensures adds { AddsTypes types.old types.new }
    ensures table { IsTable types.new }
{
    let (logical, ty) = match sign {
        Infix::Equal => return Ok(None),
        Infix::Cons => return Ok(Some(cons(alloc, types)?)),
        Infix::Arrow => (Logical::Arrow, formulas.prop),
        Infix::Or => (Logical::Or, formulas.prop),
        Infix::And => (Logical::And, formulas.prop),
        Infix::Imply => (Logical::Imply, formulas.o),
        Infix::With => (Logical::With, formulas.o),
    };
    Ok(Some((Head::Logic(logical), pairing_type(types, ty)?)))
}

/// What is put for a sign before its operands; an equation gets a type variable, which is the answer.
pub(crate) fn meet_sign(
    alloc: Global,
    types: &mut TypeTable,
    store: &Store,
    formulas: Formulas,
    scope: &Scope,
    sign: Infix,
    place: usize,
    row: &mut Row,
) -> Result<Option<usize>, AllocError>
    requires { IsGround types.old store.now formulas scope.now }
    ensures meets { IfOk result (MeetsSign types.new store.now row.old row.new sign) }
    ensures ground { IsGround types.new store.now formulas scope.now }
    ensures adds { AddsTypes types.old types.new }
{
    let _ = &store;
    let _ = &scope;
    match connective(alloc, types, formulas, sign)? {
        Some((head, ty)) => {
            row.put(Op::Known(head, ty))?;
            Ok(None)
        }
        None => {
            let node = row.variables.len();
            row.variables.push(place)?;
            Ok(Some(node))
        }
    }
}

/// What is put between the operands.
pub(crate) fn put_between(equation: Option<usize>, row: &mut Row) -> Result<(), AllocError>
    ensures { OnOk result (PutsBetween equation row.old row.new) }
{
    if equation.is_none() {
        row.put(Op::Apply)?;
    }
    Ok(())
}

/// What is put behind the operands.
pub(crate) fn put_behind(equation: Option<usize>, row: &mut Row) -> Result<(), AllocError>
    ensures { OnOk result (PutsBehind equation row.old row.new) }
{
    match equation {
        None => row.put(Op::Apply)?,
        Some(node) => row.put(Op::Equal(node))?,
    }
    Ok(())
}
