//! What is put behind a row for a judgement, beside the steps of its parts.
ghost use Rattle.std.specs.Prelude.{◌≡◌, Ok, Some, Contains, IfOk, OnOk};
ghost use Rattle.ab_term.specs.Types.{Ty, arrow, olist};
ghost use Rattle.ab_term.specs.Constants.{names};
ghost use Rattle.ab_term.specs.Logical.{logical_type};
ghost use Rattle.ab_term.specs.Terms.{constant};
ghost use Rattle.ab_norm.specs.ab_types.specs.Entries.{Table, constants, signature, first_entries};
ghost use Rattle.ab_norm.specs.ab_types.specs.Ids.{HoldsType, type_of};
ghost use Rattle.ab_norm.specs.ab_types.specs.Sound.{IsTable};
ghost use Rattle.ab_norm.specs.ab_store.specs.Trees.{Contents, logical_of};
ghost use Rattle.ab_norm.specs.ab_store.specs.Naming.{IsTypedBy, LogicalIsTyped};
ghost use Rattle.ab_syntax.specs.ab_expressions.specs.SyntaxTrees.{tree_of};
ghost use Rattle.ab_meaning.specs.ResolvedNames.{known};
ghost use Rattle.ab_meaning.specs.Scopes as scopes;
ghost use Rattle.ab_inference.specs.Inferences.{IsFormulas};
ghost use Rattle.ab_inference.specs.declared.constraints.Formulas.{Formulas as AFormulas};
ghost use Rattle.ab_infer.specs.declared.scope.Scope.{Scope as AScope};
ghost use Rattle.ab_infer.specs.Rows.{IsGround, AddsTypes, Grew};
ghost use Rattle.ab_infer.specs.WalkMoves.{judgement_sign, judgement_head};

use crate::ids::kind_type;
use crate::row::Row;
use ab_grammar::Infix;
use ab_inference::{Formulas, Op};
use ab_norm::name::Name;
use ab_norm::store::{Head, Logical};
use ab_norm::types::{TypeId, TypeTable};
use ab_syntax::Parse;
use std::alloc::{AllocError, Global};

/// Whether it is a list where it stands first in a judgement: a name alone, or written with `::`.
pub(crate) fn is_list(item: &Parse) -> bool
    ensures { result ≡ scopes.is_list (tree_of item.now) }
{
    match item {
        Parse::Name(..) | Parse::Join(Infix::Cons, ..) => true,
        _ => false,
    }
}

/// A constant that each table has.
pub(crate) fn put_constant(
    alloc: Global,
    types: &TypeTable,
    text: &str,
    row: &mut Row,
) -> Result<(), AllocError>
    requires table { IsTable types.now }
    requires first { Contains (names (constants first_entries)) text.now }
    ensures { (store : Contents) (A : Ty) → IsTypedBy types.now store → signature first_entries text.now ≡ Some A →
        OnOk result (Grew types.now store row.old row.new (Ok (known (constant text.now) A))) }
{
    let name = Name::from_text(alloc, text)?;
    let id = types.look(&name).unwrap();
    row.put(Op::Known(Head::Const(id), types.const_type(id)))
}

/// The type of a judgement that was given its list, with a formula in brackets or without.
fn type_over_list(
    types: &mut TypeTable,
    formulas: Formulas,
    focused: bool,
) -> Result<TypeId, AllocError>
    requires table { IsTable types.old }
    requires formulas { IsFormulas types.old formulas }
    ensures held { IfOk result (HoldsType types.new) }
    ensures is { IfOk result (λ id. arrow olist (type_of types.new id) ≡ logical_type (judgement_sign focused)) }
    ensures adds { AddsTypes types.old types.new }
    ensures table { IsTable types.new }
{
    let unfocused = types.arrow(formulas.o, formulas.prop)?;
    if focused {
        types.arrow(formulas.o, unfocused)
    } else {
        Ok(unfocused)
    }
}

/// The constant that makes a judgement, with a formula in brackets or without.
fn judgement_constant(focused: bool) -> Logical
    ensures is { (types : Table) → logical_of types result ≡ judgement_sign focused }
    ensures typed { (types : Table) → LogicalIsTyped types result }
{
    if focused {
        Logical::Focus
    } else {
        Logical::Judge
    }
}

/// The head of a judgement.
pub(crate) fn put_judgement(
    alloc: Global,
    types: &mut TypeTable,
    formulas: Formulas,
    focused: bool,
    row: &mut Row,
) -> Result<(), AllocError>
    requires table { IsTable types.old }
    requires formulas { IsFormulas types.old formulas }
    ensures head { (store : Contents) → IsTypedBy types.old store → OnOk result (Grew types.new store row.old row.new (Ok (judgement_head focused))) }
    ensures ground { (store : Contents) (formulas : AFormulas) (scope : AScope) → IsGround types.old store formulas scope → IsGround types.new store formulas scope }
    ensures adds { AddsTypes types.old types.new }
    ensures table { IsTable types.new }
{
    let rest = type_over_list(types, formulas, focused)?;
    let list = kind_type(alloc, types, "olist")?;
    let ty = types.arrow(list, rest)?;
    row.put(Op::Known(Head::Logic(judgement_constant(focused)), ty))
}
