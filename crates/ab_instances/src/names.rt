//! Lists of nominal constants.
ghost use Rattle.std.specs.Prelude.{◌≡◌, ◌↔◌, ◌==◌, ◌∷◌, true, All, IfOk};
ghost use Rattle.ab_term.specs.Types.{same_type};
ghost use Rattle.ab_term.specs.Names.{same_nominal};
ghost use Rattle.ab_norm.specs.ab_types.specs.Entries.{Table};
ghost use Rattle.ab_norm.specs.ab_types.specs.Ids.{HoldsType, type_of};
ghost use Rattle.ab_norm.specs.ab_types.specs.Sound.{IsTable};
ghost use Rattle.ab_norm.specs.Nominals.{nominal_of, HoldsNominal};
ghost use Rattle.ab_unifiers.specs.Choices as choices;
ghost use Rattle.ab_instances.specs.ListReadings.{names_read};

use ab_norm::Nominal;
use ab_norm::types::laws::has_unique_ids;
use ab_norm::types::{TypeId, TypeTable};
use std::alloc::{AllocError, Global};
use std::marker::Model;

/// A list of constants. Contracts see it as the list.
#[derive(Drop)]
pub struct Names {
    names: Vec<Nominal>,
}

impl Model for Names {
    ghost use Rattle.std.specs.Prelude.{List};
    ghost use Rattle.ab_norm.specs.declared.nominal.Nominal.{Nominal};

    ghost Value = { List Nominal };

    ghost view = { λ list. list.names.items };
}

impl Names {
    /// The constants of a vector, in its memory.
    pub(crate) fn from_vec(names: Vec<Nominal>) -> Names
        ensures { result ≡ names.items }
    {
        Names { names }
    }

    /// The constants as a slice.
    pub fn as_slice(&self) -> &[Nominal]
        ensures { result.now ≡ self.now }
    {
        &self.names
    }
}

/// A list of choices, each a list of constants. Contracts see it as the list.
#[derive(Drop)]
pub struct Choices {
    choices: Vec<Names>,
}

impl Model for Choices {
    ghost use Rattle.std.specs.Prelude.{List};
    ghost use Rattle.ab_norm.specs.declared.nominal.Nominal.{Nominal};

    ghost Value = { List (List Nominal) };

    ghost view = { λ list. list.choices.items };
}

impl Choices {
    /// The choices of a vector, in its memory.
    pub(crate) fn from_vec(choices: Vec<Names>) -> Choices
        ensures { result ≡ choices.items }
    {
        Choices { choices }
    }

    /// The choices as a slice.
    pub fn as_slice(&self) -> &[Names]
        ensures { result.now ≡ self.now }
    {
        &self.choices
    }
}

/// Whether the two are the same.
fn are_same(a: Nominal, b: Nominal) -> bool
    ensures { (result ≡ true) ↔ (a ≡ b) }
{
    a == b
}

/// Whether the two types are the same.
fn are_same_types(a: TypeId, b: TypeId) -> bool
    ensures { (result ≡ true) ↔ (a ≡ b) }
{
    a == b
}

/// Whether the constant has the number.
fn has_number(a: Nominal, number: u128) -> bool
    ensures { result ≡ (a.number == number) }
{
    a.number == number
}

/// Whether the two constants are one.
pub(crate) fn is_one(types: &TypeTable, a: Nominal, b: Nominal) -> bool
    requires table { IsTable types.now }
    requires a { HoldsNominal types.now a }
    requires b { HoldsNominal types.now b }
    ensures { result ≡ same_nominal (nominal_of types.now a) (nominal_of types.now b) }
{
    let _ = types;
    are_same(a, b)
}

/// Whether the constant is of the type.
fn is_of_type(types: &TypeTable, a: Nominal, ty: TypeId) -> bool
    requires table { IsTable types.now }
    requires a { HoldsNominal types.now a }
    requires ty { HoldsType types.now ty }
    ensures { result ≡ same_type (nominal_of types.now a).type (type_of types.now ty) }
{
    let _ = types;
    are_same_types(a.ty, ty)
}

/// Whether the constant is among these.
pub(crate) fn is_in(types: &TypeTable, names: &[Nominal], a: Nominal) -> bool
    requires table { IsTable types.now }
    requires names { All (HoldsNominal types.now) names.now }
    requires a { HoldsNominal types.now a }
    ensures { result ≡ choices.is_in (names_read types.now names.now) (nominal_of types.now a) }
{
    for b in names {
        if is_one(types, *b, a) {
            return true;
        }
    }
    false
}

/// Those of the first list that aren't in the second, in their order.
pub fn outside(
    alloc: Global,
    types: &TypeTable,
    names: &[Nominal],
    others: &[Nominal],
) -> Result<Vec<Nominal>, AllocError>
    requires names { All (HoldsNominal types.now) names.now }
    requires others { All (HoldsNominal types.now) others.now }
    ensures list { IfOk result (λ list. names_read types.now list.items ≡ choices.outside (names_read types.now names.now) (names_read types.now others.now)) }
    ensures held { IfOk result (λ list. All (HoldsNominal types.now) list.items) }
{
    has_unique_ids(types);
    let mut list = Vec::new(alloc);
    for a in names {
        if !is_in(types, others, *a) {
            list.push(*a)?;
        }
    }
    Ok(list)
}

/// The others, in their order.
pub(crate) fn others(
    alloc: Global,
    types: &TypeTable,
    a: Nominal,
    names: &[Nominal],
) -> Result<Vec<Nominal>, AllocError>
    requires table { IsTable types.now }
    requires a { HoldsNominal types.now a }
    requires names { All (HoldsNominal types.now) names.now }
    ensures list { IfOk result (λ list. names_read types.now list.items ≡ choices.others (nominal_of types.now a) (names_read types.now names.now)) }
    ensures held { IfOk result (λ list. All (HoldsNominal types.now) list.items) }
{
    let mut list = Vec::new(alloc);
    for b in names {
        if !is_one(types, a, *b) {
            list.push(*b)?;
        }
    }
    Ok(list)
}

/// Those of the type, in their order.
pub(crate) fn of_type(
    alloc: Global,
    types: &TypeTable,
    ty: TypeId,
    names: &[Nominal],
) -> Result<Vec<Nominal>, AllocError>
    requires table { IsTable types.now }
    requires ty { HoldsType types.now ty }
    requires names { All (HoldsNominal types.now) names.now }
    ensures list { IfOk result (λ list. names_read types.now list.items ≡ choices.of_type (type_of types.now ty) (names_read types.now names.now)) }
    ensures held { IfOk result (λ list. All (HoldsNominal types.now) list.items) }
{
    let mut list = Vec::new(alloc);
    for a in names {
        if is_of_type(types, *a, ty) {
            list.push(*a)?;
        }
    }
    Ok(list)
}

/// The constant, and then these.
pub(crate) fn with_first(
    alloc: Global,
    a: Nominal,
    names: &[Nominal],
) -> Result<Vec<Nominal>, AllocError>
    ensures { IfOk result (λ list. list.items ≡ a ∷ names.now) }
{
    let mut list = Vec::new(alloc);
    list.push(a)?;
    list.extend_from_slice(names)?;
    Ok(list)
}

/// Whether a constant of the list has the number.
fn is_number_of(names: &[Nominal], number: u128) -> bool
    ensures { (types : Table) → result ≡ choices.is_number_of (names_read types names.now) number }
{
    for a in names {
        if has_number(*a, number) {
            return true;
        }
    }
    false
}

/// A constant of the type that isn't held: it has the least number, from 1 on, that none of these has.
pub(crate) fn new_constant(held: &[Nominal], ty: TypeId) -> Nominal
    ensures constant { (types : Table) → nominal_of types result ≡ choices.new_constant (names_read types held.now) (type_of types ty) }
    ensures ty { result.ty ≡ ty }
{
    let count = held.len();
    for tried in 0..count {
        let number = tried as u128 + 1;
        if !is_number_of(held, number) {
            return Nominal { number, ty };
        }
    }
    Nominal {
        number: count as u128 + 1,
        ty,
    }
}
