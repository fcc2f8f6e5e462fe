//! What a name stands for.
ghost use Rattle.std.specs.Prelude.{◌≡◌, ◌≤◌, ℕ, List, length, true, All};
ghost use Rattle.std.specs.List.{list_all};
ghost use Rattle.std.specs.Char.{is_ascii_digit};
ghost use Rattle.std.specs.Str.Parse.{digits_value};
ghost use Rattle.ab_norm.specs.ab_types.specs.Entries.{Table, signature};
ghost use Rattle.ab_norm.specs.ab_types.specs.Ids.{HoldsType, type_of};
ghost use Rattle.ab_norm.specs.ab_store.specs.Trees.{Contents};
ghost use Rattle.ab_term.specs.Types as plain;
ghost use Rattle.ab_meaning.specs.ResolvedNames.{Name as AName};
ghost use Rattle.ab_meaning.specs.Scopes as scopes;
ghost use Rattle.ab_infer.specs.NameScopes.{names_in, nodes_in, entries_in, nominals_in, place_of, scope_of, HoldsCells, HoldsNominals, HoldsScope};
ghost use Rattle.ab_infer.specs.NameAnswers.{Finds, FindsBound};

use crate::scope::{Bound, Place, Scope};
use ab_norm::Nominal;
use ab_norm::name::Name;
use ab_norm::store::{CellId, Head, Logical, Store};
use ab_norm::types::{TypeId, TypeTable};

/// What a name stands for.
#[derive(Clone, Copy)]
pub enum Named {
    /// A bound name: the number of binders between it and its own, and its type variable.
    Bound(usize, usize),
    /// A head, and its type.
    Known(Head, TypeId),
    /// A free name.
    Free,
}

/// A bound name, innermost first.
fn bound_at(bound: &[Bound], name: &Name) -> Option<Named>
    ensures { FindsBound (names_in bound.now) (nodes_in bound.now) name.now result }
{
    let mut found: Option<(usize, usize)> = None;
    for one in bound {
        if one.name == *name {
            found = Some((0, one.node));
        } else if let Some((index, node)) = found {
            found = Some((index + 1, node));
        }
    }
    match found {
        Some((index, node)) => Some(Named::Bound(index, node)),
        None => None,
    }
}

/// `true` and `false`.
fn truth_named(prop: TypeId, name: &Name) -> Option<Named>
    ensures { (types : Table) (store : Contents) (nodes : List ℕ) (p : ℕ) → HoldsType types prop → type_of types prop ≡ plain.prop →
        Finds types store nodes name.now p (scopes.truth_named name.now) result }
{
    if name.as_str() == "true" {
        Some(Named::Known(Head::Logic(Logical::True), prop))
    } else if name.as_str() == "false" {
        Some(Named::Known(Head::Logic(Logical::False), prop))
    } else {
        None
    }
}

/// Whether a word begins with a capital letter.
fn begins_with_capital(name: &Name) -> bool
    ensures { result ≡ scopes.begins_with_capital name.now }
{
    match name.as_str().as_bytes() {
        [first, ..] => *first >= b'A' && *first <= b'Z',
        [] => false,
    }
}

/// A variable of a clause.
fn clause_variable(place: Place, name: &Name) -> Option<Named>
    ensures { (types : Table) (store : Contents) (nodes : List ℕ) (p : ℕ) → Finds types store nodes name.now p (scopes.clause_variable (place_of place) name.now p) result }
{
    match place {
        Place::Clause => if begins_with_capital(name) {
            Some(Named::Free)
        } else {
            None
        },
        Place::Proof | Place::Elsewhere => None,
    }
}

/// A variable of the sequent.
fn variable_named(
    types: &TypeTable,
    store: &Store,
    variables: &[CellId],
    name: &Name,
) -> Option<Named>
    requires held { HoldsCells types.now store.now variables.now }
    ensures { (nodes : List ℕ) (p : ℕ) → Finds types.now store.now nodes name.now p (scopes.variable_named (entries_in types.now store.now variables.now) name.now) result }
{
    for cell in variables {
        if *store.cell_name(*cell) == *name {
            return Some(Named::Known(Head::Cell(*cell), store.cell_type(*cell)));
        }
    }
    None
}

/// A constant of the table.
fn constant_named(types: &TypeTable, name: &Name) -> Option<Named>
    ensures { (store : Contents) (nodes : List ℕ) (p : ℕ) → Finds types.now store nodes name.now p (scopes.constant_at name.now (signature types.now name.now)) result }
{
    match types.look(name) {
        Some(id) => Some(Named::Known(Head::Const(id), types.const_type(id))),
        None => None,
    }
}

/// The number that decimal digits write.
fn value(digits: &[u8]) -> u128
    requires digits { list_all is_ascii_digit digits.now ≡ true }
    requires short { length digits.now ≤ 9 }
    ensures value { result ≡ digits_value 10 digits.now }
{
    let mut value: u128 = 0;
    for digit in digits {
        value = value * 10 + (*digit - b'0') as u128;
    }
    value
}

/// Whether all bytes are decimal digits.
fn are_digits(bytes: &[u8]) -> bool
    ensures { result ≡ list_all is_ascii_digit bytes.now }
{
    bytes.iter().all(|byte| byte.is_ascii_digit())
}

/// Whether bytes write a number from 1 to 999,999,999 without a leading zero.
#[tactic(auto, using(crate::proofs::Lookups::number_empty, crate::proofs::Lookups::number_zero, crate::proofs::Lookups::number_long, crate::proofs::Lookups::number_digits))]
fn is_number(bytes: &[u8]) -> bool
    ensures { result ≡ scopes.is_number bytes.now }
{
    if bytes.is_empty() {
        return false;
    }
    if bytes[0] == b'0' {
        return false;
    }
    if bytes.len() > 9 {
        return false;
    }
    are_digits(bytes)
}

/// The number of a nominal name.
pub fn nominal_number(name: &Name) -> Option<u128>
    ensures { result ≡ scopes.nominal_number name.now }
{
    match name.as_str().as_bytes() {
        [first, digits @ ..] => if *first == b'n' && is_number(digits) {
            Some(value(digits))
        } else {
            None
        },
        [] => None,
    }
}

/// The nominal constant of the number whose type is settled.
fn settled_nominal(nominals: &[Nominal], number: u128) -> Option<Named>
    ensures { (types : Table) (store : Contents) (nodes : List ℕ) (x : AName) (p : ℕ) → HoldsNominals types nominals.now →
        Finds types store nodes x p (scopes.settled_nominal (nominals_in types nominals.now) number) result }
{
    for nominal in nominals {
        if nominal.number == number {
            return Some(Named::Known(Head::Nominal(number, nominal.ty), nominal.ty));
        }
    }
    None
}

/// A nominal constant.
fn nominal_named(place: Place, nominals: &[Nominal], name: &Name) -> Option<Named>
    ensures { (types : Table) (store : Contents) (nodes : List ℕ) (p : ℕ) → HoldsNominals types nominals.now →
        Finds types store nodes name.now p (scopes.nominal_named (place_of place) (nominals_in types nominals.now) name.now p) result }
{
    match place {
        Place::Proof => match nominal_number(name) {
            Some(number) => match settled_nominal(nominals, number) {
                Some(found) => Some(found),
                None => Some(Named::Free),
            },
            None => None,
        },
        Place::Clause | Place::Elsewhere => None,
    }
}

/// What a name stands for under bound names, of which the innermost is the last; nothing where it is unknown.
pub fn resolve_name(
    types: &TypeTable,
    store: &Store,
    prop: TypeId,
    scope: &Scope,
    bound: &[Bound],
    name: &Name,
) -> Option<Named>
    requires prop_held { HoldsType types.now prop }
    requires prop { type_of types.now prop ≡ plain.prop }
    requires scope { HoldsScope types.now store.now scope.now }
    ensures { (p : ℕ) → Finds types.now store.now (nodes_in bound.now) name.now p (scopes.head_named (scope_of types.now store.now scope.now) (names_in bound.now) name.now p) result }
{
    if let Some(found) = bound_at(bound, name) {
        return Some(found);
    }
    if let Some(found) = truth_named(prop, name) {
        return Some(found);
    }
    if let Some(found) = clause_variable(scope.place, name) {
        return Some(found);
    }
    if let Some(found) = variable_named(types, store, &scope.variables, name) {
        return Some(found);
    }
    if let Some(found) = constant_named(types, name) {
        return Some(found);
    }
    nominal_named(scope.place, &scope.nominals, name)
}
