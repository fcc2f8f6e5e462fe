//! The table of kinds, constants and types.
ghost use Rattle.std.specs.Prelude.{◌≡◌, ◌↔◌, ℕ, ◌+◌, ◌-◌, ◌<◌, ◌≤◌, ◌∷◌, ◌++◌, [], length, map, take, IfOk, OnOk, OnErr, IfSome, IsErrOf, IsNone, IsTrue, Contains, Some};
ghost use Rattle.ab_term.specs.Types as plain;
ghost use Rattle.ab_term.specs.Constants.{constant, names};
ghost use Rattle.ab_types.specs.Entries.{Table, kinds, types, constants, a_kind, a_type, a_constant, signature, first_entries, IsExtendedBy, FindsOrAdds};
ghost use Rattle.ab_types.specs.Ids.{HoldsKind, HoldsType, HoldsConstant, HoldsView, kind_of, type_of, constant_of, seen_type};
ghost use Rattle.ab_types.specs.LastTypes.{types_up_to, LosesTypes, HasEnough, EndsSpare};
ghost use Rattle.ab_types.specs.Sound.{IsTable};

use crate::builtin::{first_constants, first_kinds, first_order, first_types};
use crate::columns::{Sort, add_constant, add_kind, drop_row, put_type};
use crate::fault::TableFault;
use crate::ids::{ConstId, KindId, TypeId, TypeView};
use crate::steps::Steps;
use ab_name::Name;
use indexmap::{IndexMap, IndexSet};
use std::alloc::{AllocError, Global};
use std::marker::Model;

/// Kinds, constants and types, in the order in which they came. Types are kept once each, so that equal
/// types have equal ids.
#[derive(Drop)]
pub struct TypeTable {
    kinds: IndexSet<Name>,
    types: IndexSet<TypeView>,
    constants: IndexMap<Name, TypeId>,
    /// The sort of each entry.
    order: Vec<Sort>,
}

impl Model for TypeTable {
    ghost use Rattle.ab_types.specs.Entries.{Table};
    ghost use Rattle.ab_types.specs.Codes.{table_code};

    ghost Value = { Table };

    ghost coded = { table_code };

    ghost use Rattle.ab_types.specs.Layout.{table_of, IsKept};

    ghost view = { λ t. table_of t.order.items t.kinds.keys t.types.keys t.constants.entries };

    ghost invariant = { λ t. IsKept t.order.items t.kinds.keys t.types.keys t.constants.entries };
}

impl TypeTable {
    /// A table with the built-in kinds and constants, and their types.
    pub fn new(alloc: Global) -> Result<TypeTable, AllocError>
        ensures entries { IfOk result (λ table. table ≡ first_entries) }
        ensures table { IfOk result IsTable }
    {
        Ok(TypeTable {
            kinds: first_kinds(alloc)?,
            types: first_types(alloc)?,
            constants: first_constants(alloc)?,
            order: first_order(alloc)?,
        })
    }

    /// The type of a kind, which gets an id where it has none.
    pub fn base(&mut self, kind: &Name) -> Result<TypeId, TableFault>
        ensures held { IfOk result (λ id. HoldsType self.new id) }
        ensures id { IfOk result (λ id. type_of self.new id ≡ plain.kind kind.now) }
        ensures entries { OnOk result (FindsOrAdds self.old (a_type (plain.kind kind.now)) self.new) }

        ensures unknown { IsErrOf result TableFault.UnknownKind ↔ ¬ Contains (kinds self.old) kind.now }
        ensures no_clash { ¬ IsErrOf result TableFault.Clash }
        ensures err { OnErr result (self.new ≡ self.old) }

        ensures kept { IsExtendedBy self.old self.new }
        ensures table { IsTable self.new }
    {
        match self.kinds.get_index_of(kind) {
            None => Err(TableFault::UnknownKind),
            Some(place) => Ok(self.intern(TypeView::Base(KindId(place)))?),
        }
    }

    /// The type of functions from one type to another, which gets an id where it has none.
    pub fn arrow(&mut self, from: TypeId, to: TypeId) -> Result<TypeId, AllocError>
        requires from_held { HoldsType self.old from }
        requires to_held { HoldsType self.old to }

        ensures held { IfOk result (λ id. HoldsType self.new id) }
        ensures id { IfOk result (λ id. type_of self.new id ≡ plain.arrow (type_of self.old from) (type_of self.old to)) }
        ensures entries { OnOk result (FindsOrAdds self.old (a_type (plain.arrow (type_of self.old from) (type_of self.old to))) self.new) }
        ensures err { OnErr result (self.new ≡ self.old) }

        ensures kept { IsExtendedBy self.old self.new }
        ensures table { IsTable self.new }
    {
        self.intern(TypeView::Arrow(from, to))
    }

    /// The type that is seen so, which gets an id where it has none.
    fn intern(&mut self, view: TypeView) -> Result<TypeId, AllocError>
        requires { HoldsView self.old view }

        ensures held { IfOk result (λ id. HoldsType self.new id) }
        ensures id { IfOk result (λ id. type_of self.new id ≡ seen_type self.old view) }
        ensures entries { OnOk result (FindsOrAdds self.old (a_type (seen_type self.old view)) self.new) }
        ensures err { OnErr result (self.new ≡ self.old) }

        ensures kept { IsExtendedBy self.old self.new }
        ensures table { IsTable self.new }
    {
        Ok(TypeId(put_type(&mut self.types, &mut self.order, view)?))
    }

    /// How the type is made.
    pub fn view(&self, ty: TypeId) -> TypeView
        requires { HoldsType self.now ty }
        ensures held { HoldsView self.now result }
        ensures reads { type_of self.now ty ≡ seen_type self.now result }
        ensures table { IsTable self.now }
    {
        *self.types.get_index(ty.0).unwrap()
    }

    /// The name of the kind.
    pub fn kind_name(&self, id: KindId) -> &Name
        requires { HoldsKind self.now id }
        ensures name { result.now ≡ kind_of self.now id }
        ensures table { IsTable self.now }
    {
        self.kinds.get_index(id.0).unwrap()
    }

    /// Declares a kind.
    pub fn declare_kind(&mut self, name: Name) -> Result<KindId, TableFault>
        ensures held { IfOk result (λ id. HoldsKind self.new id) }
        ensures id { IfOk result (λ id. kind_of self.new id ≡ name) }
        ensures entries { OnOk result (self.new ≡ self.old ++ a_kind name ∷ []) }

        ensures clash { IsErrOf result TableFault.Clash ↔ Contains (kinds self.old) name }
        ensures no_unknown { ¬ IsErrOf result TableFault.UnknownKind }
        ensures err { OnErr result (self.new ≡ self.old) }

        ensures kept { IsExtendedBy self.old self.new }
        ensures table { IsTable self.new }
    {
        if self.kinds.contains(&name) {
            return Err(TableFault::Clash);
        }
        Ok(KindId(add_kind(&mut self.kinds, &mut self.order, name)?))
    }

    /// Declares a constant of the type.
    pub fn declare_const(&mut self, name: Name, ty: TypeId) -> Result<ConstId, TableFault>
        requires { HoldsType self.old ty }

        ensures held { IfOk result (λ id. HoldsConstant self.new id) }
        ensures id { IfOk result (λ id. constant_of self.new id ≡ constant name (type_of self.old ty)) }
        ensures entries { OnOk result (self.new ≡ self.old ++ a_constant (constant name (type_of self.old ty)) ∷ []) }

        ensures clash { IsErrOf result TableFault.Clash ↔ Contains (names (constants self.old)) name }
        ensures no_unknown { ¬ IsErrOf result TableFault.UnknownKind }
        ensures err { OnErr result (self.new ≡ self.old) }

        ensures kept { IsExtendedBy self.old self.new }
        ensures table { IsTable self.new }
    {
        if self.constants.contains_key(&name) {
            return Err(TableFault::Clash);
        }
        Ok(ConstId(add_constant(&mut self.constants, &mut self.order, name, ty)?))
    }

    /// The constant of that name.
    pub fn look(&self, name: &Name) -> Option<ConstId>
        ensures held { IfSome result (λ id. HoldsConstant self.now id) }
        ensures name { IfSome result (λ id. (constant_of self.now id).name ≡ name.now) }
        ensures reads { IfSome result (λ id. signature self.now name.now ≡ Some (constant_of self.now id).type) }
        ensures absent { IsNone result ↔ ¬ Contains (names (constants self.now)) name.now }
        ensures table { IsTable self.now }
    {
        match self.constants.get_index_of(name) {
            None => None,
            Some(place) => Some(ConstId(place)),
        }
    }

    /// The type of the constant.
    pub fn const_type(&self, id: ConstId) -> TypeId
        requires { HoldsConstant self.now id }
        ensures held { HoldsType self.now result }
        ensures reads { type_of self.now result ≡ (constant_of self.now id).type }
        ensures signature { signature self.now (constant_of self.now id).name ≡ Some (type_of self.now result) }
        ensures table { IsTable self.now }
    {
        *self.constants.get_index(id.0).unwrap().1
    }

    /// The name of the constant.
    pub fn const_name(&self, id: ConstId) -> &Name
        requires { HoldsConstant self.now id }
        ensures name { result.now ≡ (constant_of self.now id).name }
        ensures table { IsTable self.now }
    {
        self.constants.get_index(id.0).unwrap().0
    }

    /// How many entries the table has: kinds, types and constants.
    pub fn len(&self) -> usize
        ensures len { result ≡ length self.now }
        ensures table { IsTable self.now }
    {
        self.order.len()
    }

    /// How many kinds and constants there are.
    pub fn count_declared(&self) -> usize
        ensures { result ≡ length (kinds self.now) + length (constants self.now) }
    {
        self.kinds.len() + self.constants.len()
    }

    /// Drops the entries behind the first `len`, and counts a step for each. Ids of the others stay as they are.
    pub fn cut_to<L>(&mut self, len: usize, steps: &mut Steps<L>)
        requires begins { length first_entries ≤ len }
        requires within { len ≤ length self.old }
        ensures entries { self.new ≡ take len self.old }
        ensures front { IsExtendedBy self.new self.old }
        ensures steps { steps.new ≡ steps.old + (length self.old - len) }
        ensures table { IsTable self.new }
    {
        while self.len() > len {
            self.drop_last();
            steps.tick();
        }
    }

    /// Drops types at the end, and counts a step for each: all that stand behind the first `len` entries, behind each kind and
    /// each constant, and behind the named type. Ids of the others stay as they are.
    pub fn drop_types<L>(&mut self, len: usize, named: Option<TypeId>, steps: &mut Steps<L>)
        requires begins { length first_entries ≤ len }
        requires enough { HasEnough len named self.old }
        ensures loses { LosesTypes self.old self.new }
        ensures enough { HasEnough len named self.new }
        ensures least { (t : Table) → LosesTypes self.old t → HasEnough len named t → length self.new ≤ length t }
        ensures steps { steps.new + length self.new ≡ steps.old + length self.old }
        ensures table { IsTable self.new }
    {
        while self.ends_spare(len, named) {
            self.drop_last();
            steps.tick();
        }
    }

    /// Whether the last entry is a type behind the first `len` entries and behind the named type.
    fn ends_spare(&self, len: usize, named: Option<TypeId>) -> bool
        requires { types_up_to named ≤ length (types self.now) }
        ensures spare { IsTrue result ↔ EndsSpare len named self.now }
        ensures table { IsTable self.now }
    {
        if self.order.len() <= len {
            return false;
        }
        match self.order.last() {
            Some(Sort::Ty) => match named {
                None => true,
                Some(ty) => self.types.len() > ty.0 + 1,
            },
            Some(Sort::Kind) => false,
            Some(Sort::Constant) => false,
            None => false,
        }
    }

    /// Drops the last entry.
    fn drop_last(&mut self)
        requires { length first_entries < length self.old }
        ensures entries { self.new ≡ take (length self.old - 1) self.old }
        ensures table { IsTable self.new }
    {
        drop_row(
            &mut self.kinds,
            &mut self.types,
            &mut self.constants,
            &mut self.order,
        );
    }
}
