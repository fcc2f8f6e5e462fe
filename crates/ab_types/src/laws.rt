//! Laws of tables.
ghost use Rattle.std.specs.Prelude.{◌≡◌, take, ℕ};
ghost use Rattle.ab_term.specs.Typing.{IsExtendedBy as HasMoreConstants};
ghost use Rattle.ab_types.specs.Entries.{Table, signature, IsExtendedBy};
ghost use Rattle.ab_types.specs.Ids.{HoldsKind, HoldsType, HoldsConstant, kind_of, type_of, constant_of};
ghost use Rattle.ab_types.specs.Sound.{IsTable};

use crate::ids::{ConstId, KindId, TypeId};
use crate::table::TypeTable;

/// What a table's ids stand for stays the same when entries come behind it.
pub fn extension_keeps_readings()
    ensures kinds { (old new : Table) → IsExtendedBy old new → (id : KindId) → HoldsKind old id →
        HoldsKind new id × (kind_of new id ≡ kind_of old id) }
    ensures types { (old new : Table) → IsExtendedBy old new → (id : TypeId) → HoldsType old id →
        HoldsType new id × (type_of new id ≡ type_of old id) }
    ensures constants { (old new : Table) → IsExtendedBy old new → (id : ConstId) → HoldsConstant old id →
        HoldsConstant new id × (constant_of new id ≡ constant_of old id) }
    ensures signature { (old new : Table) → IsExtendedBy old new → HasMoreConstants (signature old) (signature new) }
{}

/// To be extended by is an order, and the front of a table is extended by it.
pub fn extension_is_an_order()
    ensures reflexive { (table : Table) → IsExtendedBy table table }
    ensures transitive { (a b c : Table) → IsExtendedBy a b → IsExtendedBy b c → IsExtendedBy a c }
    ensures front { (len : ℕ) (table : Table) → IsExtendedBy (take len table) table }
{}

/// In a table equal types have equal ids, and equal names too.
pub fn ids_are_unique()
    ensures kinds { (table : Table) → IsTable table → (a b : KindId) → HoldsKind table a → HoldsKind table b →
        kind_of table a ≡ kind_of table b → a ≡ b }
    ensures types { (table : Table) → IsTable table → (a b : TypeId) → HoldsType table a → HoldsType table b →
        type_of table a ≡ type_of table b → a ≡ b }
    ensures constants { (table : Table) → IsTable table → (a b : ConstId) → HoldsConstant table a → HoldsConstant table b →
        (constant_of table a).name ≡ (constant_of table b).name → a ≡ b }
{}

/// The same of a table at hand: one call where a caller compares ids in place of what they stand for.
pub fn has_unique_ids(types: &TypeTable)
    ensures table { IsTable types.now }
    ensures kinds { (a b : KindId) → HoldsKind types.now a → HoldsKind types.now b →
        kind_of types.now a ≡ kind_of types.now b → a ≡ b }
    ensures types { (a b : TypeId) → HoldsType types.now a → HoldsType types.now b →
        type_of types.now a ≡ type_of types.now b → a ≡ b }
    ensures constants { (a b : ConstId) → HoldsConstant types.now a → HoldsConstant types.now b →
        (constant_of types.now a).name ≡ (constant_of types.now b).name → a ≡ b }
{
    let _ = types.len();
}
