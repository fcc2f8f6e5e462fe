//! Laws of readings, of growing stores and of marks.
ghost use Rattle.std.specs.Prelude.{◌≡◌, [], List, map};
ghost use Rattle.ab_term.specs.Types.{Ty};
ghost use Rattle.ab_term.specs.Terms.{spine, terms_of};
ghost use Rattle.ab_term.specs.Typing.{HasType};
ghost use Rattle.ab_term.specs.Variables.{image_by, variables};
ghost use Rattle.ab_types.specs.Entries.{Table, signature, IsExtendedBy as IsPartOf};
ghost use Rattle.ab_store.specs.Trees.{Contents, Holds, tree_of, head_reading};
ghost use Rattle.ab_store.specs.Reading.{reading, value_of, given};
ghost use Rattle.ab_store.specs.Bindings.{cells_of, IsResolved, AreInOrder};
ghost use Rattle.ab_store.specs.Growth.{IsExtendedBy};
ghost use Rattle.ab_store.specs.Marks.{HasMark, KeepsMark, at_mark};
ghost use Rattle.ab_store.specs.Naming.{IsTypedBy, IsTerm};

use crate::mark::Mark;
use crate::node::{CellId, Head, TermId};

/// A table may grow under a store: the store is typed by it as before, each id reads as before, and is a term as before.
pub fn larger_tables_keep_readings()
    ensures typed { (types more : Table) (store : Contents) → IsPartOf types more → IsTypedBy types store → IsTypedBy more store }
    ensures readings { (types more : Table) (store : Contents) → IsPartOf types more → IsTypedBy types store →
        (t : TermId) → Holds store t → reading more store t ≡ reading types store t }
    ensures trees { (types more : Table) (store : Contents) → IsPartOf types more → IsTypedBy types store →
        (t : TermId) → Holds store t → tree_of more store t ≡ tree_of types store t }
    ensures terms { (types more : Table) (store : Contents) → IsPartOf types more → IsTypedBy types store →
        (G : List Ty) (t : TermId) (A : Ty) → IsTerm types store G t A → IsTerm more store G t A }
{}

/// Growth is growth one step after another, and what is a term stays one.
pub fn growth_is_an_order()
    ensures reflexive { (store : Contents) → IsExtendedBy store store }
    ensures transitive { (r s t : Contents) → IsExtendedBy r s → IsExtendedBy s t → IsExtendedBy r t }
    ensures terms { (types : Table) (s t : Contents) → IsExtendedBy s t →
        (G : List Ty) (id : TermId) (A : Ty) → IsTerm types s G id A → IsTerm types t G id A }
{}

/// Where no cell is bound, an id reads as its tree, and a head stays when it is given arguments.
pub fn unbound_stores_read_as_trees()
    ensures readings { (store : Contents) → store.bindings ≡ [] →
        (types : Table) (t : TermId) → reading types store t ≡ tree_of types store t }
    ensures given { (store : Contents) → store.bindings ≡ [] → (types : Table) (h : Head) (ts : List TermId) →
        given types store h ts ≡ spine (head_reading types store h) (terms_of (map (reading types store) ts)) }
    ensures resolved { (store : Contents) → store.bindings ≡ [] → (t : TermId) → IsResolved store t }
{}

/// The reading of a term is canonical and of its type.
pub fn terms_read_typed()
    ensures { (types : Table) (store : Contents) → IsTypedBy types store →
        (G : List Ty) (t : TermId) (A : Ty) → IsTerm types store G t A → HasType (signature types) G (reading types store t) A }
{}

/// The reading of a term is its tree with each bound cell replaced, all at once, by what its own term reads as. Where no
/// bound cell stands in a term it is the tree itself, whatever the type.
pub fn readings_are_images()
    ensures image { (types : Table) (store : Contents) → IsTypedBy types store → AreInOrder store →
        (G : List Ty) (t : TermId) (A : Ty) → IsTerm types store G t A →
        reading types store t ≡ image_by (value_of types store) (tree_of types store t) }
    ensures resolved { (types : Table) (store : Contents) (t : TermId) → IsResolved store t →
        reading types store t ≡ tree_of types store t }
    ensures cells { (types : Table) (store : Contents) (t : TermId) →
        map (λ x. x.name) (variables (tree_of types store t)) ≡ map (λ (c : CellId). c.0) (cells_of store t) }
{}

/// What a mark counts stays typed: cut by the mark a store is typed by each table that typed it when the mark was made,
/// so also by a table that is cut to the length that it had then. Marks that are kept twice are kept.
pub fn marked_stores_stay_typed()
    ensures typed { (types : Table) (store : Contents) (m : Mark) → HasMark store m → IsTypedBy types store → IsTypedBy types (at_mark store m) }
    ensures kept { (types : Table) (old new : Contents) (m : Mark) → KeepsMark old new m →
        IsTypedBy types (at_mark old m) → IsTypedBy types (at_mark new m) }
    ensures readings { (types : Table) (old new : Contents) (m : Mark) → KeepsMark old new m →
        (t : TermId) → reading types (at_mark new m) t ≡ reading types (at_mark old m) t }
    ensures transitive { (r s t : Contents) (m : Mark) → KeepsMark r s m → KeepsMark s t m → KeepsMark r t m }
{}
