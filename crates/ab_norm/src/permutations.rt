//! Terms with their nominal constants permuted.
ghost use Rattle.std.specs.Prelude.{◌≡◌, List, map, IfOk, All};
ghost use Rattle.ab_term.specs.Types.{Ty};
ghost use Rattle.ab_term.specs.Names as tree;
ghost use Rattle.ab_term.specs.Names.{moved_by, IsPermutationTable};
ghost use Rattle.ab_store.specs.ab_types.specs.Entries.{Table};
ghost use Rattle.ab_store.specs.ab_types.specs.Sound.{IsTable};
ghost use Rattle.ab_store.specs.Trees.{Contents, Holds, head_reading, tree_of};
ghost use Rattle.ab_store.specs.Reading.{reading};
ghost use Rattle.ab_store.specs.Naming.{HoldsHead, HeadIsTyped, IsTypedBy, IsTerm};
ghost use Rattle.ab_norm.specs.NodeGrowth.{AddsTypedTerms};
ghost use Rattle.ab_norm.specs.Nominals.{pairs_of, HoldsPairs};

use crate::memo::Memo;
use crate::nominal::{Nominal, Permutation, Swap, Swaps};
use crate::permutation_tables::moved_constant;
use crate::resolved_copies::copy_resolved;
use crate::term_walks::{Change, walk};
use ab_store::types::laws::has_unique_ids;
use ab_store::types::{Steps, TypeTable};
use ab_store::{Head, Store, TermId};
use std::alloc::{AllocError, Global};

/// The term with its nominal constants permuted. A term that holds none is answered as it stands.
pub fn permute(
    alloc: Global,
    types: &TypeTable,
    store: &mut Store,
    id: TermId,
    by: &Permutation,
) -> Result<TermId, AllocError>
    requires store { IsTypedBy types.now store.old }
    requires id { Holds store.old id }
    requires pairs { HoldsPairs types.now by.now.pairs }
    requires table { IsPermutationTable (pairs_of types.now by.now.pairs) }
    ensures held { IfOk result (λ r. Holds store.new r) }
    ensures reads { IfOk result (λ r.
        reading types.now store.new r ≡ tree.permute (pairs_of types.now by.now.pairs) (reading types.now store.old id)) }
    ensures term { IfOk result (λ r. (G : List Ty) (A : Ty) → IsTerm types.now store.old G id A → IsTerm types.now store.new G r A) }
    ensures adds { AddsTypedTerms types.now store.old store.new }
{
    has_unique_ids(types);
    let pairs = by.pairs.copy(alloc)?;
    let mut steps = Steps::<()>::new();
    let plain = copy_resolved(alloc, types, store, id, &mut steps)?;
    rename(alloc, types, store, plain, pairs)
}

/// The term with what the pairs make of its nominal constants.
fn rename(
    alloc: Global,
    types: &TypeTable,
    store: &mut Store,
    id: TermId,
    pairs: Swaps,
) -> Result<TermId, AllocError>
    requires types { IsTable types.now }
    requires store { IsTypedBy types.now store.old }
    requires id { Holds store.old id }
    requires pairs { HoldsPairs types.now pairs }
    ensures held { IfOk result (λ r. Holds store.new r) }
    ensures reads { IfOk result (λ r.
        tree_of types.now store.new r ≡ tree.rename (moved_by (pairs_of types.now pairs)) (tree_of types.now store.old id)) }
    ensures adds { AddsTypedTerms types.now store.old store.new }
{
    let mut steps = Steps::<()>::new();
    let mut memo = Memo::new(alloc);
    let change = Change::Rename(pairs);
    walk(alloc, types, store, &change, 0, id, &mut memo, &mut steps)
}

/// The head, or what the table makes of it where it is a nominal constant.
pub(crate) fn rename_head(head: Head, table: &[Swap]) -> Head
    ensures held { (store : Contents) → HoldsHead store head → HoldsHead store result }
    ensures typed { (types : Table) → IsTable types → HoldsPairs types table.now → HeadIsTyped types head → HeadIsTyped types result }
    ensures reads { (types : Table) (store : Contents) → IsTable types → HoldsPairs types table.now → HeadIsTyped types head →
        head_reading types store result ≡ tree.rename_head (moved_by (pairs_of types table.now)) (head_reading types store head) }
{
    match head {
        Head::Nominal(number, ty) => {
            let to = moved_constant(table, Nominal { number, ty });
            Head::Nominal(to.number, to.ty)
        }
        Head::Const(_) | Head::Logic(_) | Head::Cell(_) | Head::Index(_) => head,
    }
}
