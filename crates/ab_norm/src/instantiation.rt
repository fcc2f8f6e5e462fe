//! Arguments for the outermost bound names of a term.
ghost use Rattle.std.specs.Prelude.{◌≡◌, ◌<◌, ◌≤◌, List, map, IfOk, All};
ghost use Rattle.ab_term.specs.Types.{Ty};
ghost use Rattle.ab_term.specs.Substitution.{instance, instance_by_all};
ghost use Rattle.ab_store.specs.ab_types.specs.Sound.{IsTable};
ghost use Rattle.ab_store.specs.Trees.{Holds, tree_of};
ghost use Rattle.ab_store.specs.Reading.{reading};
ghost use Rattle.ab_store.specs.Naming.{IsTypedBy, IsTerm};
ghost use Rattle.ab_norm.specs.NodeGrowth.{AddsTerms};
ghost use Rattle.ab_norm.specs.TypedArguments.{AreTaken};

use crate::memo::Memo;
use crate::term_walks::{Change, walk};
use ab_store::types::laws::has_unique_ids;
use ab_store::types::{Steps, TypeTable};
use ab_store::{Node, Store, TermId};
use std::alloc::{AllocError, Global};

/// The term with the arguments for its outermost bound names, one after another. Heads that become
/// abstractions are applied at once. Of terms that are well-typed, the reading is the instance of the readings, whatever
/// cells are bound.
pub fn instantiate<L>(
    alloc: Global,
    types: &TypeTable,
    store: &mut Store,
    lam: TermId,
    args: &[TermId],
    steps: &mut Steps<L>,
) -> Result<TermId, AllocError>
    requires store { IsTypedBy types.now store.old }
    requires lam { Holds store.old lam }
    requires args { All (Holds store.old) args.now }
    ensures held { IfOk result (λ r. Holds store.new r) }
    ensures tree { IfOk result (λ r.
        tree_of types.now store.new r
        ≡ instance_by_all (tree_of types.now store.old lam) (map (tree_of types.now store.old) args.now)) }
    ensures reads { IfOk result (λ r. (G : List Ty) (A B : Ty) → IsTerm types.now store.old G lam A →
        AreTaken types.now store.old G args.now A B →
        reading types.now store.new r
        ≡ instance_by_all (reading types.now store.old lam) (map (reading types.now store.old) args.now)) }
    ensures term { IfOk result (λ r. (G : List Ty) (A B : Ty) → IsTerm types.now store.old G lam A →
        AreTaken types.now store.old G args.now A B → IsTerm types.now store.new G r B) }
    ensures typed { IsTypedBy types.now store.new }
    ensures adds { AddsTerms store.old store.new }
    ensures steps { steps.old < steps.new }
{
    has_unique_ids(types);
    steps.tick();
    let mut here = lam;
    for arg in args {
        here = apply(alloc, types, store, here, *arg, steps)?;
    }
    Ok(here)
}

/// The term with the argument for its outermost bound name.
fn apply<L>(
    alloc: Global,
    types: &TypeTable,
    store: &mut Store,
    term: TermId,
    arg: TermId,
    steps: &mut Steps<L>,
) -> Result<TermId, AllocError>
    requires types { IsTable types.now }
    requires store { IsTypedBy types.now store.old }
    requires term { Holds store.old term }
    requires arg { Holds store.old arg }
    ensures adds { AddsTerms store.old store.new }
    ensures held { IfOk result (λ r. Holds store.new r) }
    ensures reads { IfOk result (λ r.
        tree_of types.now store.new r ≡ instance (tree_of types.now store.old term) (tree_of types.now store.old arg)) }
    ensures steps { steps.old ≤ steps.new }
{
    match store.view(term) {
        Node::Lam(ty, _, body) => {
            let put = Change::Put(*ty, arg);
            let body = *body;
            let mut memo = Memo::new(alloc);
            walk(alloc, types, store, &put, 0, body, &mut memo, steps)
        }
        Node::Spine(_, _) => Ok(term),
    }
}
