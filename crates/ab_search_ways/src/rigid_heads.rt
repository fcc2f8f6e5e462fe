//! Heads of formulas that stay, whatever is put in for variables and whatever nominal constants become.
ghost use Rattle.std.specs.Prelude.{◌≡◌, ◌↔◌, true, List, Contains, cond, Some, None, IfSome, codes};
ghost use Rattle.std.specs.Option.{option_map};
ghost use Rattle.ab_term.specs.Terms.{Read};
ghost use Rattle.ab_norm.specs.ab_types.specs.Entries.{Table};
ghost use Rattle.ab_norm.specs.ab_store.specs.declared.node.CellEntry.{CellEntry};
ghost use Rattle.ab_norm.specs.ab_store.specs.Trees.{Holds, tree_of, head_in};
ghost use Rattle.ab_norm.specs.ab_store.specs.Naming.{IsTypedBy, HeadIsTyped};
ghost use Rattle.ab_unifiers.specs.Unification.{apart, Solves};
ghost use Rattle.ab_formulas.specs.Declarations.{Declarations};
ghost use Rattle.ab_formulas.specs.Marks.{erased, making_of};
ghost use Rattle.ab_logic.specs.Worlds.{IsWorld, Holds as HoldsIn, read};
ghost use Rattle.ab_search_trees.specs.Goals.{Goal, Now};
ghost use Rattle.ab_search_trees.specs.Ways.{Way, by_hypothesis};
ghost use Rattle.ab_search_trees.specs.Tree.{problem_of};
ghost use Rattle.ab_search_ways.specs.RigidHeads.{is_rigid, rigid_head, have_different_heads};
ghost use Rattle.ab_search_ways.specs.MarkedHeads.{makes_mark};

use ab_logic::World;
use ab_norm::store::{Head, Logical, Node, Store, TermId};
use ab_norm::types::laws::has_unique_ids;

/// Where the heads of a hypothesis and of the conclusion differ, each way by the hypothesis is apart: no map of its constants
/// makes the two equal.
pub fn different_heads_are_apart()
    ensures { (D : Declarations) (now : Now) (g : Goal) (B : Read) (w : Way) → have_different_heads B g.conclusion ≡ true →
        Contains (by_hypothesis D now g B) w → Solves (codes "x") (problem_of w) apart }
{}

/// Whether the two are the same.
fn are_same(a: Head, b: Head) -> bool
    ensures { (result ≡ true) ↔ (a ≡ b) }
{
    a == b
}

/// Whether the head is a constant of the signature or of the logic.
fn is_rigid(head: Head) -> bool
    ensures { (types : Table) (cells : List CellEntry) → result ≡ is_rigid (head_in types cells head) }
{
    match head {
        Head::Const(_) | Head::Logic(_) => true,
        Head::Nominal(_, _) | Head::Cell(_) | Head::Index(_) => false,
    }
}

/// Whether the head is a mark.
fn is_mark(head: Head) -> bool
    ensures { (types : Table) (cells : List CellEntry) → result ≡ makes_mark (making_of (head_in types cells head)) }
{
    match head {
        Head::Logic(Logical::Star(_)) => true,
        Head::Logic(Logical::At(_)) => true,
        Head::Logic(Logical::Plus(_)) => true,
        Head::Logic(Logical::Hash(_)) => true,
        _ => false,
    }
}

/// The head, where it is rigid.
fn if_rigid(head: Head) -> Option<Head>
    ensures reads { (types : Table) (cells : List CellEntry) → option_map (head_in types cells) result ≡ cond (is_rigid (head_in types cells head)) (Some (head_in types cells head)) None }
    ensures typed { (types : Table) → HeadIsTyped types head → IfSome result (HeadIsTyped types) }
{
    if is_rigid(head) { Some(head) } else { None }
}

/// The head of the term, where it is rigid.
fn rigid_head(store: &Store, term: TermId) -> Option<Head>
    requires { Holds store.now term }
    ensures reads { (types : Table) → option_map (head_in types store.now.cells) result ≡ rigid_head (tree_of types store.now term) }
    ensures typed { (types : Table) → IsTypedBy types store.now → IfSome result (HeadIsTyped types) }
{
    match store.view(term) {
        Node::Lam(_, _, _) => None,
        Node::Spine(head, _) => if_rigid(*head),
    }
}

/// The same of the formula without its mark.
fn unmarked_head(store: &Store, formula: TermId) -> Option<Head>
    requires { Holds store.now formula }
    ensures reads { (types : Table) → option_map (head_in types store.now.cells) result ≡ rigid_head (erased (tree_of types store.now formula)) }
    ensures typed { (types : Table) → IsTypedBy types store.now → IfSome result (HeadIsTyped types) }
{
    match store.view(formula) {
        Node::Lam(_, _, _) => None,
        Node::Spine(head, args) => {
            let args = args.as_slice();
            if is_mark(*head) && !args.is_empty() {
                rigid_head(store, args[0])
            } else {
                if_rigid(*head)
            }
        }
    }
}

/// Whether the heads of the two formulas, both without marks, are constants of the signature or of the logic, and differ.
pub fn have_different_heads(world: &World, given: TermId, asked: TermId) -> bool
    requires world { IsWorld world.now }
    requires given { HoldsIn world.now given }
    requires asked { HoldsIn world.now asked }
    ensures { result ≡ have_different_heads (read world.now given) (read world.now asked) }
{
    has_unique_ids(&world.types);
    let Some(one) = unmarked_head(&world.store, given) else {
        return false;
    };
    let Some(other) = unmarked_head(&world.store, asked) else {
        return false;
    };
    !are_same(one, other)
}
