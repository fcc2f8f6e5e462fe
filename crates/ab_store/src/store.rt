//! A store of terms.
ghost use Rattle.std.specs.Prelude.{◌≡◌, ◌⊎◌, get_or, ℕ, ◌+◌, ◌-◌, ◌≤◌, ◌<◌, [], ◌∷◌, ◌++◌, length, map, take, IfOk, OnOk, OnErr, List, None, false, ◌↔◌, All};
ghost use Rattle.ab_term.specs.Types.{Ty};
ghost use Rattle.ab_term.specs.Terms.{lam, spine, terms_of};
ghost use Rattle.ab_term.specs.Reach as tree;
ghost use Rattle.ab_term.specs.Names.{support};
ghost use Rattle.ab_term.specs.Variables.{image, variables, one_by_one};
ghost use Rattle.ab_types.specs.Entries.{Table, types, constants};
ghost use Rattle.ab_types.specs.LastTypes.{types_up_to};
ghost use Rattle.ab_types.specs.Ids.{type_of, HoldsType};
ghost use Rattle.ab_store.specs.Trees.{Contents, Holds, HoldsCell, cell_of, tree_of, head_reading, node_tree};
ghost use Rattle.ab_store.specs.Reading.{same_number, binding_of, cell_variable, pairs, reading, given, node_reading};
ghost use Rattle.ab_store.specs.Bindings.{StandsIn, IsUnbound, IsResolved, AreInOrder};
ghost use Rattle.ab_store.specs.Growth.{IsExtendedBy};
ghost use Rattle.ab_store.specs.Marks.{HasMark, KeepsMark, IsNoLater, at_mark, to_term, to_cell, cells_in_node, no_node};
ghost use Rattle.ab_store.specs.Naming.{HoldsHead, NodeNames, HeadIsTyped, NodeIsTyped, IsTypedBy, IsTerm};
ghost use Rattle.ab_store.specs.NamedTypes.{TypesBehind, type_in_node, type_in_cell, IsLastTold};
ghost use Rattle.ab_store.specs.Layout.{HoldOf, HoldOfAll};

use crate::facts::Facts;
use crate::list::Arguments;
use crate::mark::Mark;
use crate::node::{Binding, CellEntry, CellId, Head, Node, TermId};
use ab_types::name::Name;
use ab_types::{Steps, TypeId, later};
use std::alloc::{AllocError, Global};
use std::marker::Model;

/// A node, with what is known of its term.
#[derive(Drop)]
struct NodeEntry {
    node: Node,
    facts: Facts,
}

/// A cell, with the term that it is bound to.
#[derive(Drop)]
struct Slot {
    cell: CellEntry,
    binding: Option<TermId>,
}

impl Slot {
    /// The same cell, unbound.
    fn unbound_slot(&self, alloc: Global) -> Result<Slot, AllocError>
        ensures cell { IfOk result (λ slot. slot.cell ≡ self.now.cell) }
        ensures unbound { IfOk result (λ slot. slot.binding ≡ None) }
    {
        let hint = self.cell.hint.copy(alloc)?;
        let ty = self.cell.ty;
        Ok(Slot {
            cell: CellEntry { hint, ty },
            binding: None,
        })
    }
}

/// The same cells, unbound.
fn all_unbound(alloc: Global, slots: &[Slot]) -> Result<Vec<Slot>, AllocError>
    ensures cells { IfOk result (λ made. map (λ s. s.cell) made.items ≡ map (λ s. s.cell) slots.now) }
    ensures unbound { IfOk result (λ made. All (λ s. s.binding ≡ None) made.items) }
{
    let mut made = Vec::new(alloc);
    for slot in slots {
        made.push(slot.unbound_slot(alloc)?)?;
    }
    Ok(made)
}

/// Terms as shared nodes, the cells that stand in them, and what these are bound to. Nodes and cells are added, and
/// never change; bindings and what was added are taken back to a mark.
#[derive(Drop)]
pub struct Store {
    entries: Vec<NodeEntry>,
    slots: Vec<Slot>,
    /// The bindings, in the order in which they were made.
    trail: Vec<Binding>,
}

impl Model for Store {
    ghost use Rattle.std.specs.Prelude.{◌-◌};
    ghost use Rattle.std.specs.Vec.{vec_len, vec_capacity};
    ghost use Rattle.ab_store.specs.Trees.{Contents};

    ghost Value = { Contents };

    ghost use Rattle.ab_store.specs.Layout.{contents, AreSound};

    ghost view = { λ s. contents s.entries.items s.slots.items s.trail.items (vec_capacity s.trail - vec_len s.trail) };

    ghost invariant = { λ s. AreSound s.entries.items s.slots.items s.trail.items };
}

impl Store {
    /// A store with no term and no cell.
    pub fn new(alloc: Global) -> Store
        ensures nothing { result ≡ record { nodes = []; cells = []; bindings = []; room = 0 } }
        ensures typed { (types : Table) → IsTypedBy types result }
    {
        Store {
            entries: Vec::new(alloc),
            slots: Vec::new(alloc),
            trail: Vec::new(alloc),
        }
    }

    /// A store with the same cells, none of which is bound, and with no term.
    pub fn with_same_cells(&self, alloc: Global) -> Result<Store, AllocError>
        ensures cells { IfOk result (λ store. store ≡ record { nodes = []; cells = self.now.cells; bindings = []; room = 0 }) }
        ensures typed { IfOk result (λ store. (types : Table) → IsTypedBy types self.now → IsTypedBy types store) }
    {
        Ok(Store {
            entries: Vec::new(alloc),
            slots: all_unbound(alloc, &self.slots)?,
            trail: Vec::new(alloc),
        })
    }

    /// An abstraction over the type, with the hint of its binder and its body.
    pub fn lam(&mut self, ty: TypeId, hint: Name, body: TermId) -> Result<TermId, AllocError>
        requires { Holds self.old body }
        ensures held { IfOk result (λ t. Holds self.new t) }
        ensures reads { IfOk result (λ t. (types : Table) →
            reading types self.new t ≡ lam (type_of types ty) hint (reading types self.old body)) }
        ensures tree { IfOk result (λ t. (types : Table) →
            tree_of types self.new t ≡ lam (type_of types ty) hint (tree_of types self.old body)) }
        ensures typed { (types : Table) → IsTypedBy types self.old → HoldsType types ty → IsTypedBy types self.new }
        ensures before { IsExtendedBy self.old self.new }
        ensures cells { self.new.cells ≡ self.old.cells }
        ensures err { OnErr result (self.new ≡ self.old) }
    {
        let facts = self.facts(body).under_binder();
        self.add(Node::Lam(ty, hint, body), facts)
    }

    /// A head with the arguments that it is given. An index that no number of binders reaches is refused
    /// as want of memory.
    pub fn spine(&mut self, head: Head, args: Vec<TermId>) -> Result<TermId, AllocError>
        requires head { HoldsHead self.old head }
        requires args { All (Holds self.old) args.items }
        ensures held { IfOk result (λ t. Holds self.new t) }
        ensures reads { IfOk result (λ t. (types : Table) (G : List Ty) (A : Ty) →
            IsTypedBy types self.old → IsTerm types self.new G t A →
            reading types self.new t ≡ given types self.old head args.items) }
        ensures tree { IfOk result (λ t. (types : Table) →
            tree_of types self.new t
            ≡ spine (head_reading types self.old head) (terms_of (map (tree_of types self.old) args.items))) }
        ensures typed { (types : Table) → IsTypedBy types self.old → HeadIsTyped types head → IsTypedBy types self.new }
        ensures before { IsExtendedBy self.old self.new }
        ensures cells { self.new.cells ≡ self.old.cells }
        ensures err { OnErr result (self.new ≡ self.old) }
    {
        let facts = Facts::of_head(head)?.and(self.facts_of_all(&args));
        self.add(Node::Spine(head, Arguments::from_vec(args)), facts)
    }

    /// A new cell, for terms of the type.
    pub fn cell(&mut self, hint: Name, ty: TypeId) -> Result<CellId, AllocError>
        ensures held { IfOk result (λ c. HoldsCell self.new c) }
        ensures fresh { IfOk result (λ c. ¬ HoldsCell self.old c) }
        ensures hint { IfOk result (λ c. (cell_of self.new c).hint ≡ hint) }
        ensures ty { IfOk result (λ c. (cell_of self.new c).ty ≡ ty) }
        ensures unbound { IfOk result (λ c. IsUnbound self.new c) }
        ensures one { OnOk result (length self.new.cells ≡ length self.old.cells + 1) }
        ensures typed { (types : Table) → IsTypedBy types self.old → HoldsType types ty → IsTypedBy types self.new }
        ensures before { IsExtendedBy self.old self.new }
        ensures nodes { self.new.nodes ≡ self.old.nodes }
        ensures err { OnErr result (self.new ≡ self.old) }
    {
        let place = self.slots.len();
        self.slots.push(Slot {
            cell: CellEntry { hint, ty },
            binding: None,
        })?;
        Ok(CellId(place))
    }

    /// Makes room for that many bindings.
    pub fn reserve(&mut self, bindings: usize) -> Result<(), AllocError>
        ensures room { OnOk result (bindings ≤ self.new.room) }
        ensures nodes { self.new.nodes ≡ self.old.nodes }
        ensures cells { self.new.cells ≡ self.old.cells }
        ensures typed { (types : Table) → IsTypedBy types self.old → IsTypedBy types self.new }
        ensures before { IsExtendedBy self.old self.new }
        ensures err { OnErr result (self.new ≡ self.old) }
    {
        self.trail.reserve(bindings)
    }

    /// Binds an unbound cell to a term of its type, in which it doesn't stand, nor any cell that is bound. Nothing is
    /// counted.
    pub fn bind<L>(&mut self, cell: CellId, term: TermId, steps: &mut Steps<L>)
        requires held { HoldsCell self.old cell }
        requires unbound { IsUnbound self.old cell }
        requires typed { (types : Table) × IsTerm types self.old [] term (type_of types (cell_of self.old cell).ty) }
        requires apart { ¬ StandsIn self.old cell term }
        requires resolved { IsResolved self.old term }
        requires room { 0 < self.old.room }
        ensures reads { (types : Table) (t : TermId) → Holds self.old t →
            reading types self.new t
            ≡ image same_number ((cell_variable types self.old cell, reading types self.old term) ∷ []) (reading types self.old t) }
        ensures bound { self.new.bindings ≡ self.old.bindings ++ record { cell = cell; term = term } ∷ [] }
        ensures nodes { self.new.nodes ≡ self.old.nodes }
        ensures cells { self.new.cells ≡ self.old.cells }
        ensures room { self.new.room + 1 ≡ self.old.room }
        ensures typed { (types : Table) → IsTypedBy types self.old →
            IsTerm types self.old [] term (type_of types (cell_of self.old cell).ty) → IsTypedBy types self.new }
        ensures terms { (types : Table) (G : List Ty) (t : TermId) (A : Ty) → IsTerm types self.old G t A → IsTerm types self.new G t A }
        ensures marks { (m : Mark) → HasMark self.old m → KeepsMark self.old self.new m }
        ensures steps { steps.new ≡ steps.old }
    {
        self.slots[cell.0].binding = Some(term);
        self.trail.push_reserved(Binding { cell, term });
    }

    /// How many bindings, nodes and cells there are.
    pub fn mark(&self) -> Mark
        ensures has { HasMark self.now result }
        ensures bindings { result.bindings ≡ length self.now.bindings }
        ensures nodes { result.nodes ≡ length self.now.nodes }
        ensures cells { result.cells ≡ length self.now.cells }
        ensures reads { (types : Table) (t : TermId) → reading types (at_mark self.now result) t ≡ reading types self.now t }
        ensures typed { (types : Table) → IsTypedBy types self.now → IsTypedBy types (at_mark self.now result) }
    {
        Mark {
            bindings: self.trail.len(),
            nodes: self.entries.len(),
            cells: self.slots.len(),
        }
    }

    /// The mark, or a later one where it takes one to count the term. It stays for a term that the store doesn't hold.
    pub fn mark_to_term(&self, mark: Mark, term: TermId) -> Mark
        ensures held { Holds self.now term → result ≡ to_term mark term }
        ensures absent { ¬ Holds self.now term → result ≡ mark }
    {
        if mark.nodes <= term.0 && term.0 < self.entries.len() {
            Mark {
                bindings: mark.bindings,
                nodes: term.0 + 1,
                cells: mark.cells,
            }
        } else {
            mark
        }
    }

    /// The mark, or a later one where it takes one to count the cell. It stays for a cell that the store doesn't hold.
    pub fn mark_to_cell(&self, mark: Mark, cell: CellId) -> Mark
        ensures held { HoldsCell self.now cell → result ≡ to_cell mark cell }
        ensures absent { ¬ HoldsCell self.now cell → result ≡ mark }
    {
        if mark.cells <= cell.0 && cell.0 < self.slots.len() {
            Mark {
                bindings: mark.bindings,
                nodes: mark.nodes,
                cells: cell.0 + 1,
            }
        } else {
            mark
        }
    }

    /// The second mark, or a later one where it takes one to count the cells that its nodes name: those of the first mark are
    /// known to name only cells that it counts.
    pub fn mark_whole(&self, first: &Mark, second: Mark) -> Mark
        requires first { HasMark self.now first.now }
        requires later { IsNoLater first.now second }
        requires bindings { second.bindings ≡ first.now.bindings }
        requires nodes { second.nodes ≤ length self.now.nodes }
        requires cells { second.cells ≤ length self.now.cells }
        ensures has { HasMark self.now result }
        ensures bindings { result.bindings ≡ second.bindings }
        ensures nodes { result.nodes ≡ second.nodes }
        ensures cells { second.cells ≤ result.cells }
        ensures least { (result.cells ≡ second.cells) ⊎ (n : ℕ) × (n < second.nodes) × (cells_in_node (get_or self.now.nodes n no_node) ≡ result.cells) }
    {
        let mut mark = second;
        for place in first.nodes..second.nodes {
            if let Some(cell) = self.entries[place].node.cell() {
                mark = self.mark_to_cell(mark, cell);
            }
        }
        mark
    }

    /// The last type of the table that nodes and cells name behind those that the mark counts, if they name one.
    pub fn last_type(&self, first: &Mark) -> Option<TypeId>
        ensures enough { (old new : Table) → IsTypedBy old self.now → constants new ≡ constants old →
            types_up_to result ≤ length (types new) → TypesBehind new first.now self.now }
        ensures least { (t : Table) → TypesBehind t first.now self.now → types_up_to result ≤ length (types t) }
    {
        later(
            self.last_in_nodes(first.nodes),
            self.last_in_cells(first.cells),
        )
    }

    /// The last type that nodes behind the first so many name.
    fn last_in_nodes(&self, first: usize) -> Option<TypeId>
        ensures { IsLastTold (map type_in_node self.now.nodes) first result }
    {
        let mut last = None;
        for place in first..self.entries.len() {
            last = later(last, self.entries[place].node.ty());
        }
        last
    }

    /// The last type that cells behind the first so many are of.
    fn last_in_cells(&self, first: usize) -> Option<TypeId>
        ensures { IsLastTold (map type_in_cell self.now.cells) first result }
    {
        let mut last = None;
        for place in first..self.slots.len() {
            last = later(last, Some(self.slots[place].cell.ty));
        }
        last
    }

    /// Undoes the bindings made since the mark, and counts a step for each. Nodes and cells stay, and so does the room
    /// that the bindings took.
    pub fn rewind<L>(&mut self, mark: &Mark, steps: &mut Steps<L>)
        requires { HasMark self.old mark.now }
        ensures reads { (types : Table) (t : TermId) → t.0 < mark.now.nodes →
            reading types self.new t ≡ reading types (at_mark self.old mark.now) t }
        ensures bindings { self.new.bindings ≡ take mark.now.bindings self.old.bindings }
        ensures nodes { self.new.nodes ≡ self.old.nodes }
        ensures cells { self.new.cells ≡ self.old.cells }
        ensures room { self.new.room ≡ self.old.room + (length self.old.bindings - mark.now.bindings) }
        ensures typed { (types : Table) → IsTypedBy types self.old → IsTypedBy types self.new }
        ensures terms { (types : Table) (G : List Ty) (t : TermId) (A : Ty) → IsTerm types self.old G t A → IsTerm types self.new G t A }
        ensures marks { (k : Mark) → HasMark self.old k → k.bindings ≤ mark.now.bindings → KeepsMark self.old self.new k }
        ensures steps { steps.new ≡ steps.old + (length self.old.bindings - mark.now.bindings) }
    {
        while self.count_bindings() > mark.bindings {
            self.unbind_last();
            steps.tick();
        }
    }

    /// Undoes the bindings made since the mark, counts a step for each, and drops the nodes and cells made since. What
    /// is left is what the mark counts.
    pub fn cut_to<L>(&mut self, mark: &Mark, steps: &mut Steps<L>)
        requires { HasMark self.old mark.now }
        ensures reads { (types : Table) (t : TermId) → t.0 < mark.now.nodes →
            reading types self.new t ≡ reading types (at_mark self.old mark.now) t }
        ensures bindings { self.new.bindings ≡ take mark.now.bindings self.old.bindings }
        ensures nodes { self.new.nodes ≡ take mark.now.nodes self.old.nodes }
        ensures cells { self.new.cells ≡ take mark.now.cells self.old.cells }
        ensures room { self.new.room ≡ self.old.room + (length self.old.bindings - mark.now.bindings) }
        ensures typed { (types : Table) → IsTypedBy types (at_mark self.old mark.now) → IsTypedBy types self.new }
        ensures terms { (types : Table) (G : List Ty) (t : TermId) (A : Ty) → t.0 < mark.now.nodes → IsTerm types self.old G t A → IsTerm types self.new G t A }
        ensures marks { (k : Mark) → HasMark self.old k → IsNoLater k mark.now → KeepsMark self.old self.new k }
        ensures steps { steps.new ≡ steps.old + (length self.old.bindings - mark.now.bindings) }
    {
        self.rewind(mark, steps);
        self.entries.truncate(mark.nodes);
        self.slots.truncate(mark.cells);
    }

    /// How many cells are bound.
    fn count_bindings(&self) -> usize
        ensures { result ≡ length self.now.bindings }
    {
        self.trail.len()
    }

    /// Undoes the last binding.
    fn unbind_last(&mut self)
        requires { 0 < length self.old.bindings }
        ensures bindings { self.new.bindings ≡ take (length self.old.bindings - 1) self.old.bindings }
        ensures nodes { self.new.nodes ≡ self.old.nodes }
        ensures cells { self.new.cells ≡ self.old.cells }
        ensures room { self.new.room ≡ self.old.room + 1 }
    {
        if let Some(last) = self.trail.pop() {
            self.slots[last.cell.0].binding = None;
        }
    }

    /// The node of a term. Where the node is a head, the reading is asked of an id that is a term of some type: only then
    /// does it make no difference whether a bound cell gives way before or after its arguments are looked at.
    pub fn view(&self, id: TermId) -> &Node
        requires { Holds self.now id }
        ensures reads { (types : Table) (G : List Ty) (A : Ty) → IsTypedBy types self.now → IsTerm types self.now G id A →
            reading types self.now id ≡ node_reading types self.now result.now }
        ensures tree { (types : Table) → tree_of types self.now id ≡ node_tree types self.now result.now }
        ensures earlier { NodeNames id.0 (length self.now.cells) result.now }
        ensures typed { (types : Table) → IsTypedBy types self.now → NodeIsTyped types result.now }
    {
        &self.entries[id.0].node
    }

    /// The term that a cell is bound to.
    pub fn binding(&self, cell: CellId) -> Option<TermId>
        requires { HoldsCell self.now cell }
        ensures binding { result ≡ binding_of self.now cell }
        ensures order { AreInOrder self.now }
    {
        self.slots[cell.0].binding
    }

    /// The bindings, in the order in which they were made.
    pub fn bindings(&self) -> &[Binding]
        ensures list { result.now ≡ self.now.bindings }
        ensures order { AreInOrder self.now }
    {
        &self.trail
    }

    /// Whether a cell is bound.
    pub fn has_bindings(&self) -> bool
        ensures { (result ≡ false) ↔ (self.now.bindings ≡ []) }
    {
        !self.trail.is_empty()
    }

    /// The hint of a cell.
    pub fn cell_name(&self, cell: CellId) -> &Name
        requires { HoldsCell self.now cell }
        ensures { result.now ≡ (cell_of self.now cell).hint }
    {
        &self.slots[cell.0].cell.hint
    }

    /// The type of the terms that a cell stands for.
    pub fn cell_type(&self, cell: CellId) -> TypeId
        requires { HoldsCell self.now cell }
        ensures ty { result ≡ (cell_of self.now cell).ty }
        ensures typed { (types : Table) → IsTypedBy types self.now → HoldsType types result }
    {
        self.slots[cell.0].cell.ty
    }

    /// How far the free indices of a term reach: each is below this.
    pub fn reach(&self, id: TermId) -> usize
        requires { Holds self.now id }
        ensures reads { (types : Table) → tree.reach (reading types self.now id) ≤ result }
        ensures tree { (types : Table) → tree.reach (tree_of types self.now id) ≤ result }
    {
        self.facts(id).reach
    }

    /// Whether a nominal constant may stand in a term. False only where none does.
    pub fn has_nominals(&self, id: TermId) -> bool
        requires { Holds self.now id }
        ensures reads { result ≡ false → (types : Table) → support (reading types self.now id) ≡ [] }
        ensures tree { result ≡ false → (types : Table) → support (tree_of types self.now id) ≡ [] }
    {
        let facts = self.facts(id);
        let bound = self.has_bindings();
        facts.nominals || (facts.cells && bound)
    }

    /// Whether a cell may stand in a term. False only where none does.
    pub fn has_cells(&self, id: TermId) -> bool
        requires { Holds self.now id }
        ensures reads { result ≡ false → (types : Table) → variables (reading types self.now id) ≡ [] }
        ensures tree { result ≡ false → (types : Table) → variables (tree_of types self.now id) ≡ [] }
    {
        self.facts(id).cells
    }

    /// Whether a bound cell may stand in a term. False only where none does, and the term reads as its tree.
    pub fn has_bound_cells(&self, id: TermId) -> bool
        requires { Holds self.now id }
        ensures reads { result ≡ false → (types : Table) → reading types self.now id ≡ tree_of types self.now id }
        ensures resolved { result ≡ false → IsResolved self.now id }
    {
        let facts = self.facts(id);
        let bound = self.has_bindings();
        facts.cells && bound
    }

    /// What is known of a term.
    fn facts(&self, id: TermId) -> Facts
        requires { Holds self.now id }
        ensures tree { (types : Table) → HoldOf result (tree_of types self.now id) }
        ensures reads { (types : Table) → tree.reach (reading types self.now id) ≤ result.reach }
    {
        self.entries[id.0].facts
    }

    /// What is known of the terms together.
    fn facts_of_all(&self, ids: &[TermId]) -> Facts
        requires { All (Holds self.now) ids.now }
        ensures { (types : Table) → HoldOfAll result (terms_of (map (tree_of types self.now) ids.now)) }
    {
        let mut facts = Facts::of_nothing();
        for id in ids {
            facts = facts.and(self.facts(*id));
        }
        facts
    }

    /// Adds a node, with what is known of its term.
    fn add(&mut self, node: Node, facts: Facts) -> Result<TermId, AllocError>
        requires names { NodeNames (length self.old.nodes) (length self.old.cells) node }
        requires facts { (types : Table) → HoldOf facts (node_tree types self.old node) }
        ensures held { IfOk result (λ t. Holds self.new t) }
        ensures tree { IfOk result (λ t. (types : Table) → tree_of types self.new t ≡ node_tree types self.old node) }
        ensures reads { IfOk result (λ t. (types : Table) (G : List Ty) (A : Ty) →
            IsTypedBy types self.old → IsTerm types self.new G t A →
            reading types self.new t ≡ node_reading types self.old node) }
        ensures put { IfOk result (λ t. (types : Table) →
            reading types self.new t ≡ one_by_one same_number (pairs types self.old) (node_tree types self.old node)) }
        ensures typed { (types : Table) → IsTypedBy types self.old → NodeIsTyped types node → IsTypedBy types self.new }
        ensures before { IsExtendedBy self.old self.new }
        ensures cells { self.new.cells ≡ self.old.cells }
        ensures err { OnErr result (self.new ≡ self.old) }
    {
        let place = self.entries.len();
        self.entries.push(NodeEntry { node, facts })?;
        Ok(TermId(place))
    }
}
