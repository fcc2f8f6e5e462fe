//! Worlds: what was declared, and the terms that are shared.
ghost use Rattle.std.specs.Prelude.{◌≡◌, ◌⊎◌, ◌+◌, ◌-◌, ◌≤◌, [], ◌∷◌, ◌++◌, take, map, length, IfOk, IfSome, OnOk, OnErr, IfErr, IsSome, slice_get, Some, None, Err, All};
ghost use Rattle.std.specs.Option.{option_map, option_copied};
ghost use Rattle.ab_store.specs.ab_types.specs.Entries.{first_entries};
ghost use Rattle.ab_store.specs.ab_types.specs.Ids.{HoldsConstant};
ghost use Rattle.ab_formulas.specs.ProposedClauses.{IsProposed};
ghost use Rattle.ab_typing.specs.DefinitionReadings.{name_of, clause_of, block_of, fault_of, HoldsFault, HoldsClause, HoldsBlock};
ghost use Rattle.ab_formulas.specs.Faults.{IsFaultOf};
ghost use Rattle.ab_formulas.specs.Clauses.{Block as ABlock};
ghost use Rattle.ab_formulas.specs.Declarations.{Declarations, ArePlacesUpTo, signature_in, theorem_in, theorems_in, assumed_in, assumptions_in, block_in, with_first, a_theorem, a_block, a_program_clause};
ghost use Rattle.ab_formulas.specs.Programs.{IsProgramHead, IsProgramProposed};
ghost use Rattle.ab_formulas.specs.Formulas.{IsSentence};
ghost use Rattle.ab_logic.specs.Additions.{entry_in, block_kept, clause_at_place, clause_places, IsMemory};
ghost use Rattle.ab_logic.specs.NewDefinitions.{AreNew, IsFirstDefined, IsDefinable, IsDefineFault};
ghost use Rattle.ab_logic.specs.Worlds.{read, Holds, head_constant, clause_read, definition_of, declarations_of, count_added, first_declarations, IsKeptBlock, IsWorld};
ghost use Rattle.ab_logic.specs.WorldGrowth.{Grows};
ghost use Rattle.ab_logic.specs.declared.world.DefineFault.{DefineFault as AFault};

use crate::additions::{Addition, Additions, TheoremEntry};
use crate::lists::Places;
use crate::member::member_definition;
use ab_store::name::Name;
use ab_store::types::laws::has_unique_ids;
use ab_store::types::{ConstId, Steps, TypeTable};
use ab_store::{Head, Node, Store, TermId};
use ab_typing::{Block, ClauseFault, ClauseTerm, first_fault};
use std::alloc::{AllocError, Global};

/// What was declared, and the terms by which all is said: the types with the declared kinds and constants, the
/// shared terms, and definitions, clauses of the program and theorems in order.
#[derive(Drop)]
pub struct World {
    pub types: TypeTable,
    pub store: Store,
    additions: Additions,
}

/// Why something isn't declared.
#[derive(Drop)]
pub enum DefineFault {
    /// There is a theorem of that name already, or a definition of that predicate.
    Clash(Name),
    /// A predicate stands to the left of an arrow in the body of its own definition.
    NotStratified(Name),
    /// The clause of this number has a head that a clause may not have.
    BadHead(usize),
    /// There was no memory for it.
    Memory(AllocError),
}

impl From<AllocError> for DefineFault {
    ghost use Rattle.std.specs.Prelude.{◌≡◌};
    ghost use Rattle.ab_logic.specs.declared.world.DefineFault.{DefineFault};

    ghost from_gives = { λ a f. f ≡ DefineFault.Memory a };

    fn from(fault: AllocError) -> DefineFault {
        DefineFault::Memory(fault)
    }
}

impl World {
    /// A world in which only what is built in is declared.
    pub fn new(alloc: Global) -> Result<World, AllocError>
        ensures world { IfOk result IsWorld }
        ensures declares { IfOk result (λ w. declarations_of w ≡ first_declarations) }
        ensures types { IfOk result (λ w. w.types ≡ first_entries) }
    {
        let types = TypeTable::new(alloc)?;
        let mut store = Store::new(alloc);
        let member = member_definition(alloc, &types, &mut store)?;
        let mut world = World {
            types,
            store,
            additions: Additions::new(alloc),
        };
        world.put(member)?;
        Ok(world)
    }

    /// Adds a definition behind all that was declared. Refused exactly where one of its predicates has a definition, and
    /// else where its clauses have a fault: the first is told. Nothing is counted.
    pub fn define<L>(&mut self, block: Block, steps: &mut Steps<L>) -> Result<(), DefineFault>
        requires world { IsWorld self.old }
        requires held { HoldsBlock self.old.types self.old.store block }
        requires proposed { All (IsProposed (signature_in (declarations_of self.old))) (block_of self.old.types self.old.store block).clauses }

        ensures added { OnOk result (declarations_of self.new ≡ declarations_of self.old ++ a_block (definition_of self.old block) ∷ []) }
        ensures grows { OnOk result (Grows self.old self.new) }
        ensures right { OnOk result (IsDefinable (declarations_of self.old) (block_of self.old.types self.old.store block)) }

        ensures refused { IfErr result (λ fault. IsDefineFault (declarations_of self.old) (block_of self.old.types self.old.store block) fault) }
        ensures err { OnErr result (self.new ≡ self.old) }
        ensures steps { steps.new ≡ steps.old }
    {
        let _ = steps;
        if let Some(predicate) = self.first_defined(block.predicates.as_slice()) {
            let name = self.types.const_name(predicate).clone()?;
            return Err(DefineFault::Clash(name));
        }
        let alloc = self.additions.alloc();
        if let Some(fault) = first_fault(alloc, &self.types, &self.store, &block)? {
            return Err(self.define_fault(fault)?);
        }
        self.put(block)?;
        Ok(())
    }

    /// The definition of the predicate.
    pub fn block(&self, predicate: ConstId) -> Option<&Block>
        requires world { IsWorld self.now }
        requires predicate { HoldsConstant self.now.types predicate }
        ensures reads { option_map (definition_of self.now) (option_copied result) ≡ block_in (declarations_of self.now) (name_of self.now.types predicate) }
        ensures kept { option_copied result ≡ block_kept self.now.additions predicate }
    {
        has_unique_ids(&self.types);
        self.additions.block(predicate)
    }

    /// The first of the predicates that has a definition.
    fn first_defined(&self, predicates: &[ConstId]) -> Option<ConstId>
        requires world { IsWorld self.now }
        requires predicates { All (HoldsConstant self.now.types) predicates.now }
        ensures none { result ≡ None → All (λ p. block_kept self.now.additions p ≡ None) predicates.now }
        ensures new { result ≡ None → AreNew (declarations_of self.now) (map (name_of self.now.types) predicates.now) }
        ensures held { IfSome result (HoldsConstant self.now.types) }
        ensures first { IfSome result (λ p. IsFirstDefined (declarations_of self.now) (map (name_of self.now.types) predicates.now) (name_of self.now.types p)) }
    {
        for predicate in predicates {
            if self.block(*predicate).is_some() {
                return Some(*predicate);
            }
        }
        None
    }

    /// What is told of the fault of a definition's clauses.
    fn define_fault(&self, fault: ClauseFault) -> Result<DefineFault, AllocError>
        requires { HoldsFault self.now.types fault }
        ensures { IfOk result (λ told. (b : ABlock) (D : Declarations) → AreNew D b.predicates → IsFaultOf b (fault_of self.now.types fault) → IsDefineFault D b told) }
    {
        match fault {
            ClauseFault::NotStratified(predicate) => {
                let name = self.types.const_name(predicate).clone()?;
                Ok(DefineFault::NotStratified(name))
            }
            ClauseFault::BadHead(number) => Ok(DefineFault::BadHead(number)),
        }
    }

    /// Puts a definition, of whose predicates there is none, behind all that was declared.
    fn put(&mut self, block: Block) -> Result<(), AllocError>
        requires world { IsWorld self.old }
        requires new { All (λ p. block_kept self.old.additions p ≡ None) block.predicates }
        requires kept { IsKeptBlock self.old.types self.old.store block }
        ensures added { OnOk result (declarations_of self.new ≡ declarations_of self.old ++ a_block (definition_of self.old block) ∷ []) }
        ensures grows { OnOk result (Grows self.old self.new) }
        ensures types { self.new.types ≡ self.old.types }
        ensures err { OnErr result (self.new ≡ self.old) }
    {
        let before = self.types.count_declared();
        self.additions.add_definition(block, before)?;
        Ok(())
    }

    /// Adds a theorem behind all that was declared, which assumes the theorems of these places, perhaps its own. Refused exactly
    /// where there is a theorem of that name.
    pub fn add_theorem(
        &mut self,
        name: Name,
        formula: TermId,
        assumed: Vec<usize>,
    ) -> Result<(), DefineFault>
        requires world { IsWorld self.old }
        requires formula { Holds self.old formula }
        requires sentence { IsSentence (signature_in (declarations_of self.old)) (read self.old formula) }
        requires places { ArePlacesUpTo (length (theorems_in (declarations_of self.old))) assumed.items }

        ensures added { OnOk result (declarations_of self.new ≡ declarations_of self.old ++ a_theorem name (read self.old formula) assumed.items ∷ []) }
        ensures grows { OnOk result (Grows self.old self.new) }
        ensures new { OnOk result (theorem_in (declarations_of self.old) name ≡ None) }

        ensures clash { IsSome (theorem_in (declarations_of self.old) name) → result ≡ Err (DefineFault.Clash name) }
        ensures refused { (fault : AFault) → result ≡ Err fault → theorem_in (declarations_of self.old) name ≡ None → IsMemory fault }
        ensures err { OnErr result (self.new ≡ self.old) }
    {
        if self.theorem(&name).is_some() {
            return Err(DefineFault::Clash(name));
        }
        let before = self.types.count_declared();
        self.additions
            .add_theorem(name, formula, Places::from_vec(assumed), before)?;
        Ok(())
    }

    /// The formula of the theorem of that name.
    pub fn theorem(&self, name: &Name) -> Option<TermId>
        requires { IsWorld self.now }
        ensures reads { option_map (read self.now) result ≡ theorem_in (declarations_of self.now) name.now }
        ensures held { IfSome result (Holds self.now) }
        ensures kept { result ≡ option_map (λ e. e.formula) (entry_in self.now.additions name.now) }
    {
        self.additions.formula(name)
    }

    /// The places of the theorems that the theorem of that name assumes, in growing order; none where there is no such theorem.
    pub fn assumptions(&self, name: &Name) -> &[usize]
        ensures { result.now ≡ assumed_in (declarations_of self.now) name.now }
    {
        self.additions.assumptions(name)
    }

    /// Adds a clause of the program behind all that was declared. Refused exactly where its head is no constant with
    /// arguments; then the number is told that was given. Nothing is counted.
    pub fn add_clause<L>(
        &mut self,
        clause: ClauseTerm,
        number: usize,
        steps: &mut Steps<L>,
    ) -> Result<(), DefineFault>
        requires world { IsWorld self.old }
        requires held { HoldsClause self.old.types self.old.store clause }
        requires proposed { IsProgramProposed (signature_in (declarations_of self.old)) (clause_of self.old.types self.old.store clause) }

        ensures added { OnOk result (declarations_of self.new ≡ declarations_of self.old ++ a_program_clause (clause_read self.old clause) ∷ []) }
        ensures grows { OnOk result (Grows self.old self.new) }
        ensures right { OnOk result (IsProgramHead (read self.old clause.head)) }

        ensures refused { (fault : AFault) → result ≡ Err fault → IsMemory fault ⊎ ((IsProgramHead (read self.old clause.head) → ⊥) × (fault ≡ DefineFault.BadHead number)) }
        ensures err { OnErr result (self.new ≡ self.old) }
        ensures steps { steps.new ≡ steps.old }
    {
        let _ = steps;
        let Some(head) = self.head_constant(clause.head) else {
            return Err(DefineFault::BadHead(number));
        };
        let before = self.types.count_declared();
        self.additions.add_clause(clause, head, before)?;
        Ok(())
    }

    /// The constant at the term's head, if one is there.
    pub fn head_constant(&self, term: TermId) -> Option<ConstId>
        requires world { IsWorld self.now }
        requires term { Holds self.now term }
        ensures reads { option_map (name_of self.now.types) result ≡ head_constant (read self.now term) }
        ensures held { IfSome result (HoldsConstant self.now.types) }
    {
        match self.store.view(term) {
            Node::Lam(_, _, _) => None,
            Node::Spine(head, _) => match *head {
                Head::Const(constant) => Some(constant),
                _ => None,
            },
        }
    }

    /// The places, among what was added, of the clauses of the program with the constant at their head, in order.
    pub fn clause_places(&self, head: ConstId) -> &[usize]
        ensures { result.now ≡ clause_places self.now.additions head }
    {
        self.additions.clause_places(head)
    }

    /// The clause of the program at this place of what was added, if one stands there.
    pub fn clause_at(&self, place: usize) -> Option<&ClauseTerm>
        ensures { option_copied result ≡ clause_at_place self.now.additions place }
    {
        self.additions.clause_at(place)
    }

    /// What was added at this place, counted from 0.
    pub fn addition_at(&self, place: usize) -> Option<&Addition>
        ensures { option_copied result ≡ option_map (λ a. a.what) (slice_get self.now.additions place) }
    {
        self.additions.at(place)
    }

    /// How many definitions, clauses of the program and theorems there are.
    pub fn len(&self) -> usize
        ensures declared { result ≡ count_added (declarations_of self.now) }
        ensures kept { result ≡ length self.now.additions }
    {
        self.additions.len()
    }

    /// Keeps the first `len` of what was added, and counts a step for each that is dropped. Takes no memory.
    pub fn cut_to<L>(&mut self, len: usize, steps: &mut Steps<L>)
        requires { len ≤ length self.old.additions }
        ensures declares { IsWorld self.old → declarations_of self.new ≡ with_first len (declarations_of self.old) }
        ensures world { IsWorld self.old → IsWorld self.new }
        ensures additions { self.new.additions ≡ take len self.old.additions }
        ensures types { self.new.types ≡ self.old.types }
        ensures store { self.new.store ≡ self.old.store }
        ensures steps { steps.new ≡ steps.old + (length self.old.additions - len) }
    {
        let had = self.additions.len();
        self.additions.truncate(len);
        for place in len..had {
            let _ = place;
            steps.tick();
        }
    }

    /// The theorem of this place, counted from 0 in the order in which they were added.
    pub fn theorem_at(&self, place: usize) -> Option<&TheoremEntry>
        ensures reads { option_map (λ e. (e.name, read self.now e.formula)) (option_copied result) ≡ slice_get (theorems_in (declarations_of self.now)) place }
        ensures assumes { option_map (λ e. e.assumed) (option_copied result) ≡ slice_get (assumptions_in (declarations_of self.now)) place }
    {
        self.additions.theorem_at(place)
    }

    /// How many theorems there are.
    pub fn theorems(&self) -> usize
        ensures { result ≡ length (theorems_in (declarations_of self.now)) }
    {
        self.additions.theorems()
    }
}
