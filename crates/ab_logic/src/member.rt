//! The definition of `member`, which is built in.
ghost use Rattle.std.specs.Prelude.{◌≡◌, ◌+◌, [], ◌∷◌, length, codes, IfOk, OnOk};
ghost use Rattle.ab_term.specs.Terms.{constant, spine, terms_of};
ghost use Rattle.ab_store.specs.ab_types.specs.Entries.{Table, first_entries};
ghost use Rattle.ab_store.specs.ab_types.specs.Ids.{HoldsType, HoldsConstant, type_of};
ghost use Rattle.ab_store.specs.Trees.{Holds, HoldsCell, tree_of};
ghost use Rattle.ab_store.specs.Growth.{IsExtendedBy};
ghost use Rattle.ab_store.specs.Naming.{IsTypedBy};
ghost use Rattle.ab_unifiers.specs.Member.{clause_variable};
ghost use Rattle.ab_typing.specs.DefinitionReadings.{name_of, variable_of, clause_of, block_of, HoldsClause};
ghost use Rattle.ab_logic.specs.MemberDefinition.{AreWords, kept_first, kept_later};
ghost use Rattle.ab_logic.specs.Worlds.{defined, member_block, IsKeptBlock};

use ab_store::name::Name;
use ab_store::types::{ConstId, TypeId, TypeTable, TypeView};
use ab_store::{CellId, Head, Logical, Store, TermId};
use ab_typing::{Block, ClauseCells, ClauseTerm, ClauseTerms, Predicates};
use std::alloc::{AllocError, Global};

/// The constants and types that the definition speaks of.
#[derive(Clone, Copy)]
pub struct Words {
    pub member: ConstId,
    pub cons: ConstId,
    pub o: TypeId,
    pub olist: TypeId,
}

/// A variable of a clause: its cell, and the cell as a term.
#[derive(Clone, Copy)]
pub struct Variable {
    pub cell: CellId,
    pub term: TermId,
}

/// The definition of `member`, in the store of a new world.
pub fn member_definition(
    alloc: Global,
    types: &TypeTable,
    store: &mut Store,
) -> Result<Block, AllocError>
    requires types { types.now ≡ first_entries }
    requires store { store.old ≡ record { nodes = []; cells = []; bindings = []; room = 0 } }
    ensures reads { IfOk result (λ b. defined (block_of types.now store.new b) ≡ member_block) }
    ensures kept { IfOk result (λ b. IsKeptBlock types.now store.new b) }
    ensures typed { OnOk result (IsTypedBy types.now store.new) }
    ensures unbound { OnOk result (store.new.bindings ≡ []) }
{
    let words = words_of(alloc, types)?;
    let first = first_clause(alloc, store, words)?;
    let later = later_clause(alloc, store, words)?;
    let predicates = Vec::from_array(alloc, [words.member])?;
    let mut clauses = Vec::new(alloc);
    clauses.push(first)?;
    clauses.push(later)?;
    Ok(Block {
        inductive: true,
        predicates: Predicates::from_vec(predicates),
        clauses: ClauseTerms::from_vec(clauses),
    })
}

/// The words of a new table.
fn words_of(alloc: Global, types: &TypeTable) -> Result<Words, AllocError>
    requires { types.now ≡ first_entries }
    ensures { IfOk result (λ words. AreWords types.now words) }
{
    let member_name = Name::from_text(alloc, "member")?;
    let Some(member) = types.look(&member_name) else {
        unreachable!();
    };
    let cons_name = Name::from_text(alloc, "::")?;
    let Some(cons) = types.look(&cons_name) else {
        unreachable!();
    };
    let ty = types.const_type(member);
    let TypeView::Arrow(o, rest) = types.view(ty) else {
        unreachable!();
    };
    let TypeView::Arrow(olist, _) = types.view(rest) else {
        unreachable!();
    };
    Ok(Words {
        member,
        cons,
        o,
        olist,
    })
}

/// `member A (A :: L)`.
fn first_clause(alloc: Global, store: &mut Store, words: Words) -> Result<ClauseTerm, AllocError>
    requires { store.old.cells ≡ [] }
    ensures reads { IfOk result (λ c. (types : Table) → AreWords types words → clause_of types store.new c ≡ kept_first) }
    ensures held { IfOk result (λ c. (types : Table) → HoldsClause types store.new c) }
    ensures cells { OnOk result (length store.new.cells ≡ 2) }
    ensures before { OnOk result (IsExtendedBy store.old store.new) }
    ensures typed { OnOk result ((types : Table) → AreWords types words → IsTypedBy types store.old → IsTypedBy types store.new) }
{
    let a = new_variable(alloc, store, "A", words.o)?;
    let l = new_variable(alloc, store, "L", words.olist)?;
    let list = apply_to_two(alloc, store, words.cons, a.term, l.term)?;
    let head = apply_to_two(alloc, store, words.member, a.term, list)?;
    let body = store.spine(Head::Logic(Logical::True), Vec::new(alloc))?;
    let variables = Vec::from_array(alloc, [a.cell, l.cell])?;
    Ok(ClauseTerm {
        variables: ClauseCells::from_vec(variables),
        head,
        body,
    })
}

/// `member A (B :: L) := member A L`.
fn later_clause(alloc: Global, store: &mut Store, words: Words) -> Result<ClauseTerm, AllocError>
    requires { length store.old.cells ≡ 2 }
    ensures reads { IfOk result (λ c. (types : Table) → AreWords types words → clause_of types store.new c ≡ kept_later) }
    ensures held { IfOk result (λ c. (types : Table) → HoldsClause types store.new c) }
    ensures before { OnOk result (IsExtendedBy store.old store.new) }
    ensures typed { OnOk result ((types : Table) → AreWords types words → IsTypedBy types store.old → IsTypedBy types store.new) }
{
    let a = new_variable(alloc, store, "A", words.o)?;
    let b = new_variable(alloc, store, "B", words.o)?;
    let l = new_variable(alloc, store, "L", words.olist)?;
    let list = apply_to_two(alloc, store, words.cons, b.term, l.term)?;
    let head = apply_to_two(alloc, store, words.member, a.term, list)?;
    let body = apply_to_two(alloc, store, words.member, a.term, l.term)?;
    let variables = Vec::from_array(alloc, [a.cell, b.cell, l.cell])?;
    Ok(ClauseTerm {
        variables: ClauseCells::from_vec(variables),
        head,
        body,
    })
}

/// A new variable of the hint and the type.
fn new_variable(
    alloc: Global,
    store: &mut Store,
    hint: &str,
    ty: TypeId,
) -> Result<Variable, AllocError>
    ensures reads { IfOk result (λ v. (types : Table) →
        variable_of types store.new v.cell ≡ record { number = length store.old.cells; type = type_of types ty; hint = hint.now }) }
    ensures tree { IfOk result (λ v. (types : Table) → tree_of types store.new v.term ≡ clause_variable (length store.old.cells) (type_of types ty)) }
    ensures held { IfOk result (λ v. HoldsCell store.new v.cell) }
    ensures term { IfOk result (λ v. Holds store.new v.term) }
    ensures one { OnOk result (length store.new.cells ≡ length store.old.cells + 1) }
    ensures before { OnOk result (IsExtendedBy store.old store.new) }
    ensures typed { OnOk result ((types : Table) → HoldsType types ty → IsTypedBy types store.old → IsTypedBy types store.new) }
{
    let cell = store.cell(Name::from_text(alloc, hint)?, ty)?;
    let term = store.spine(Head::Cell(cell), Vec::new(alloc))?;
    Ok(Variable { cell, term })
}

/// The constant, given two terms.
fn apply_to_two(
    alloc: Global,
    store: &mut Store,
    head: ConstId,
    first: TermId,
    second: TermId,
) -> Result<TermId, AllocError>
    requires first { Holds store.old first }
    requires second { Holds store.old second }
    ensures tree { IfOk result (λ t. (types : Table) →
        tree_of types store.new t ≡ spine (constant (name_of types head)) (terms_of (tree_of types store.old first ∷ tree_of types store.old second ∷ []))) }
    ensures held { IfOk result (λ t. Holds store.new t) }
    ensures cells { OnOk result (store.new.cells ≡ store.old.cells) }
    ensures before { OnOk result (IsExtendedBy store.old store.new) }
    ensures typed { OnOk result ((types : Table) → HoldsConstant types head → IsTypedBy types store.old → IsTypedBy types store.new) }
{
    let both = Vec::from_array(alloc, [first, second])?;
    store.spine(Head::Const(head), both)
}
