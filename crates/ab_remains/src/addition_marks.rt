//! Marks that are raised for what additions to a world name.
ghost use Rattle.std.specs.Prelude.{All, length};
ghost use Rattle.std.specs.List.{AllWithin};
ghost use Rattle.ab_typing.specs.DefinitionReadings.{HoldsClause};
ghost use Rattle.ab_logic.specs.declared.additions.Added.{Added as AnAdded};
ghost use Rattle.ab_remains.specs.RaisedMarks.{IsRaisedFor};
ghost use Rattle.ab_remains.specs.NamedThings.{HoldsAddition};

use crate::sequent_marks::mark_to_cells;
use ab_logic::{Addition, World};
use ab_store::Mark;
use ab_typing::ClauseTerm;

/// The mark, raised for what the clause names.
fn mark_to_clause(world: &World, mark: Mark, clause: &ClauseTerm) -> Mark
    ensures { IsRaisedFor world.now (λ v. HoldsClause v.types v.store clause.now) mark result }
{
    let cells = mark_to_cells(world, mark, clause.variables.as_slice());
    let head = world.store.mark_to_term(cells, clause.head);
    world.store.mark_to_term(head, clause.body)
}

/// The mark, raised for what the clauses name.
fn mark_to_clauses(world: &World, mark: Mark, clauses: &[ClauseTerm]) -> Mark
    ensures { IsRaisedFor world.now (λ v. All (HoldsClause v.types v.store) clauses.now) mark result }
{
    let mut raised = mark;
    for clause in clauses {
        raised = mark_to_clause(world, raised, clause);
    }
    raised
}

/// The mark, raised for what the addition names.
fn mark_to_addition(world: &World, mark: Mark, addition: &Addition) -> Mark
    ensures { IsRaisedFor world.now (λ v. HoldsAddition v addition.now) mark result }
{
    match addition {
        Addition::Theorem(entry) => world.store.mark_to_term(mark, entry.formula),
        Addition::Definition(block) => mark_to_clauses(world, mark, block.clauses.as_slice()),
        Addition::Clause(clause, _) => mark_to_clause(world, mark, clause),
    }
}

/// The mark, raised for what the additions behind the first so many name.
pub(crate) fn mark_to_additions(world: &World, mark: Mark, first: usize) -> Mark
    ensures { IsRaisedFor world.now (λ v. AllWithin (λ (a : AnAdded). HoldsAddition v a.what) world.now.additions first (length world.now.additions)) mark result }
{
    let mut raised = mark;
    for place in first..world.len() {
        if let Some(addition) = world.addition_at(place) {
            raised = mark_to_addition(world, raised, addition);
        }
    }
    raised
}
