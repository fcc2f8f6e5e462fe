//! What is printed of a world's terms and goals.
ghost use Rattle.std.specs.Prelude.{◌≡◌, ◌++◌, map, decimal, All, IfOk, OnOk, OnErr};
ghost use Rattle.ab_store.specs.Naming.{IsTypedBy};
ghost use Rattle.ab_store.specs.Trees as terms;
ghost use Rattle.ab_logic.specs.Worlds.{IsWorld, Holds, HoldsCell, read, variable_of};
ghost use Rattle.ab_logic.specs.SequentReadings.{HoldsSequent, sequent_of, hypothesis_of};
ghost use Rattle.ab_print.specs.GoalText.{cell_name, names_line, variables_line, shown, conclusion_line, hypothesis_lines, goal_lines, other_goal, reply_line};

use crate::eta::alone;
use crate::name_assignment::name_alone;
use crate::places::own_places;
use crate::plain_terms::draw;
use crate::shape_bytes::write;
use ab_logic::{Hypothesis, Sequent, World};
use ab_store::types::TypeTable;
use ab_store::{CellId, Store, TermId};
use itoa::Buffer;
use std::alloc::{AllocError, Global};

/// Appends what is printed of the term.
pub(crate) fn write_term(
    alloc: Global,
    types: &TypeTable,
    store: &Store,
    id: TermId,
    out: &mut Vec<u8>,
) -> Result<(), AllocError>
    requires typed { IsTypedBy types.now store.now }
    requires held { terms.Holds store.now id }
    ensures { OnOk result (out.new.items ≡ out.old.items ++ shown (cell_name store.now) (terms.tree_of types.now store.now id)) }
{
    let mut seen = Vec::new(alloc);
    let mut bound = Vec::new(alloc);
    let name = alone(store, id);
    let drawing = draw(alloc, types, store, id, 0, &mut seen, &mut bound)?;
    let mut places = own_places(alloc, types, store, &seen)?;
    let mut names = Vec::new(alloc);
    let shape = name_alone(alloc, types, store, &drawing, name, &mut names, &mut places)?;
    write(&shape, out)
}

/// Appends a conclusion, on a line of its own.
fn write_conclusion(
    alloc: Global,
    world: &World,
    id: TermId,
    out: &mut Vec<u8>,
) -> Result<(), AllocError>
    requires world { IsWorld world.now }
    requires held { Holds world.now id }
    ensures { OnOk result (out.new.items ≡ out.old.items ++ conclusion_line (cell_name world.now.store) (read world.now id)) }
{
    out.push(b' ')?;
    write_term(alloc, &world.types, &world.store, id, out)?;
    out.push(b'\n')?;
    Ok(())
}

fn write_number(number: usize, out: &mut Vec<u8>) -> Result<(), AllocError>
    ensures { OnOk result (out.new.items ≡ out.old.items ++ decimal number) }
{
    let mut buffer = Buffer::new();
    out.extend_from_slice(buffer.format(number).as_bytes())
}

/// Appends the names of variables, each behind a space, and ends the line.
fn write_names(world: &World, cells: &[CellId], out: &mut Vec<u8>) -> Result<(), AllocError>
    requires { All (HoldsCell world.now) cells.now }
    ensures { OnOk result (out.new.items ≡ out.old.items ++ names_line (map (λ x. x.name) (map (variable_of world.now) cells.now))) }
{
    'names: for cell in cells {
        out.push(b' ')?;
        out.extend_from_slice(world.store.cell_name(*cell).as_str().as_bytes())?;
    }
    out.push(b'\n')?;
    Ok(())
}

/// Appends the line of the variables, where there are any.
fn write_variables(world: &World, cells: &[CellId], out: &mut Vec<u8>) -> Result<(), AllocError>
    requires { All (HoldsCell world.now) cells.now }
    ensures { OnOk result (out.new.items ≡ out.old.items ++ variables_line (map (λ x. x.name) (map (variable_of world.now) cells.now))) }
{
    if cells.is_empty() {
        return Ok(());
    }
    out.extend_from_slice(b"Variables:")?;
    write_names(world, cells, out)
}

/// Appends hypotheses, each on a line of its own.
fn write_hypotheses(
    alloc: Global,
    world: &World,
    hypotheses: &[Hypothesis],
    out: &mut Vec<u8>,
) -> Result<(), AllocError>
    requires world { IsWorld world.now }
    requires held { All (λ h. Holds world.now h.formula) hypotheses.now }
    ensures { OnOk result (out.new.items ≡ out.old.items ++ hypothesis_lines (cell_name world.now.store) (map (hypothesis_of world.now) hypotheses.now)) }
{
    'lines: for hypothesis in hypotheses {
        out.extend_from_slice(hypothesis.name.as_str().as_bytes())?;
        out.extend_from_slice(b" : ")?;
        write_term(alloc, &world.types, &world.store, hypothesis.formula, out)?;
        out.push(b'\n')?;
    }
    Ok(())
}

/// Appends the term: its parentheses as the grammar needs them, its bound names by their hints.
pub fn show_term(
    alloc: Global,
    world: &World,
    id: TermId,
    out: &mut Vec<u8>,
) -> Result<(), AllocError>
    requires world { IsWorld world.now }
    requires held { Holds world.now id }
    ensures shown { OnOk result (out.new.items ≡ out.old.items ++ shown (cell_name world.now.store) (read world.now id)) }
    ensures err { OnErr result (out.new.items ≡ out.old.items) }
{
    let mut text = Vec::new(alloc);
    write_term(alloc, &world.types, &world.store, id, &mut text)?;
    out.extend_from_slice(&text)
}

/// Appends the goal: a line for the variables, where there are any, one for each hypothesis, a rule, and one for the
/// conclusion.
pub fn show_goal(
    alloc: Global,
    world: &World,
    sequent: &Sequent,
    out: &mut Vec<u8>,
) -> Result<(), AllocError>
    requires world { IsWorld world.now }
    requires held { HoldsSequent world.now sequent.now }
    ensures shown { OnOk result (out.new.items ≡ out.old.items ++ goal_lines (cell_name world.now.store) (sequent_of world.now sequent.now)) }
    ensures err { OnErr result (out.new.items ≡ out.old.items) }
{
    let mut text = Vec::new(alloc);
    write_variables(world, sequent.variables.as_slice(), &mut text)?;
    write_hypotheses(alloc, world, sequent.hypotheses.as_slice(), &mut text)?;
    text.extend_from_slice(b"============================\n")?;
    write_conclusion(alloc, world, sequent.conclusion, &mut text)?;
    out.extend_from_slice(&text)
}

/// Appends a goal that isn't the first: its number, and its conclusion.
pub fn show_other(
    alloc: Global,
    world: &World,
    number: usize,
    conclusion: TermId,
    out: &mut Vec<u8>,
) -> Result<(), AllocError>
    requires world { IsWorld world.now }
    requires held { Holds world.now conclusion }
    ensures shown { OnOk result (out.new.items ≡ out.old.items ++ other_goal (cell_name world.now.store) number (read world.now conclusion)) }
    ensures err { OnErr result (out.new.items ≡ out.old.items) }
{
    let mut text = Vec::from_slice(alloc, b"Subgoal ")?;
    write_number(number, &mut text)?;
    text.extend_from_slice(b" is:\n")?;
    write_conclusion(alloc, world, conclusion, &mut text)?;
    out.extend_from_slice(&text)
}

/// Appends the first line of a block: how many commands are kept, and a text, where there is one.
pub fn show_reply(
    alloc: Global,
    kept: usize,
    text: &[u8],
    out: &mut Vec<u8>,
) -> Result<(), AllocError>
    ensures shown { OnOk result (out.new.items ≡ out.old.items ++ reply_line kept text.now) }
    ensures err { OnErr result (out.new.items ≡ out.old.items) }
{
    let mut line = Vec::from_slice(alloc, b"[")?;
    write_number(kept, &mut line)?;
    line.push(b']')?;
    if !text.is_empty() {
        line.push(b' ')?;
    }
    line.extend_from_slice(text)?;
    line.push(b'\n')?;
    out.extend_from_slice(&line)
}
