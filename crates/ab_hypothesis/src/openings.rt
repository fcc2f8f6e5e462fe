//! How formulas become hypotheses.
ghost use Rattle.std.specs.Prelude.{◌≤◌, ◌≡◌, [], ◌∷◌, List, Some, Err, map, reverse, IfOk, OnOk};
ghost use Rattle.ab_term.specs.Types.{Ty};
ghost use Rattle.ab_term.specs.Terms.{Read};
ghost use Rattle.ab_formulas.specs.Forms.{form_of, both, truth, exists, nabla};
ghost use Rattle.ab_logic.specs.Forms.{HoldsParts};
ghost use Rattle.ab_formulas.specs.NewNames.{auto, Label as AName};
ghost use Rattle.ab_logic.specs.SequentReadings.{hypothesis_of};
ghost use Rattle.ab_formulas.specs.Sequents.{Sequent as AGoal, formula_of, formulas, without};
ghost use Rattle.ab_logic.specs.Worlds.{IsWorld, Holds, declarations_of, read};
ghost use Rattle.ab_equations.specs.Labels.{label_of};
ghost use Rattle.ab_steps.specs.ab_kernel.specs.Layout.{IsProof};
ghost use Rattle.ab_effects.specs.Openings.{IsWhole, Nameless};
ghost use Rattle.ab_steps.specs.Progress.{IsAt, Follows};
ghost use Rattle.ab_hypothesis.specs.OwnNames.{IsOwn, besides};
ghost use Rattle.ab_hypothesis.specs.HypothesisProgress.{HasAt, Pending, Goes, CantOpen, OpenedTo, label_left};
ghost use Rattle.ab_hypothesis.specs.declared.stop.Stop.{Stop};

use crate::goal_moves::{forget, formula_at, shift};
use crate::own_names::own_name;
use crate::stop::Stop;
use ab_equations::Label;
use ab_logic::{Form, Hypothesis, World, shape};
use ab_norm::name::Name;
use ab_norm::store::TermId;
use ab_norm::types::Steps;
use ab_steps::kernel::{Proof, Step};
use ab_steps::surely;
use std::alloc::{AllocError, Global};

/// A copy of the label, where it is still to be given.
fn next_label(alloc: Global, label: &Label, left: bool) -> Result<Label, AllocError>
    ensures { IfOk result (λ l. label_of l ≡ label_left (label_of label.now) left) }
{
    if !left {
        return Ok(Label::Auto);
    }
    match label {
        Label::Auto => Ok(Label::Auto),
        Label::Given(name) => Ok(Label::Given(name.copy(alloc)?)),
    }
}

/// Puts the parts of a conjunction in its place.
fn open_both<L>(
    alloc: Global,
    world: &mut World,
    proof: &mut Proof,
    place: usize,
    label: &Label,
    top: Hypothesis,
    parts: (TermId, TermId),
    pending: &mut Vec<Hypothesis>,
    steps: &mut Steps<L>,
) -> Result<(), AllocError>
    requires world { IsWorld world.old }
    requires proof { IsProof world.old proof.old }
    requires pending { Pending world.old proof.old place (label_of label.now) (top ∷ reverse pending.old.items) }
    requires parts { HoldsParts world.old parts }
    requires form { form_of (read world.old top.formula) ≡ both (read world.old parts.0) (read world.old parts.1) }
    ensures follows { Follows world.old proof.old world.new proof.new }
    ensures goes { OnOk result ((m : AName) → Goes world.old proof.old place (label_of label.now) m (top ∷ reverse pending.old.items) world.new proof.new m (reverse pending.new.items)) }
    ensures steps { steps.old ≤ steps.new }
{
    let Some(goal) = proof.goal(place) else {
        unreachable!();
    };
    let other = own_name(alloc, world, goal, label)?;
    let name = top.name.copy(alloc)?;
    let left = top.name.copy(alloc)?;
    let right = other.copy(alloc)?;
    let step = Step::AndLeft(name, Label::Given(left), Label::Given(right));
    surely(world, proof, place, step, steps)?;
    pending.push(Hypothesis {
        name: other,
        formula: parts.1,
    })?;
    pending.push(Hypothesis {
        name: top.name,
        formula: parts.0,
    })?;
    Ok(())
}

/// Puts the body of an `exists` in its place, with a new variable.
fn open_exists<L>(
    alloc: Global,
    world: &mut World,
    proof: &mut Proof,
    place: usize,
    label: &Label,
    top: Hypothesis,
    pending: &mut Vec<Hypothesis>,
    steps: &mut Steps<L>,
) -> Result<(), AllocError>
    requires world { IsWorld world.old }
    requires proof { IsProof world.old proof.old }
    requires pending { Pending world.old proof.old place (label_of label.now) (top ∷ reverse pending.old.items) }
    requires form { (A : Ty) × (t : Read) × (form_of (read world.old top.formula) ≡ exists A t) }
    ensures follows { Follows world.old proof.old world.new proof.new }
    ensures goes { OnOk result ((m : AName) → Goes world.old proof.old place (label_of label.now) m (top ∷ reverse pending.old.items) world.new proof.new m (reverse pending.new.items)) }
    ensures steps { steps.old ≤ steps.new }
{
    let _ = label;
    let name = top.name.copy(alloc)?;
    let given = top.name.copy(alloc)?;
    let step = Step::ExistsLeft(name, Label::Given(given));
    surely(world, proof, place, step, steps)?;
    let formula = formula_at(world, proof, place, &top.name);
    pending.push(Hypothesis {
        name: top.name,
        formula,
    })?;
    Ok(())
}

/// Puts the body of a `nabla` in its place, with a nominal constant.
fn open_nabla<L>(
    alloc: Global,
    world: &mut World,
    proof: &mut Proof,
    place: usize,
    label: &Label,
    top: Hypothesis,
    pending: &mut Vec<Hypothesis>,
    steps: &mut Steps<L>,
) -> Result<(), AllocError>
    requires world { IsWorld world.old }
    requires proof { IsProof world.old proof.old }
    requires pending { Pending world.old proof.old place (label_of label.now) (top ∷ reverse pending.old.items) }
    requires form { (A : Ty) × (t : Read) × (form_of (read world.old top.formula) ≡ nabla A t) }
    ensures follows { Follows world.old proof.old world.new proof.new }
    ensures goes { OnOk result ((m : AName) → Goes world.old proof.old place (label_of label.now) m (top ∷ reverse pending.old.items) world.new proof.new m (reverse pending.new.items)) }
    ensures steps { steps.old ≤ steps.new }
{
    let _ = label;
    let name = top.name.copy(alloc)?;
    let given = top.name.copy(alloc)?;
    let step = Step::NablaLeft(name, Label::Given(given));
    surely(world, proof, place, step, steps)?;
    let formula = formula_at(world, proof, place, &top.name);
    pending.push(Hypothesis {
        name: top.name,
        formula,
    })?;
    Ok(())
}

/// Removes `true`, of which nothing comes.
fn open_true<L>(
    alloc: Global,
    world: &mut World,
    proof: &mut Proof,
    place: usize,
    label: &Label,
    top: &Hypothesis,
    pending: &[Hypothesis],
    steps: &mut Steps<L>,
) -> Result<(), AllocError>
    requires world { IsWorld world.old }
    requires proof { IsProof world.old proof.old }
    requires pending { Pending world.old proof.old place (label_of label.now) (top.now ∷ reverse pending.now) }
    requires form { form_of (read world.old top.now.formula) ≡ truth }
    ensures follows { Follows world.old proof.old world.new proof.new }
    ensures goes { OnOk result ((m : AName) → Goes world.old proof.old place (label_of label.now) m (top.now ∷ reverse pending.now) world.new proof.new m (reverse pending.now)) }
    ensures steps { steps.old ≤ steps.new }
{
    let _ = label;
    let _ = pending;
    forget(alloc, world, proof, place, &top.name, steps)
}

/// Gives a formula that isn't taken apart its name, behind the other hypotheses.
fn open_whole<L>(
    alloc: Global,
    world: &mut World,
    proof: &mut Proof,
    place: usize,
    label: &Label,
    left: bool,
    top: &Hypothesis,
    pending: &[Hypothesis],
    steps: &mut Steps<L>,
) -> Result<(), Stop>
    requires world { IsWorld world.old }
    requires proof { IsProof world.old proof.old }
    requires pending { Pending world.old proof.old place (label_of label.now) (top.now ∷ reverse pending.now) }
    requires form { IsWhole (form_of (read world.old top.now.formula)) }
    ensures follows { Follows world.old proof.old world.new proof.new }
    ensures goes { OnOk result (Goes world.old proof.old place (label_of label.now) (label_left (label_of label.now) left) (top.now ∷ reverse pending.now) world.new proof.new auto (reverse pending.now)) }
    ensures stopped { result ≡ Err Stop.NamesSpent → CantOpen world.old proof.old place (label_left (label_of label.now) left) (top.now ∷ reverse pending.now) }
    ensures steps { steps.old ≤ steps.new }
{
    let _ = pending;
    let next = next_label(alloc, label, left)?;
    let moved = shift(
        alloc,
        world,
        proof,
        place,
        &top.name,
        top.formula,
        next,
        steps,
    )?;
    if moved { Ok(()) } else { Err(Stop::NamesSpent) }
}

/// Takes the first formula apart, or gives it its name. It answers whether the label is still to be given.
fn open_top<L>(
    alloc: Global,
    world: &mut World,
    proof: &mut Proof,
    place: usize,
    label: &Label,
    left: bool,
    top: Hypothesis,
    pending: &mut Vec<Hypothesis>,
    steps: &mut Steps<L>,
) -> Result<bool, Stop>
    requires world { IsWorld world.old }
    requires proof { IsProof world.old proof.old }
    requires pending { Pending world.old proof.old place (label_of label.now) (top ∷ reverse pending.old.items) }
    ensures follows { Follows world.old proof.old world.new proof.new }
    ensures goes { IfOk result (λ still. Goes world.old proof.old place (label_of label.now) (label_left (label_of label.now) left) (top ∷ reverse pending.old.items)
        world.new proof.new (label_left (label_of label.now) still) (reverse pending.new.items)) }
    ensures stopped { result ≡ Err Stop.NamesSpent → CantOpen world.old proof.old place (label_left (label_of label.now) left) (top ∷ reverse pending.old.items) }
    ensures steps { steps.old ≤ steps.new }
{
    match shape(world, top.formula) {
        Form::True => {
            open_true(alloc, world, proof, place, label, &top, pending, steps)?;
            Ok(left)
        }
        Form::And(first, second) => {
            open_both(
                alloc,
                world,
                proof,
                place,
                label,
                top,
                (first, second),
                pending,
                steps,
            )?;
            Ok(left)
        }
        Form::Exists(_, _) => {
            open_exists(alloc, world, proof, place, label, top, pending, steps)?;
            Ok(left)
        }
        Form::Nabla(_, _) => {
            open_nabla(alloc, world, proof, place, label, top, pending, steps)?;
            Ok(left)
        }
        Form::False
        | Form::Or(_, _)
        | Form::Arrow(_, _)
        | Form::Equal(_, _, _)
        | Form::Forall(_, _)
        | Form::Marked(_, _)
        | Form::Other => {
            open_whole(
                alloc, world, proof, place, label, left, &top, pending, steps,
            )?;
            Ok(false)
        }
    }
}

/// Opens hypotheses of the command's own in the goal of this place, the last of the list first. The label is that of
/// the first new hypothesis.
pub(crate) fn open<L>(
    alloc: Global,
    world: &mut World,
    proof: &mut Proof,
    place: usize,
    label: &Label,
    mut pending: Vec<Hypothesis>,
    steps: &mut Steps<L>,
) -> Result<(), Stop>
    requires world { IsWorld world.old }
    requires proof { IsProof world.old proof.old }
    requires pending { Pending world.old proof.old place (label_of label.now) (reverse pending.items) }
    ensures follows { Follows world.old proof.old world.new proof.new }
    ensures opened { OnOk result ((before behind : List AGoal) (k : AGoal) → IsAt world.old proof.old place before k behind →
        OpenedTo (declarations_of world.old) (formulas (map (hypothesis_of world.old) (reverse pending.items))) (label_of label.now)
        (besides (map (hypothesis_of world.old) (reverse pending.items)) k) world.new proof.new place before behind) }
    ensures stopped { result ≡ Err Stop.NamesSpent → CantOpen world.old proof.old place (label_of label.now) (reverse pending.items) }
    ensures steps { steps.old ≤ steps.new }
{
    let mut left = true;
    while let Some(top) = pending.pop() {
        left = open_top(
            alloc,
            world,
            proof,
            place,
            label,
            left,
            top,
            &mut pending,
            steps,
        )?;
    }
    let _ = left;
    Ok(())
}

/// The hypothesis alone.
fn alone(alloc: Global, hypothesis: Hypothesis) -> Result<Vec<Hypothesis>, AllocError>
    ensures { IfOk result (λ list. list.items ≡ hypothesis ∷ []) }
{
    let mut list = Vec::new(alloc);
    list.push(hypothesis)?;
    Ok(list)
}

/// Opens one hypothesis of the command's own in the goal of this place.
pub fn open_one<L>(
    alloc: Global,
    world: &mut World,
    proof: &mut Proof,
    place: usize,
    label: &Label,
    name: Name,
    formula: TermId,
    steps: &mut Steps<L>,
) -> Result<(), Stop>
    requires world { IsWorld world.old }
    requires proof { IsProof world.old proof.old }
    requires formula { Holds world.old formula }
    requires there { HasAt world.old proof.old place name (read world.old formula) }
    requires own { IsOwn (label_of label.now) name }
    ensures follows { Follows world.old proof.old world.new proof.new }
    ensures opened { OnOk result ((before behind : List AGoal) (k : AGoal) → IsAt world.old proof.old place before k behind →
        OpenedTo (declarations_of world.old) (read world.old formula ∷ []) (label_of label.now) (without name k) world.new proof.new place before behind) }
    ensures stopped { result ≡ Err Stop.NamesSpent → (before behind : List AGoal) (k : AGoal) → IsAt world.old proof.old place before k behind →
        Nameless (declarations_of world.old) (read world.old formula ∷ []) (label_of label.now) (without name k) }
    ensures steps { steps.old ≤ steps.new }
{
    let pending = alone(alloc, Hypothesis { name, formula })?;
    open(alloc, world, proof, place, label, pending, steps)
}

/// Opens the hypothesis of this name, which is of the command's own, in the goal of this place.
pub(crate) fn open_named<L>(
    alloc: Global,
    world: &mut World,
    proof: &mut Proof,
    place: usize,
    label: &Label,
    own: &Name,
    steps: &mut Steps<L>,
) -> Result<(), Stop>
    requires world { IsWorld world.old }
    requires proof { IsProof world.old proof.old }
    requires there { (F : Read) × HasAt world.old proof.old place own.now F }
    requires own { IsOwn (label_of label.now) own.now }
    ensures follows { Follows world.old proof.old world.new proof.new }
    ensures opened { OnOk result ((before behind : List AGoal) (k : AGoal) (F : Read) → IsAt world.old proof.old place before k behind → formula_of k own.now ≡ Some F →
        OpenedTo (declarations_of world.old) (F ∷ []) (label_of label.now) (without own.now k) world.new proof.new place before behind) }
    ensures stopped { result ≡ Err Stop.NamesSpent → (before behind : List AGoal) (k : AGoal) (F : Read) → IsAt world.old proof.old place before k behind → formula_of k own.now ≡ Some F →
        Nameless (declarations_of world.old) (F ∷ []) (label_of label.now) (without own.now k) }
    ensures steps { steps.old ≤ steps.new }
{
    let formula = formula_at(world, proof, place, own);
    let name = own.copy(alloc)?;
    open_one(alloc, world, proof, place, label, name, formula, steps)
}
