//! A hypothesis that is a defined atom or a judgement is analysed: the goal is split into its cases, and what each case assumes
//! is opened.
ghost use Rattle.std.specs.Prelude.{◌≤◌, ◌≡◌, ◌≢◌, ◌+◌, ℕ, [], Ok, Err, OnOk};
ghost use Rattle.ab_formulas.specs.Forms.{form_of};
ghost use Rattle.ab_logic.specs.Worlds.{IsWorld, Holds, read};
ghost use Rattle.ab_equations.specs.Labels.{label_of};
ghost use Rattle.ab_steps.specs.ab_kernel.specs.Layout.{history_of, IsProof, goals_of};
ghost use Rattle.ab_meaning.specs.Refusals.{wrong_shape, mark, not_pattern, names_spent};
ghost use Rattle.ab_steps.specs.Progress.{Follows, TookInto, FailsBy, StuckAt};
ghost use Rattle.ab_steps.specs.declared.goal_steps.Attempted.TheVariants.{Taken, Failed, Stuck};
ghost use Rattle.ab_hypothesis.specs.OwnNames.{IsOwn};
ghost use Rattle.ab_hypothesis.specs.HypothesisProgress.{HasAt};
ghost use Rattle.ab_hypothesis.specs.CaseAnswers.{IsAtom, TakenApart, CantTake};
ghost use Rattle.ab_hypothesis.specs.AnalysedGoals.{FirstWait, FirstOpened, FirstNameless, split_own};
ghost use Rattle.ab_hypothesis.specs.declared.outcome.Outcome.{Outcome as AnOutcome};
ghost use Rattle.ab_hypothesis.specs.declared.stop.Stop.{Stop as AStop};

use crate::beginnings::{begin, first_over_cells};
use crate::openings::open_named;
use crate::outcome::Outcome;
use crate::stop::Stop;
use ab_equations::Label;
use ab_logic::World;
use ab_norm::name::Name;
use ab_norm::store::TermId;
use ab_norm::types::Steps;
use ab_steps::kernel::{Proof, Step};
use ab_steps::{Attempted, attempt_solving};
use std::alloc::{AllocError, Global};

/// Splits the first goal by a hypothesis of the command's own. What each case assumes has its name.
fn split_by<L>(
    alloc: Global,
    world: &mut World,
    proof: &mut Proof,
    own: &Name,
    steps: &mut Steps<L>,
) -> Result<Attempted, AllocError>
    requires world { IsWorld world.old }
    requires proof { IsProof world.old proof.old }
    requires open { goals_of world.old proof.old ≢ [] }
    ensures follows { Follows world.old proof.old world.new proof.new }
    ensures took { (n : ℕ) → result ≡ Ok (Taken n) → TookInto world.old proof.old world.new proof.new 0 (split_own own.now) n }
    ensures failed { (i : ℕ) → result ≡ Ok (Failed i) → FailsBy world.old proof.old 0 (split_own own.now) i }
    ensures stuck { (i : ℕ) → result ≡ Ok (Stuck i) → StuckAt world.old proof.old 0 (split_own own.now) i }
    ensures steps { steps.old ≤ steps.new }
{
    let name = own.copy(alloc)?;
    let given = own.copy(alloc)?;
    let step = Step::DefLeft(name, Label::Given(given));
    attempt_solving(world, proof, 0, step, steps)
}

/// Opens the hypothesis of the command's own in each of so many goals, from the first on. Each gets the label.
fn open_each<L>(
    alloc: Global,
    world: &mut World,
    proof: &mut Proof,
    label: &Label,
    own: &Name,
    count: usize,
    steps: &mut Steps<L>,
) -> Result<(), Stop>
    requires world { IsWorld world.old }
    requires proof { IsProof world.old proof.old }
    requires own { IsOwn (label_of label.now) own.now }
    requires wait { FirstWait world.old proof.old own.now count }
    ensures follows { Follows world.old proof.old world.new proof.new }
    ensures opened { OnOk result (FirstOpened world.old proof.old (label_of label.now) count world.new proof.new) }
    ensures stopped { result ≡ Err AStop.NamesSpent → FirstNameless world.old proof.old (label_of label.now) count }
    ensures steps { steps.old ≤ steps.new }
{
    for place in 0..count {
        open_named(alloc, world, proof, place, label, own, steps)?;
    }
    Ok(())
}

/// Splits the first goal by a hypothesis that may be a defined atom or a judgement, and opens what each case assumes.
pub(crate) fn analyse<L>(
    alloc: Global,
    world: &mut World,
    proof: &mut Proof,
    label: &Label,
    name: &Name,
    formula: TermId,
    keep: bool,
    steps: &mut Steps<L>,
) -> Result<Outcome, Stop>
    requires world { IsWorld world.old }
    requires proof { IsProof world.old proof.old }
    requires open { goals_of world.old proof.old ≢ [] }
    requires formula { Holds world.old formula }
    requires there { HasAt world.old proof.old 0 name.now (read world.old formula) }
    requires form { IsAtom (form_of (read world.old formula)) }
    ensures follows { Follows world.old proof.old world.new proof.new }
    ensures taken { result ≡ Ok AnOutcome.Taken → TakenApart world.old proof.old world.new proof.new (label_of label.now) keep name.now (read world.old formula) }
    ensures shapeless { result ≡ Ok AnOutcome.Shapeless → CantTake world.old proof.old (label_of label.now) keep name.now (read world.old formula) wrong_shape }
    ensures marked { result ≡ Ok AnOutcome.Marked → CantTake world.old proof.old (label_of label.now) keep name.now (read world.old formula) mark }
    ensures stuck { (i : ℕ) → result ≡ Ok (AnOutcome.Stuck i) → CantTake world.old proof.old (label_of label.now) keep name.now (read world.old formula) (not_pattern (i + 1)) }
    ensures stopped { result ≡ Err AStop.NamesSpent → CantTake world.old proof.old (label_of label.now) keep name.now (read world.old formula) names_spent }
    ensures steps { steps.old ≤ steps.new }
{
    let own = begin(alloc, world, proof, label, name, formula, keep, steps)?;
    first_over_cells(world, proof);
    match split_by(alloc, world, proof, &own, steps)? {
        Attempted::Taken(count) => {
            open_each(alloc, world, proof, label, &own, count, steps)?;
            Ok(Outcome::Taken)
        }
        // The rule's second condition asks for a defined atom or a judgement, the third for a mark that allows it.
        Attempted::Failed(condition) => {
            if condition == 2 {
                Ok(Outcome::Shapeless)
            } else {
                Ok(Outcome::Marked)
            }
        }
        Attempted::Stuck(place) => Ok(Outcome::Stuck(place)),
    }
}
