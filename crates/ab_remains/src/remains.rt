//! What is left of a world once nothing stands at its ends that nothing names.
ghost use Rattle.std.specs.Prelude.{◌≡◌, ◌+◌, ◌≤◌, length};
ghost use Rattle.ab_store.specs.ab_types.specs.Entries.{Table, types as types_in};
ghost use Rattle.ab_store.specs.ab_types.specs.LastTypes.{LosesTypes, HasEnough, types_up_to};
ghost use Rattle.ab_store.specs.Marks.{HasMark, IsNoLater};
ghost use Rattle.ab_store.specs.NamedTypes.{TypesBehind};
ghost use Rattle.ab_logic.specs.Worlds.{IsWorld};
ghost use Rattle.ab_logic.specs.WorldGrowth.{Grows};
ghost use Rattle.ab_logic.specs.declared.world.World.{World as AWorld};
ghost use Rattle.ab_remains.specs.RaisedMarks.{Reaches};
ghost use Rattle.ab_remains.specs.LeftWorlds.{IsCounted, IsLeft, IsNoLonger, HasAllTypes};

use crate::addition_marks::mark_to_additions;
use ab_logic::World;
use ab_store::Mark;
use ab_store::types::{Steps, TypeId, later};

/// Drops the nodes and cells at the ends that neither stood before, as the first mark counts them, nor are counted by the
/// second mark, nor named by what was added behind the first so many additions; then the types at the end, behind the first so
/// many entries of the table and the named type, that none of those nodes and cells names that are left. A step is counted for each
/// type.
pub fn drop_unnamed<L>(
    world: &mut World,
    first: &Mark,
    types: usize,
    additions: usize,
    named: Mark,
    named_type: Option<TypeId>,
    steps: &mut Steps<L>,
)
    requires world { IsWorld world.old }
    requires before { (e : AWorld) × IsWorld e × IsCounted e first.now additions × (types ≡ length e.types) × Grows e world.old }
    requires later { IsNoLater first.now named }
    requires bindings { named.bindings ≡ first.now.bindings }
    requires within { Reaches world.old named }
    requires named_type { types_up_to named_type ≤ length (types_in world.old.types) }
    ensures left { IsLeft world.old world.new }
    ensures reaches { Reaches world.new named }
    ensures enough { HasEnough types named_type world.new.types }
    ensures before { (e : AWorld) → IsWorld e → IsCounted e first.now additions → types ≡ length e.types → Grows e world.old → Grows e world.new }
    ensures least { (v : AWorld) → IsWorld v → v.additions ≡ world.old.additions → Grows v world.old → Reaches v named → IsNoLonger world.new v }
    ensures least_types { (v : AWorld) → IsWorld v → v.additions ≡ world.old.additions → Grows v world.old → Reaches v named → HasEnough types named_type v.types → HasAllTypes world.new v }
    ensures steps { steps.new + length world.new.types ≡ steps.old + length world.old.types }
{
    drop_terms(world, first, additions, named, steps);
    drop_types(world, first, types, named_type, steps);
}

/// Drops the nodes and cells at the ends that neither stood before nor are named. No step is counted.
fn drop_terms<L>(
    world: &mut World,
    first: &Mark,
    additions: usize,
    named: Mark,
    steps: &mut Steps<L>,
)
    requires world { IsWorld world.old }
    requires before { (e : AWorld) × IsWorld e × IsCounted e first.now additions × Grows e world.old }
    requires later { IsNoLater first.now named }
    requires bindings { named.bindings ≡ first.now.bindings }
    requires within { Reaches world.old named }
    ensures left { IsLeft world.old world.new }
    ensures types { world.new.types ≡ world.old.types }
    ensures reaches { Reaches world.new named }
    ensures before { (e : AWorld) → IsWorld e → IsCounted e first.now additions → Grows e world.old → Grows e world.new }
    ensures least { (v : AWorld) → IsWorld v → v.additions ≡ world.old.additions → Grows v world.old → Reaches v named → IsNoLonger world.new v }
    ensures steps { steps.new ≡ steps.old }
{
    let raised = mark_to_additions(world, named, additions);
    let whole = world.store.mark_whole(first, raised);
    world.store.cut_to(&whole, steps);
}

/// Drops the types at the end, behind the first so many entries of the table and the named type, that no node and no cell names.
fn drop_types<L>(
    world: &mut World,
    first: &Mark,
    types: usize,
    named_type: Option<TypeId>,
    steps: &mut Steps<L>,
)
    requires world { IsWorld world.old }
    requires before { (e : AWorld) × IsWorld e × HasMark e.store first.now × (types ≡ length e.types) × Grows e world.old }
    requires named_type { types_up_to named_type ≤ length (types_in world.old.types) }
    ensures left { IsLeft world.old world.new }
    ensures store { world.new.store ≡ world.old.store }
    ensures enough { HasEnough types named_type world.new.types }
    ensures before { (e : AWorld) → types ≡ length e.types → Grows e world.old → Grows e world.new }
    ensures least { (t : Table) → LosesTypes world.old.types t → HasEnough types named_type t → TypesBehind t first.now world.old.store → length world.new.types ≤ length t }
    ensures steps { steps.new + length world.new.types ≡ steps.old + length world.old.types }
{
    let last = later(world.store.last_type(first), named_type);
    world.types.drop_types(types, last, steps);
}
