//! Laws of worlds.
ghost use Rattle.std.specs.Prelude.{◌≡◌, Some, codes, map};
ghost use Rattle.ab_term.specs.Types.{olist};
ghost use Rattle.ab_unifiers.specs.Member.{HasMember};
ghost use Rattle.ab_store.specs.declared.node.TermId.{TermId as AnId};
ghost use Rattle.ab_store.specs.Reading.{reading};
ghost use Rattle.ab_formulas.specs.Declarations.{signature_in};
ghost use Rattle.ab_formulas.specs.Programs.{program_in, HavePrograms};
ghost use Rattle.ab_logic.specs.Additions.{clauses_kept};
ghost use Rattle.ab_logic.specs.Worlds.{IsWorld, read, clause_read, declarations_of};
ghost use Rattle.ab_logic.specs.declared.world.World.{World as AWorld};

/// No cell of a world is bound, so what is said of a term's tree is said of what it reads as.
pub fn worlds_read_as_trees()
    ensures { (w : AWorld) → IsWorld w → (t : AnId) → reading w.types w.store t ≡ read w t }
{}

/// Every world has `member`, `::` and `nil`, each at its type.
pub fn worlds_have_lists()
    ensures member { (w : AWorld) → IsWorld w → HasMember (signature_in (declarations_of w)) }
    ensures nil { (w : AWorld) → IsWorld w → signature_in (declarations_of w) (codes "nil") ≡ Some olist }
{}

/// The clauses of a world's program are such: head and goal are formulas of the specification logic, over their own variables.
/// They are those that were added, in order.
pub fn worlds_have_programs()
    ensures clauses { (w : AWorld) → IsWorld w → HavePrograms (declarations_of w) }
    ensures order { (w : AWorld) → program_in (declarations_of w) ≡ map (clause_read w) (clauses_kept w.additions) }
{}
