//! Laws of derivations, which no other contract carries.
ghost use Rattle.std.specs.Prelude.{◌≡◌, All};
ghost use Rattle.ab_unifiers.specs.Member.{HasMember};
ghost use Rattle.ab_formulas.specs.Declarations.{Declarations, HaveSentences, HaveDefinitions, signature_in};
ghost use Rattle.ab_formulas.specs.Programs.{HavePrograms};
ghost use Rattle.ab_logic.specs.Worlds.{declarations_of, IsWorld};
ghost use Rattle.ab_logic.specs.WorldGrowth.{Grows};
ghost use Rattle.ab_formulas.specs.Sequents.{IsSequent};
ghost use Rattle.ab_logic.specs.declared.world.World.{World};
ghost use Rattle.ab_theory.specs.Growth.{AddsNoClause};
ghost use Rattle.ab_theory.specs.Derivations.{Derivation, root, Valid, open_goals};
ghost use Rattle.ab_kernel.specs.Layout.{Held, HoldsProof, IsProof, history_of};

/// What a proof names is there in each later world, and stands for the same; and where no clause of the program was added
/// since, the proof is one there.
pub fn a_proof_outlives_its_world()
    ensures held { (w v : World) → Grows w v → (p : Held) → HoldsProof w p → HoldsProof v p }
    ensures proof { (w v : World) → Grows w v → AddsNoClause (declarations_of w) (declarations_of v) → (p : Held) → IsProof w p → IsProof v p }
    ensures history { (w v : World) → Grows w v → (p : Held) → HoldsProof w p → history_of v p ≡ history_of w p }
{}

/// The goals that are open in a valid derivation are sequents, where its root is one; so are those of a proof.
pub fn open_goals_are_sequents()
    ensures derivation { (D : Declarations) → HaveSentences D → HaveDefinitions D → HavePrograms D → HasMember (signature_in D) →
        (d : Derivation) → Valid D d → IsSequent D (root d) → All (IsSequent D) (open_goals d) }
    ensures proof { (w : World) → IsWorld w → (p : Held) → IsProof w p → All (IsSequent (declarations_of w)) (open_goals (history_of w p).tree) }
{}
