//! Laws of what expressions mean in a goal.
ghost use Rattle.std.specs.Prelude.{Contains};
ghost use Rattle.ab_term.specs.Types.{Ty, prop};
ghost use Rattle.ab_term.specs.Terms.{Read};
ghost use Rattle.ab_grammar.specs.Tree.{Tree};
ghost use Rattle.ab_meaning.specs.Types.{PropFree};
ghost use Rattle.ab_formulas.specs.Declarations.{Declarations, signature_in};
ghost use Rattle.ab_formulas.specs.Formulas.{IsFormula};
ghost use Rattle.ab_formulas.specs.Sequents.{Variable, Sequent, IsSequent, Fits};
ghost use Rattle.ab_meaning.specs.Terms.{Means};
ghost use Rattle.ab_infer.specs.Lists.{HasLists};

/// What an expression means in a goal is well-typed, holds no variables but the goal's, and gives no nominal number a second
/// type. At the type of formulas it is a formula, where no variable of the goal is of a type that holds formulas.
pub fn meanings_fit_their_goals()
    ensures fits { (D : Declarations) → HasLists D → (s : Sequent) → IsSequent D s → (e : Tree) (A : Ty) (t : Read) → Means D s e A t → Fits D s t A }
    ensures formulas { (D : Declarations) → HasLists D → (s : Sequent) → ((x : Variable) → Contains s.variables x → PropFree x.type) →
        (e : Tree) (F : Read) → Means D s e prop F → IsFormula (signature_in D) F }
{}
