//! An expression has one reading, none or several, and so a meaning or a cause why it has none.
ghost use Rattle.std.specs.Prelude.{ℕ};
ghost use Rattle.ab_term.specs.Types.{Ty};
ghost use Rattle.ab_term.specs.Terms.{Read};
ghost use Rattle.ab_grammar.specs.Tree.{Tree};
ghost use Rattle.ab_formulas.specs.Declarations.{Declarations};
ghost use Rattle.ab_formulas.specs.Sequents.{Sequent};
ghost use Rattle.ab_meaning.specs.ResolvedNames.{Resolved};
ghost use Rattle.ab_meaning.specs.Scopes.{Scope};
ghost use Rattle.ab_meaning.specs.Readings.{Raw, Making};
ghost use Rattle.ab_meaning.specs.ReadingCounts.{IsTheReading, HasNoReading, IsFirstOpen};
ghost use Rattle.ab_meaning.specs.Refusals.{Refusal};
ghost use Rattle.ab_meaning.specs.Terms.{MeansIn, MeansNothingIn, Asserts, AssertsNothing};
ghost use Rattle.ab_existence.specs.Certainty.{OneHolds, OneOfThreeHolds};

/// AN EXPRESSION HAS ONE READING, NONE OR SEVERAL, whatever its free names stand for, at each type. Where it has several, there
/// is a first name to which two of them give different types.
pub fn readings_are_one_none_or_several()
    ensures { (made : Making) (e : Resolved) (A : Ty) →
        OneOfThreeHolds ((t : Raw) × IsTheReading made e A t) (HasNoReading made e A) ((place : ℕ) × IsFirstOpen made e A place) }
{}

/// EACH EXPRESSION HAS A MEANING, OR A CAUSE why it means nothing, whatever names are known; and in each goal it states a formula,
/// or there is a cause why it states none.
pub fn each_expression_has_a_meaning_or_a_cause()
    ensures meaning { (D : Declarations) (scope : Scope) (e : Tree) (A : Ty) → OneHolds ((t : Read) × MeansIn D scope e A t) ((f : Refusal) × MeansNothingIn scope e A f) }
    ensures statement { (D : Declarations) (s : Sequent) (e : Tree) → OneHolds ((F : Read) × Asserts D s e F) ((f : Refusal) × AssertsNothing D s e f) }
{}
