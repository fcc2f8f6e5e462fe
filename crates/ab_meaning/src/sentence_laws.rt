//! Laws of what expressions mean.
ghost use Rattle.std.specs.Prelude.{◌≡◌, ℕ, [], Ok};
ghost use Rattle.ab_term.specs.Types.{Ty, prop};
ghost use Rattle.ab_term.specs.Typing.{Signature, HasType};
ghost use Rattle.ab_grammar.specs.Tree.{Tree};
ghost use Rattle.ab_meaning.specs.ResolvedNames.{Resolved};
ghost use Rattle.ab_meaning.specs.Scopes.{Scope, resolved};
ghost use Rattle.ab_meaning.specs.Readings.{Making, Raw};
ghost use Rattle.ab_meaning.specs.ReadingCounts.{IsTheReading, HasNoReading, IsFirstOpen};
ghost use Rattle.ab_meaning.specs.Normal.{normal_form};
ghost use Rattle.ab_formulas.specs.Formulas.{IsSentence};
ghost use Rattle.ab_meaning.specs.ClosedScopes.{IsClosedScope};

/// Where what is declared alone is known, a formula that an expression means speaks of no goal.
pub fn statements_are_sentences()
    ensures { (sg : Signature) (s : Scope) → IsClosedScope s → (e : Tree) (named : Resolved) → resolved s [] e ≡ Ok named →
        (made : Making) (raw : Raw) → IsTheReading made named prop raw → HasType sg [] (normal_form sg [] raw) prop → IsSentence sg (normal_form sg [] raw) }
{}

/// There no name is free, so it makes no difference what free names would stand for.
pub fn statements_have_no_free_names()
    ensures one { (s : Scope) → IsClosedScope s → (e : Tree) (named : Resolved) → resolved s [] e ≡ Ok named →
        (made other : Making) (A : Ty) (raw : Raw) → IsTheReading made named A raw → IsTheReading other named A raw }
    ensures none { (s : Scope) → IsClosedScope s → (e : Tree) (named : Resolved) → resolved s [] e ≡ Ok named →
        (made other : Making) (A : Ty) → HasNoReading made named A → HasNoReading other named A }
    ensures several { (s : Scope) → IsClosedScope s → (e : Tree) (named : Resolved) → resolved s [] e ≡ Ok named →
        (made other : Making) (A : Ty) (place : ℕ) → IsFirstOpen made named A place → IsFirstOpen other named A place }
{}
