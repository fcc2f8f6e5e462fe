//! Laws of typed terms that may hold redexes, and of their eta-long normal forms.

ghost use Rattle.std.specs.Prelude.{List};
ghost use Rattle.ab_term.specs.Types.{Ty};
ghost use Rattle.ab_term.specs.Terms.{Term};
ghost use Rattle.ab_term.specs.Typing.{Signature, HasType};
ghost use Rattle.ab_term.specs.Beta.{Plain, plain};
ghost use Rattle.ab_term.specs.Normal.{FitsType, NormalSteps, normal};

/// The normal form of a well-typed term is canonical, of the same type, and reached by beta steps and eta
/// expansions. A canonical term is well-typed as such a term.
pub fn normal_form_is_reached<Var, Hint>()
    ensures typed { (sg : Signature) (G : List Ty) (A : Ty) (x : Hint) (t : Plain Var Hint) →
        FitsType sg G t A → HasType sg G (normal sg x G t) A }
    ensures reached { (sg : Signature) (G : List Ty) (A : Ty) (x : Hint) (t : Plain Var Hint) →
        FitsType sg G t A → NormalSteps sg x G t (plain (normal sg x G t)) }
    ensures canonical { (sg : Signature) (G : List Ty) (A : Ty) (x : Hint) (t : Term Var Hint) →
        HasType sg G t A → FitsType sg G (plain t) A }
{}
