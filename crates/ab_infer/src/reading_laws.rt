//! Laws of readings and their normal forms, each as the contract of a function that does nothing.
ghost use Rattle.std.specs.Prelude.{◌≡◌, ℕ, [], List, codes};
ghost use Rattle.ab_term.specs.Names.{support};
ghost use Rattle.ab_term.specs.Normal.{FitsType, normal};
ghost use Rattle.ab_term.specs.Translation.{EqualPastHints};
ghost use Rattle.ab_term.specs.Types.{Ty, prop};
ghost use Rattle.ab_term.specs.Typing.{Signature, HasType};
ghost use Rattle.ab_term.specs.Variables.{variables};
ghost use Rattle.ab_norm.specs.ab_types.specs.Entries.{Table};
ghost use Rattle.ab_norm.specs.ab_store.specs.Reading.{reading};
ghost use Rattle.ab_norm.specs.ab_store.specs.Trees.{Contents, tree_of};
ghost use Rattle.ab_formulas.specs.Formulas.{IsFormula};
ghost use Rattle.ab_meaning.specs.ReadingCounts.{IsTheReading, HasNoReading, IsFirstOpen};
ghost use Rattle.ab_meaning.specs.ResolvedNames.{Name, Resolved};
ghost use Rattle.ab_meaning.specs.Normal.{normal_form};
ghost use Rattle.ab_meaning.specs.Readings.{Raw, Making, Reads};
ghost use Rattle.ab_meaning.specs.Types.{PropFree};
ghost use Rattle.ab_infer.specs.Heads.{HeadsFit, MakesTyped, AreRawHeads, KnownAre, IsOrdinary, IsFixed};
ghost use Rattle.ab_infer.specs.Outcomes.{nominal_of, IsNormal, IsUnboundHead};

use ab_norm::store::TermId;

/// The normal form of a well-typed term is canonical, of its type; and past hints it is the one by instances.
pub fn normal_forms_are_canonical()
    ensures typed { (sg : Signature) (G : List Ty) (A : Ty) (t : Raw) → FitsType sg G t A → HasType sg G (normal_form sg G t) A }
    ensures past_hints { (sg : Signature) (G : List Ty) (A : Ty) (t : Raw) → FitsType sg G t A →
        EqualPastHints (normal_form sg G t) (normal sg (codes "x") G t) }
{}

/// A reading is well-typed at its type.
pub fn readings_are_typed()
    ensures { (sg : Signature) (made : Making) (types : Name → Ty) → MakesTyped sg made →
        (G : List Ty) (e : Resolved) (t : Raw) (A : Ty) (As : List Ty) → HeadsFit sg e → Reads made types G e t A As → FitsType sg G t A }
{}

/// Of heads of these kinds, a normal form has none but those of the term: so at `prop` it is a formula, and it holds
/// variables and nominal constants only where the term does.
pub fn normal_forms_keep_heads()
    ensures formula { (sg : Signature) (t : Raw) → FitsType sg [] t prop → AreRawHeads IsOrdinary t → IsFormula sg (normal_form sg [] t) }
    ensures variables { (sg : Signature) (G : List Ty) (t : Raw) → AreRawHeads IsFixed t → variables (normal_form sg G t) ≡ [] }
    ensures names { (sg : Signature) (G : List Ty) (t : Raw) → AreRawHeads IsFixed t → support (normal_form sg G t) ≡ [] }
{}

/// The heads of a reading are those of the expression, what free names stand for, equations and quantifiers, of which
/// none is over a type that holds `prop`.
pub fn readings_keep_heads()
    ensures ordinary { (made : Making) (types : Name → Ty) → ((x : Name) (A : Ty) → PropFree A → IsOrdinary (made x A)) →
        (G : List Ty) (e : Resolved) (t : Raw) (A : Ty) (As : List Ty) → KnownAre IsOrdinary (Unit {0}) e → Reads made types G e t A As → AreRawHeads IsOrdinary t }
    ensures fixed { (made : Making) (types : Name → Ty) →
        (G : List Ty) (e : Resolved) (t : Raw) (A : Ty) (As : List Ty) → KnownAre IsFixed ⊥ e → Reads made types G e t A As → AreRawHeads IsFixed t }
{}

/// That there is one reading, that there is none, and that there are several exclude one another.
pub fn readings_exclude_one_another()
    ensures one { (e : Resolved) (A : Ty) (t : Raw) → IsTheReading nominal_of e A t → HasNoReading nominal_of e A → ⊥ }
    ensures several { (e : Resolved) (A : Ty) (p : ℕ) → IsFirstOpen nominal_of e A p → HasNoReading nominal_of e A → ⊥ }
    ensures both { (e : Resolved) (A : Ty) (t : Raw) (p : ℕ) → IsTheReading nominal_of e A t → IsFirstOpen nominal_of e A p → ⊥ }
{}

/// Where no cell that is known in the expression is bound, the term that is built reads as its tree, the normal form.
pub fn terms_read_as_normal_forms()
    ensures { (types : Table) (store : Contents) (e : Resolved) (A : Ty) (t : TermId) →
        KnownAre (IsUnboundHead store) (Unit {0}) e → IsNormal types store e A t → reading types store t ≡ tree_of types store t }
{}
