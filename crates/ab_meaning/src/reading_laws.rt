//! Laws of readings, each as the contract of a function that does nothing.
ghost use Rattle.std.specs.Prelude.{◌≡◌, List};
ghost use Rattle.ab_term.specs.Types.{Ty};
ghost use Rattle.ab_meaning.specs.ResolvedNames.{Name, Resolved};
ghost use Rattle.ab_meaning.specs.Readings.{Raw, Making, Reads};

/// Readings of one expression that give the same types to binders and free names are one term, at one type.
pub fn types_tell_readings_apart()
    ensures { (made : Making) (types others : Name → Ty) (G : List Ty) (e : Resolved) (t u : Raw) (A B : Ty) (As : List Ty) →
        Reads made types G e t A As → Reads made others G e u B As → (t ≡ u) × (A ≡ B) }
{}
