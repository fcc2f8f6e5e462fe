//! Which marks let an atom give way to the body of its definition, and which mark the body's atoms get.
ghost use Rattle.std.specs.Prelude.{◌≡◌, ◌↔◌, IsTrue};
ghost use Rattle.ab_logic.specs.Forms.{sign_of};
ghost use Rattle.ab_formulas.specs.BodyMarks.{MayBeAnalysed, MayBeUnfolded, mark_below, mark_above};

use ab_logic::Sign;

/// Whether an atom with the mark may be analysed.
pub fn may_be_analysed(mark: Sign) -> bool
    ensures { IsTrue result ↔ MayBeAnalysed (sign_of mark) }
{
    match mark {
        Sign::Plain | Sign::Star(_) | Sign::At(_) => true,
        Sign::Plus(_) | Sign::Hash(_) => false,
    }
}

/// Whether a conclusion with the mark may be unfolded.
pub fn may_be_unfolded(mark: Sign) -> bool
    ensures { IsTrue result ↔ MayBeUnfolded (sign_of mark) }
{
    match mark {
        Sign::Plain | Sign::Hash(_) => true,
        Sign::Star(_) | Sign::At(_) | Sign::Plus(_) => false,
    }
}

/// The mark of the atoms of a body, by that of an atom that is analysed.
pub fn mark_below(mark: Sign) -> Sign
    ensures { sign_of result ≡ mark_below (sign_of mark) }
{
    match mark {
        Sign::Star(level) | Sign::At(level) => Sign::Star(level),
        Sign::Plain | Sign::Plus(_) | Sign::Hash(_) => Sign::Plain,
    }
}

/// The mark of the atoms of a body, by that of a conclusion that is unfolded.
pub fn mark_above(mark: Sign) -> Sign
    ensures { sign_of result ≡ mark_above (sign_of mark) }
{
    match mark {
        Sign::Hash(level) => Sign::Plus(level),
        Sign::Plain | Sign::Star(_) | Sign::At(_) | Sign::Plus(_) => Sign::Plain,
    }
}
