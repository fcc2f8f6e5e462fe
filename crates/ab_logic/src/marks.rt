//! Size marks.
ghost use Rattle.std.specs.Prelude.{◌≡◌, ◌↔◌, IsTrue};
ghost use Rattle.ab_formulas.specs.Marks.{Serves, plain, star_of, at_of, plus_of, hash_of};
ghost use Rattle.ab_logic.specs.Forms.{sign_of};

/// The mark of an atom or a judgement, with its level.
#[derive(Clone, Copy)]
pub enum Sign {
    Plain,
    Star(u128),
    At(u128),
    Plus(u128),
    Hash(u128),
}

/// Whether the mark that is given serves the one that is asked for.
pub fn marks_serve(asked: Sign, given: Sign) -> bool
    ensures { IsTrue result ↔ Serves (sign_of asked) (sign_of given) }
{
    match asked {
        Sign::Plain => serves_plain(given),
        Sign::Star(level) => serves_star(level, given),
        Sign::At(level) => serves_at(level, given),
        Sign::Plus(level) => serves_plus(level, given),
        Sign::Hash(level) => serves_hash(level, given),
    }
}

/// Whether the mark serves where none is asked for.
fn serves_plain(given: Sign) -> bool
    ensures { IsTrue result ↔ Serves plain (sign_of given) }
{
    match given {
        Sign::Plain | Sign::Star(_) | Sign::At(_) => true,
        Sign::Plus(_) | Sign::Hash(_) => false,
    }
}

/// Whether the mark serves where `*` is asked for.
fn serves_star(asked: u128, given: Sign) -> bool
    ensures { IsTrue result ↔ Serves (star_of asked) (sign_of given) }
{
    match given {
        Sign::Star(level) => asked == level,
        Sign::Plain | Sign::At(_) | Sign::Plus(_) | Sign::Hash(_) => false,
    }
}

/// Whether the mark serves where `@` is asked for.
fn serves_at(asked: u128, given: Sign) -> bool
    ensures { IsTrue result ↔ Serves (at_of asked) (sign_of given) }
{
    match given {
        Sign::Star(level) | Sign::At(level) => asked == level,
        Sign::Plain | Sign::Plus(_) | Sign::Hash(_) => false,
    }
}

/// Whether the mark serves where `+` is asked for.
fn serves_plus(asked: u128, given: Sign) -> bool
    ensures { IsTrue result ↔ Serves (plus_of asked) (sign_of given) }
{
    match given {
        Sign::Plain => true,
        Sign::Plus(level) => asked == level,
        Sign::Star(_) | Sign::At(_) | Sign::Hash(_) => false,
    }
}

/// Whether the mark serves where `#` is asked for.
fn serves_hash(asked: u128, given: Sign) -> bool
    ensures { IsTrue result ↔ Serves (hash_of asked) (sign_of given) }
{
    match given {
        Sign::Plain => true,
        Sign::Hash(level) => asked == level,
        Sign::Star(_) | Sign::At(_) | Sign::Plus(_) => false,
    }
}
