//! The level of a new mark in a goal: one above the greatest of its kind.
ghost use Rattle.std.specs.Prelude.{◌≡◌, ◌^◌, ◌≤◌, MatchOption};
ghost use Rattle.ab_norm.specs.ab_types.specs.Entries.{Table};
ghost use Rattle.ab_norm.specs.ab_store.specs.Trees.{Holds, tree_of};
ghost use Rattle.ab_logic.specs.Forms.{sign_of};
ghost use Rattle.ab_formulas.specs.Marks.{marks_of};
ghost use Rattle.ab_logic.specs.SequentReadings.{HoldsSequent, sequent_of};
ghost use Rattle.ab_theory.specs.Levels as plain;
ghost use Rattle.ab_theory.specs.Levels.{greater, greatest, signs_in};
ghost use Rattle.ab_sequents.specs.Kinds.{level_by};

use crate::mark_order::{Seen, look_at};
use ab_logic::{Sequent, Sign, World};
use ab_norm::store::{Store, TermId};

/// What a mark is put on for.
#[derive(Clone, Copy)]
pub enum Kind {
    /// Induction: marks `*` and `@`.
    Induction,
    /// Coinduction: marks `+` and `#`.
    Coinduction,
}

/// The level of a new mark of the kind in the goal. There is none exactly where it would pass the greatest number of 128 bits.
pub fn next_level(world: &World, kind: Kind, sequent: &Sequent) -> Option<u128>
    requires { HoldsSequent world.now sequent.now }
    ensures { MatchOption result (2 ^ 128 ≤ plain.next_level (level_by kind) (sequent_of world.now sequent.now))
        (λ level. level ≡ plain.next_level (level_by kind) (sequent_of world.now sequent.now)) }
{
    let mut level = greatest_in(&world.store, kind, sequent.conclusion);
    for h in sequent.hypotheses.as_slice() {
        level = greater(level, greatest_in(&world.store, kind, h.formula));
    }
    level.checked_add(1)
}

/// The greatest level of the kind in the formula, 0 where it has no mark of the kind.
fn greatest_in(store: &Store, kind: Kind, id: TermId) -> u128
    requires { Holds store.now id }
    ensures { (types : Table) → result ≡ greatest (level_by kind) (signs_in (marks_of (tree_of types store.now id))) }
{
    match look_at(store, id) {
        Seen::Nowhere => 0,
        Seen::AtAtom(sign) => level_of(kind, sign),
        Seen::AtJudgement(sign) => level_of(kind, sign),
        Seen::Below(inner) => greatest_in(store, kind, inner),
        Seen::InBoth(left, right) => greater(
            greatest_in(store, kind, left),
            greatest_in(store, kind, right),
        ),
    }
}

/// The level of a mark that is of the kind; 0 of any other.
fn level_of(kind: Kind, sign: Sign) -> u128
    ensures { result ≡ level_by kind (sign_of sign) }
{
    match kind {
        Kind::Induction => match sign {
            Sign::Star(level) | Sign::At(level) => level,
            Sign::Plain | Sign::Plus(_) | Sign::Hash(_) => 0,
        },
        Kind::Coinduction => match sign {
            Sign::Plus(level) | Sign::Hash(level) => level,
            Sign::Plain | Sign::Star(_) | Sign::At(_) => 0,
        },
    }
}

/// The greater of the two.
fn greater(a: u128, b: u128) -> u128
    ensures { result ≡ greater a b }
{
    if a < b { b } else { a }
}
