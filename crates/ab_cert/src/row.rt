//! Stretches of a line that are still to be written, all lent, and rows: a piece, and what is written behind it.
ghost use Rattle.std.specs.Prelude.{◌≡◌};

use crate::clause::{CertReplace, CertVar};
use crate::head::{CertHead, CertSign};
use crate::step::Label;
use crate::term_tree::{CertTree, TermNode};
use crate::type_tree::{TypeNode, TypeTree};
use ab_name::Name;

/// A piece of a line.
#[derive(Clone, Copy)]
pub(crate) enum Piece<'a> {
    Bytes(&'a [u8]),
    Number(u128),
}

/// Things of one sort that are written one behind another.
#[derive(Clone, Copy)]
pub(crate) enum Series<'a> {
    TypeNodes(&'a [TypeNode]),
    TermNodes(&'a [TermNode]),
    Names(&'a [Name]),
    Labels(&'a [Label]),
    Numbers(&'a [u32]),
    Variables(&'a [CertVar]),
    Replaces(&'a [CertReplace]),
}

/// A stretch of a line.
#[derive(Clone, Copy)]
pub(crate) enum Stretch<'a> {
    Nothing,
    Number(u128),
    Name(&'a Name),
    Label(&'a Label),
    Flag(bool),
    /// Whether a block is inductive.
    Letter(bool),
    Type(&'a TypeTree),
    Head(&'a CertHead),
    Sign(&'a CertSign),
    Term(&'a CertTree),
    /// The number of the things, and then these.
    Listing(Series<'a>),
    /// The things alone.
    Each(Series<'a>),
}

/// A piece, and the stretches behind it.
#[derive(Clone, Copy)]
pub(crate) struct Row<'a> {
    pub head: Piece<'a>,
    pub first: Stretch<'a>,
    pub second: Stretch<'a>,
    pub third: Stretch<'a>,
    pub fourth: Stretch<'a>,
}

/// A piece and three stretches.
pub(crate) fn make_row<'a>(
    head: Piece<'a>,
    first: Stretch<'a>,
    second: Stretch<'a>,
    third: Stretch<'a>,
) -> Row<'a>
    ensures { result ≡ record {
      head = head.entry;
      first = first.entry;
      second = second.entry;
      third = third.entry;
      fourth = Stretch.Nothing;
    } }
{
    Row {
        head,
        first,
        second,
        third,
        fourth: Stretch::Nothing,
    }
}
