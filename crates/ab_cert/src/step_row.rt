//! The rows of steps and of clauses.
ghost use Rattle.std.specs.Prelude.{◌≡◌, ◌∷◌};
ghost use Rattle.ab_cert.specs.Values.{step_of, clause_of};
ghost use Rattle.ab_cert.specs.Pieces.{step_pieces, clause_pieces};
ghost use Rattle.ab_cert.specs.Writing.{row_pieces};

use crate::clause::CertClause;
use crate::row::{Piece, Row, Series, Stretch, make_row};
use crate::step::{CertStep, Label};
use ab_name::Name;

/// The row of a step: the number of its rule, and its fields.
pub(crate) fn step_row(step: &CertStep) -> Row<'_>
    ensures { row_pieces result ≡ step_pieces (step_of step.now) }
{
    use Stretch::{Flag, Label, Listing, Name, Nothing, Number, Term};
    use Piece::Number as Rule;
    match step {
        CertStep::Initial(h) => make_row(Rule(1), Name(h), Nothing, Nothing),
        CertStep::TrueRight => make_row(Rule(2), Nothing, Nothing, Nothing),
        CertStep::FalseLeft(h) => make_row(Rule(3), Name(h), Nothing, Nothing),
        CertStep::AndRight => make_row(Rule(4), Nothing, Nothing, Nothing),
        CertStep::AndLeft(h, l, m) => make_row(Rule(5), Name(h), Label(l), Label(m)),
        CertStep::OrRight(left) => make_row(Rule(6), Flag(*left), Nothing, Nothing),
        CertStep::OrLeft(h, l) => make_row(Rule(7), Name(h), Label(l), Nothing),
        CertStep::ArrowRight(l) => make_row(Rule(8), Label(l), Nothing, Nothing),
        CertStep::ArrowLeft(h, l) => make_row(Rule(9), Name(h), Label(l), Nothing),
        CertStep::ForallRight => make_row(Rule(10), Nothing, Nothing, Nothing),
        CertStep::ForallLeft(h, t, l) => make_row(Rule(11), Name(h), Term(t), Label(l)),
        CertStep::ExistsRight(t) => make_row(Rule(12), Term(t), Nothing, Nothing),
        CertStep::ExistsLeft(h, l) => make_row(Rule(13), Name(h), Label(l), Nothing),
        CertStep::NablaRight => make_row(Rule(14), Nothing, Nothing, Nothing),
        CertStep::NablaLeft(h, l) => make_row(Rule(15), Name(h), Label(l), Nothing),
        CertStep::EqualRight => make_row(Rule(16), Nothing, Nothing, Nothing),
        CertStep::EqualLeft(h) => make_row(Rule(17), Name(h), Nothing, Nothing),
        CertStep::DefRight(i) => make_row(Rule(18), Number(*i as u128), Nothing, Nothing),
        CertStep::DefLeft(h, l) => make_row(Rule(19), Name(h), Label(l), Nothing),
        CertStep::Induction(ns, ls) => make_row(
            Rule(20),
            Listing(Series::Numbers(ns.as_slice())),
            Listing(Series::Labels(ls.as_slice())),
            Nothing,
        ),
        CertStep::Coinduction(ls) => make_row(
            Rule(21),
            Listing(Series::Labels(ls.as_slice())),
            Nothing,
            Nothing,
        ),
        CertStep::CutFormula(t, l) => make_row(Rule(22), Term(t), Label(l), Nothing),
        CertStep::UseTheorem(n, l) => make_row(Rule(23), Name(n), Label(l), Nothing),
        CertStep::Weaken(h) => make_row(Rule(24), Name(h), Nothing, Nothing),
        CertStep::SpecCut(h, k, l) => make_row(Rule(25), Name(h), Name(k), Label(l)),
        CertStep::SpecInst(h, rs, l) => make_row(
            Rule(26),
            Name(h),
            Listing(Series::Replaces(rs.as_slice())),
            Label(l),
        ),
        CertStep::SpecMonotone(h, t, l) => make_row(Rule(27), Name(h), Term(t), Label(l)),
        CertStep::Skip => make_row(Rule(28), Nothing, Nothing, Nothing),
    }
}

/// The row of a clause behind its word.
pub(crate) fn clause_row<'a>(word: &'a [u8], clause: &'a CertClause) -> Row<'a>
    ensures { row_pieces result ≡ word.now ∷ clause_pieces (clause_of clause.now) }
{
    make_row(
        Piece::Bytes(word),
        Stretch::Listing(Series::Variables(clause.variables.as_slice())),
        Stretch::Term(&clause.head),
        Stretch::Term(&clause.body),
    )
}
