//! The pieces and the rows of types, heads and terms, and of each stretch of a line.
ghost use Rattle.std.specs.Prelude.{◌≡◌, ◌∷◌, ◌++◌, []};
ghost use Rattle.ab_cert.specs.Signs.{head_of};
ghost use Rattle.ab_cert.specs.TypeNodes.{type_node_piece};
ghost use Rattle.ab_cert.specs.TermNodes.{node_of, node_pieces};
ghost use Rattle.ab_cert.specs.Values.{label_of};
ghost use Rattle.ab_cert.specs.Pieces.{head_pieces, label_piece, flag_piece, block_piece};
ghost use Rattle.ab_cert.specs.Writing.{piece_of, sign_pieces, series_length, series_pieces, stretch_pieces, row_pieces, IsRow};

use crate::head::{CertHead, CertSign};
use crate::row::{Piece, Row, Series, Stretch, make_row};
use crate::step::Label;
use crate::term_tree::TermNode;
use crate::type_tree::TypeNode;

/// The piece of a label.
fn label_text(label: &Label) -> Piece<'_>
    ensures { piece_of result ≡ label_piece (label_of label.now) }
{
    match label {
        Label::Auto => Piece::Bytes(b"-"),
        Label::Given(name) => Piece::Bytes(name.as_str().as_bytes()),
    }
}

/// The piece of a flag.
fn flag_text(flag: bool) -> Piece<'static>
    ensures { piece_of result ≡ flag_piece flag }
{
    Piece::Bytes(if flag { b"1" } else { b"0" })
}

/// The piece that says whether a block is inductive.
fn letter_text(inductive: bool) -> Piece<'static>
    ensures { piece_of result ≡ block_piece inductive }
{
    Piece::Bytes(if inductive { b"i" } else { b"c" })
}

/// How many things there are.
fn count_of(series: Series<'_>) -> usize
    ensures { result ≡ series_length series.entry }
{
    match series {
        Series::TypeNodes(nodes) => nodes.len(),
        Series::TermNodes(nodes) => nodes.len(),
        Series::Names(names) => names.len(),
        Series::Labels(labels) => labels.len(),
        Series::Numbers(numbers) => numbers.len(),
        Series::Variables(variables) => variables.len(),
        Series::Replaces(replaces) => replaces.len(),
    }
}

/// The row of a piece alone.
fn lone_row(head: Piece<'_>) -> Row<'_>
    ensures { row_pieces result ≡ piece_of head.entry ∷ [] }
{
    make_row(head, Stretch::Nothing, Stretch::Nothing, Stretch::Nothing)
}

/// The piece of a node of a type.
fn type_node_text(node: &TypeNode) -> Piece<'_>
    ensures { piece_of result ≡ type_node_piece node.now }
{
    match node {
        TypeNode::Base(kind) => Piece::Bytes(kind.as_str().as_bytes()),
        TypeNode::Arrow => Piece::Bytes(b">"),
    }
}

/// The row of a logical constant: its word, and what it carries.
fn sign_row(sign: &CertSign) -> Row<'_>
    ensures { row_pieces result ≡ sign_pieces sign.now }
{
    use Stretch::{Nothing, Number, Type};
    let (word, detail): (&[u8], Stretch<'_>) = match sign {
        CertSign::True => (b"true", Nothing),
        CertSign::False => (b"false", Nothing),
        CertSign::And => (b"and", Nothing),
        CertSign::Or => (b"or", Nothing),
        CertSign::Arrow => (b"arrow", Nothing),
        CertSign::Equal(ty) => (b"equal", Type(ty)),
        CertSign::Forall(ty) => (b"forall", Type(ty)),
        CertSign::Exists(ty) => (b"exists", Type(ty)),
        CertSign::Nabla(ty) => (b"nabla", Type(ty)),
        CertSign::Judge => (b"judge", Nothing),
        CertSign::Focus => (b"focus", Nothing),
        CertSign::Star(level) => (b"star", Number(*level)),
        CertSign::At(level) => (b"at", Number(*level)),
        CertSign::Plus(level) => (b"plus", Number(*level)),
        CertSign::Hash(level) => (b"hash", Number(*level)),
        CertSign::Pi(ty) => (b"pi", Type(ty)),
        CertSign::Imply => (b"imply", Nothing),
        CertSign::With => (b"with", Nothing),
    };
    make_row(Piece::Bytes(word), detail, Nothing, Nothing)
}

/// The row of a head.
fn head_row(head: &CertHead) -> Row<'_>
    ensures { row_pieces result ≡ head_pieces (head_of head.now) }
{
    use Stretch::{Name, Nothing, Number, Sign, Type};
    match head {
        CertHead::Const(name) => make_row(Piece::Bytes(b"c"), Name(name), Nothing, Nothing),
        CertHead::Logic(sign) => make_row(Piece::Bytes(b"l"), Sign(sign), Nothing, Nothing),
        CertHead::Nominal(number, ty) => {
            make_row(Piece::Bytes(b"n"), Number(*number), Type(ty), Nothing)
        }
        CertHead::Cell(name) => make_row(Piece::Bytes(b"v"), Name(name), Nothing, Nothing),
        CertHead::Index(index) => make_row(
            Piece::Bytes(b"i"),
            Number(*index as u128),
            Nothing,
            Nothing,
        ),
    }
}

/// The row of a node of a term, and what is written behind it.
fn node_row<'a>(node: &'a TermNode, after: Stretch<'a>) -> Row<'a>
    ensures { row_pieces result ≡ node_pieces (node_of node.now) ++ stretch_pieces after.entry }
{
    use Stretch::{Head, Name, Nothing, Number, Type};
    let (head, first, second) = match node {
        TermNode::Lam(ty, hint) => (Piece::Bytes(b"\\"), Type(ty), Name(hint)),
        TermNode::Spine(head, count) => (Piece::Bytes(b"@"), Head(head), Number(*count as u128)),
    };
    Row {
        head,
        first,
        second,
        third: Nothing,
        fourth: after,
    }
}

/// The row of the first of the things, and the others behind it.
fn first_row(series: Series<'_>) -> Option<Row<'_>>
    ensures { IsRow (series_pieces series.entry) result }
{
    use Stretch::{Each, Nothing, Term, Type};
    match series {
        Series::TypeNodes([first, rest @ ..]) => Some(make_row(
            type_node_text(first),
            Each(Series::TypeNodes(rest)),
            Nothing,
            Nothing,
        )),
        Series::TermNodes([first, rest @ ..]) => {
            Some(node_row(first, Each(Series::TermNodes(rest))))
        }
        Series::Names([first, rest @ ..]) => Some(make_row(
            Piece::Bytes(first.as_str().as_bytes()),
            Each(Series::Names(rest)),
            Nothing,
            Nothing,
        )),
        Series::Labels([first, rest @ ..]) => Some(make_row(
            label_text(first),
            Each(Series::Labels(rest)),
            Nothing,
            Nothing,
        )),
        Series::Numbers([first, rest @ ..]) => Some(make_row(
            Piece::Number(u128::from(*first)),
            Each(Series::Numbers(rest)),
            Nothing,
            Nothing,
        )),
        Series::Variables([first, rest @ ..]) => Some(make_row(
            Piece::Bytes(first.name.as_str().as_bytes()),
            Type(&first.ty),
            Each(Series::Variables(rest)),
            Nothing,
        )),
        Series::Replaces([first, rest @ ..]) => Some(make_row(
            Piece::Number(first.number),
            Type(&first.ty),
            Term(&first.to),
            Each(Series::Replaces(rest)),
        )),
        _ => None,
    }
}

/// The row of a stretch, if there is something to write.
pub(crate) fn row_of(stretch: Stretch<'_>) -> Option<Row<'_>>
    ensures { IsRow (stretch_pieces stretch.entry) result }
{
    match stretch {
        Stretch::Nothing => None,
        Stretch::Number(number) => Some(lone_row(Piece::Number(number))),
        Stretch::Name(name) => Some(lone_row(Piece::Bytes(name.as_str().as_bytes()))),
        Stretch::Label(label) => Some(lone_row(label_text(label))),
        Stretch::Flag(flag) => Some(lone_row(flag_text(flag))),
        Stretch::Letter(inductive) => Some(lone_row(letter_text(inductive))),
        Stretch::Type(ty) => first_row(Series::TypeNodes(ty.nodes())),
        Stretch::Head(head) => Some(head_row(head)),
        Stretch::Sign(sign) => Some(sign_row(sign)),
        Stretch::Term(term) => first_row(Series::TermNodes(term.nodes())),
        Stretch::Listing(series) => Some(make_row(
            Piece::Number(count_of(series) as u128),
            Stretch::Each(series),
            Stretch::Nothing,
            Stretch::Nothing,
        )),
        Stretch::Each(series) => first_row(series),
    }
}
