//! Writing a certificate as its text.
ghost use Rattle.std.specs.Prelude.{◌≡◌, ◌∷◌, ◌++◌, map, OnOk};
ghost use Rattle.std.specs.List.{flat_map};
ghost use Rattle.ab_cert.specs.Appending.{Extends};
ghost use Rattle.ab_cert.specs.Pieces.{item_lines, step_pieces, clause_pieces};
ghost use Rattle.ab_cert.specs.Texts.{text_of};
ghost use Rattle.ab_cert.specs.Values.{step_of, clause_of, item_of, cert_of};
ghost use Rattle.ab_cert.specs.Writing.{piece_of, row_pieces, line_behind, steps_text, clauses_text, items_text};

use crate::cert::{Cert, CertItem};
use crate::clause::CertClause;
use crate::row::{Piece, Row, Series, Stretch, make_row};
use crate::spelling::row_of;
use crate::step::CertStep;
use crate::step_row::{clause_row, step_row};
use itoa::Buffer;
use std::alloc::{AllocError, Global};

/// Writes a piece behind the byte that divides it from the one before.
fn write_piece(mark: u8, piece: Piece<'_>, out: &mut Vec<u8>) -> Result<(), AllocError>
    ensures written { OnOk result (out.new.items ≡ out.old.items ++ mark ∷ piece_of piece.entry) }
    ensures kept { Extends out.old.items out.new.items }
{
    out.push(mark)?;
    match piece {
        Piece::Bytes(bytes) => out.extend_from_slice(bytes),
        Piece::Number(number) => {
            let mut buffer = Buffer::new();
            out.extend_from_slice(buffer.format(number).as_bytes())
        }
    }
}

/// Writes a line behind a line feed. What is still to be written of it stands on a stack.
fn write_line(alloc: Global, row: Row<'_>, out: &mut Vec<u8>) -> Result<(), AllocError>
    ensures written { OnOk result (out.new.items ≡ out.old.items ++ line_behind (row_pieces row.entry)) }
    ensures kept { Extends out.old.items out.new.items }
{
    write_piece(b'\n', row.head, out)?;
    let mut stack = vec![in alloc; row.fourth, row.third, row.second, row.first]?;
    'stretches: while let Some(stretch) = stack.pop() {
        let Some(next) = row_of(stretch) else {
            continue;
        };
        write_piece(b' ', next.head, out)?;
        stack.extend_from_slice(&[next.fourth, next.third, next.second, next.first])?;
    }
    Ok(())
}

/// Writes the steps of a derivation, a line each.
fn write_steps(alloc: Global, steps: &[CertStep], out: &mut Vec<u8>) -> Result<(), AllocError>
    ensures written { OnOk result (out.new.items ≡ out.old.items ++ steps_text steps.now) }
    ensures kept { Extends out.old.items out.new.items }
{
    'steps: for step in steps {
        write_line(alloc, step_row(step), out)?;
    }
    Ok(())
}

/// Writes the clauses of a block, a line each.
fn write_clauses(alloc: Global, clauses: &[CertClause], out: &mut Vec<u8>) -> Result<(), AllocError>
    ensures written { OnOk result (out.new.items ≡ out.old.items ++ clauses_text clauses.now) }
    ensures kept { Extends out.old.items out.new.items }
{
    'clauses: for clause in clauses {
        write_line(alloc, clause_row(b"D", clause), out)?;
    }
    Ok(())
}

/// Writes the lines of an item.
fn write_item(alloc: Global, item: &CertItem, out: &mut Vec<u8>) -> Result<(), AllocError>
    ensures written { OnOk result (out.new.items ≡ out.old.items ++ flat_map line_behind (item_lines (item_of item.now))) }
    ensures kept { Extends out.old.items out.new.items }
{
    use Stretch::{Letter, Listing, Name, Nothing, Number, Term, Type};
    match item {
        CertItem::Kind(name) => {
            let line = make_row(Piece::Bytes(b"K"), Name(name), Nothing, Nothing);
            write_line(alloc, line, out)
        }
        CertItem::Const(name, ty) => {
            let line = make_row(Piece::Bytes(b"C"), Name(name), Type(ty), Nothing);
            write_line(alloc, line, out)
        }
        CertItem::Block(inductive, names, clauses) => {
            let clauses = clauses.as_slice();
            let names = Listing(Series::Names(names.as_slice()));
            let count = Number(clauses.len() as u128);
            let line = make_row(Piece::Bytes(b"B"), Letter(*inductive), names, count);
            write_line(alloc, line, out)?;
            write_clauses(alloc, clauses, out)
        }
        CertItem::Program(clause) => write_line(alloc, clause_row(b"S", clause), out),
        CertItem::Theorem(name, formula, steps) => {
            let steps = steps.as_slice();
            let count = Number(steps.len() as u128);
            let line = make_row(Piece::Bytes(b"T"), Name(name), count, Term(formula));
            write_line(alloc, line, out)?;
            write_steps(alloc, steps, out)
        }
    }
}

/// Writes the text of the certificate behind what is there.
pub fn write_text(alloc: Global, cert: &Cert, out: &mut Vec<u8>) -> Result<(), AllocError>
    ensures written { OnOk result (out.new.items ≡ out.old.items ++ text_of (cert_of cert.now)) }
    ensures kept { Extends out.old.items out.new.items }
{
    out.extend_from_slice(b"abella-cert 1")?;
    'items: for item in cert.items.as_slice() {
        write_item(alloc, item, out)?;
    }
    out.extend_from_slice(b"\nend\n")
}
