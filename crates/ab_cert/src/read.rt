//! Reading clauses, items and whole certificates.
ghost use Rattle.std.specs.Prelude.{◌≡◌, ◌∷◌, ◌++◌, ℕ, List, Err, IfOk, codes};
ghost use Rattle.std.specs.List.{flat_map};
ghost use Rattle.ab_cert.specs.declared.fault.ReadFault.TheVariants.{BadCert};
ghost use Rattle.ab_cert.specs.Plain.{Item};
ghost use Rattle.ab_cert.specs.Tables.{Each, IsItem};
ghost use Rattle.ab_cert.specs.Texts.{IsText, IsFirstBad};
ghost use Rattle.ab_cert.specs.Values.{cert_of};
ghost use Rattle.ab_cert.specs.Answers.{IsReadAs};
ghost use Rattle.ab_cert.specs.Pieces.{block_piece};
ghost use Rattle.ab_cert.specs.Forms.{left_of, Takes, Reads, variable_form, replace_form, clause_form, clause_line_form, block_form, theorem_form, item_pieces, ReadsItem};

use crate::cert::{Cert, CertItem};
use crate::clause::{CertClause, CertReplace, CertVar};
use crate::constants::place_of;
use crate::fault::ReadFault;
use crate::members::Members;
use crate::outline::check_text;
use crate::readers::{Spelled, read_many};
use crate::term_tree::CertTree;
use crate::text::{Text, next_count, next_number, next_piece};
use crate::type_tree::TypeTree;
use ab_name::Name;
use std::alloc::{AllocError, Global};

/// The letters of the items.
const ITEMS: [&[u8]; 5] = [b"K", b"C", b"B", b"S", b"T"];

impl Spelled for CertVar {
    ghost form = { variable_form };

    fn read(alloc: Global, text: &mut Text<'_>) -> Result<CertVar, AllocError> {
        let (name, ty) = <(Name, TypeTree)>::read(alloc, text)?;
        Ok(CertVar { name, ty })
    }
}

impl Spelled for CertReplace {
    ghost form = { replace_form };

    fn read(alloc: Global, text: &mut Text<'_>) -> Result<CertReplace, AllocError> {
        let number = next_number(text);
        let (ty, to) = <(TypeTree, CertTree)>::read(alloc, text)?;
        Ok(CertReplace { number, ty, to })
    }
}

/// Reads a clause without its word.
fn read_clause(alloc: Global, text: &mut Text<'_>) -> Result<CertClause, AllocError>
    ensures { Reads clause_form (left_of text.old) result (left_of text.new) }
{
    let (variables, (head, body)) = <(Members<CertVar>, (CertTree, CertTree))>::read(alloc, text)?;
    Ok(CertClause {
        variables,
        head,
        body,
    })
}

impl Spelled for CertClause {
    ghost form = { clause_line_form };

    fn read(alloc: Global, text: &mut Text<'_>) -> Result<CertClause, AllocError> {
        let _word = next_piece(text);
        read_clause(alloc, text)
    }
}

/// Takes the letter that says whether a block is inductive.
fn next_letter(text: &mut Text<'_>) -> bool
    ensures { Takes (λ b. Unit {0}) block_piece (left_of text.old) result (left_of text.new) }
{
    next_piece(text) == b"i".as_slice()
}

/// Reads a block without its letter.
fn read_block(alloc: Global, text: &mut Text<'_>) -> Result<CertItem, AllocError>
    ensures { Reads block_form (left_of text.old) result (left_of text.new) }
{
    let inductive = next_letter(text);
    let names = Members::<Name>::read(alloc, text)?;
    let count = next_count(text);
    let clauses = read_many(alloc, text, count)?;
    Ok(CertItem::Block(inductive, names, clauses))
}

/// Reads a theorem without its letter.
fn read_theorem(alloc: Global, text: &mut Text<'_>) -> Result<CertItem, AllocError>
    ensures { Reads theorem_form (left_of text.old) result (left_of text.new) }
{
    let name = Name::read(alloc, text)?;
    let count = next_count(text);
    let formula = CertTree::read(alloc, text)?;
    let steps = read_many(alloc, text, count)?;
    Ok(CertItem::Theorem(name, formula, steps))
}

/// Reads the next item, if there is one.
fn read_item(alloc: Global, text: &mut Text<'_>) -> Result<Option<CertItem>, AllocError>
    ensures { ReadsItem (left_of text.old) result (left_of text.new) }
{
    match place_of(&ITEMS, next_piece(text)) {
        0 => Ok(Some(CertItem::Kind(Name::read(alloc, text)?))),
        1 => {
            let (name, ty) = <(Name, TypeTree)>::read(alloc, text)?;
            Ok(Some(CertItem::Const(name, ty)))
        }
        2 => Ok(Some(read_block(alloc, text)?)),
        3 => Ok(Some(CertItem::Program(read_clause(alloc, text)?))),
        4 => Ok(Some(read_theorem(alloc, text)?)),
        _ => Ok(None),
    }
}

/// Reads the items, up to the last line.
fn read_items(alloc: Global, text: &mut Text<'_>) -> Result<Cert, AllocError>
    ensures { (items : List Item) (rest : List (List ℕ)) → Each IsItem items → left_of text.old ≡ flat_map item_pieces items ++ codes "end" ∷ rest → IfOk result (λ cert. cert_of cert ≡ items) }
{
    let mut items = Vec::new(alloc);
    'items: for _i in 0..u64::MAX {
        match read_item(alloc, text)? {
            Some(item) => items.push(item)?,
            None => {
                return Ok(Cert {
                    items: Members::from_vec(items),
                });
            }
        }
    }
    unreachable!()
}

/// Reads a certificate: the one that the text is, or the place of the first byte that no certificate continues, or the number of
/// the bytes where they end too early.
pub fn read_cert(alloc: Global, bytes: &[u8]) -> Result<Cert, ReadFault>
    ensures good { IfOk result (λ cert. IsText bytes.now (cert_of cert)) }
    ensures bad { (place : ℕ) → result ≡ Err (BadCert place) → IsFirstBad bytes.now place }
    ensures read { (items : List Item) → IsText bytes.now items → IsReadAs items result }
{
    if let Err(fault) = check_text(alloc, bytes) {
        return Err(fault);
    }
    let mut text = Text { rest: bytes };
    let _word = next_piece(&mut text);
    let _version = next_piece(&mut text);
    Ok(read_items(alloc, &mut text)?)
}
