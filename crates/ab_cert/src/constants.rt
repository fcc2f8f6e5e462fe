//! Reading logical constants and heads.
ghost use Rattle.std.specs.Prelude.{◌≡◌, map};
ghost use Rattle.ab_cert.specs.Forms.{left_of, Reads, sign_form, head_form};
ghost use Rattle.ab_cert.specs.Splits.{index_of};

use crate::head::{CertHead, CertSign};
use crate::readers::Spelled;
use crate::text::{Text, next_count, next_number, next_piece};
use crate::type_tree::TypeTree;
use ab_name::Name;
use std::alloc::{AllocError, Global};

/// The words of the logical constants.
const SIGNS: [&[u8]; 18] = [
    b"true", b"false", b"and", b"or", b"arrow", b"equal", b"forall", b"exists", b"nabla", b"judge",
    b"focus", b"star", b"at", b"plus", b"hash", b"pi", b"imply", b"with",
];

/// The letters of the heads.
const HEADS: [&[u8]; 5] = [b"c", b"l", b"n", b"v", b"i"];

/// The first place at which a word stands.
pub(crate) fn place_of(words: &[&[u8]], word: &[u8]) -> usize
    ensures { result ≡ index_of (map (λ w. w.now) words.now) word.now }
{
    'words: for i in 0..words.len() {
        if words[i] == word {
            return i;
        }
    }
    words.len()
}

/// Reads a logical constant.
fn read_sign(alloc: Global, text: &mut Text<'_>) -> Result<CertSign, AllocError>
    ensures { Reads sign_form (left_of text.old) result (left_of text.new) }
{
    match place_of(&SIGNS, next_piece(text)) {
        0 => Ok(CertSign::True),
        1 => Ok(CertSign::False),
        2 => Ok(CertSign::And),
        3 => Ok(CertSign::Or),
        4 => Ok(CertSign::Arrow),
        5 => Ok(CertSign::Equal(TypeTree::read(alloc, text)?)),
        6 => Ok(CertSign::Forall(TypeTree::read(alloc, text)?)),
        7 => Ok(CertSign::Exists(TypeTree::read(alloc, text)?)),
        8 => Ok(CertSign::Nabla(TypeTree::read(alloc, text)?)),
        9 => Ok(CertSign::Judge),
        10 => Ok(CertSign::Focus),
        11 => Ok(CertSign::Star(next_number(text))),
        12 => Ok(CertSign::At(next_number(text))),
        13 => Ok(CertSign::Plus(next_number(text))),
        14 => Ok(CertSign::Hash(next_number(text))),
        15 => Ok(CertSign::Pi(TypeTree::read(alloc, text)?)),
        16 => Ok(CertSign::Imply),
        _ => Ok(CertSign::With),
    }
}

/// Reads the head of a term.
pub(crate) fn read_head(alloc: Global, text: &mut Text<'_>) -> Result<CertHead, AllocError>
    ensures { Reads head_form (left_of text.old) result (left_of text.new) }
{
    match place_of(&HEADS, next_piece(text)) {
        0 => Ok(CertHead::Const(Name::read(alloc, text)?)),
        1 => Ok(CertHead::Logic(read_sign(alloc, text)?)),
        2 => {
            let number = next_number(text);
            Ok(CertHead::Nominal(number, TypeTree::read(alloc, text)?))
        }
        3 => Ok(CertHead::Cell(Name::read(alloc, text)?)),
        _ => Ok(CertHead::Index(next_count(text))),
    }
}
