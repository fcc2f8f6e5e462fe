//! Reading names, labels, types and terms.
ghost use Rattle.std.specs.Prelude.{◌≡◌, IfOk};
ghost use Rattle.ab_cert.specs.Tables.{IsName};
ghost use Rattle.ab_cert.specs.Forms.{name_form, label_form, flag_form, place_form, small_form, type_form, node_form, term_form};
ghost use Rattle.ab_cert.specs.TreeForms.{type_tree_form, term_tree_form};

use crate::constants::read_head;
use crate::readers::{Node, Spelled, read_nodes};
use crate::step::Label;
use crate::term_tree::{CertTree, TermNode};
use crate::text::{Text, next_count, next_number, next_piece};
use crate::type_tree::{TypeNode, TypeTree};
use ab_name::Name;
use std::alloc::{AllocError, Global};

/// The name that a piece is.
fn name_of(alloc: Global, piece: &[u8]) -> Result<Name, AllocError>
    ensures { IsName piece.now → IfOk result (λ name. name ≡ piece.now) }
{
    match str::from_utf8(piece) {
        Ok(word) => Name::from_text(alloc, word),
        Err(_) => Name::from_text(alloc, ""),
    }
}

impl Spelled for Name {
    ghost form = { name_form };

    fn read(alloc: Global, text: &mut Text<'_>) -> Result<Name, AllocError> {
        name_of(alloc, next_piece(text))
    }
}

impl Spelled for Label {
    ghost form = { label_form };

    fn read(alloc: Global, text: &mut Text<'_>) -> Result<Label, AllocError> {
        let piece = next_piece(text);
        if piece == b"-".as_slice() {
            Ok(Label::Auto)
        } else {
            Ok(Label::Given(name_of(alloc, piece)?))
        }
    }
}

impl Spelled for bool {
    ghost form = { flag_form };

    fn read(_alloc: Global, text: &mut Text<'_>) -> Result<bool, AllocError> {
        Ok(next_piece(text) == b"1".as_slice())
    }
}

impl Spelled for usize {
    ghost form = { place_form };

    fn read(_alloc: Global, text: &mut Text<'_>) -> Result<usize, AllocError> {
        Ok(next_count(text))
    }
}

impl Spelled for u32 {
    ghost form = { small_form };

    fn read(_alloc: Global, text: &mut Text<'_>) -> Result<u32, AllocError> {
        Ok(u32::try_from(next_number(text)).unwrap_or(0))
    }
}

impl Node for TypeNode {
    ghost tree = { type_tree_form };

    fn read_node(alloc: Global, text: &mut Text<'_>) -> Result<TypeNode, AllocError> {
        let piece = next_piece(text);
        if piece == b">".as_slice() {
            Ok(TypeNode::Arrow)
        } else {
            Ok(TypeNode::Base(name_of(alloc, piece)?))
        }
    }

    fn width(&self) -> usize {
        match self {
            TypeNode::Base(_) => 0,
            TypeNode::Arrow => 2,
        }
    }
}

impl Spelled for TypeTree {
    ghost form = { type_form };

    fn read(alloc: Global, text: &mut Text<'_>) -> Result<TypeTree, AllocError> {
        Ok(TypeTree::from_nodes(read_nodes(alloc, text)?))
    }
}

impl Node for TermNode {
    ghost tree = { term_tree_form };

    fn read_node(alloc: Global, text: &mut Text<'_>) -> Result<TermNode, AllocError> {
        if next_piece(text) == b"\\".as_slice() {
            let (ty, hint) = <(TypeTree, Name)>::read(alloc, text)?;
            Ok(TermNode::Lam(ty, hint))
        } else {
            let head = read_head(alloc, text)?;
            Ok(TermNode::Spine(head, next_count(text)))
        }
    }

    fn width(&self) -> usize {
        match self {
            TermNode::Lam(_, _) => 1,
            TermNode::Spine(_, count) => *count,
        }
    }
}

impl Spelled for CertTree {
    ghost form = { term_form };

    fn read(alloc: Global, text: &mut Text<'_>) -> Result<CertTree, AllocError> {
        Ok(CertTree::from_nodes(read_nodes(alloc, text)?))
    }
}
