//! Reading things from the pieces of a text that is known to be good.
ghost use Rattle.ab_cert.specs.Forms.{Form, Reads, ReadsMany, left_of, list_form, both_form};
ghost use Rattle.ab_cert.specs.TreeForms.{TreeForm, AreNodes, ReadsNodes};
ghost use Rattle.std.specs.Prelude.{◌≡◌, IfOk};

use crate::members::Members;
use crate::text::{Text, next_count};
use std::alloc::{AllocError, Global};

/// A thing that is spelled by pieces.
pub(crate) trait Spelled: Sized + Drop {
    ghost form: { Form Self };

    /// Reads it.
    fn read(alloc: Global, text: &mut Text<'_>) -> Result<Self, AllocError>
        ensures { Reads form (left_of text.old) result (left_of text.new) };
}

/// Reads so many, one behind another.
pub(crate) fn read_many<T: Spelled>(
    alloc: Global,
    text: &mut Text<'_>,
    count: usize,
) -> Result<Members<T>, AllocError>
    ensures { ReadsMany T.form count (left_of text.old) result (left_of text.new) }
{
    let mut members = Vec::new(alloc);
    'members: for _i in 0..count {
        members.push(T::read(alloc, text)?)?;
    }
    Ok(Members::from_vec(members))
}

impl<T: Spelled> Spelled for Members<T> {
    ghost form = { list_form T.form };

    fn read(alloc: Global, text: &mut Text<'_>) -> Result<Members<T>, AllocError> {
        let count = next_count(text);
        read_many(alloc, text, count)
    }
}

impl<S: Spelled, T: Spelled> Spelled for (S, T) {
    ghost form = { both_form S.form T.form };

    fn read(alloc: Global, text: &mut Text<'_>) -> Result<(S, T), AllocError> {
        let first = S::read(alloc, text)?;
        let second = T::read(alloc, text)?;
        Ok((first, second))
    }
}

/// A node of a tree.
pub(crate) trait Node: Sized + Drop {
    ghost tree: { TreeForm Self };

    /// Reads a node.
    fn read_node(alloc: Global, text: &mut Text<'_>) -> Result<Self, AllocError>
        ensures { Reads tree.form (left_of text.old) result (left_of text.new) };

    /// How many trees stand behind it.
    fn width(&self) -> usize
        ensures { result ≡ tree.width (tree.form.meant self.now) };
}

/// Reads the nodes of a tree.
pub(crate) fn read_nodes<N: Node>(alloc: Global, text: &mut Text<'_>) -> Result<Vec<N>, AllocError>
    ensures whole { IfOk result (λ nodes. AreNodes N.tree nodes.items) }
    ensures read { ReadsNodes N.tree (left_of text.old) result (left_of text.new) }
{
    let mut nodes = Vec::new(alloc);
    let mut missing: u128 = 1;
    'nodes: for _i in 0..u64::MAX {
        if missing == 0 {
            return Ok(nodes);
        }
        let node = N::read_node(alloc, text)?;
        missing = missing - 1 + node.width() as u128;
        nodes.push(node)?;
    }
    unreachable!()
}
