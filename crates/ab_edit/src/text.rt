//! A text as it is edited in its place.
ghost use Rattle.std.specs.Prelude.{◌≡◌, ◌≤◌, length, OnOk, OnErr};
ghost use Rattle.ab_edit.specs.Edits.{text_after_edit};

use std::alloc::AllocError;

/// Puts the bytes in place of those from `start` to `end`. It copies these bytes and those behind `end`, and none that
/// stand before.
pub(crate) fn edit_text(
    text: &mut Vec<u8>,
    start: usize,
    end: usize,
    bytes: &[u8],
) -> Result<(), AllocError>
    requires in_order { start ≤ end }
    requires in_text { end ≤ length text.old.items }
    ensures ok { OnOk result (text.new.items ≡ text_after_edit text.old.items start end bytes.now) }
    ensures err { OnErr result (text.new.items ≡ text.old.items) }
{
    // Room for all of it is made first, so that no memory is wanted once a byte has changed.
    text.reserve(bytes.len())?;
    let behind = text.split_off(end)?;
    text.truncate(start);
    text.extend_from_slice(bytes)?;
    text.extend_from_slice(&behind)
}
