//! Going through a text part by part.
ghost use Rattle.std.specs.Prelude.{◌≡◌, ◌≤◌, ℕ, length, List, Err, IfOk};
ghost use Rattle.ab_cert.specs.declared.fault.ReadFault.TheVariants.{BadCert};
ghost use Rattle.ab_cert.specs.Plain.{Item};
ghost use Rattle.ab_cert.specs.Texts.{IsText, IsFirstBad};
ghost use Rattle.ab_cert.specs.Outlines.{ReadsPiece};
ghost use Rattle.ab_cert.specs.PendingParts.{pending_of};

use crate::fault::ReadFault;
use crate::part::Part;
use crate::part_stack::Pending;
use crate::scan::try_part;
use crate::scans::is_next;
use std::alloc::Global;

/// Reads the first piece of a part and the byte behind it.
fn read_piece(
    pending: &mut Pending,
    part: Part,
    bytes: &[u8],
    at: usize,
) -> Result<usize, ReadFault>
    requires { at ≤ length bytes.now }
    ensures { ReadsPiece part bytes.now at (pending_of pending.old) result (pending_of pending.new) }
{
    let scan = try_part(part, bytes, at);
    let Some(kids) = scan.kids else {
        return Err(ReadFault::BadCert(scan.to));
    };
    pending.push_kids(kids)?;
    let end = pending.end();
    if is_next(bytes, scan.to, end) {
        Ok(scan.to)
    } else {
        Err(ReadFault::BadCert(scan.to))
    }
}

/// Whether the text is a certificate's: if not, the place of the first byte that no certificate continues, or the number of the
/// bytes where they end too early.
pub fn check_text(alloc: Global, bytes: &[u8]) -> Result<(), ReadFault>
    ensures good { IfOk result (λ done. (items : List Item) × IsText bytes.now items) }
    ensures bad { (place : ℕ) → result ≡ Err (BadCert place) → IsFirstBad bytes.now place }
{
    let mut pending = Pending::new(alloc, Part::Whole);
    let mut at = 0;
    'parts: while let Some(part) = pending.next() {
        match read_piece(&mut pending, part, bytes, at) {
            Ok(to) => at = to + 1,
            Err(fault) => return Err(fault),
        }
    }
    if at < bytes.len() {
        return Err(ReadFault::BadCert(at));
    }
    Ok(())
}
