//! The line that is printed in place of the drill's blocks.
ghost use Rattle.std.specs.Prelude.{◌≡◌, ◌++◌, decimal, OnOk};
ghost use Rattle.ab_drill.specs.Summary.{replies, rest, summary};

use itoa::Buffer;
use std::alloc::AllocError;

/// What is counted of a drill.
#[derive(Clone, Copy)]
pub struct Tallies {
    /// The accepted commands, those that take back among them.
    pub accepted: u64,
    pub refused: u64,
    /// The kept commands of the last state.
    pub kept: usize,
    /// Its theorems.
    pub theorems: usize,
}

fn write_count(before: &[u8], number: u64, out: &mut Vec<u8>) -> Result<(), AllocError>
    ensures { OnOk result (out.new.items ≡ out.old.items ++ (before.now ++ decimal number)) }
{
    out.extend_from_slice(before)?;
    let mut buffer = Buffer::new();
    out.extend_from_slice(buffer.format(number).as_bytes())
}

/// The front of the line: the drill's size, and what was accepted and refused.
fn write_replies(size: u64, tallies: Tallies, out: &mut Vec<u8>) -> Result<(), AllocError>
    ensures { OnOk result (out.new.items ≡ out.old.items ++ replies size tallies) }
{
    write_count(b"Drill ", size, out)?;
    write_count(b": ", tallies.accepted, out)?;
    write_count(b" accepted, ", tallies.refused, out)
}

/// The rest of the line: what the last state holds.
fn write_rest(tallies: Tallies, out: &mut Vec<u8>) -> Result<(), AllocError>
    ensures { OnOk result (out.new.items ≡ out.old.items ++ rest tallies) }
{
    write_count(b" refused, ", tallies.kept as u64, out)?;
    write_count(b" kept, ", tallies.theorems as u64, out)?;
    out.extend_from_slice(b" theorems.\n")
}

/// Appends the line that sums up the drill of so many theorems.
pub fn write_summary(size: u64, tallies: Tallies, out: &mut Vec<u8>) -> Result<(), AllocError>
    ensures { OnOk result (out.new.items ≡ out.old.items ++ summary size tallies) }
{
    write_replies(size, tallies, out)?;
    write_rest(tallies, out)
}
