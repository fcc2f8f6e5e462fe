//! How a run ends: its last line, its status and the session that is handed out.
ghost use Rattle.std.specs.Prelude.{◌≡◌, ◌≤◌, ◌++◌, ◌∷◌, [], IsTrue, ◌↔◌, IfOk, option_map};
ghost use Rattle.ab_session.specs.Contents.{state_of};
ghost use Rattle.ab_run.specs.Endings.{last_line, missing};
ghost use Rattle.ab_run.specs.Outcome.{IsFinished};
ghost use Rattle.ab_run.specs.Progress.{EndedWith, closing_by, handed_by, standing_of, status_at_end};

use crate::output::Progress;
use crate::status::Status;
use crate::way::Showing;
use ab_drill::{Tallies, write_summary};
use ab_io::{Sink, WriteFault, write_all};
use ab_session::Session;
use std::alloc::{AllocError, Global};

/// What is printed where the line of words is refused.
pub const USAGE: [u8; 53] = *b"Usage: abella [-q] [--drill N] [--check-cert] [FILE]\n";

/// The last line where the source failed, or the load of the script's file.
pub const READ_FAULT: [u8; 12] = *b"Read fault.\n";

/// The last line where the input, or the script's file, has more bytes than are looked at.
pub const TOO_LONG: [u8; 16] = *b"Input too long.\n";

/// What stands before the name in the line that is printed where there is no such file.
pub const MISSING: [u8; 21] = *b"Script file missing: ";

/// The line that is printed where there is no file of this name.
pub fn missing_line(alloc: Global, name: &str) -> Result<Vec<u8>, AllocError>
    ensures { IfOk result (λ line. line.items ≡ last_line (missing name.now)) }
{
    let mut line = Vec::from_slice(alloc, &MISSING)?;
    line.extend_from_slice(name.as_bytes())?;
    line.push(b'\n')?;
    Ok(line)
}

/// The line that sums up a drill; nothing in another run.
pub fn closing_line(
    alloc: Global,
    showing: Showing,
    progress: &Progress,
) -> Result<Vec<u8>, AllocError>
    ensures { IfOk result (λ line. line.items ≡ closing_by showing (standing_of progress.now)) }
{
    let mut line = Vec::new(alloc);
    if let Showing::Summary(size) = showing {
        let tallies = Tallies {
            accepted: progress.accepted,
            refused: progress.refused,
            kept: progress.session.kept(),
            theorems: progress.session.theorems(),
        };
        write_summary(size, tallies, &mut line)?;
    }
    Ok(line)
}

/// Writes the line that a run ends with.
pub fn end_with<O: Sink>(out: &mut O, line: &[u8], status: Status) -> Status
    ensures ended { EndedWith result status line.now (O.written out.old) (O.written out.new) (O.faults out.old) (O.faults out.new) }
    ensures faults_never_fall { O.faults out.old ≤ O.faults out.new }
{
    match write_all(out, line) {
        Ok(()) => status,
        Err(WriteFault::Failed) => Status::WriteFault,
        Err(WriteFault::Memory(_)) => Status::NoMemory,
    }
}

/// The status of a script that was run to its end or to a reply that ends the run.
pub fn end_status(refused: bool, is_finished: bool, rest_is_blank: bool) -> Status
    ensures { result ≡ status_at_end refused is_finished rest_is_blank }
{
    match (refused, is_finished, rest_is_blank) {
        (true, _, _) => Status::Refused,
        (false, true, true) => Status::Done,
        _ => Status::Unfinished,
    }
}

/// Whether no proof is open.
pub fn is_finished(session: &Session) -> bool
    ensures { IsTrue result ↔ IsFinished (state_of session.now) }
{
    session.open_proof().is_none()
}

/// The session that is handed out with this status.
pub fn handed_out(status: Status, session: Session) -> Option<Session>
    ensures { option_map state_of result ≡ handed_by status (state_of session) }
{
    match status {
        Status::NoMemory => None,
        _ => Some(session),
    }
}
