//! Runs over scripts that are there as a whole: the one in a file, and the drill's.
ghost use Rattle.std.specs.Prelude.{◌≡◌, ◌↔◌, IsTrue, true, false, None, option_map};
ghost use Rattle.ab_lex.specs.Commands.{HasBlankRest};
ghost use Rattle.ab_sigmod.specs.Outcomes.{seen};
ghost use Rattle.ab_session.specs.Contents.{state_of};
ghost use Rattle.ab_run.specs.Endings.{missing};
ghost use Rattle.ab_run.specs.Outcome.{RanText, RanFile, RanDrill, WroteLine};
ghost use Rattle.ab_run.specs.Progress.{RanTextTo, beginning, standing_of};

use crate::output::{Progress, answer_ready};
use crate::run_endings::{
    READ_FAULT, TOO_LONG, closing_line, end_status, end_with, handed_out, is_finished, missing_line,
};
use crate::status::Status;
use crate::way::Way;
use ab_drill::drill_script;
use ab_io::{Files, LoadFault, Sink, WriteFault};
use ab_lex::Splitter;
use ab_session::Session;
use std::alloc::Global;

/// Whether a reply has ended the run, or nothing but blanks and whole comments stands behind the last command.
fn has_no_rest(progress: &Progress, splitter: &Splitter) -> bool
    ensures ended { progress.now.ended ≡ true → result ≡ true }
    ensures blank { progress.now.ended ≡ false → IsTrue result ↔ HasBlankRest splitter.now.text }
{
    if progress.ended {
        return true;
    }
    splitter.rest_is_blank()
}

/// Answers the commands of the text, up to a reply that ends the run.
fn answer_text<F: Files, O: Sink>(
    alloc: Global,
    way: Way,
    text: &[u8],
    progress: &mut Progress,
    files: &mut F,
    out: &mut O,
) -> Status
    requires begins { standing_of progress.old ≡ beginning }
    ensures ran { RanTextTo way text.now result (state_of progress.new.session) (O.written out.old) (O.written out.new) (O.faults out.old) (O.faults out.new)
        (seen (F.files files.old) (F.plan files.old) (F.faults files.old) (F.misses files.old) (F.long_files files.old))
        (seen (F.files files.new) (F.plan files.new) (F.faults files.new) (F.misses files.new) (F.long_files files.new)) }
{
    let mut splitter = Splitter::new(alloc);
    if let Err(_) = splitter.feed(text) {
        return Status::NoMemory;
    }
    match answer_ready(alloc, way, files, &mut splitter, progress, out) {
        Err(WriteFault::Failed) => return Status::WriteFault,
        Err(WriteFault::Memory(_)) => return Status::NoMemory,
        Ok(()) => {}
    }
    let status = end_status(
        progress.refused > 0,
        is_finished(&progress.session),
        has_no_rest(progress, &splitter),
    );
    match closing_line(alloc, way.showing, progress) {
        Ok(line) => end_with(out, &line, status),
        Err(_) => Status::NoMemory,
    }
}

/// Runs the script that is this text: the status, and the session as its commands left it.
fn run_text<F: Files, O: Sink>(
    alloc: Global,
    way: Way,
    text: &[u8],
    files: &mut F,
    out: &mut O,
) -> (Status, Option<Session>)
    ensures ran { RanText way text.now result.0 (option_map state_of result.1) (O.written out.old) (O.written out.new) (O.faults out.old) (O.faults out.new)
        (seen (F.files files.old) (F.plan files.old) (F.faults files.old) (F.misses files.old) (F.long_files files.old))
        (seen (F.files files.new) (F.plan files.new) (F.faults files.new) (F.misses files.new) (F.long_files files.new)) }
{
    let Ok(session) = Session::new(alloc) else {
        return (Status::NoMemory, None);
    };
    let mut progress = Progress {
        session,
        accepted: 0,
        refused: 0,
        ended: false,
    };
    let status = answer_text(alloc, way, text, &mut progress, files, out);
    (status, handed_out(status, progress.session))
}

/// Says that there is no file of this name.
fn tell_missing<O: Sink>(alloc: Global, name: &str, out: &mut O) -> Status
    ensures { WroteLine (missing name.now) result None (O.written out.old) (O.written out.new) (O.faults out.old) (O.faults out.new) }
{
    match missing_line(alloc, name) {
        Ok(line) => end_with(out, &line, Status::NoFile),
        Err(_) => Status::NoMemory,
    }
}

/// Runs the script in the file of this name, which is loaded first.
pub fn run_file<F: Files, O: Sink>(
    alloc: Global,
    way: Way,
    name: &str,
    files: &mut F,
    out: &mut O,
) -> (Status, Option<Session>)
    ensures ran { RanFile way name.now result.0 (option_map state_of result.1) (O.written out.old) (O.written out.new) (O.faults out.old) (O.faults out.new)
        (seen (F.files files.old) (F.plan files.old) (F.faults files.old) (F.misses files.old) (F.long_files files.old))
        (seen (F.files files.new) (F.plan files.new) (F.faults files.new) (F.misses files.new) (F.long_files files.new)) }
{
    let mut text = Vec::new(alloc);
    match files.load(name, &mut text) {
        Ok(()) => run_text(alloc, way, &text, files, out),
        Err(LoadFault::Missing) => (tell_missing(alloc, name, out), None),
        Err(LoadFault::Failed) => (end_with(out, &READ_FAULT, Status::ReadFault), None),
        Err(LoadFault::TooLong) => (end_with(out, &TOO_LONG, Status::TooLong), None),
        Err(LoadFault::Memory(_)) => (Status::NoMemory, None),
    }
}

/// Runs the drill of so many theorems.
pub fn run_drill<F: Files, O: Sink>(
    alloc: Global,
    way: Way,
    size: u64,
    files: &mut F,
    out: &mut O,
) -> (Status, Option<Session>)
    ensures ran { RanDrill way size result.0 (option_map state_of result.1) (O.written out.old) (O.written out.new) (O.faults out.old) (O.faults out.new)
        (seen (F.files files.old) (F.plan files.old) (F.faults files.old) (F.misses files.old) (F.long_files files.old))
        (seen (F.files files.new) (F.plan files.new) (F.faults files.new) (F.misses files.new) (F.long_files files.new)) }
{
    match drill_script(alloc, size) {
        Ok(text) => run_text(alloc, way, &text, files, out),
        Err(_) => (Status::NoMemory, None),
    }
}
