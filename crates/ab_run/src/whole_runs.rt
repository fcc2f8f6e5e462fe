//! The top call: a run over a script, from the bytes in to the bytes out.
ghost use Rattle.std.specs.Prelude.{◌≡◌, ◌≢◌, ◌<◌, ◌≤◌, ◌+◌, ℕ, List, Some, None, length, map, option_map, string_bytes, IfSome};
ghost use Rattle.std.specs.List.{All};
ghost use Rattle.ab_io.specs.Count.{Rose};
ghost use Rattle.ab_sigmod.specs.FileLoads.{Load};
ghost use Rattle.ab_sigmod.specs.Outcomes.{seen};
ghost use Rattle.ab_line.specs.Lines.{origin_of, request_of_line};
ghost use Rattle.ab_line.specs.Requests.{Request, request_of_words};
ghost use Rattle.ab_session.specs.ab_states.specs.Reply.{completed, admitted};
ghost use Rattle.ab_session.specs.Contents.{state_of};
ghost use Rattle.ab_session.specs.SessionAnswers.{IsDerivedLast, IsProvedLast};
ghost use Rattle.ab_run.specs.ProvedTheorems.{AllDerived};
ghost use Rattle.ab_run.specs.Report.{Moment, Report, ReportOf};
ghost use Rattle.ab_run.specs.Ways.{IsInput, IsInputOf, way_of};
ghost use Rattle.ab_run.specs.Outside.{outside};
ghost use Rattle.ab_run.specs.Outcome.{EndedBy, IsReported, IsScript, Ran, RanAsAsked, RanFor, own_load};
ghost use Rattle.ab_run.specs.Progress.{IsPlain, RanTo, beginning, standing_of};
ghost use Rattle.ab_run.specs.declared.way.Way.{Way as AWay};

use crate::input::{ReadStop, read_piece};
use crate::output::{Progress, answer_ready};
use crate::run_endings::{
    READ_FAULT, TOO_LONG, USAGE, end_status, end_with, handed_out, is_finished,
};
use crate::scripts::{run_drill, run_file};
use crate::status::Status;
use crate::way::{Showing, Way};
use ab_io::{Files, Sink, Source, WriteFault};
use ab_lex::Splitter;
use ab_line::{Line, LineFault, Script, read_line};
use ab_session::Session;
use std::alloc::Global;

/// No more bytes of the input than this are looked at.
pub const MAX_INPUT: u64 = 1 << 32;

/// The most bytes that are read at once.
const PIECE: usize = 65_536;

/// How a run has ended.
#[derive(Drop)]
pub struct Ended {
    pub status: u8,
    /// The session that the commands ran in, as they left it; none where the line or the load of the script was refused, or
    /// there was no memory.
    pub session: Option<Session>,
}

/// How many bytes are read next, where so many have been: up to the last that is looked at, and then one more.
fn bytes_wanted(taken: u64) -> usize
    requires { taken ≤ MAX_INPUT }
    ensures some { 0 < result }
    ensures few { result ≤ PIECE }
    ensures within { taken + result ≤ MAX_INPUT + 1 }
    ensures exact { taken < MAX_INPUT → taken + result ≤ MAX_INPUT }
{
    let room = MAX_INPUT - taken;
    if room == 0 {
        1
    } else if room < PIECE as u64 {
        room as usize
    } else {
        PIECE
    }
}

/// Reads the input in pieces, and answers each of its commands, up to a reply that ends the run.
fn answer_input<F: Files, S: Source, O: Sink>(
    alloc: Global,
    way: Way,
    piece: &mut [u8],
    progress: &mut Progress,
    files: &mut F,
    input: &mut S,
    out: &mut O,
) -> Status
    requires room { length piece.old ≡ PIECE }
    requires begins { standing_of progress.old ≡ beginning }
    requires plain { IsPlain way }
    ensures ran { RanTo way result (state_of progress.new.session)
        (outside (S.left input.old) (O.written out.old) (S.faults input.old) (O.faults out.old)
        (seen (F.files files.old) (F.plan files.old) (F.faults files.old) (F.misses files.old) (F.long_files files.old)))
        (outside (S.left input.new) (O.written out.new) (S.faults input.new) (O.faults out.new)
        (seen (F.files files.new) (F.plan files.new) (F.faults files.new) (F.misses files.new) (F.long_files files.new))) }
{
    let mut splitter = Splitter::new(alloc);
    let mut taken: u64 = 0;
    'pieces: loop {
        match read_piece(input, &mut splitter, &mut piece[..bytes_wanted(taken)]) {
            Err(ReadStop::Memory) => return Status::NoMemory,
            Err(ReadStop::Failed) => return end_with(out, &READ_FAULT, Status::ReadFault),
            Ok(0) => return end_status(
                progress.refused > 0,
                is_finished(&progress.session),
                splitter.rest_is_blank(),
            ),
            Ok(_) if taken == MAX_INPUT => return end_with(out, &TOO_LONG, Status::TooLong),
            Ok(count) => taken += count as u64,
        }
        match answer_ready(alloc, way, files, &mut splitter, progress, out) {
            Err(WriteFault::Failed) => return Status::WriteFault,
            Err(WriteFault::Memory(_)) => return Status::NoMemory,
            Ok(()) => {}
        }
        if progress.ended {
            return end_status(progress.refused > 0, is_finished(&progress.session), true);
        }
    }
}

/// Runs the script that is the input: the status, and the session as its commands left it.
fn run_input<F: Files, S: Source, O: Sink>(
    alloc: Global,
    way: Way,
    files: &mut F,
    input: &mut S,
    out: &mut O,
) -> (Status, Option<Session>)
    requires { IsPlain way }
    ensures ran { Ran way result.0 (option_map state_of result.1)
        (outside (S.left input.old) (O.written out.old) (S.faults input.old) (O.faults out.old)
        (seen (F.files files.old) (F.plan files.old) (F.faults files.old) (F.misses files.old) (F.long_files files.old)))
        (outside (S.left input.new) (O.written out.new) (S.faults input.new) (O.faults out.new)
        (seen (F.files files.new) (F.plan files.new) (F.faults files.new) (F.misses files.new) (F.long_files files.new))) }
{
    let Ok(mut buffer) = vec![in alloc; 0u8; PIECE] else {
        return (Status::NoMemory, None);
    };
    let Ok(session) = Session::new(alloc) else {
        return (Status::NoMemory, None);
    };
    let mut progress = Progress {
        session,
        accepted: 0,
        refused: 0,
        ended: false,
    };
    let status = answer_input(
        alloc,
        way,
        buffer.as_mut_slice(),
        &mut progress,
        files,
        input,
        out,
    );
    (status, handed_out(status, progress.session))
}

/// How a run goes over the script that the line asks for.
fn way_of(line: &Line) -> Way
    ensures { result ≡ way_of (request_of_line line.now) }
{
    let stops = matches!(line.script, Script::File(_));
    let showing = match line.script {
        Script::Drill(size) => Showing::Summary(size),
        _ if line.quiet => Showing::FirstLines,
        _ => Showing::Blocks,
    };
    Way { stops, showing }
}

/// Runs the script that the line asks for.
fn run_line<F: Files, S: Source, O: Sink>(
    alloc: Global,
    line: &Line,
    files: &mut F,
    input: &mut S,
    out: &mut O,
) -> (Status, Option<Session>)
    ensures ran { RanFor (way_of (request_of_line line.now)) (origin_of line.now.script) result.0 (option_map state_of result.1)
        (outside (S.left input.old) (O.written out.old) (S.faults input.old) (O.faults out.old)
        (seen (F.files files.old) (F.plan files.old) (F.faults files.old) (F.misses files.old) (F.long_files files.old)))
        (outside (S.left input.new) (O.written out.new) (S.faults input.new) (O.faults out.new)
        (seen (F.files files.new) (F.plan files.new) (F.faults files.new) (F.misses files.new) (F.long_files files.new))) }
    ensures unread { ¬ IsInputOf (origin_of line.now.script) → input.new ≡ input.old }
{
    let way = way_of(line);
    match line.script {
        Script::Input => run_input(alloc, way, files, input, out),
        Script::File(name) => run_file(alloc, way, name, files, out),
        Script::Drill(size) => run_drill(alloc, way, size, files, out),
    }
}

/// Runs the script that the words ask for, or refuses them.
fn run_words<F: Files, S: Source, O: Sink>(
    alloc: Global,
    words: &[String],
    files: &mut F,
    input: &mut S,
    out: &mut O,
) -> (Status, Option<Session>)
    ensures ran { RanAsAsked (request_of_words (map string_bytes words.now)) result.0 (option_map state_of result.1)
        (outside (S.left input.old) (O.written out.old) (S.faults input.old) (O.faults out.old)
        (seen (F.files files.old) (F.plan files.old) (F.faults files.old) (F.misses files.old) (F.long_files files.old)))
        (outside (S.left input.new) (O.written out.new) (S.faults input.new) (O.faults out.new)
        (seen (F.files files.new) (F.plan files.new) (F.faults files.new) (F.misses files.new) (F.long_files files.new))) }
    ensures unread { ¬ IsInput (request_of_words (map string_bytes words.now)) → input.new ≡ input.old }
    ensures files { request_of_words (map string_bytes words.now) ≡ None → files.new ≡ files.old }
{
    match read_line(alloc, words) {
        Ok(line) => run_line(alloc, &line, files, input, out),
        Err(LineFault::Refused) => (end_with(out, &USAGE, Status::BadLine), None),
        Err(LineFault::Memory(_)) => (Status::NoMemory, None),
    }
}

/// Runs the script that the line of words asks for: answers each of its commands with a block, prints on `out` what is shown
/// of these, and says how that ended.
///
/// `words` is the line that the program was called with, the program's name first. The script is the input, or a file of
/// `files`, or the drill's.
pub fn run<F: Files, S: Source, O: Sink>(
    alloc: Global,
    words: &[String],
    files: &mut F,
    input: &mut S,
    out: &mut O,
) -> Ended
    // By what the line asks for and by the status: what was taken and printed, and the state that is handed out.
    ensures ran { EndedBy result.status (λ status. RanAsAsked (request_of_words (map string_bytes words.now)) status (option_map state_of result.session)
        (outside (S.left input.old) (O.written out.old) (S.faults input.old) (O.faults out.old)
        (seen (F.files files.old) (F.plan files.old) (F.faults files.old) (F.misses files.old) (F.long_files files.old)))
        (outside (S.left input.new) (O.written out.new) (S.faults input.new) (O.faults out.new)
        (seen (F.files files.new) (F.plan files.new) (F.faults files.new) (F.misses files.new) (F.long_files files.new)))) }
    ensures unread { ¬ IsInput (request_of_words (map string_bytes words.now)) → input.new ≡ input.old }
    // A line that is refused loads nothing.
    ensures unloaded { request_of_words (map string_bytes words.now) ≡ None → files.new ≡ files.old }

    // Where the source and the sink didn't fail, nor the load of the script, what is printed is that of the script's report, by what
    // the loads of its commands answer, and the status is its status.
    ensures reported { (q : Request) (text before : List ℕ) → request_of_words (map string_bytes words.now) ≡ Some q
        → IsScript q.origin text (S.left input.old) (F.files files.old) → O.written out.old ≡ Some before
        → ¬ Rose (S.faults input.old) (S.faults input.new) → ¬ Rose (O.faults out.old) (O.faults out.new)
        → (result.status ≡ 3 → ¬ Rose (F.faults files.old) (F.faults files.new)) → result.status ≢ 5
        → IsReported (way_of q) text before (option_map state_of result.session) (O.written out.new) result.status (own_load q.origin text)
        (seen (F.files files.old) (F.plan files.old) (F.faults files.old) (F.misses files.old) (F.long_files files.old))
        (seen (F.files files.new) (F.plan files.new) (F.faults files.new) (F.misses files.new) (F.long_files files.new)) }

    // Each theorem that a report says is proved is, with each theorem that it rests on; one that it says assumes some, and each of the
    // session that is handed out, has a derivation, in which goals may have been admitted.
    ensures proved { (way : AWay) (text name : List ℕ) (loads : List Load) (r : Report) → ReportOf way text loads r
        → All (λ (m : Moment). m.reply ≡ completed name → IsProvedLast m.state.declarations name) r }
    ensures admitted { (way : AWay) (text name : List ℕ) (names : List (List ℕ)) (loads : List Load) (r : Report) → ReportOf way text loads r
        → All (λ (m : Moment). m.reply ≡ admitted name names → IsDerivedLast m.state.declarations name) r }
    ensures theorems { IfSome (option_map state_of result.session) AllDerived }
{
    let (status, session) = run_words(alloc, words, files, input, out);
    Ended {
        status: status.number(),
        session,
    }
}
