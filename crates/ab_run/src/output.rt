//! Answering the items of a text, one after another, and printing what is shown of the answers.
ghost use Rattle.std.specs.Prelude.{◌≡◌, ◌≤◌, false, length, take, IfOk, IfSome, option_map};
ghost use Rattle.ab_io.specs.Count.{Rose};
ghost use Rattle.ab_lex.specs.PendingText.{SameRest};
ghost use Rattle.ab_sigmod.specs.Outcomes.{seen};
ghost use Rattle.ab_logic.specs.declared.world.World.{World as AWorld};
ghost use Rattle.ab_session.specs.ab_states.specs.Reply.{SpeaksOfNoGoal, reply_of, is_refusal};
ghost use Rattle.ab_blocks.specs.Blocks.{block};
ghost use Rattle.ab_session.specs.Contents.{state_of};
ghost use Rattle.ab_run.specs.FirstLine.{first_line};
ghost use Rattle.ab_run.specs.Report.{is_completion, is_end, shown};
ghost use Rattle.ab_run.specs.Progress.{RepliesNext, AnswersNext, AnsweredReady, moment, one_more, standing_of};

use crate::way::{Showing, Way};
use ab_blocks::block;
use ab_io::{Files, Sink, WriteFault, write_all};
use ab_lex::{Next, Splitter};
use ab_session::Session;
use ab_session::states::Reply;
use ab_session::states::specification::declare::Refusal;
use ab_types::Steps;
use std::alloc::{AllocError, Global};

/// How a run stands between two commands.
#[derive(Drop)]
pub struct Progress {
    pub session: Session,
    /// How many commands were accepted; it stays at the last number, and so does the next count.
    pub accepted: u64,
    pub refused: u64,
    /// Whether a reply has ended the run.
    pub ended: bool,
}

fn is_refusal(reply: &Reply) -> bool
    ensures { (w : AWorld) → result ≡ is_refusal (reply_of w reply.now) }
{
    matches!(reply, Reply::Refused(_))
}

fn is_completion(reply: &Reply) -> bool
    ensures { (w : AWorld) → result ≡ is_completion (reply_of w reply.now) }
{
    matches!(reply, Reply::Completed(_) | Reply::Admitted(_, _))
}

/// Whether the run ends with this reply.
fn is_end(way: Way, reply: &Reply) -> bool
    ensures { (w : AWorld) → result ≡ is_end way (reply_of w reply.now) }
{
    match reply {
        Reply::Quit => true,
        Reply::Refused(_) => way.stops,
        _ => false,
    }
}

/// One more, where that is a number.
fn one_more(count: u64) -> u64
    ensures { result ≡ one_more count }
{
    if count < u64::MAX { count + 1 } else { count }
}

/// The reply to the next item, if one is ready.
fn next_reply<F: Files>(
    files: &mut F,
    splitter: &mut Splitter,
    session: &mut Session,
) -> Result<Option<Reply>, AllocError>
    ensures replied { IfOk result (λ reply. RepliesNext (option_map (reply_of session.new.world) reply)
        (seen (F.files files.old) (F.plan files.old) (F.faults files.old) (F.misses files.old) (F.long_files files.old))
        (seen (F.files files.new) (F.plan files.new) (F.faults files.new) (F.misses files.new) (F.long_files files.new))
        (state_of session.old) (state_of session.new) splitter.old splitter.new) }
    ensures shown { IfOk result (λ reply. IfSome reply (SpeaksOfNoGoal session.new.world)) }
    ensures rest { SameRest splitter.old splitter.new }
{
    match splitter.next_command() {
        Next::More => Ok(None),
        Next::Whole(span) => {
            let mut steps = Steps::<()>::new();
            let reply = session.accept(files, splitter.bytes(span), &mut steps)?;
            Ok(Some(reply))
        }
        Next::TooLong => Ok(Some(Reply::Refused(Refusal::TooLong))),
    }
}

/// The block that answers a command, in the session behind it.
fn block_of(alloc: Global, session: &Session, reply: &Reply) -> Result<Vec<u8>, AllocError>
    requires { SpeaksOfNoGoal session.now.world reply.now }
    ensures { IfOk result (λ bytes. bytes.items ≡ block (reply_of session.now.world reply.now) (state_of session.now)) }
{
    block(
        alloc,
        session.world(),
        session.kept(),
        reply,
        session.open_proof(),
        session.all_subgoals(),
    )
}

/// How many bytes the first line of a text has, its end included.
fn first_line_length(text: &[u8]) -> usize
    ensures within { result ≤ length text.now }
    ensures first { take result text.now ≡ first_line text.now }
{
    for (place, byte) in text.iter().enumerate() {
        if *byte == b'\n' {
            return place + 1;
        }
    }
    text.len()
}

/// The first line of the block that answers a command.
fn first_line_of(alloc: Global, session: &Session, reply: &Reply) -> Result<Vec<u8>, AllocError>
    requires { SpeaksOfNoGoal session.now.world reply.now }
    ensures { IfOk result (λ bytes. bytes.items ≡ first_line (block (reply_of session.now.world reply.now) (state_of session.now))) }
{
    let mut text = block_of(alloc, session, reply)?;
    let end = first_line_length(&text);
    text.truncate(end);
    Ok(text)
}

/// What is shown of the answer to a command, in the session behind it.
fn shown_of(
    alloc: Global,
    showing: Showing,
    session: &Session,
    reply: &Reply,
) -> Result<Vec<u8>, AllocError>
    requires { SpeaksOfNoGoal session.now.world reply.now }
    ensures { IfOk result (λ bytes. bytes.items ≡ shown showing (moment (reply_of session.now.world reply.now) (state_of session.now))) }
{
    match showing {
        Showing::Blocks => block_of(alloc, session, reply),
        Showing::FirstLines if is_completion(reply) || is_refusal(reply) => {
            first_line_of(alloc, session, reply)
        }
        _ => Ok(Vec::new(alloc)),
    }
}

/// What is shown of the answer to the next item, if one is ready.
fn next_text<F: Files>(
    alloc: Global,
    way: Way,
    files: &mut F,
    splitter: &mut Splitter,
    progress: &mut Progress,
) -> Result<Option<Vec<u8>>, AllocError>
    ensures answered { IfOk result (λ text. AnswersNext way (option_map (λ b. b.items) text)
        (seen (F.files files.old) (F.plan files.old) (F.faults files.old) (F.misses files.old) (F.long_files files.old))
        (seen (F.files files.new) (F.plan files.new) (F.faults files.new) (F.misses files.new) (F.long_files files.new))
        (standing_of progress.old) (standing_of progress.new) splitter.old splitter.new) }
    ensures rest { SameRest splitter.old splitter.new }
{
    match next_reply(files, splitter, &mut progress.session)? {
        None => Ok(None),
        Some(reply) => {
            if is_refusal(&reply) {
                progress.refused = one_more(progress.refused);
            } else {
                progress.accepted = one_more(progress.accepted);
            }
            progress.ended = progress.ended || is_end(way, &reply);
            Ok(Some(shown_of(alloc, way.showing, &progress.session, &reply)?))
        }
    }
}

/// Answers each item that is ready, up to a reply that ends the run.
pub fn answer_ready<F: Files, O: Sink>(
    alloc: Global,
    way: Way,
    files: &mut F,
    splitter: &mut Splitter,
    progress: &mut Progress,
    out: &mut O,
) -> Result<(), WriteFault>
    requires { progress.old.ended ≡ false }
    ensures answered { AnsweredReady way result (O.written out.old) (O.written out.new)
        (seen (F.files files.old) (F.plan files.old) (F.faults files.old) (F.misses files.old) (F.long_files files.old))
        (seen (F.files files.new) (F.plan files.new) (F.faults files.new) (F.misses files.new) (F.long_files files.new))
        (standing_of progress.old) (standing_of progress.new) splitter.old splitter.new }
    ensures rest { SameRest splitter.old splitter.new }
    ensures failed { result ≡ Err WriteFault.Failed → Rose (O.faults out.old) (O.faults out.new) }
    ensures faults_never_fall { O.faults out.old ≤ O.faults out.new }
{
    'items: loop {
        match next_text(alloc, way, files, splitter, progress) {
            Err(error) => return Err(WriteFault::Memory(error)),
            Ok(None) => return Ok(()),
            Ok(Some(bytes)) => {
                if let Err(fault) = write_all(out, &bytes) {
                    return Err(fault);
                }
            }
        }
        if progress.ended {
            return Ok(());
        }
    }
}
