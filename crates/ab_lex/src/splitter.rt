//! The splitter: takes a text in pieces and gives its commands.
//!
//! Its work is linear in the bytes fed, whatever the pieces: `next_command` scans from where the scan had come to,
//! `feed` scans nothing, and moves the bytes that are left only when at least as many were given since the last move.

ghost use Rattle.std.specs.Prelude.{◌≡◌, ◌<◌, ◌≤◌, ◌+◌, ◌++◌, ◌∷◌, [], ◌^◌, ◌↔◌, false, length, drop, List, ℕ, OnOk, OnErr, IsTrue, IsFalse, ◌-◌, vec_capacity};
ghost use Rattle.ab_lex.specs.Spans.{IsWithin, bytes_at};
ghost use Rattle.ab_lex.specs.Commands.{HasBlankRest};
ghost use Rattle.ab_lex.specs.PendingText.{Awaits, SameItems, SameRest, Answers};

use crate::COMMAND_LIMIT;
use crate::scanner::{FRESH, Scan, command_end, ends_blank, open_comments};
use crate::token::Span;
use std::alloc::{AllocError, Global};
use std::marker::Model;

/// What a splitter answers.
#[derive(Clone, Copy)]
pub enum Next {
    /// The next command stands here, its full stop included.
    Whole(Span),
    /// Each item of the bytes fed was given.
    More,
    /// The next command is longer than [`COMMAND_LIMIT`].
    TooLong,
}

/// Takes a text in pieces and gives its commands. Each byte is scanned once.
#[derive(Drop)]
pub struct Splitter {
    /// Bytes given, and then bytes to come.
    buffer: Vec<u8>,
    /// Where the next command begins.
    start: usize,
    /// How far the scan has come.
    scanned: usize,
    scan: Scan,
    /// The command at `start` was told to be too long, and what came before `start` is dropped.
    skips: bool,
}

impl Model for Splitter {
    ghost use Rattle.ab_lex.specs.PendingText.{Pending};

    ghost Value = { Pending };

    ghost use Rattle.ab_lex.specs.SplitterFields.{view_of, IsKept};

    ghost view = { λ s. view_of s.buffer.items s.start s.scan s.skips };

    ghost invariant = { λ s. IsKept s.buffer.items s.start s.scanned s.scan s.skips };
}

/// Drops the first `count` bytes. It moves the bytes that are left, and none where nothing is dropped.
fn drop_front(bytes: &mut Vec<u8>, count: usize)
    requires { count ≤ length bytes.old.items }
    ensures items { bytes.new.items ≡ drop count bytes.old.items }
    ensures room { vec_capacity bytes.new ≡ vec_capacity bytes.old }
{
    if count > 0 {
        let left = bytes.len() - count;
        bytes.copy_within(count.., 0);
        bytes.truncate(left);
    }
}

/// Drops the first `count` bytes and appends the piece. Where memory is wanted the bytes stay as they were.
fn slide(bytes: &mut Vec<u8>, count: usize, piece: &[u8]) -> Result<(), AllocError>
    requires { count ≤ length bytes.old.items }
    ensures ok { OnOk result (bytes.new.items ≡ drop count bytes.old.items ++ piece.now) }
    ensures err { OnErr result (bytes.new.items ≡ bytes.old.items) }
{
    bytes.reserve(piece.len())?;
    drop_front(bytes, count);
    bytes.extend_from_slice(piece)
}

/// How many of the bytes before `start` are dropped now: all of them where they are at least as many as are left,
/// so that each byte that is moved is paid by one that was given, else none.
fn dropped_now(start: usize, count: usize) -> usize
    requires { start ≤ count }
    ensures given { result ≤ start }
    ensures paid { 0 < result → count - start ≤ result }
{
    if start >= count - start { start } else { 0 }
}

impl Splitter {
    /// A splitter that was fed nothing. It takes no memory.
    pub fn new(alloc: Global) -> Splitter
        ensures text { result.text ≡ [] }
        ensures in_long { result.in_long ≡ false }
    {
        Splitter {
            buffer: Vec::new(alloc),
            start: 0,
            scanned: 0,
            scan: FRESH,
            skips: false,
        }
    }

    /// Takes the next piece of the text. The spans given so far are good no longer, except where memory was wanted:
    /// then all is as before.
    pub fn feed(&mut self, piece: &[u8]) -> Result<(), AllocError>
        ensures text { OnOk result (self.new.text ≡ self.old.text ++ piece.now) }
        ensures in_long { OnOk result (self.new.in_long ≡ self.old.in_long) }
        ensures err { OnErr result (self.new ≡ self.old) }
    {
        let open = open_comments(self.scan.mode) + (self.buffer.len() - self.scanned);
        if piece.len() > usize::MAX - open {
            return Err(AllocError);
        }
        let dropped = dropped_now(self.start, self.buffer.len());
        slide(&mut self.buffer, dropped, piece)?;
        self.start -= dropped;
        self.scanned -= dropped;
        Ok(())
    }

    /// The next item of the text.
    pub fn next_command(&mut self) -> Next
        ensures items { Answers self.old result self.new }
        ensures rest { SameRest self.old self.new }
        ensures kept { self.new.buffer ≡ self.old.buffer }
    {
        if self.is_past_long() {
            self.scan_command()
        } else {
            Next::More
        }
    }

    /// Goes to the end of a command that was told to be long: whether it came.
    fn is_past_long(&mut self) -> bool
        ensures past { IsTrue result → self.new.in_long ≡ false }
        ensures inside { IsFalse result → Awaits self.new [] [] }
        ensures items { SameItems self.old self.new }
        ensures rest { SameRest self.old self.new }
        ensures kept { self.new.buffer ≡ self.old.buffer }
    {
        if !self.skips {
            return true;
        }
        let mut scan = self.scan;
        let found = command_end(&mut scan, &self.buffer[self.scanned..]);
        self.scan = scan;
        match found {
            Some(count) => {
                self.scanned += count;
                self.start = self.scanned;
                self.skips = false;
                true
            }
            None => {
                self.scanned = self.buffer.len();
                self.start = self.scanned;
                false
            }
        }
    }

    /// The next item, where no long command goes on.
    fn scan_command(&mut self) -> Next
        requires { self.old.in_long ≡ false }
        ensures items { Answers self.old result self.new }
        ensures rest { SameRest self.old self.new }
        ensures kept { self.new.buffer ≡ self.old.buffer }
    {
        let mut scan = self.scan;
        let found = command_end(&mut scan, &self.buffer[self.scanned..]);
        self.scan = scan;
        match found {
            Some(count) => {
                let span = Span {
                    start: self.start,
                    end: self.scanned + count,
                };
                self.start = span.end;
                self.scanned = span.end;
                if span.end - span.start <= COMMAND_LIMIT {
                    Next::Whole(span)
                } else {
                    Next::TooLong
                }
            }
            None => {
                self.scanned = self.buffer.len();
                if self.scanned - self.start >= COMMAND_LIMIT {
                    self.skips = true;
                    self.start = self.scanned;
                    Next::TooLong
                } else {
                    Next::More
                }
            }
        }
    }

    /// The bytes of a command that was given.
    pub fn bytes(&self, span: Span) -> &[u8]
        requires { IsWithin (length self.now.buffer) span }
        ensures { result.now ≡ bytes_at self.now.buffer span }
    {
        &self.buffer[span.start..span.end]
    }

    /// Whether the bytes behind the last command of what was fed are blanks and whole comments. A `%` comment is whole
    /// at the end of what was fed too.
    pub fn rest_is_blank(&self) -> bool
        ensures { IsTrue result ↔ HasBlankRest self.now.text }
    {
        ends_blank(self.scan, &self.buffer[self.scanned..])
    }
}
