//! The real streams over readers and writers that answer as planned: each answer in turn, and what comes of it.
ghost use Rattle.std.specs.Prelude.{◌≤◌, IfOk};

use super::{StdSink, StdSource};
use ab_io::{Sink, Source, WriteFault};
use std::io::{self, ErrorKind, Read, Write};
use std::test::Fail;

/// What a reader or a writer answers to a call.
#[derive(Clone, Copy)]
enum Answer {
    /// So many bytes, or as many as there is room for.
    Bytes(usize),
    /// An error of this kind.
    Error(ErrorKind),
}

/// Answers as planned, one answer a call, and takes and gives nothing behind them.
#[derive(Drop)]
struct Planned {
    answers: &'static [Answer],
}

impl Planned {
    fn next(&mut self, room: usize) -> io::Result<usize>
        ensures { IfOk result (λ n. n ≤ room) }
    {
        let [first, rest @ ..] = self.answers else {
            return Ok(0);
        };
        self.answers = rest;
        match *first {
            Answer::Bytes(count) => Ok(count.min(room)),
            Answer::Error(kind) => Err(kind.into()),
        }
    }
}

impl Read for Planned {
    fn read(&mut self, buf: &mut [u8]) -> io::Result<usize> {
        self.next(buf.len())
    }
}

impl Write for Planned {
    fn write(&mut self, buf: &[u8]) -> io::Result<usize> {
        self.next(buf.len())
    }

    fn flush(&mut self) -> io::Result<()> {
        Ok(())
    }
}

const ANSWERS: [Answer; 6] = [
    Answer::Bytes(2),
    Answer::Error(ErrorKind::Other),
    Answer::Bytes(4),
    Answer::Error(ErrorKind::Interrupted),
    Answer::Bytes(0),
    Answer::Bytes(1),
];

/// A short answer stands, each error is told and counted, also an interruption, and no bytes are the end.
#[test]
fn counts_the_errors_of_a_reader(rt: HostRuntime) -> Result<(), Fail> {
    let mut input = StdSource::new(Planned { answers: &ANSWERS });
    let table = [
        (Some(2), 0),
        (None, 1),
        (Some(4), 1),
        (None, 2),
        (Some(0), 2),
        (Some(1), 2),
    ];
    for (answer, faults) in table {
        let mut piece = [0u8; 4];
        assert_eq!(rt; input.read(&mut piece).ok(), answer);
        assert_eq!(rt; input.faults, faults);
    }
    Ok(())
}

/// A short answer stands, and each error, and each write of nothing, is told and counted.
#[test]
fn counts_the_errors_of_a_writer(rt: HostRuntime) -> Result<(), Fail> {
    let mut out = StdSink::new(Planned { answers: &ANSWERS });
    let table = [
        (Ok(2), 0),
        (Err(WriteFault::Failed), 1),
        (Ok(4), 1),
        (Err(WriteFault::Failed), 2),
        (Err(WriteFault::Failed), 3),
        (Ok(1), 3),
    ];
    for (answer, faults) in table {
        assert_eq!(rt; out.write(b"abcd"), answer);
        assert_eq!(rt; out.faults, faults);
    }
    assert_eq!(rt; out.write(b""), Ok(0));
    assert_eq!(rt; out.faults, 3);
    Ok(())
}

/// The bytes that a reader gives stand in the slice, and those of a piece reach the writer, no more and no fewer.
#[test]
fn hands_on_the_bytes(rt: HostRuntime) -> Result<(), Fail> {
    let mut input = StdSource::new(b"ab".as_slice());
    let mut piece = *b"----";
    assert_eq!(rt; input.read(&mut piece).ok(), Some(2));
    assert!(rt; piece == *b"ab--");
    assert_eq!(rt; input.read(&mut piece).ok(), Some(0));
    let mut out = StdSink::new(Vec::new(rt.alloc()));
    assert_eq!(rt; out.write(b"ab"), Ok(2));
    assert!(rt; out.writer.as_slice() == b"ab".as_slice());
    Ok(())
}
