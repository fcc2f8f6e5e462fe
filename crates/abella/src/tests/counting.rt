//! What is asked of a source and a sink behind a call that fails.
ghost use Rattle.std.specs.Prelude.{◌≤◌, IsTrue};
ghost use Rattle.ab_io.specs.Count.{Rose};

use super::status_over;
use ab_io::{Failed, MemSink, MemSource, Sink, Source, WriteFault};
use std::test::Fail;

/// A source and a sink that fail at their second call, and at no other, and count their calls.
#[derive(Drop)]
struct Counting {
    calls: u64,
    faults: u64,
}

impl Counting {
    const NEW: Counting = Counting {
        calls: 0,
        faults: 0,
    };

    /// Counts a call, and says whether it fails.
    fn fails_now(&mut self) -> bool
        ensures counted { IsTrue result → Rose self.old.faults self.new.faults }
        ensures never_falls { self.old.faults ≤ self.new.faults }
    {
        self.calls = self.calls.saturating_add(1);
        if self.calls == 2 {
            self.faults = self.faults.saturating_add(1);
        }
        self.calls == 2
    }
}

impl Source for Counting {
    ghost use Rattle.std.specs.Prelude.{None};

    ghost left = { λ _. None };

    ghost faults = { λ s. s.faults };

    fn read(&mut self, into: &mut [u8]) -> Result<usize, Failed> {
        if self.fails_now() {
            return Err(Failed);
        }
        let piece = b"Theorem t : true /\\ true. split. ";
        let count = piece.len().min(into.len());
        into[..count].copy_from_slice(&piece[..count]);
        Ok(count)
    }
}

impl Sink for Counting {
    ghost use Rattle.std.specs.Prelude.{None};

    ghost written = { λ _. None };

    ghost faults = { λ s. s.faults };

    fn write(&mut self, piece: &[u8]) -> Result<usize, WriteFault> {
        if self.fails_now() {
            return Err(WriteFault::Failed);
        }
        Ok(piece.len())
    }
}

#[test]
fn reads_nothing_behind_a_failed_read(rt: HostRuntime) -> Result<(), Fail> {
    let mut input = Counting::NEW;
    let mut out = MemSink::new(rt.alloc(), Vec::new(rt.alloc()));
    assert_eq!(rt; status_over(rt.alloc(), &mut input, &mut out)?, 3);
    assert_eq!(rt; input.calls, 2);
    Ok(())
}

/// The blocks of a piece go out before more is read.
#[test]
fn asks_for_nothing_behind_a_failed_write(rt: HostRuntime) -> Result<(), Fail> {
    let mut input = Counting::NEW;
    let mut out = Counting::NEW;
    assert_eq!(rt; status_over(rt.alloc(), &mut input, &mut out)?, 4);
    assert_eq!(rt; (input.calls, out.calls), (1, 2));
    Ok(())
}

/// A sink that takes no byte, and counts each such write as a fault.
#[derive(Drop)]
struct FullSink {
    faults: u64,
}

impl Sink for FullSink {
    ghost use Rattle.std.specs.Prelude.{None};

    ghost written = { λ _. None };

    ghost faults = { λ s. s.faults };

    fn write(&mut self, _piece: &[u8]) -> Result<usize, WriteFault> {
        self.faults = self.faults.saturating_add(1);
        Ok(0)
    }
}

#[test]
fn takes_a_write_of_nothing_for_a_fault(rt: HostRuntime) -> Result<(), Fail> {
    let script = Vec::from_slice(rt.alloc(), b"Theorem t : true.")?;
    let mut input = MemSource::new(script, 5, Vec::new(rt.alloc()));
    let mut out = FullSink { faults: 0 };
    assert_eq!(rt; status_over(rt.alloc(), &mut input, &mut out)?, 4);
    Ok(())
}
