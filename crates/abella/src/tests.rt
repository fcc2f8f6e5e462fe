//! What neither a clause nor a script says: runs over sources that come in pieces, runs over sources and sinks that fail.
ghost use Rattle.std.specs.Prelude.{◌<◌};

mod counting;
mod lines;

use ab_io::{MemFiles, MemSink, MemSource, Sink, Source};
use ab_run::run;
use std::alloc::{AllocError, Global};
use std::test::Fail;

/// What a run over these ends with, where the line is the program's name alone.
fn status_over<S: Source, O: Sink>(
    alloc: Global,
    input: &mut S,
    out: &mut O,
) -> Result<u8, AllocError> {
    let mut files = MemFiles::new(alloc, Vec::new(alloc));
    let mut words = Vec::new(alloc);
    words.push(String::from_str(alloc, "abella")?)?;
    Ok(run(alloc, &words, &mut files, input, out).status)
}

/// A script, the reads and the writes that fail, how the run ends, and what it writes.
struct Case {
    script: &'static [u8],
    reads: &'static [u64],
    writes: &'static [u64],
    status: u8,
    report: &'static [u8],
}

/// Whether the run over the script in pieces ends so.
fn ends_so(alloc: Global, case: &Case, piece: usize) -> Result<bool, AllocError>
    requires { 0 < piece }
{
    let script = Vec::from_slice(alloc, case.script)?;
    let mut input = MemSource::new(script, piece, Vec::from_slice(alloc, case.reads)?);
    let mut out = MemSink::new(alloc, Vec::from_slice(alloc, case.writes)?);
    let status = status_over(alloc, &mut input, &mut out)?;
    Ok(status == case.status && out.bytes() == case.report)
}

/// Scripts whose comments, names and signs are cut by short pieces.
static CUT: [Case; 3] = [
    Case {
        script: b"Theorem t : true /* a. /* b. */ c. */ . search. % end",
        reads: &[],
        writes: &[],
        status: 0,
        report: b"[1]\n============================\n true\n[2] Proof completed: t.\n",
    },
    Case {
        script: b"Kind i type. Type p i -> i -> prop. Theorem r : nabla a, forall X, p a X -> p a X. intros. search.",
        reads: &[],
        writes: &[],
        status: 0,
        report: b"[1]\n[2]\n[3]\n============================\n nabla a, forall X, p a X -> p a X\n[4]\nVariables: X\nH1 : p n1 (X n1)\n============================\n p n1 (X n1)\n[5] Proof completed: r.\n",
    },
    Case {
        script: b"Theorem t : true. Show t. Quit. abort. Kind",
        reads: &[],
        writes: &[],
        status: 1,
        report: b"[1]\n============================\n true\n[1] Refused 3 Unknown t\n============================\n true\n[1] Quit.\n============================\n true\n",
    },
];

#[test]
fn reports_scripts_however_they_are_cut(rt: HostRuntime) -> Result<(), Fail> {
    for case in &CUT {
        for piece in [1usize, 2, 65_536].iter() {
            assert!(rt; *piece > 0 && ends_so(rt.alloc(), case, *piece)?);
        }
    }
    Ok(())
}

/// The script of one theorem in pieces of five bytes, by the reads and the writes that fail; and one that ends by a `Quit`,
/// behind which nothing is read.
static FAULTS: [Case; 7] = [
    Case {
        script: b"Theorem t : true. search.",
        reads: &[4],
        writes: &[],
        status: 3,
        report: b"Read fault.\n",
    },
    Case {
        script: b"Theorem t : true. search.",
        reads: &[5],
        writes: &[],
        status: 3,
        report: b"[1]\n============================\n true\nRead fault.\n",
    },
    Case {
        script: b"Theorem t : true. search.",
        reads: &[6],
        writes: &[],
        status: 3,
        report: b"[1]\n============================\n true\n[2] Proof completed: t.\nRead fault.\n",
    },
    Case {
        script: b"Theorem t : true. search.",
        reads: &[],
        writes: &[1],
        status: 4,
        report: b"",
    },
    Case {
        script: b"Theorem t : true. search.",
        reads: &[],
        writes: &[2],
        status: 4,
        report: b"[1]\n============================\n true\n",
    },
    Case {
        script: b"Theorem t : true. search.",
        reads: &[4],
        writes: &[1],
        status: 4,
        report: b"",
    },
    Case {
        script: b"Quit. abort. Kind",
        reads: &[2],
        writes: &[],
        status: 0,
        report: b"[0] Quit.\n",
    },
];

#[test]
fn ends_at_a_fault(rt: HostRuntime) -> Result<(), Fail> {
    for case in &FAULTS {
        assert!(rt; ends_so(rt.alloc(), case, 5)?);
    }
    Ok(())
}
