//! Runs by what the line asks for, over files in memory of which some loads fail.

use ab_io::{MemFiles, MemSink, MemSource};
use ab_run::run;
use std::alloc::{AllocError, Global};
use std::test::Fail;

/// The words behind the program's name, the loads that fail, how the run ends, and what it prints.
struct Case {
    words: &'static [&'static str],
    fails: &'static [u64],
    status: u8,
    report: &'static [u8],
}

/// The file `a.thm`.
static SCRIPT: &[u8] = b"Theorem t : true. search. split. Theorem u : true. search.";

/// The file `s.thm`, and the two files of its specification.
static SPECIFIED: &[u8] = b"Specification \"p\". Theorem t : {q a} -> {q a}. intros. search.";

static SIGNATURE: &[u8] = b"sig p. kind i type. type a i. type q i -> o.";

static MODULE: &[u8] = b"module p. q a.";

static CASES: [Case; 10] = [
    Case {
        words: &["a.thm"],
        fails: &[],
        status: 1,
        report: b"[1]\n============================\n true\n[2] Proof completed: t.\n[2] Refused 9 WrongPlace\n",
    },
    Case {
        words: &["-q", "a.thm"],
        fails: &[2],
        status: 1,
        report: b"[2] Proof completed: t.\n[2] Refused 9 WrongPlace\n",
    },
    Case {
        words: &["a.thm"],
        fails: &[1],
        status: 3,
        report: b"Read fault.\n",
    },
    Case {
        words: &["b.thm"],
        fails: &[],
        status: 8,
        report: b"Script file missing: b.thm\n",
    },
    Case {
        words: &["b.thm"],
        fails: &[1],
        status: 3,
        report: b"Read fault.\n",
    },
    Case {
        words: &["-q"],
        fails: &[1],
        status: 0,
        report: b"[2] Proof completed: w.\n",
    },
    Case {
        words: &["--drill", "1", "a.thm"],
        fails: &[1],
        status: 2,
        report: b"Usage: abella [-q] [--drill N] [--check-cert] [FILE]\n",
    },
    Case {
        words: &["-q", "s.thm"],
        fails: &[4],
        status: 0,
        report: b"[4] Proof completed: t.\n",
    },
    Case {
        words: &["s.thm"],
        fails: &[2],
        status: 1,
        report: b"[0] Refused 19 FileFault p.sig\n",
    },
    Case {
        words: &["s.thm"],
        fails: &[3],
        status: 1,
        report: b"[0] Refused 19 FileFault p.mod\n",
    },
];

/// Whether the run ends so, where the files are there and the input is a script of its own.
fn ends_so(alloc: Global, case: &Case) -> Result<bool, AllocError> {
    let mut words = Vec::new(alloc);
    words.push(String::from_str(alloc, "abella")?)?;
    for word in case.words {
        words.push(String::from_str(alloc, word)?)?;
    }
    let mut files = MemFiles::new(alloc, Vec::from_slice(alloc, case.fails)?);
    files.put("a.thm", Vec::from_slice(alloc, SCRIPT)?)?;
    files.put("s.thm", Vec::from_slice(alloc, SPECIFIED)?)?;
    files.put("p.sig", Vec::from_slice(alloc, SIGNATURE)?)?;
    files.put("p.mod", Vec::from_slice(alloc, MODULE)?)?;
    let script = Vec::from_slice(alloc, b"Theorem w : true. search.")?;
    let mut input = MemSource::new(script, 5, Vec::new(alloc));
    let mut out = MemSink::new(alloc, Vec::new(alloc));
    let ended = run(alloc, &words, &mut files, &mut input, &mut out);
    Ok(ended.status == case.status && out.bytes() == case.report)
}

#[test]
fn ends_as_the_line_asks(rt: HostRuntime) -> Result<(), Fail> {
    for case in &CASES {
        assert!(rt; ends_so(rt.alloc(), case)?);
    }
    Ok(())
}
