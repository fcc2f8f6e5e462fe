//! `abella`: replays the proof scripts of the two-level logic prover Abella.
//!
//! The program reads a script from its standard input or from a file, answers each command with a block, and ends
//! with a status. What it promises is said by the clauses of `ab_run::run`; this crate makes the real
//! words, files and streams, and hands out the status.
#![tactic(auto)]

mod dir_files;
mod streams;
#[cfg(test)]
mod tests;

use ab_run::run;
use dir_files::DirFiles;
use std::alloc::{AllocError, Global};
use std::process::ExitCode;
use std::{env, io};
use streams::{StdSink, StdSource};

/// A line that is refused: it stands in place of one that has a word that is no text.
fn refused_line(alloc: Global) -> Result<Vec<String>, AllocError> {
    let mut words = Vec::new(alloc);
    words.push(String::from_str(alloc, "abella")?)?;
    words.push(String::from_str(alloc, "--no-text")?)?;
    Ok(words)
}

fn main(rt: HostRuntime) -> ExitCode {
    let words = match env::args(&rt) {
        Ok(words) => words.collect(rt.alloc()),
        Err(error) if error.kind() == io::ErrorKind::InvalidData => refused_line(rt.alloc()),
        Err(_) => Err(AllocError),
    };
    let Ok(words) = words else {
        return ExitCode::from(5);
    };
    let mut files = DirFiles::new(&rt);
    let mut input = StdSource::new(rt.reader());
    let mut out = StdSink::new(io::writer(&rt));
    let ended = run(rt.alloc(), &words, &mut files, &mut input, &mut out);
    ExitCode::from(ended.status)
}
