//! What a line asks for, in place of its options.
ghost use Rattle.std.specs.Prelude.{◌≡◌, ◌≤◌, ℕ, None, Some, Err, IfOk, map, string_bytes};
ghost use Rattle.ab_line.specs.Requests.{request_of_words};
ghost use Rattle.ab_line.specs.Lines.{request_of_line};

use crate::words::{LineFault, read_options};
use std::alloc::Global;

/// Which script is run.
#[derive(Clone, Copy)]
pub enum Script<'a> {
    /// The one that is the input.
    Input,
    /// The one in the file of this name.
    File(&'a str),
    /// The generated one of so many theorems.
    Drill(u64),
}

/// What a line asks for.
#[derive(Clone, Copy)]
pub struct Line<'a> {
    /// Of each block only the first line is printed, and only where it reports a completed theorem or a refusal.
    pub quiet: bool,
    pub script: Script<'a>,
}

/// What the words ask for, of which the first is the program's name. A line is refused exactly where `clap`'s function of
/// the words has a fault for the simple command, where a drill stands with a file, or where a certificate is to be checked.
pub fn read_line<'a>(alloc: Global, words: &'a [String]) -> Result<Line<'a>, LineFault>
    ensures line { IfOk result (λ line. request_of_words (map string_bytes words.entry.now) ≡ Some (request_of_line line)) }
    ensures refused { result ≡ Err LineFault.Refused → request_of_words (map string_bytes words.entry.now) ≡ None }
    ensures least { IfOk result (λ line. (size : ℕ) → line.script ≡ Script.Drill size → 1 ≤ size) }
    ensures most { IfOk result (λ line. (size : ℕ) → line.script ≡ Script.Drill size → size ≤ 10000) }
{
    let options = read_options(alloc, words)?;
    if options.check_cert {
        return Err(LineFault::Refused);
    }
    let script = match (options.drill, options.file) {
        (None, None) => Script::Input,
        (None, Some(name)) => Script::File(name),
        (Some(size), None) => Script::Drill(size),
        (Some(_), Some(_)) => return Err(LineFault::Refused),
    };
    Ok(Line {
        quiet: options.quiet,
        script,
    })
}
