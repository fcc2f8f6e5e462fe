//! The options that the words give, read by `clap` as one simple command.
ghost use Rattle.std.specs.Prelude.{◌≡◌, ◌≤◌, ℕ, List, Some, None, Err, IfOk, IfSome, map, codes, option_map, string_bytes};
ghost use Rattle.clap.specs.Words.{IsUnsignedIn, app_of, first_value, found_of};
ghost use Rattle.ab_line.specs.Command.{simple_command};
ghost use Rattle.ab_line.specs.Requests.{is_set, number_of, options_of_words};
ghost use Rattle.ab_line.specs.Lines.{options_of};

use clap::error::ErrorKind;
use clap::{Arg, ArgAction, ArgMatches, Command, value_parser};
use std::alloc::{AllocError, Global};

/// What the words give, whether or not they may stand together.
#[derive(Clone, Copy)]
pub struct LineOptions<'a> {
    pub quiet: bool,
    pub drill: Option<u64>,
    pub check_cert: bool,
    pub file: Option<&'a str>,
}

/// Why the words ask for nothing.
#[derive(Clone, Copy)]
pub enum LineFault {
    /// They aren't a line of the program.
    Refused,
    /// There was no memory to read them.
    Memory(AllocError),
}

/// The simple command `abella [-q] [--drill N] [--check-cert] [FILE]`.
fn make_command<'a>(alloc: Global) -> Result<Command<'a>, AllocError>
    ensures { IfOk result (λ c. app_of c ≡ simple_command) }
{
    let quiet = Arg::new(alloc, "quiet")
        .short('q')
        .action(ArgAction::SetTrue);
    let drill = Arg::new(alloc, "drill")
        .long("drill")
        .action(ArgAction::Set)
        .value_parser(value_parser!(u64).range(1..10_001));
    let check_cert = Arg::new(alloc, "check-cert")
        .long("check-cert")
        .action(ArgAction::SetTrue);
    let file = Arg::new(alloc, "file").action(ArgAction::Set);
    Command::new(alloc, "abella")
        .arg(quiet)?
        .arg(drill)?
        .arg(check_cert)?
        .arg(file)
}

/// Whether the flag of this id is given.
fn is_given(matches: &ArgMatches, id: &str) -> bool
    ensures { result ≡ is_set (first_value (found_of matches.now) id.now) }
{
    match matches.get_str(id) {
        Some(text) => text == "true",
        None => false,
    }
}

/// The number that is given for the drill, which the parser has found to be one from 1 to 10,000.
fn drill_size(matches: &ArgMatches) -> Option<u64>
    requires { (t : List ℕ) → first_value (found_of matches.now) (codes "drill") ≡ Some t → IsUnsignedIn 1 10000 t }
    ensures number { result ≡ option_map number_of (first_value (found_of matches.now) (codes "drill")) }
    ensures least { IfSome result (λ n. 1 ≤ n) }
    ensures most { IfSome result (λ n. n ≤ 10000) }
{
    match matches.get_str("drill") {
        Some(text) => match text.parse::<u64>() {
            Ok(number) => Some(number),
            Err(_) => unreachable!(),
        },
        None => None,
    }
}

/// The options that the words give, of which the first is the program's name. They are refused exactly where `clap`'s
/// function of the words for the simple command has a fault.
pub fn read_options<'a>(alloc: Global, words: &'a [String]) -> Result<LineOptions<'a>, LineFault>
    ensures options { IfOk result (λ options. options_of_words (map string_bytes words.entry.now) ≡ Some (options_of options)) }
    ensures refused { result ≡ Err LineFault.Refused → options_of_words (map string_bytes words.entry.now) ≡ None }
    ensures least { IfOk result (λ options. IfSome options.drill (λ n. 1 ≤ n)) }
    ensures most { IfOk result (λ options. IfSome options.drill (λ n. n ≤ 10000)) }
{
    let Ok(command) = make_command(alloc) else {
        return Err(LineFault::Memory(AllocError));
    };
    match command.try_get_matches_from(words) {
        Ok(matches) => Ok(LineOptions {
            quiet: is_given(&matches, "quiet"),
            drill: drill_size(&matches),
            check_cert: is_given(&matches, "check-cert"),
            file: matches.get_str("file"),
        }),
        Err(error) => {
            if error.kind() == ErrorKind::OutOfMemory {
                Err(LineFault::Memory(AllocError))
            } else {
                Err(LineFault::Refused)
            }
        }
    }
}
