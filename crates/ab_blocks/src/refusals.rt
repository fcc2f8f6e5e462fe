//! What is printed of a refusal: its number, its class and its detail.
ghost use Rattle.std.specs.Prelude.{◌≡◌, ◌++◌, codes, decimal, OnOk};
ghost use Rattle.ab_blocks.specs.Blocks.{class, in_file, at_place, named, all_named, detail};

use ab_name::Name;
use ab_states::specification::declare::{Place, Refusal};
use itoa::Buffer;
use std::alloc::AllocError;

fn write_number(number: usize, out: &mut Vec<u8>) -> Result<(), AllocError>
    ensures { OnOk result (out.new.items ≡ out.old.items ++ decimal number) }
{
    let mut buffer = Buffer::new();
    out.extend_from_slice(buffer.format(number).as_bytes())
}

/// The file of a fault, where it isn't the command.
fn write_file(file: &Option<Name>, out: &mut Vec<u8>) -> Result<(), AllocError>
    ensures { OnOk result (out.new.items ≡ out.old.items ++ in_file file.now) }
{
    match file {
        None => Ok(()),
        Some(name) => {
            out.extend_from_slice(b" in ")?;
            out.extend_from_slice(name.as_str().as_bytes())
        }
    }
}

fn write_place(place: &Place, out: &mut Vec<u8>) -> Result<(), AllocError>
    ensures { OnOk result (out.new.items ≡ out.old.items ++ at_place place.now) }
{
    out.extend_from_slice(b" at ")?;
    write_number(place.at, out)?;
    write_file(&place.file, out)
}

/// A name behind a space.
fn write_name(name: &Name, out: &mut Vec<u8>) -> Result<(), AllocError>
    ensures { OnOk result (out.new.items ≡ out.old.items ++ named name.now) }
{
    out.push(b' ')?;
    out.extend_from_slice(name.as_str().as_bytes())
}

/// A name behind a space, and the file of the fault.
fn write_name_in(name: &Name, file: &Option<Name>, out: &mut Vec<u8>) -> Result<(), AllocError>
    ensures { OnOk result (out.new.items ≡ out.old.items ++ (named name.now ++ in_file file.now)) }
{
    write_name(name, out)?;
    write_file(file, out)
}

/// Names, each behind a space.
pub(crate) fn write_names(names: &[Name], out: &mut Vec<u8>) -> Result<(), AllocError>
    ensures { OnOk result (out.new.items ≡ out.old.items ++ all_named names.now) }
{
    'names: for name in names {
        write_name(name, out)?;
    }
    Ok(())
}

/// The number and the class of a refusal.
fn class(refusal: &Refusal) -> &'static [u8]
    ensures { result.now ≡ class refusal.now }
{
    match refusal {
        Refusal::Syntax(_) => b"1 Syntax",
        Refusal::TooLong => b"2 TooLong",
        Refusal::Unknown(_, _) => b"3 Unknown",
        Refusal::Clash(_, _) => b"4 Clash",
        Refusal::TypeClash(_) => b"5 TypeClash",
        Refusal::Untyped(_) => b"6 Untyped",
        Refusal::NotStratified(_) => b"7 NotStratified",
        Refusal::BadHead(_, _) => b"8 BadHead",
        Refusal::WrongPlace => b"9 WrongPlace",
        Refusal::NoHypothesis(_) => b"10 NoHypothesis",
        Refusal::WrongShape => b"11 WrongShape",
        Refusal::NoMatch => b"12 NoMatch",
        Refusal::NotPattern(_) => b"13 NotPattern",
        Refusal::Unresolved(_) => b"14 Unresolved",
        Refusal::Mark => b"15 Mark",
        Refusal::NotFound => b"16 NotFound",
        Refusal::NothingToUndo => b"17 NothingToUndo",
        Refusal::FileMissing(_) => b"18 FileMissing",
        Refusal::FileFault(_) => b"19 FileFault",
        Refusal::FileTooLong(_) => b"20 FileTooLong",
        Refusal::WrongTitle(_) => b"21 WrongTitle",
        Refusal::Circular(_) => b"22 Circular",
        Refusal::TooNested(_) => b"23 TooNested",
        Refusal::NamesSpent => b"25 NamesSpent",
        Refusal::TooManyFiles(_) => b"26 TooManyFiles",
        Refusal::NotBuilt => b"27 NotBuilt",
    }
}

/// The detail of a refusal: its place, its names or its number.
fn write_detail(refusal: &Refusal, out: &mut Vec<u8>) -> Result<(), AllocError>
    ensures { OnOk result (out.new.items ≡ out.old.items ++ detail refusal.now) }
{
    match refusal {
        Refusal::Syntax(place)
        | Refusal::TypeClash(place)
        | Refusal::Untyped(place)
        | Refusal::TooNested(place) => write_place(place, out),
        Refusal::Unknown(name, file) | Refusal::Clash(name, file) => write_name_in(name, file, out),
        Refusal::BadHead(number, file) => {
            out.extend_from_slice(b" clause ")?;
            write_number(*number, out)?;
            write_file(file, out)
        }
        Refusal::NotPattern(number) => {
            out.extend_from_slice(b" equation ")?;
            write_number(*number, out)
        }
        Refusal::NotStratified(name)
        | Refusal::NoHypothesis(name)
        | Refusal::Unresolved(name)
        | Refusal::FileMissing(name)
        | Refusal::FileFault(name)
        | Refusal::FileTooLong(name)
        | Refusal::WrongTitle(name)
        | Refusal::TooManyFiles(name) => write_name(name, out),
        Refusal::Circular(names) => write_names(names.as_slice(), out),
        _ => Ok(()),
    }
}

/// Appends what is printed of a refusal.
pub(crate) fn write_refusal(refusal: &Refusal, out: &mut Vec<u8>) -> Result<(), AllocError>
    ensures { OnOk result (out.new.items ≡ out.old.items ++ (codes "Refused " ++ (class refusal.now ++ detail refusal.now))) }
{
    out.extend_from_slice(b"Refused ")?;
    out.extend_from_slice(class(refusal))?;
    write_detail(refusal, out)
}
