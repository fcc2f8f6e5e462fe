//! The files of a specification, one after another.
ghost use Rattle.std.specs.Prelude.{◌≡◌, ◌≤◌, ◌↔◌, ◌∷◌, ◌++◌, List, [], map, IfOk, IfErr, IsTrue};
ghost use Rattle.ab_syntax.specs.ab_expressions.specs.Items.{list_of};
ghost use Rattle.ab_sigmod.specs.FileNames.{name_of};
ghost use Rattle.ab_sigmod.specs.FileOrder.{asked};
ghost use Rattle.ab_sigmod.specs.Outcomes.{seen, read_of, fault_of, WasRead, IfRefused};
ghost use Rattle.ab_sigmod.specs.Texts.{fault_of as text_fault_of, unread, IsUsable};
ghost use Rattle.ab_sigmod.specs.Readings.{file_of, chain_of, progress_of, fault_in, IsPlaceIn, SomeName, IsLoaded, Outcome, ItemsOutcome};

use crate::file_text::{TextStop, next_item, open_text};
use crate::progress::{OpenFile, Reading};
use crate::spec::{Spec, SpecFault, SpecFile};
use crate::text::FileText;
use ab_grammar::FileKind;
use ab_io::{Files, LoadFault};
use ab_name::Name;
use ab_syntax::{FileItem, Items, SpecItem};
use std::alloc::{AllocError, Global};

/// The most files that are loaded for one specification.
pub const MAX_FILES: usize = 1000;

/// Puts an item behind the others.
fn add<T: Drop>(items: &mut Vec<T>, item: T) -> Result<(), AllocError>
    ensures { IfOk result (λ u. items.new.items ≡ items.old.items ++ item ∷ []) }
{
    items.push(item)?;
    Ok(())
}

/// The name of a file, with its ending.
fn file_name(alloc: Global, base: &Name, kind: FileKind) -> Result<Name, AllocError>
    ensures { IfOk result (λ name. name ≡ name_of (record { base = base.now; kind = kind })) }
{
    let mut name = String::from_str(alloc, base.as_str())?;
    name.push_str(match kind {
        FileKind::Signature => ".sig",
        FileKind::Module => ".mod",
    })?;
    Name::from_text(alloc, &name)
}

/// Where the file stands among those that are being read.
fn place_in(chain: &[OpenFile], base: &Name, kind: FileKind) -> Option<usize>
    ensures { IsPlaceIn (map file_of chain.now) (record { base = base.now; kind = kind }) result }
{
    for (place, file) in chain.iter().enumerate() {
        if file.kind == kind && file.base == *base {
            return Some(place);
        }
    }
    None
}

/// The names of the files of a circle, from the first to itself.
fn circle(alloc: Global, chain: &[OpenFile], base: &Name) -> Result<Items<Name>, AllocError>
    ensures { IfOk result (λ names. list_of names ≡ map (λ o. o.base) chain.now ++ base.now ∷ []) }
{
    let mut names = Vec::new(alloc);
    for file in chain {
        names.push(file.base.copy(alloc)?)?;
    }
    names.push(base.copy(alloc)?)?;
    Ok(Items::from_vec(names))
}

/// Whether a file of that name was read.
fn was_read(files: &[SpecFile], name: &Name) -> bool
    ensures { IsTrue result ↔ SomeName (map read_of files.now) name.now }
{
    for file in files {
        if file.name == *name {
            return true;
        }
    }
    false
}

/// The bytes of a file.
fn load<F: Files>(alloc: Global, files: &mut F, name: &Name) -> Result<Vec<u8>, SpecFault>
    ensures { IsLoaded name.now
        (seen (F.files files.old) (F.plan files.old) (F.faults files.old) (F.misses files.old) (F.long_files files.old))
        (seen (F.files files.new) (F.plan files.new) (F.faults files.new) (F.misses files.new) (F.long_files files.new)) result }
{
    let mut bytes = Vec::new(alloc);
    match files.load(name.as_str(), &mut bytes) {
        Ok(()) => Ok(bytes),
        Err(LoadFault::Missing) => Err(SpecFault::FileMissing(name.copy(alloc)?)),
        Err(LoadFault::Failed) => Err(SpecFault::FileFault(name.copy(alloc)?)),
        Err(LoadFault::TooLong) => Err(SpecFault::FileTooLong(name.copy(alloc)?)),
        Err(LoadFault::Memory(error)) => Err(SpecFault::Memory(error)),
    }
}

/// Why the text of the file of that name is not read.
fn text_fault(name: Name, stop: TextStop) -> SpecFault
    ensures { fault_of result ≡ fault_in name (text_fault_of stop) }
{
    match stop {
        TextStop::Syntax(place) => SpecFault::Syntax(name, place),
        TextStop::TooNested(place) => SpecFault::TooNested(name, place),
        TextStop::WrongTitle => SpecFault::WrongTitle(name),
        TextStop::Memory(error) => SpecFault::Memory(error),
    }
}

/// Reads a file, unless it was read.
#[cycle(files)]
fn read_file<F: Files>(
    reading: &mut Reading,
    files: &mut F,
    base: &Name,
    kind: FileKind,
) -> Result<(), SpecFault>
    ensures read { Outcome (chain_of reading.old) (record { base = base.now; kind = kind } ∷ []) (progress_of reading.old)
        (seen (F.files files.old) (F.plan files.old) (F.faults files.old) (F.misses files.old) (F.long_files files.old))
        (seen (F.files files.new) (F.plan files.new) (F.faults files.new) (F.misses files.new) (F.long_files files.new)) (progress_of reading.new) result }
    ensures open { IfOk result (λ u. chain_of reading.new ≡ chain_of reading.old) }
    ensures grows { reading.old.loads ≤ reading.new.loads }
{
    let alloc = reading.alloc;
    if let Some(place) = place_in(&reading.open, base, kind) {
        let names = circle(alloc, &reading.open[place..], base)?;
        return Err(SpecFault::Circular(names));
    }
    let name = file_name(alloc, base, kind)?;
    if was_read(&reading.files, &name) {
        return Ok(());
    }
    if reading.loads == MAX_FILES {
        return Err(SpecFault::TooManyFiles(name));
    }
    reading.loads += 1;
    let bytes = load(alloc, files, &name)?;
    let text = match open_text(alloc, bytes, base, kind) {
        Ok(text) => text,
        Err(stop) => return Err(text_fault(name, stop)),
    };
    let depth = reading.open.len();
    let base = base.copy(alloc)?;
    add(&mut reading.open, OpenFile { base, kind })?;
    let items = read_items(reading, files, text, &name, kind)?;
    reading.open.truncate(depth);
    add(&mut reading.files, SpecFile { name, items })?;
    Ok(())
}

/// Reads the items of a file, and the files that they accumulate.
#[cycle(files)]
fn read_items<F: Files>(
    reading: &mut Reading,
    files: &mut F,
    mut text: FileText,
    name: &Name,
    kind: FileKind,
) -> Result<Items<SpecItem>, SpecFault>
    requires { IsUsable text }
    ensures read { ItemsOutcome name.now text.bytes.items kind (unread text) (chain_of reading.old) (progress_of reading.old)
        (seen (F.files files.old) (F.plan files.old) (F.faults files.old) (F.misses files.old) (F.long_files files.old))
        (seen (F.files files.new) (F.plan files.new) (F.faults files.new) (F.misses files.new) (F.long_files files.new)) (progress_of reading.new) result }
    ensures open { IfOk result (λ u. chain_of reading.new ≡ chain_of reading.old) }
    ensures grows { reading.old.loads ≤ reading.new.loads }
{
    let mut items = Vec::new(reading.alloc);
    loop {
        match next_item(reading.alloc, &mut text, kind) {
            Ok(None) => return Ok(Items::from_vec(items)),
            Ok(Some(FileItem::Own(item))) => add(&mut items, item)?,
            Ok(Some(FileItem::Accumulation(names))) => {
                read_all(reading, files, names.as_slice(), kind)?
            }
            Err(fault) => {
                return Err(text_fault(name.copy(reading.alloc)?, TextStop::from(fault)));
            }
        }
    }
}

/// Reads the files of these names, in a file of that kind.
#[cycle(files)]
fn read_all<F: Files>(
    reading: &mut Reading,
    files: &mut F,
    names: &[Name],
    kind: FileKind,
) -> Result<(), SpecFault>
    ensures read { Outcome (chain_of reading.old) (asked kind names.now) (progress_of reading.old)
        (seen (F.files files.old) (F.plan files.old) (F.faults files.old) (F.misses files.old) (F.long_files files.old))
        (seen (F.files files.new) (F.plan files.new) (F.faults files.new) (F.misses files.new) (F.long_files files.new)) (progress_of reading.new) result }
    ensures open { IfOk result (λ u. chain_of reading.new ≡ chain_of reading.old) }
    ensures grows { reading.old.loads ≤ reading.new.loads }
{
    for name in names {
        read_file(reading, files, name, FileKind::Signature)?;
        if kind == FileKind::Module {
            read_file(reading, files, name, FileKind::Module)?;
        }
    }
    Ok(())
}

/// Reads the specification of that name: its signature, then its module, and the files that they accumulate at their places.
pub fn read_spec<F: Files>(alloc: Global, files: &mut F, name: &Name) -> Result<Spec, SpecFault>
    // The files are those of the specification, in the order in which their items take effect.
    ensures read { IfOk result (WasRead name.now
        (seen (F.files files.old) (F.plan files.old) (F.faults files.old) (F.misses files.old) (F.long_files files.old))
        (seen (F.files files.new) (F.plan files.new) (F.faults files.new) (F.misses files.new) (F.long_files files.new))) }
    // The first fault.
    ensures refused { IfErr result (IfRefused name.now
        (seen (F.files files.old) (F.plan files.old) (F.faults files.old) (F.misses files.old) (F.long_files files.old))
        (seen (F.files files.new) (F.plan files.new) (F.faults files.new) (F.misses files.new) (F.long_files files.new))) }
{
    let mut reading = Reading {
        alloc,
        open: Vec::new(alloc),
        loads: 0,
        files: Vec::new(alloc),
    };
    read_file(&mut reading, files, name, FileKind::Signature)?;
    read_file(&mut reading, files, name, FileKind::Module)?;
    Ok(Spec {
        files: Items::from_vec(reading.files),
    })
}
