//! The files of the system: the trusted edge, a few lines with a counter for each refusal.
//!
//! Nothing is told of what they hold. Missing comes only where the system says that there is no such file, and Failed at each
//! other error of the system, as a folder or a file that may not be read. Want of memory for the bytes is no fault, and isn't counted.
ghost use Rattle.std.specs.Prelude.{◌≡◌};

use ab_io::{Files, LoadFault, MAX_FILE_BYTES};
use std::alloc::AllocError;
use std::fs;
use std::io::{ErrorKind, Read};

#[cfg(test)]
mod tests;

/// The files of the system. A name is taken as it is written, from the current folder.
#[derive(Drop)]
pub struct DirFiles<'a, R> {
    system: &'a R,
    faults: u64,
    misses: u64,
    long_files: u64,
}

impl<'a, R: fs::Files> DirFiles<'a, R> {
    /// The files of this system, before the first load.
    pub fn new(system: &'a R) -> DirFiles<'a, R>
        ensures faults { result.faults ≡ 0 }
        ensures misses { result.misses ≡ 0 }
        ensures long_files { result.long_files ≡ 0 }
    {
        DirFiles {
            system,
            faults: 0,
            misses: 0,
            long_files: 0,
        }
    }
}

impl<R: fs::Files> Files for DirFiles<'_, R> {
    ghost use Rattle.std.specs.Prelude.{None};

    ghost files = { λ _. None };

    ghost plan = { λ _. None };

    ghost faults = { λ f. f.faults };

    ghost misses = { λ f. f.misses };

    ghost long_files = { λ f. f.long_files };

    fn load(&mut self, name: &str, into: &mut Vec<u8>) -> Result<(), LoadFault> {
        into.clear();
        let file = match fs::File::open(self.system, name) {
            Ok(file) => file,
            Err(error) if error.kind() == ErrorKind::NotFound => {
                self.misses = self.misses.saturating_add(1);
                return Err(LoadFault::Missing);
            }
            Err(_) => {
                self.faults = self.faults.saturating_add(1);
                return Err(LoadFault::Failed);
            }
        };
        // One byte more than a file may have tells that it is too long, and no more than that is read.
        let read = file.take(MAX_FILE_BYTES as u64 + 1).read_to_end(into);
        if let Err(error) = read {
            into.clear();
            if error.kind() == ErrorKind::OutOfMemory {
                return Err(LoadFault::Memory(AllocError));
            }
            self.faults = self.faults.saturating_add(1);
            return Err(LoadFault::Failed);
        }
        if into.len() > MAX_FILE_BYTES {
            into.clear();
            self.long_files = self.long_files.saturating_add(1);
            return Err(LoadFault::TooLong);
        }
        Ok(())
    }
}
