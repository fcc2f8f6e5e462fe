//! The outside as values: where bytes come from, where they go to, files by name, and scripts that go forth and back.
//!
//! Each trait has meanings, which contracts see: the bytes where they are told, and counts of what
//! went wrong, which never fall. A count rose where it is greater at the call's end, or stands at
//! the last number of 64 bits.
#![tactic(auto)]

mod files;
mod memory;
mod replay;
mod sink;
mod source;

pub use files::{Files, LoadFault, MAX_FILE_BYTES};
pub use memory::{MemFiles, MemSink, MemSource};
pub use replay::Replay;
pub use sink::{Sink, WriteFault, write_all};
pub use source::{Failed, Source};
