//! Certificates: the text in which a run writes what was declared and how its theorems were derived.
#![tactic(auto)]

mod cert;
mod clause;
mod constants;
mod count;
mod fault;
mod head;
mod laws;
mod leaves;
mod members;
mod outline;
mod part;
mod part_stack;
mod read;
mod readers;
mod round_trip;
mod row;
mod rules;
mod scan;
mod scans;
mod shape;
mod spelling;
mod step;
mod step_row;
mod term_tree;
mod text;
mod type_tree;
mod writer;

pub use cert::{Cert, CertItem};
pub use clause::{CertClause, CertReplace, CertVar};
pub use fault::ReadFault;
pub use head::{CertHead, CertSign};
pub use laws::{one_first_bad_byte, one_text};
pub use members::Members;
pub use outline::check_text;
pub use read::read_cert;
pub use round_trip::text_is_read_back;
pub use step::{CertStep, Label};
pub use term_tree::{CertTree, TermNode};
pub use type_tree::{TypeNode, TypeTree};
pub use writer::write_text;
