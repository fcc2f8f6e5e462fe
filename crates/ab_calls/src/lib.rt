//! Calls that no script reaches, as tests: that they succeed where there is memory, and the printed names of faults. The
//! crate holds nothing else. Its tests stand here and not beside the calls, since a crate with tests is proved twice.
#![tactic(auto)]

#[cfg(test)]
mod certificates;
#[cfg(test)]
mod documents;
#[cfg(test)]
mod names;
#[cfg(test)]
mod streams;
