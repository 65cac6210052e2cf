//! Trace files: contents and records as bytes that shops keep and hand on. Checking such a file, and
//! reading it.
#![tactic(auto)]

mod contents;
mod file;
mod input;
mod kinds;
mod known;
mod laws;
mod recorded;
mod records;
mod uses;

pub use file::{Trace, check};
pub use kinds::files_ok;
pub use laws::{only_lawful, read_back, written_back};
pub use recorded::has_command;
pub use records::Records;
