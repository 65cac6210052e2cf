//! The library: log, book and ticket over lent memory, and the calls. No call has a premise, and none allocates.
#![tactic(auto)]

mod book;
mod calls;
mod counts;
mod log;
mod run;
mod saving;
mod states;
mod ticket;

pub use book::Book;
pub use calls::{audit, begin, build, close, lay, load, step};
pub use log::Log;
pub use report::report;
pub use saving::save;
pub use ticket::Ticket;
