//! What a line of the console asks for, and the lines that answer it.
#![tactic(auto)]

mod hex;
mod numbers;
mod plain;
mod request;
mod start;
mod telling;
mod told;
mod wishes;
mod words;

pub use plain::Plain;
pub use request::{Line, PolicyRequest, Request};
pub use start::{Start, Store};
pub use telling::{
    tell_audit, tell_book, tell_build, tell_bytes, tell_close, tell_done, tell_files, tell_help,
    tell_log, tell_pool, tell_refused, tell_saved, tell_script, tell_step, tell_what,
};
pub use wishes::Wishes;
