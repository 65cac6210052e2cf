//! Taking a checked trace file into a pool and a book, all or nothing: the parts of which the call `load` is made.
#![tactic(auto)]

mod contents;
mod hints;
mod loading;

pub use contents::put_contents;
pub use hints::take_hints;
pub use loading::load_file;
