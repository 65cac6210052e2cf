//! Writing a trace file: which records of a book it holds, which contents of the pool they name, and its bytes.
#![tactic(auto)]

mod chosen;
mod laws;
mod order;
mod saves;

pub use laws::{brought_back, saved_accepted, saved_again};
pub use saves::save;
