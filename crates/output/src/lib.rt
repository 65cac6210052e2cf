//! A caller's buffer that is written front to back.
#![tactic(auto)]

mod writing;

pub use writing::Output;
