//! The report of a build: what it came to, and each file that has a content, as text.
#![tactic(auto)]

mod first;
mod held;
mod numbers;
mod reporting;

pub use reporting::report;
