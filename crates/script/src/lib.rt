//! Scripts: the text that gives files their labels and starting contents, and says which lines a release has.
#![tactic(auto)]

mod answer;
mod label;
mod reading;
mod script;
mod tables;
mod verb;
mod words;

pub use answer::{Have, Refused};
pub use script::Script;
pub use words::{Word, next_word};
