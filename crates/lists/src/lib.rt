//! Lists over memory that their owner lends.
#![tactic(auto)]

mod change;
mod list;

pub use change::Change;
pub use list::Lent;
