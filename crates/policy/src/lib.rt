//! Who acts next: the set of lines that are left, what a policy is, and the policies of the runner.
#![tactic(auto)]

mod choice;
mod highest_first;
mod last_run;
mod line_set;
mod patience;
mod patient;
mod policy;
mod script_order;
mod waits;

pub use choice::{Choice, Highest};
pub use highest_first::HighestFirst;
pub use last_run::LastRun;
pub use line_set::LineSet;
pub use patience::Patience;
pub use patient::Patient;
pub use policy::{Policy, passes_until_front};
pub use script_order::ScriptOrder;
pub use waits::Waits;
