//! Releasing a script from nothing: what is printed, as a function of the text in specs/, and the function that gives
//! it.
#![tactic(auto)]

mod releasing;
mod unrecorded;

pub use releasing::release;
pub use unrecorded::Unrecorded;
