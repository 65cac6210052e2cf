//! Reports of builds, as they are printed.
#![tactic(auto)]

#[cfg(test)]
mod printed;
