//! The library as it is called from plain Rust and from C: exports on numbers and slices of bytes. Each tests what it
//! is given, so none has a premise; none allocates; and each says in its contract what it answers and writes.
#![tactic(auto)]

mod accounts;
mod builds;
mod figures;
mod numbers;
mod policies;
mod puts;
mod releases;
mod retraces;
mod rounds;
mod setting;
mod wished;
