//! An index of up to 1,024 elements that are strings of bytes: equal strings have equal buckets, so that a search looks
//! only at the elements of one bucket.
#![tactic(auto)]

mod bucket;
mod chains;
mod sought;

pub use bucket::Bucket;
pub use chains::Index;
pub use sought::Sought;
