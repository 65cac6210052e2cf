//! The list, the buckets, the pool and the file stores at the edges of their rules.
#![tactic(auto)]

#[cfg(test)]
mod buckets;
#[cfg(test)]
mod contents;
#[cfg(test)]
mod lent;
#[cfg(test)]
mod stores;
