//! The pool: contents of at most 4,096 bytes, numbered from 1 in order of arrival, no two of them equal, over
//! bytes and places that its owner lends.
#![tactic(auto)]

mod answers;
mod holder;
mod place;

pub use answers::{Content, Found, NoRoom, Put};
pub use holder::Pool;
pub use place::Place;
