//! File stores: maps from the files 0 to 63 to content numbers, and two stores of such a map.
#![tactic(auto)]

mod codec;
mod copies;
mod draft;
mod image;
mod numbers;
mod store;
mod table;

pub use codec::round_trip_stands;
pub use copies::copy_all;
pub use image::Image;
pub use store::FileStore;
pub use table::Table;
