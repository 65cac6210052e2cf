mod pieces;
mod sections;
mod sizes;
mod whole;

pub use whole::save;
