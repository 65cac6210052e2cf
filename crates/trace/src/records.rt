ghost use Rattle.std.specs.Prelude.{◌≤◌};

use model::Record;

mod next;
mod read;

/// A record, and the highest index up to it.
#[derive(Clone, Copy)]
pub struct Parsed {
    pub record: Record,
    pub high: u16,
}

/// The records of a checked file that are still to come.
#[derive(Clone, Copy)]
pub struct Records<'t> {
    pub(crate) rest: &'t [u8],
    pub(crate) left: usize,
    pub(crate) contents: usize,
    pub(crate) high: u16,
    ghost few: { left ≤ 256 },
}
