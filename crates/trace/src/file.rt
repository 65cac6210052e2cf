ghost use Rattle.std.specs.Prelude.{◌≤◌};

use crate::contents::Contents;

mod methods;

pub use methods::check;

/// A trace file whose bytes keep the rules.
#[derive(Clone, Copy)]
pub struct Trace<'t> {
    contents: Contents<'t>,
    records: usize,
    rest: &'t [u8],
    ghost few: { records ≤ 256 },
}
