ghost use Rattle.std.specs.Prelude.{◌≡◌, ℕ, ◌<◌, length, replicate, slice_index};
ghost use Rattle.std.proofs.Common.{rules, arith};

use crate::numbers::{number_at, with_number};
use crate::store::FileStore;

/// A plain table of the 64 numbers.
#[derive(Drop)]
pub struct Table {
    numbers: [u16; 64],
    ghost long: { length numbers ≡ 64 },
    ghost fits: { (k : ℕ) → slice_index numbers k < 65536 },
}

impl Table {
    ghost use Rattle.files.specs.Tables.{numbers_of};

    /// A table in which every file is absent.
    pub fn new() -> Table
        ensures { numbers_of result ≡ replicate 64 0 }
    {
        Table { numbers: [0; 64] }
    }
}

impl FileStore for Table {
    ghost use Rattle.files.specs.Tables.{numbers_of};

    ghost map = { numbers_of };

    ghost long = { first_of (Prim.search rules, Prim.grind (arith, Self.row.coded.inj)) };

    ghost fits = { first_of (Prim.search rules, Prim.grind (arith, Self.row.coded.inj)) };

    fn tell(&self, file: u8) -> u16 {
        number_at(&self.numbers, file)
    }

    fn set(&mut self, file: u8, number: u16) {
        self.numbers = with_number(self.numbers, file, number);
    }
}
