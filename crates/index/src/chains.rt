ghost use Rattle.std.specs.Prelude.{ℕ, List, take};
ghost use Rattle.index.specs.Chained.{Chained};

use std::marker::Model;

mod methods;

// Kept: three tables of fixed size, held by value, since nothing in the library allocates.
/// The buckets of up to 1,024 elements, which are numbered from 1, and for each bucket the chain of its elements, from
/// the newest back. 0 is the number of none.
#[derive(Drop)]
pub struct Index {
    heads: [u16; 1024],
    before: [u16; 1024],
    buckets: [u16; 1024],
    count: u16,
}

impl Model for Index {
    ghost Value = { List ℕ };

    ghost view = { λ i. take i.count i.buckets };

    ghost invariant = { λ i. Chained i.heads i.before i.buckets i.count };
}
