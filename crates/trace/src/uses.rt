use model::Use;

mod read;

/// The reads of a record in order, and the highest index up to them.
// Kept: a table and a count, since a `Record` holds these, and is `Copy` as an `ArrayVec` is not.
#[derive(Clone, Copy)]
pub struct Uses {
    pub list: [Use; 16],
    pub count: usize,
    pub high: u16,
}
