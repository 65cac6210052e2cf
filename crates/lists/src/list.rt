ghost use Rattle.std.specs.Prelude.{◌≤◌, length};

mod methods;

// Kept: this is the list over lent memory; the library's own lists hold their memory themselves. Each function that
// changes a list says that its room stays, since no type says it of a borrow.
/// A list that grows at its end, over a slice that its owner lends.
///
/// It holds the first `len` elements of the slice; what lies past them is free.
#[derive(Drop)]
pub struct Lent<'a, T> {
    items: &'a mut [T],
    len: usize,
    ghost within: { len ≤ length items.now },
}
