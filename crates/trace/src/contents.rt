ghost use Rattle.std.specs.Prelude.{◌≤◌};

mod read;

/// The contents of a file, in order: the first `count` of `list`.
// Kept: a table and a count, since `Trace`, which holds it, is a public `Copy` type, and an `ArrayVec` is not `Copy`.
#[derive(Clone, Copy)]
pub struct Contents<'t> {
    pub list: [&'t [u8]; 1024],
    pub count: usize,
    ghost fits: { count ≤ 1024 },
}
