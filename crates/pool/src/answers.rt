ghost use Rattle.std.specs.Prelude.{Some, codes};

use std::error::Error;
use std::fmt;

/// A content of a pool: the part of the lent bytes that it is, and where it starts in them.
#[derive(Clone, Copy, Debug, PartialEq, Eq)]
pub struct Content<'p> {
    pub bytes: &'p [u8],
    pub start: usize,
}

/// The number of the content that was looked for.
#[derive(Clone, Copy, Debug, PartialEq, Eq)]
pub struct Found {
    pub number: u16,
}

// Kept: a struct of its own, since more will be told later (docs/DECISIONS.md).
/// The number that a content has, which was put or was there.
#[derive(Clone, Copy, Debug, PartialEq, Eq)]
pub struct Put {
    pub number: u16,
}

/// The content is over 4,096 bytes, or no place or too few bytes are left.
#[derive(Clone, Copy, Debug, PartialEq, Eq)]
pub struct NoRoom;

impl fmt::Display for NoRoom {
    ghost output = { λ _. Some (codes "the content is over 4,096 bytes, or no place or too few bytes are left") };

    fn fmt<W: fmt::Write>(&self, f: &mut fmt::Formatter<W>) -> fmt::Result {
        f.write_str("the content is over 4,096 bytes, or no place or too few bytes are left")
    }
}

impl Error for NoRoom {}
