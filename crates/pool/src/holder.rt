ghost use Rattle.std.specs.Prelude.{◌≡◌, ◌≤◌, map, min, length, take};
ghost use Rattle.index.specs.Sums.{bucket_of_ends};
ghost use Rattle.pool.specs.Pieces.{pieces, total, Packed, Short};
ghost use Rattle.pool.specs.Sound.{Apart};

use crate::Place;
use index::Index;

mod methods;
mod same;

// Kept: lent memory, since nothing in the library allocates; and no two `Lent`, since the pool tests the room of both
// before it writes, and a `Lent` would test it again and answer it.
/// Contents, numbered from 1 in order of arrival, over lent bytes and lent places. No two are equal.
///
/// It uses up to 65,536 bytes and 1,024 places of what it is lent.
#[derive(Drop)]
pub struct Pool<'a> {
    bytes: &'a mut [u8],
    places: &'a mut [Place],
    used: usize,
    count: u16,
    index: Index,
    ghost bytes_fit: { used ≤ min (length bytes.now) 65536 },
    ghost places_fit: { count ≤ min (length places.now) 1024 },
    ghost packed: { Packed places.now count },
    ghost filled: { used ≡ total (take count places.now) },
    ghost short: { Short places.now count },
    ghost apart: { Apart (pieces bytes.now count places.now) },
    ghost indexed: { index ≡ map bucket_of_ends (pieces bytes.now count places.now) },
}
