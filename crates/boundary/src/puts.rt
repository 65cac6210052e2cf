ghost use Rattle.std.specs.Prelude.{◌≡◌, ◌*◌, ◌/◌, length};
ghost use Rattle.std.specs.List.{flat_map};
ghost use Rattle.std.specs.Option.{option_map};
ghost use Rattle.output.specs.Writes.{laid, Room, Writes};
ghost use Rattle.pool.specs.Contents.{meant};
ghost use Rattle.trace.specs.Reads.{two_bytes};
ghost use Rattle.boundary.specs.Puts.{first, cut_at, fresh_pool, numbers_given};

use crate::numbers::put_number;
use output::Output;
use pool::{Place, Pool};

/// The content that a list begins with, and the list after it; none where it is not whole.
fn first_content(list: &[u8]) -> Option<(&[u8], &[u8])>
    ensures { option_map (λ p. cut_at p.0.now p.1.now) result ≡ first list.now }
{
    let [high, low, rest @ ..] = list else {
        return None;
    };
    let len = usize::from(u16::from_be_bytes([*high, *low]));
    if len > rest.len() {
        return None;
    }
    Some((&rest[..len], &rest[len..]))
}

/// Puts the contents of a list into a pool, at most so many, and writes their numbers, 0 for one that is refused.
fn put_list(list: &[u8], most: usize, pool: &mut Pool, numbers: &mut Output) -> usize
    requires { Room (2 * most) numbers.old }
    ensures count { result ≡ length (numbers_given most (meant pool.old) list.now) }
    ensures written { Writes (flat_map two_bytes (numbers_given most (meant pool.old) list.now)) numbers.old numbers.new }
{
    let mut rest = list;
    for done in 0..most {
        let Some((content, after)) = first_content(rest) else {
            return done;
        };
        let number = pool.put(content).map_or(0, |put| put.number);
        put_number(numbers, number);
        rest = after;
    }
    most
}

/// Puts the contents of a list into a fresh pool over what is lent.
fn put_over(list: &[u8], bytes: &mut [u8], places: &mut [Place], numbers: &mut [u8]) -> usize
    ensures count { result ≡ length (numbers_given (length numbers.old / 2) (fresh_pool (length places.old) (length bytes.old)) list.now) }
    ensures bytes { numbers.new ≡ laid 0 (flat_map two_bytes (numbers_given (length numbers.old / 2) (fresh_pool (length places.old) (length bytes.old)) list.now)) numbers.old }
{
    let most = numbers.len() / 2;
    let mut pool = Pool::new(bytes, places);
    let mut out = Output::new(numbers);
    put_list(list, most, &mut pool, &mut out)
}

/// Puts a list of contents into a fresh pool over lent bytes and at most so many places, and writes for each its
/// number in two bytes, 0 where it is refused, until the list or the room for numbers ends. It answers how many it
/// wrote.
#[unsafe(no_mangle)]
pub extern "C" fn boundary_put(
    list: &[u8],
    bytes: &mut [u8],
    places: usize,
    numbers: &mut [u8],
) -> usize
    ensures count { result ≡ length (numbers_given (length numbers.old / 2) (fresh_pool places (length bytes.old)) list.now) }
    ensures bytes { numbers.new ≡ laid 0 (flat_map two_bytes (numbers_given (length numbers.old / 2) (fresh_pool places (length bytes.old)) list.now)) numbers.old }
{
    let mut lent = [Place::NOWHERE; 1024];
    put_over(list, bytes, &mut lent[..places.min(1024)], numbers)
}
