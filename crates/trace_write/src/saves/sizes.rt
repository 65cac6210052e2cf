ghost use Rattle.std.specs.Prelude.{◌≡◌, ℕ, ◌≤◌, List, length};
ghost use Rattle.std.specs.List.{flat_map};
ghost use Rattle.pool.specs.Contents.{meant};
ghost use Rattle.trace_write.specs.Puts.{content_of, record_of};

use model::Record;
use pool::Pool;

/// How many bytes a content takes.
fn content_size(pool: &Pool, number: u16) -> usize
    ensures value { result ≡ length (content_of (meant pool.now) number) }
    ensures few { result ≤ 4098 }
{
    2 + pool.bytes(number).len()
}

/// How many bytes a record takes.
fn record_size(rec: &Record) -> usize
    ensures value { (numbers : List ℕ) → result ≡ length (record_of numbers rec.now) }
    ensures few { result ≤ 57 }
{
    9 + 3 * rec.reads().len()
}

/// How many bytes the contents of some numbers take.
pub fn contents_size(pool: &Pool, numbers: &[u16]) -> usize
    requires { length numbers.now ≤ 1024 }
    ensures { result ≡ length (flat_map (content_of (meant pool.now)) numbers.now) }
{
    numbers.iter().map(|n| content_size(pool, *n)).sum()
}

/// How many bytes some records take.
pub fn records_size(list: &[Record]) -> usize
    requires { length list.now ≤ 256 }
    ensures { (numbers : List ℕ) → result ≡ length (flat_map (record_of numbers) list.now) }
{
    list.iter().map(|r| record_size(r)).sum()
}
