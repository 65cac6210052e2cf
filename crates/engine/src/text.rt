ghost use Rattle.std.specs.Prelude.{◌≡◌, ◌++◌, length, drop};
ghost use Rattle.std.specs.Str.{bytes_eq};
ghost use Rattle.lists.specs.Held.{held, room};
ghost use Rattle.model.specs.Commands.{all_bytes, sheets, verdict};
ghost use Rattle.model.specs.Hazards.{has_read};
ghost use Rattle.pool.specs.Contents.{meant};
ghost use Rattle.engine.specs.Fits.{fitting, kept};
ghost use Rattle.engine.specs.Nexts.{spelled};

use crate::acts::Acts;
use crate::next::Text;
use lists::Lent;
use pool::Pool;

/// A text does not fit.
#[derive(Clone, Copy, Debug, PartialEq, Eq)]
pub(crate) struct TooLong;

/// Adds bytes, if there is room for all of them.
fn add(out: &mut Lent<u8>, bytes: &[u8]) -> Result<(), TooLong>
    ensures held { kept result (held out.new) ≡ fitting (room out.old) (held out.old ++ bytes.now) }
    ensures room { room out.new ≡ room out.old }
{
    // Kept: `then_some(()).ok_or(TooLong)` is no plainer.
    if out.extend(bytes) {
        Ok(())
    } else {
        Err(TooLong)
    }
}

/// What a tally writes for a length.
fn sheets_of(length: u32) -> [u8; 4]
    ensures { result ≡ sheets length }
{
    (length / 64).to_be_bytes()
}

/// What a check writes of two contents.
fn verdict_of(a: &[u8], b: &[u8]) -> [u8; 4]
    ensures { result ≡ verdict (bytes_eq a.now b.now) }
{
    if a == b { *b"same" } else { *b"diff" }
}

/// Adds all that a line read after its list.
fn gather(acts: &Acts, pool: &Pool, out: &mut Lent<u8>) -> Result<(), TooLong>
    ensures held { kept result (held out.new) ≡ fitting (room out.old) (held out.old ++ all_bytes (drop 1 (has_read (meant pool.now) acts.now.line acts.now.entries.now))) }
    ensures room { room out.new ≡ room out.old }
{
    let reads = acts.entries.iter().filter(|entry| acts.is_read(entry));
    for read in reads.skip(1) {
        add(out, pool.bytes(read.number))?;
    }
    Ok(())
}

/// Adds the bytes of a text, if there is room for them.
pub(crate) fn fill(text: Text, acts: &Acts, pool: &Pool, out: &mut Lent<u8>) -> Result<(), TooLong>
    ensures held { kept result (held out.new) ≡ fitting (room out.old) (held out.old ++ spelled (meant pool.now) acts.now.line acts.now.entries.now text) }
    ensures room { room out.new ≡ room out.old }
{
    match text {
        Text::Of(number) => add(out, pool.bytes(number)),
        Text::Both(first, second) => {
            add(out, pool.bytes(first))?;
            add(out, pool.bytes(second))
        }
        Text::Gathered => gather(acts, pool, out),
        Text::Sheets(number) => add(out, &sheets_of(pool.bytes(number).len() as u32)),
        Text::Verdict(first, second) => {
            add(out, &verdict_of(pool.bytes(first), pool.bytes(second)))
        }
    }
}
