ghost use Rattle.std.specs.Prelude.{◌≡◌, ◌&&◌, map};
ghost use Rattle.std.specs.List.{list_all, AllByRecursion};
ghost use Rattle.model.specs.Book.{unstruck};
ghost use Rattle.model.specs.Records.{said};
ghost use Rattle.pool.specs.Contents.{meant};
ghost use Rattle.trace_write.specs.Rooms.{Named};
ghost use Rattle.trace_write.specs.Saves.{use_savable, savable, is_new, chosen};

use arrayvec::ArrayVec;
use model::{Record, Standing, Use};
use pool::Pool;
use trace::{files_ok, has_command};

// Kept: the derived `!=`, under a name whose contract is the word by which the clause of `is_savable` is made up.
fn unstruck(standing: Standing) -> bool
    ensures { result ≡ unstruck standing }
{
    standing != Standing::Struck
}

/// A file can be told, and its content is in the pool.
fn use_savable(pool: &Pool, u: Use) -> bool
    ensures { result ≡ use_savable (meant pool.now) u }
{
    u.file <= 63 && pool.holds(u.number)
}

fn uses_savable(pool: &Pool, list: &[Use]) -> bool
    ensures { result ≡ list_all (use_savable (meant pool.now)) list.now }
{
    list.iter().all(|u| use_savable(pool, *u))
}

/// A record may be saved.
fn is_savable(pool: &Pool, rec: &Record) -> bool
    ensures { result ≡ savable (meant pool.now) (said rec.now) }
{
    let reads = rec.reads();
    unstruck(rec.standing)
        && files_ok(rec.command)
        && 1 <= reads.len()
        && reads.len() <= 16
        && uses_savable(pool, reads)
        && use_savable(pool, rec.write)
}

/// No record of its command has been chosen, and there is room for one more.
fn is_new(earlier: &[Record], rec: &Record) -> bool
    ensures { result ≡ is_new (map said earlier.now) (said rec.now) }
{
    !has_command(earlier, rec.command) && earlier.len() < 256
}

/// A record is saved after others.
fn is_chosen(pool: &Pool, earlier: &[Record], rec: &Record) -> bool
    ensures { result ≡ (savable (meant pool.now) (said rec.now) && is_new (map said earlier.now) (said rec.now)) }
{
    is_savable(pool, rec) && is_new(earlier, rec)
}

/// The records that are saved, in the order of the book.
pub fn choose(pool: &Pool, records: &[Record]) -> ArrayVec<Record, 256>
    ensures value { map said result.items ≡ chosen (meant pool.now) (map said records.now) }
    ensures named { AllByRecursion Named result.items }
{
    let mut list = ArrayVec::new();
    for r in records {
        if is_chosen(pool, &list, r) {
            list.push(*r);
        }
    }
    list
}
