ghost use Rattle.std.specs.Prelude.{◌≡◌, map};
ghost use Rattle.lists.specs.Held.{held, room};
ghost use Rattle.model.specs.Load.{Loaded};
ghost use Rattle.model.specs.Records.{said};
ghost use Rattle.model.specs.World.{World, stocked};
ghost use Rattle.pool.specs.Contents.{meant};
ghost use Rattle.trace.specs.Format.{decoded};

use crate::contents::put_contents;
use crate::hints::take_hints;
use lists::Lent;
use model::{Record, Refusal};
use pool::Pool;
use trace::check;

/// Takes a trace file into a pool and a book: its contents are put, and its records become hints. A hint is appended,
/// or takes the place of a record of its command that is not own; an own record stays. All is tested before anything
/// changes for good: a refused file leaves pool and book as they were.
pub fn load_file(bytes: &[u8], pool: &mut Pool, book: &mut Lent<Record>) -> Result<(), Refusal>
    ensures loaded { (w : World) → w.book_places ≡ room book.old → Loaded (decoded bytes.now) result (stocked w w.files (meant pool.old) (map said (held book.old))) (stocked w w.files (meant pool.new) (map said (held book.new))) }
    ensures room { room book.new ≡ room book.old }
{
    let trace = check(bytes)?;
    let count = pool.count();
    put_contents(pool, &trace)?;
    // Kept: no `?`, since the pool is cut back before the refusal is told.
    if let Err(refusal) = take_hints(book, pool, &trace) {
        pool.cut(count);
        return Err(refusal);
    }
    Ok(())
}
