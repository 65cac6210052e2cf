ghost use Rattle.std.specs.Prelude.{◌≡◌, ◌+◌, ◌<◌, ◌&&◌, ◌∷◌, length, ◌==◌};
ghost use Rattle.lists.specs.Held.{held, room};
ghost use Rattle.model.specs.Contents.{Pool as PoolMeant};
ghost use Rattle.model.specs.Step.{match as matching, all_held, entry as entry_of, skip as skips};
ghost use Rattle.pool.specs.Contents.{meant};
ghost use Rattle.engine.specs.States.{outcome};

use crate::acting::note;
use files::FileStore;
use lists::Lent;
use model::{Entry, Stop, Use};
use pool::Pool;

// Kept: no `From`, since an entry has a line and a direction too.
/// The entry of a recorded act.
pub(crate) fn entry(line: u8, wrote: bool, act: Use) -> Entry
    ensures { result ≡ entry_of line wrote act }
{
    Entry {
        line,
        wrote,
        file: act.file,
        number: act.number,
    }
}

/// Every number is in the pool.
fn are_held(acts: &[Use], pool: &Pool) -> bool
    ensures { result ≡ all_held (meant pool.now) acts.now }
{
    acts.iter().all(|act| pool.holds(act.number))
}

/// The files hold what was read.
fn do_match<F: FileStore>(reads: &[Use], files: &F) -> bool
    ensures { result ≡ matching (F.FileStore.map files.now) reads.now }
{
    reads.iter().all(|act| files.tell(act.file) == act.number)
}

/// The acts of a record can be made again: each number is in the pool, and the files hold what was read.
pub fn can_skip<F: FileStore>(reads: &[Use], write: Use, files: &F, pool: &Pool) -> bool
    ensures { result ≡ (all_held (meant pool.now) (write ∷ reads.now) && matching (F.FileStore.map files.now) reads.now) }
{
    let held = pool.holds(write.number) && are_held(reads, pool);
    held && do_match(reads, files)
}

// Kept: the line and the entries stay apart, since a skip changes the entries.
/// A line makes the acts of a record in order; the first hazard stops the run. The pool, whatever it is, stays.
pub fn skip<F: FileStore>(
    line: u8,
    reads: &[Use],
    write: Use,
    files: &mut F,
    entries: &mut Lent<Entry>,
) -> Result<(), Stop>
    requires { length (held entries.old) + length reads.now < room entries.old }
    ensures outcome { (p : PoolMeant) → outcome result (record { files = F.FileStore.map files.new; pool = p; entries = held entries.new }) ≡ skips line reads.now write (record { files = F.FileStore.map files.old; pool = p; entries = held entries.old }) }
    ensures room { room entries.new ≡ room entries.old }
{
    for act in reads {
        note(entries, entry(line, false, *act))?;
    }
    files.set(write.file, write.number);
    note(entries, entry(line, true, write))
}
