ghost use Rattle.std.specs.Prelude.{◌≡◌, false, []};
ghost use Rattle.model.specs.Commands.{want};
ghost use Rattle.model.specs.Truth.{asks, makes, follows};
ghost use Rattle.model.specs.Contents.{content as content_of};
ghost use Rattle.model.specs.Records.{said};
ghost use Rattle.pool.specs.Contents.{meant};
ghost use Rattle.engine.specs.Nexts.{wanted};

use crate::acts::Acts;
use crate::next::{Next, next_of};
use crate::skipping::entry;
use crate::text::fill;
use lists::Lent;
use model::{Entry, Record, Use};
use pool::Pool;

/// What comes next is a read of the file.
fn is_read_of(next: Next, acts: &Acts, pool: &Pool, file: u8) -> bool
    ensures { result ≡ asks (wanted (meant pool.now) acts.now.line acts.now.entries.now next) file }
{
    match next {
        Next::Read(wanted) => file == wanted,
        _ => false,
    }
}

/// What comes next is a write of the content to the file.
fn is_write_of(next: Next, acts: &Acts, pool: &Pool, act: Use) -> bool
    ensures { result ≡ makes (wanted (meant pool.now) acts.now.line acts.now.entries.now next) act.file (content_of (meant pool.now) act.number) }
{
    let Next::Write(file, text) = next else {
        return false;
    };
    if act.file != file {
        return false;
    }
    let recorded = pool.bytes(act.number);
    // Kept: the project's own list over a local buffer, as over lent memory everywhere.
    let mut bytes = [0; 4096];
    let mut out = Lent::new(&mut bytes);
    fill(text, acts, pool, &mut out).is_ok() && recorded == out.as_slice()
}

/// The command of a record, given the recorded contents one after another, makes its reads and its write.
pub fn is_true(rec: &Record, pool: &Pool) -> bool
    ensures { result ≡ follows (meant pool.now) (want (said rec.now).command) [] (said rec.now).reads (said rec.now).write }
{
    let reads = rec.reads();
    // Kept: the project's own list over a local table, as over lent memory everywhere.
    let mut acts = [Entry::default(); 16];
    let mut made = Lent::new(&mut acts);
    for act in reads {
        if !pool.holds(act.number) {
            return false;
        }
        let sofar = Acts {
            line: 0,
            entries: made.as_slice(),
        };
        let next = next_of(rec.command, &sofar, pool);
        if !is_read_of(next, &sofar, pool, act.file) {
            return false;
        }
        made.push(entry(0, false, *act));
    }
    if !pool.holds(rec.write.number) {
        return false;
    }
    let all = Acts {
        line: 0,
        entries: made.as_slice(),
    };
    let last = next_of(rec.command, &all, pool);
    is_write_of(last, &all, pool, rec.write)
}
