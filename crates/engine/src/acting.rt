ghost use Rattle.std.specs.Prelude.{◌≡◌, ◌<◌, [], ◌∷◌, ◌++◌, length};
ghost use Rattle.lists.specs.Held.{held, room};
ghost use Rattle.model.specs.Acts.{attempt, act as acts};
ghost use Rattle.model.specs.Commands.{want, reads};
ghost use Rattle.model.specs.Hazards.{has_read, hazard};
ghost use Rattle.pool.specs.Contents.{meant};
ghost use Rattle.engine.specs.Nexts.{spelled};
ghost use Rattle.engine.specs.States.{outcome, met, state, writes_out};

use crate::acts::Acts;
use crate::hazard::hazard_of;
use crate::next::{Next, Text, next_in};
use crate::text::fill;
use files::FileStore;
use lists::Lent;
use model::{Command, Entry, Fault, Stop};
use pool::{Pool, Put};

// Kept throughout: that a place is free stands at each function, since each act takes one, and no type can promise the
// next; the line and the entries stay apart, since an act changes the entries.

/// Notes an act of a line. A hazard that it meets stops the line.
pub(crate) fn note(entries: &mut Lent<Entry>, entry: Entry) -> Result<(), Stop>
    requires { length (held entries.old) < room entries.old }
    ensures hazard { result ≡ met entry.line (hazard entry (held entries.old)) }
    ensures held { held entries.new ≡ held entries.old ++ entry ∷ [] }
    ensures room { room entries.new ≡ room entries.old }
{
    let hazard = hazard_of(entries.as_slice(), entry);
    entries.push(entry);
    match hazard {
        Some(hazard) => Err(Stop {
            line: entry.line,
            fault: Fault::Hazard(hazard),
        }),
        None => Ok(()),
    }
}

/// A line reads a file.
fn read<F: FileStore>(
    command: Command,
    line: u8,
    file: u8,
    files: &F,
    pool: &Pool,
    entries: &mut Lent<Entry>,
) -> Result<(), Stop>
    requires { length (held entries.old) < room entries.old }
    ensures outcome { outcome result (state (F.FileStore.map files.now) pool.now entries.new) ≡ attempt (want command) line (state (F.FileStore.map files.now) pool.now entries.old) (has_read (meant pool.now) line (held entries.old)) (reads file) }
    ensures room { room entries.new ≡ room entries.old }
{
    let number = pool.known(files.tell(file));
    let entry = Entry {
        line,
        wrote: false,
        file,
        number,
    };
    note(entries, entry)?;
    if number == 0 {
        return Err(Stop {
            line,
            fault: Fault::Absent,
        });
    }
    match next_in(command, line, entries.as_slice(), pool) {
        Next::Bad => Err(Stop {
            line,
            fault: Fault::BadList,
        }),
        _ => Ok(()),
    }
}

/// A line writes a text to a file.
fn write<F: FileStore>(
    line: u8,
    file: u8,
    text: Text,
    files: &mut F,
    pool: &mut Pool,
    entries: &mut Lent<Entry>,
) -> Result<(), Stop>
    requires { length (held entries.old) < room entries.old }
    ensures outcome { outcome result (state (F.FileStore.map files.new) pool.new entries.new) ≡ writes_out line (state (F.FileStore.map files.old) pool.old entries.old) file (spelled (meant pool.old) line (held entries.old) text) }
    ensures room { room entries.new ≡ room entries.old }
{
    // Kept: the project's own list over a local buffer, as over lent memory everywhere.
    let mut bytes = [0; 4096];
    let mut out = Lent::new(&mut bytes);
    let acts = Acts {
        line,
        entries: entries.as_slice(),
    };
    fill(text, &acts, pool, &mut out).map_err(|_| Stop {
        line,
        fault: Fault::TooLong,
    })?;
    let Put { number } = pool.put(out.as_slice()).map_err(|_| Stop {
        line,
        fault: Fault::NoRoom,
    })?;
    files.set(file, number);
    let entry = Entry {
        line,
        wrote: true,
        file,
        number,
    };
    note(entries, entry)
}

/// One act of a line: the next of its command. What it meets stops the run.
pub fn act<F: FileStore>(
    command: Command,
    line: u8,
    files: &mut F,
    pool: &mut Pool,
    entries: &mut Lent<Entry>,
) -> Result<(), Stop>
    requires { length (held entries.old) < room entries.old }
    ensures outcome { outcome result (state (F.FileStore.map files.new) pool.new entries.new) ≡ acts (want command) line (state (F.FileStore.map files.old) pool.old entries.old) }
    ensures room { room entries.new ≡ room entries.old }
{
    match next_in(command, line, entries.as_slice(), pool) {
        Next::Read(file) => read(command, line, file, files, pool, entries),
        Next::Write(file, text) => write(line, file, text, files, pool, entries),
        Next::Bad => Err(Stop {
            line,
            fault: Fault::BadList,
        }),
    }
}
