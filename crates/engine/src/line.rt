ghost use Rattle.std.specs.Prelude.{◌≡◌, ◌≤◌, length};
ghost use Rattle.model.specs.Acts.{line_state};
ghost use Rattle.model.specs.Book.{reads_of, recorded as record_made};
ghost use Rattle.model.specs.Commands.{want};
ghost use Rattle.model.specs.Records.{said};
ghost use Rattle.pool.specs.Contents.{meant};

use crate::acts::Acts;
use crate::next::{Next, next_of};
use crate::own::{ACTS, Walk, list_own, list_unended};
use lists::Lent;
use model::{Command, Entry, LineState, Record, Standing};
use pool::Pool;

/// How far a line has come, by what it has done.
fn state_of(command: Command, acts: &Acts, pool: &Pool) -> LineState
    ensures { result ≡ line_state (want command) acts.now.line (meant pool.now) acts.now.entries.now }
{
    if acts.has_ended() {
        return LineState::Ended;
    }
    if acts.is_fresh() {
        return LineState::Waiting;
    }
    if acts.has_read_absent() {
        return LineState::Reading;
    }
    match next_of(command, acts, pool) {
        Next::Write(_, _) => LineState::Writing,
        Next::Read(_) | Next::Bad => LineState::Reading,
    }
}

// Kept: a caller has a line and a log, and would make an `Acts` for one call; inside they go together.
/// How far a line has come.
pub fn line_state(command: Command, line: u8, entries: &[Entry], pool: &Pool) -> LineState
    ensures { result ≡ line_state (want command) line (meant pool.now) entries.now }
{
    let mut room = [Entry::default(); ACTS];
    let mut own = Lent::new(&mut room);
    match list_unended(line, entries, &mut own) {
        Walk::Ended => LineState::Ended,
        Walk::Listed => {
            let entries = own.as_slice();
            state_of(command, &Acts { line, entries }, pool)
        }
        Walk::Full => state_of(command, &Acts { line, entries }, pool),
    }
}

/// The own record of a line that has ended, by what it has done.
fn record_of(command: Command, acts: &Acts) -> Record
    requires { length (reads_of acts.now.line acts.now.entries.now) ≤ 16 }
    ensures { said result ≡ record_made acts.now.line command acts.now.entries.now }
{
    Record {
        command,
        reads: acts.reads(),
        count: acts.count() as u8,
        write: acts.write(),
        standing: Standing::Own,
    }
}

// Kept: as for `line_state`, a caller has a line and a log.
/// The own record of a line that has ended.
pub fn recorded(command: Command, line: u8, entries: &[Entry]) -> Record
    requires { length (reads_of line entries.now) ≤ 16 }
    ensures { said result ≡ record_made line command entries.now }
{
    let mut room = [Entry::default(); ACTS];
    let mut own = Lent::new(&mut room);
    if list_own(line, entries, &mut own) {
        let entries = own.as_slice();
        return record_of(command, &Acts { line, entries });
    }
    record_of(command, &Acts { line, entries })
}
