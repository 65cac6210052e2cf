ghost use Rattle.std.specs.Prelude.{◌≡◌};
ghost use Rattle.model.specs.Commands.{is_yes, listed, want};
ghost use Rattle.model.specs.Hazards.{has_read};
ghost use Rattle.pool.specs.Contents.{meant};
ghost use Rattle.engine.specs.Nexts.{wanted, gather_next};

use crate::acts::Acts;
use crate::list::{file_at, is_list};
use crate::own::{ACTS, list_own};
use lists::Lent;
use model::{Command, Entry, Kind};
use pool::Pool;

/// The content that a line writes, by the numbers of what it read.
#[derive(Clone, Copy, Debug, PartialEq, Eq)]
pub(crate) enum Text {
    Of(u16),
    Both(u16, u16),
    Gathered,
    Sheets(u16),
    Verdict(u16, u16),
}

/// What a line does next.
#[derive(Clone, Copy, Debug, PartialEq, Eq)]
pub(crate) enum Next {
    Read(u8),
    Write(u8, Text),
    Bad,
}

/// What a choose tests.
fn agrees(content: &[u8]) -> bool
    ensures { result ≡ is_yes content.now }
{
    content.starts_with(b"y")
}

/// What a gather does next, that has read its list and so many files.
fn gather_next(to: u8, list: &[u8], files: usize) -> Next
    ensures { result ≡ gather_next to (listed list.now) files }
{
    if !is_list(list) {
        return Next::Bad;
    }
    match file_at(list, files) {
        Some(file) => Next::Read(file),
        None => Next::Write(to, Text::Gathered),
    }
}

/// What a line of a command does next, given the entries so far.
pub(crate) fn next_of(command: Command, acts: &Acts, pool: &Pool) -> Next
    ensures { wanted (meant pool.now) acts.now.line acts.now.entries.now result ≡ want command (has_read (meant pool.now) acts.now.line acts.now.entries.now) }
{
    let Some(first) = acts.read_at(0) else {
        return Next::Read(command.a);
    };
    let second = acts.read_at(1);
    match command.kind {
        Kind::Copy => Next::Write(command.b, Text::Of(first)),
        Kind::Join => match second {
            Some(second) => Next::Write(command.c, Text::Both(first, second)),
            None => Next::Read(command.b),
        },
        Kind::Gather => gather_next(command.b, pool.bytes(first), acts.count() - 1),
        Kind::Choose => match second {
            Some(second) => Next::Write(command.d, Text::Of(second)),
            None => {
                if agrees(pool.bytes(first)) {
                    Next::Read(command.b)
                } else {
                    Next::Read(command.c)
                }
            }
        },
        Kind::Tally => Next::Write(command.b, Text::Sheets(first)),
        Kind::Check => match second {
            Some(second) => Next::Write(command.c, Text::Verdict(first, second)),
            None => Next::Read(command.b),
        },
    }
}

/// What a line of a command does next, by its own entries.
pub(crate) fn next_in(command: Command, line: u8, entries: &[Entry], pool: &Pool) -> Next
    ensures { wanted (meant pool.now) line entries.now result ≡ want command (has_read (meant pool.now) line entries.now) }
{
    let mut room = [Entry::default(); ACTS];
    let mut own = Lent::new(&mut room);
    if list_own(line, entries, &mut own) {
        let entries = own.as_slice();
        return next_of(command, &Acts { line, entries }, pool);
    }
    next_of(command, &Acts { line, entries }, pool)
}
