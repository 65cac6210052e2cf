ghost use Rattle.std.specs.Prelude.{◌≡◌, ◌≤◌, map, find, position, length};
ghost use Rattle.std.specs.Option.{option_map};
ghost use Rattle.model.specs.Book.{same_command, record_of, use_of};
ghost use Rattle.model.specs.Records.{said};

use crate::command::{Command, same_command};
use crate::run::Entry;

/// A file that was read or written, and the number of its content.
#[derive(Clone, Copy, Debug, Default, PartialEq, Eq)]
pub struct Use {
    pub file: u8,
    pub number: u16,
}

// Kept: this is where an entry is turned into a use, for all callers.
impl From<Entry> for Use {
    ghost from_gives = { λ entry act. act ≡ use_of entry };

    fn from(entry: Entry) -> Use {
        Use {
            file: entry.file,
            number: entry.number,
        }
    }
}

/// What a record is worth: it came from a trace file and nobody looked, it was made here or found true, it was
/// found false.
#[derive(Clone, Copy, Debug, Default, PartialEq, Eq)]
pub enum Standing {
    Hint,
    Own,
    #[default]
    Struck,
}

// Kept: sixteen places and a count, since records lie in lent memory, copied, and nothing allocates.
/// What a command did once: the first `count` of `reads`, in order, then `write`.
///
/// `==` compares the count and all sixteen places as they stand; two records say the same where `said` agrees.
#[derive(Clone, Copy, Debug, Default, PartialEq, Eq)]
pub struct Record {
    pub command: Command,
    pub reads: [Use; 16],
    pub count: u8,
    pub write: Use,
    pub standing: Standing,
}

impl Record {
    /// What the command read, in order.
    pub fn reads(&self) -> &[Use]
        ensures value { result.now ≡ (said self.now).reads }
        ensures few { length result.now ≤ 16 }
    {
        let count = usize::from(self.count).min(16);
        &self.reads[..count]
    }
}

/// The first record with a command.
fn first_with(records: &[Record], command: Command) -> Option<Record>
    ensures { result ≡ find (λ r. same_command command r.command) records.now }
{
    records
        .iter()
        .copied()
        .find(|candidate| same_command(command, candidate.command))
}

/// The record of a command.
pub fn record_of(records: &[Record], command: Command) -> Option<Record>
    ensures { option_map said result ≡ record_of command (map said records.now) }
{
    first_with(records, command)
}

/// The place of the record of a command, if there is one.
pub fn place_of(records: &[Record], command: Command) -> Option<usize>
    ensures { result ≡ position (λ r. same_command command r.command) records.now }
{
    records
        .iter()
        .position(|candidate| same_command(command, candidate.command))
}
