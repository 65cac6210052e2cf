ghost use Rattle.std.specs.Prelude.{◌≡◌, min, not, [], map, length};
ghost use Rattle.std.specs.List.{position};
ghost use Rattle.std.specs.Option.{option_map};
ghost use Rattle.model.specs.Book.{record_of, in_script, keep};
ghost use Rattle.model.specs.Records.{said};
ghost use Rattle.runner.specs.Places.{place_of, free_place};
ghost use Rattle.runner.specs.Views.{records, places};

use super::Book;
use lists::Lent;
use model::{Command, Record, is_among, place_of, record_of};

/// The most places that a book uses.
const MOST: usize = 256;

impl<'a> Book<'a> {
    /// An empty book over what is lent.
    pub fn new(list: &'a mut [Record]) -> Book<'a>
        ensures records { records result ≡ [] }
        ensures places { places result ≡ min (length list.old) 256 }
    {
        let used = list.len().min(MOST);
        Book {
            list: Lent::new(&mut list[0..used]),
        }
    }

    /// How many records it may hold.
    pub fn places(&self) -> usize
        ensures { result ≡ places self.now }
    {
        self.list.room()
    }

    /// The records, in the order of their places.
    pub fn records(&self) -> &[Record]
        ensures { map said result.now ≡ records self.now }
    {
        self.list.as_slice()
    }

    /// The record of a command.
    pub fn find(&self, command: Command) -> Option<Record>
        ensures { option_map said result ≡ record_of command (records self.now) }
    {
        record_of(self.list.as_slice(), command)
    }

    /// The place of the record of a command.
    fn place_of(&self, command: Command) -> Option<usize>
        ensures { result ≡ place_of command (records self.now) }
    {
        place_of(self.records(), command)
    }

    /// The lowest place whose command is not in the script.
    fn free_place(&self, commands: &[Command]) -> Option<usize>
        ensures { result ≡ free_place commands.now (records self.now) }
    {
        first_free(self.records(), commands)
    }

    /// Takes in the own record of a line that was kept: in place of its command's record, else appended, else in the
    /// lowest place whose command is not in the script.
    pub(crate) fn keep(&mut self, own: Record, commands: &[Command])
        ensures records { records self.new ≡ keep commands.now (places self.old) (said own) (records self.old) }
        ensures places { places self.new ≡ places self.old }
    {
        if let Some(at) = self.place_of(own.command) {
            self.list.replace(at, own);
        } else if self.list.len() < self.places() {
            self.list.push(own);
        } else if let Some(at) = self.free_place(commands) {
            self.list.replace(at, own);
        }
    }
}

/// The first place whose command is not in a script.
fn first_free(list: &[Record], commands: &[Command]) -> Option<usize>
    ensures { result ≡ position (λ r. not (in_script r.command commands.now)) list.now }
{
    list.iter()
        .position(|record| !is_among(commands, record.command))
}
