ghost use Rattle.std.specs.Prelude.{◌≡◌, ◌≤◌, ◌&&◌, ◌==◌, find, length, min, take};
ghost use Rattle.std.specs.List.{slice_get, count_by};
ghost use Rattle.model.specs.Acts.{read_absent};
ghost use Rattle.model.specs.Book.{reads_of, write_of};
ghost use Rattle.model.specs.Hazards.{fresh, ended};
ghost use Rattle.engine.specs.Reads.{reads_by, numbers};

use model::{Entry, Use};

// Kept: without the pool, which most of its methods do not ask, and which a write changes.
/// What a line has done so far, read off the entries of all lines, the oldest first.
#[derive(Clone, Copy)]
pub(crate) struct Acts<'e> {
    pub(crate) line: u8,
    pub(crate) entries: &'e [Entry],
}

impl<'e> Acts<'e> {
    /// The line has made no act.
    pub(crate) fn is_fresh(&self) -> bool
        ensures { result ≡ fresh self.now.line self.now.entries.now }
    {
        self.entries.iter().all(|entry| self.line != entry.line)
    }

    /// The line has made its write.
    pub(crate) fn has_ended(&self) -> bool
        ensures { result ≡ ended self.now.line self.now.entries.now }
    {
        self.entries
            .iter()
            .any(|entry| self.line == entry.line && entry.wrote)
    }

    /// The line has read an absent file.
    pub(crate) fn has_read_absent(&self) -> bool
        ensures { result ≡ read_absent self.now.line self.now.entries.now }
    {
        self.entries
            .iter()
            .any(|entry| self.line == entry.line && entry.number == 0)
    }

    /// An entry is a read of the line.
    pub(crate) fn is_read(&self, entry: &Entry) -> bool
        ensures { result ≡ reads_by self.now.line entry.now }
    {
        self.line == entry.line && !entry.wrote
    }

    /// How many reads the line has made.
    pub(crate) fn count(&self) -> usize
        ensures { result ≡ count_by (reads_by self.now.line) self.now.entries.now }
    {
        self.entries
            .iter()
            .filter(|entry| self.is_read(entry))
            .count()
    }

    /// The number of the content that the line read at a place of its reads.
    pub(crate) fn read_at(&self, at: usize) -> Option<u16>
        ensures { result ≡ slice_get (numbers self.now.line self.now.entries.now) at }
    {
        self.entries
            .iter()
            .filter(|entry| self.is_read(entry))
            .map(|entry| entry.number)
            .nth(at)
    }

    /// What the line has read, in order, in the first of sixteen places.
    pub(crate) fn reads(&self) -> [Use; 16]
        requires { length (reads_of self.now.line self.now.entries.now) ≤ 16 }
        ensures { take (min (count_by (reads_by self.now.line) self.now.entries.now) 16) result ≡ reads_of self.now.line self.now.entries.now }
    {
        let mut reads = [Use::default(); 16];
        let made = self.entries.iter().filter(|entry| self.is_read(entry));
        for (place, entry) in made.enumerate() {
            reads[place] = Use::from(*entry);
        }
        reads
    }

    /// The write of the line.
    fn find_write(&self) -> Option<Entry>
        ensures { result ≡ find (λ e. self.now.line == e.line && e.wrote) self.now.entries.now }
    {
        self.entries
            .iter()
            .copied()
            .find(|entry| self.line == entry.line && entry.wrote)
    }

    /// What the line has written.
    pub(crate) fn write(&self) -> Use
        ensures { result ≡ write_of self.now.line self.now.entries.now }
    {
        self.find_write().map(Use::from).unwrap_or_default()
    }
}
