ghost use Rattle.std.specs.Prelude.{◌≡◌, ℕ, ◌<◌, ◌≤◌, true, false, slice_index};
ghost use Rattle.model.specs.Begin.{begin_refusal, some_above};
ghost use Rattle.model.specs.Calls.{on_begin};
ghost use Rattle.model.specs.Promise.{Promised};
ghost use Rattle.pool.specs.Contents.{meant};
ghost use Rattle.script.specs.Scripts.{meaning};
ghost use Rattle.runner.specs.Tickets.{why_blank};
ghost use Rattle.runner.specs.Views.{world};

// Kept throughout: files, pool, log and book are parameters of their own, each borrowed by `&` where it is only read.

use super::Log;
use crate::book::Book;
use crate::ticket::Ticket;
use files::FileStore;
use model::Refusal;
use pool::Pool;
use script::Script;

/// The places that a log must have for each line: no line makes more acts.
const ACTS: usize = 17;

/// The places that a book must have: one for each line of the longest script.
const LEAST: usize = 64;

/// Some file has a number above the given one.
fn some_above<F: FileStore>(number: u16, files: &F) -> bool
    ensures { result ≡ some_above number (F.FileStore.map files.now) }
{
    is_above(number, files)
}

/// The same, said file by file: that one is above, or that none is.
fn is_above<F: FileStore>(number: u16, files: &F) -> bool
    ensures above { result ≡ true → (k : ℕ) × (k < 64) × (number < slice_index (F.FileStore.map files.now) k) }
    ensures below { result ≡ false → (k : ℕ) → k < 64 → slice_index (F.FileStore.map files.now) k ≤ number }
{
    (0..64u8).any(|file| number < files.tell(file))
}

impl<'a> Log<'a> {
    // Kept: by the rules a begin that is refused hands out a blank ticket, which tells why; none is an error of begin.
    /// Why a run of a script cannot begin.
    fn begin_refusal<F: FileStore>(
        &self,
        script: &Script,
        files: &F,
        pool: &Pool,
        book: &Book,
    ) -> Option<Refusal>
        ensures { result ≡ begin_refusal (meaning script.now).commands (world (F.FileStore.map files.now) (meant pool.now) self.now book.now) }
    {
        if self.is_open() {
            return Some(Refusal::RunOpen);
        }
        if self.places() < ACTS * script.commands().len() {
            return Some(Refusal::LogTooSmall);
        }
        if book.places() < LEAST {
            return Some(Refusal::BookTooSmall);
        }
        if some_above(pool.count(), files) {
            return Some(Refusal::UnknownContent);
        }
        None
    }

    /// Opens a run, or tells by a blank ticket why not.
    pub(crate) fn begin<F: FileStore>(
        &mut self,
        script: &Script,
        files: &F,
        pool: &Pool,
        book: &Book,
    ) -> Ticket
        ensures { Promised (on_begin (meaning script.now).commands (why_blank result)) (world (F.FileStore.map files.now) (meant pool.now) self.old book.now) (world (F.FileStore.map files.now) (meant pool.now) self.new book.now) }
    {
        if let Some(refusal) = self.begin_refusal(script, files, pool, book) {
            return Ticket::blank(refusal);
        }
        self.open(script, files, pool.count());
        Ticket::live()
    }
}
