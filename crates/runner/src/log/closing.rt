ghost use Rattle.std.specs.Prelude.{◌≡◌, ℕ, List};
ghost use Rattle.model.specs.Close.{put_back, kept};
ghost use Rattle.model.specs.Promise.{ClosePromised};
ghost use Rattle.model.specs.Contents.{Pool as PoolMeant};
ghost use Rattle.model.specs.Records.{Record as RecordMeant};
ghost use Rattle.pool.specs.Contents.{meant};
ghost use Rattle.runner.specs.Tickets.{why_blank};
ghost use Rattle.runner.specs.Views.{records, places, world_with, world};

// Kept throughout: files, pool, log and book are parameters of their own, each borrowed by `&` where it is only read.

use super::Log;
use crate::book::Book;
use crate::ticket::Ticket;
use engine::recorded;
use files::{FileStore, copy_all};
use model::{CloseRefusal, Closed, Refusal, Wish};
use pool::Pool;

impl<'a> Log<'a> {
    /// Puts files and pool back to what begin found, and closes the run.
    pub(crate) fn put_back<F: FileStore>(&mut self, files: &mut F, pool: &mut Pool)
        ensures { (rs : List RecordMeant) (n : ℕ) → world_with (F.FileStore.map files.new) (meant pool.new) self.new rs n ≡ put_back (world_with (F.FileStore.map files.old) (meant pool.old) self.old rs n) }
    {
        copy_all(&self.inner.run.files, files);
        pool.cut(self.inner.run.count);
        self.inner.run.opened = false;
    }

    /// Each line in order gives its own record to the book.
    fn give_records(&self, book: &mut Book)
        ensures records { (fs : List ℕ) (p : PoolMeant) → records book.new ≡ (kept (world fs p self.now book.old)).records }
        ensures places { places book.new ≡ places book.old }
    {
        let lines = self.inner.run.lines;
        let commands = &self.inner.run.commands[0..lines as usize];
        let entries = self.inner.entries.as_slice();
        // Kept: the number of the line is the index, and what its entries are told by.
        for line in 0..lines {
            let record = recorded(commands[line as usize], line, entries);
            book.keep(record, commands);
        }
    }

    /// Keeps the run: each line in order gives its own record to the book, and the run is closed.
    pub(crate) fn keep(&mut self, book: &mut Book)
        ensures { (fs : List ℕ) (p : PoolMeant) → world fs p self.new book.new ≡ kept (world fs p self.old book.old) }
    {
        self.give_records(book);
        self.inner.run.opened = false;
    }

    /// Ends the run that is open: it is kept, or put back.
    pub(crate) fn close<F: FileStore>(
        &mut self,
        ticket: Ticket,
        wish: Wish,
        files: &mut F,
        pool: &mut Pool,
        book: &mut Book,
    ) -> Result<Closed, CloseRefusal>
        ensures { ClosePromised (why_blank ticket) wish result (world (F.FileStore.map files.old) (meant pool.old) self.old book.old) (world (F.FileStore.map files.new) (meant pool.new) self.new book.new) }
    {
        if let Some(refusal) = ticket.spend() {
            return Err(CloseRefusal::By(refusal));
        }
        if !self.is_open() {
            return Err(CloseRefusal::By(Refusal::NoRun));
        }
        if let Some(stop) = self.stop() {
            self.put_back(files, pool);
            return Err(CloseRefusal::Stopped(stop));
        }
        // Kept: two patterns; the proof did not close over `==` and `is_some`.
        if let Wish::PutBack = wish {
            self.put_back(files, pool);
            return Ok(Closed::PutBack);
        }
        if let Some(_) = self.left().lowest() {
            self.put_back(files, pool);
            return Err(CloseRefusal::By(Refusal::LinesLeft));
        }
        self.keep(book);
        Ok(Closed::Kept)
    }
}
