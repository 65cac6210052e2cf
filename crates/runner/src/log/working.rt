ghost use Rattle.std.specs.Prelude.{◌≡◌, ℕ, ◌<◌, true, List, length};
ghost use Rattle.model.specs.Acts.{stop_of};
ghost use Rattle.model.specs.Step.{left, record_for, skipping, work, noting, after_work};
ghost use Rattle.std.specs.Option.{option_map};
ghost use Rattle.model.specs.Records.{said};
ghost use Rattle.pool.specs.Contents.{meant};
ghost use Rattle.engine.specs.States.{state};
ghost use Rattle.runner.specs.Views.{notes, notes_of, entries_of, is_open, world};

// Kept throughout: files, pool, log and book are parameters of their own, each borrowed by `&` where it is only read.

use super::{Inner, Log};
use crate::book::Book;
use crate::states::{is_own, is_waiting};
use engine::{act, can_skip, line_state, skip};
use files::FileStore;
use model::{Record, Stepped, Stop};
use pool::Pool;

impl<'a> Inner<'a> {
    /// Notes the stop that a line met, if any, and turns the state of that line alone. Between an act and this note the
    /// states do not follow from the entries, so it stands on `Inner`.
    fn turn(&mut self, line: u8, stop: Option<Stop>, pool: &Pool)
        requires { line < self.old.run.lines }
        ensures entries { self.new.entries ≡ self.old.entries }
        ensures lines { self.new.run.lines ≡ self.old.run.lines }
        ensures opened { self.new.run.opened ≡ self.old.run.opened }
        ensures notes { (fs : List ℕ) → notes self.new.run ≡ noting (notes self.old.run) line (state fs pool.now self.old.entries) stop }
    {
        let at = line as usize;
        let command = self.run.commands[at];
        let state = line_state(command, line, self.entries.as_slice(), pool);
        self.run.states[at] = state;
        self.run.stop = stop;
    }
}

impl<'a> Log<'a> {
    /// The record by which a line can be skipped: it must have made no act.
    fn record_for<F: FileStore>(
        &self,
        line: u8,
        files: &F,
        pool: &Pool,
        book: &Book,
    ) -> Option<Record>
        requires { left (length (notes_of self.now).commands) (entries_of self.now) line ≡ true }
        ensures { option_map said result ≡ record_for (world (F.FileStore.map files.now) (meant pool.now) self.now book.now) line }
    {
        let at = line as usize;
        if !is_waiting(self.inner.run.states[at]) {
            return None;
        }
        // Kept: `let .. else`, the form of a lookup here, as in `work`; a question mark says no more.
        let Some(record) = book.find(self.inner.run.commands[at]) else {
            return None;
        };
        if !is_own(record.standing) {
            return None;
        }
        if !can_skip(record.reads(), record.write, files, pool) {
            return None;
        }
        Some(record)
    }

    /// Works on a line of those left: skips it by its record, or makes its next act.
    pub(crate) fn work<F: FileStore>(
        &mut self,
        line: u8,
        files: &mut F,
        pool: &mut Pool,
        book: &Book,
    ) -> Stepped
        requires opened { is_open self.old ≡ true }
        requires left { left (length (notes_of self.old).commands) (entries_of self.old) line ≡ true }
        ensures line { result.line ≡ line }
        ensures skipped { result.skipped ≡ skipping (record_for (world (F.FileStore.map files.old) (meant pool.old) self.old book.now) line) }
        ensures stop { result.stop ≡ stop_of (work (world (F.FileStore.map files.old) (meant pool.old) self.old book.now) line) }
        ensures world { world (F.FileStore.map files.new) (meant pool.new) self.new book.now ≡ after_work (world (F.FileStore.map files.old) (meant pool.old) self.old book.now) line (work (world (F.FileStore.map files.old) (meant pool.old) self.old book.now) line) }
    {
        let Some(record) = self.record_for(line, files, pool, book) else {
            let command = self.inner.run.commands[line as usize];
            let stop = act(command, line, files, pool, &mut self.inner.entries).err();
            self.inner.turn(line, stop, pool);
            return Stepped {
                line,
                skipped: false,
                stop,
            };
        };
        let stop = skip(
            line,
            record.reads(),
            record.write,
            files,
            &mut self.inner.entries,
        )
        .err();
        self.inner.turn(line, stop, pool);
        Stepped {
            line,
            skipped: true,
            stop,
        }
    }
}
