use super::{Desk, script_of};
use crate::buffers::{BLANK, tell_written};
use crate::table::number;
use crate::telling::word;
use files::FileStore;
use runner::{audit, load, report, save};
use std::io;
use std::io::Write;

impl<F: FileStore> Desk<'_, F> {
    /// Loads a trace file.
    pub fn load(&mut self, argument: &str) -> io::Result<bool> {
        let trace = self.bytes_of(argument)?;
        let parts = &mut self.parts;
        let answer = load(
            trace.as_slice(),
            &mut parts.pool,
            &parts.log,
            &mut parts.book,
        );
        self.tell_done(answer)
    }

    /// Audits the record in a place.
    pub fn audit(&mut self, argument: &str) -> io::Result<bool> {
        let parts = &mut self.parts;
        match audit(number(argument), &parts.pool, &parts.log, &mut parts.book) {
            Ok(standing) => {
                let standing = word(standing);
                writeln!(&mut self.out, "{standing}")?;
                Ok(false)
            }
            Err(refusal) => self.tell_done(Err(refusal)),
        }
    }

    /// Saves the book into a buffer of some length.
    pub fn save(&mut self, argument: &str) -> io::Result<()> {
        let mut buffer = [BLANK; 4096];
        let lent = &mut buffer[..number(argument).min(4096)];
        let parts = &self.parts;
        let answer = save(lent, &parts.pool, &parts.book);
        tell_written(&mut self.out, &buffer, answer)
    }

    /// Tells the length of the trace file of the book.
    pub fn tell_length(&mut self) -> io::Result<()> {
        let mut buffer = [BLANK; 4096];
        let parts = &self.parts;
        let len = save(&mut buffer, &parts.pool, &parts.book).unwrap_or(0);
        writeln!(&mut self.out, "saves {len}")
    }

    /// Writes the report of the last build into a buffer of some length.
    pub fn report(&mut self, argument: &str) -> io::Result<()> {
        let mut buffer = [BLANK; 4096];
        let lent = &mut buffer[..number(argument).min(4096)];
        let script = script_of(self.text.as_slice());
        let answer = report(lent, self.outcome, &script, &self.files, &self.parts.pool);
        tell_written(&mut self.out, &buffer, answer)
    }
}
