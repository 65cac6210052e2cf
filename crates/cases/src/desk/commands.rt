use super::Desk;
use crate::buffers::fill_and_tell;
use crate::parts::Tickets;
use crate::reading::read_and_tell;
use crate::state::tell_counts;
use crate::table::{first_word, number};
use crate::telling::{tell_book, tell_content};
use files::FileStore;
use std::io::Write;
use std::{io, mem};

impl<F: FileStore> Desk<'_, F> {
    /// Swaps a part for the spare one.
    fn swap(&mut self, name: &str) {
        match name {
            "pool" => mem::swap(&mut self.parts.pool, &mut self.spare.pool),
            "log" => mem::swap(&mut self.parts.log, &mut self.spare.log),
            _ => mem::swap(&mut self.parts.book, &mut self.spare.book),
        }
    }

    /// Gives a file a content number, whether or not the pool has it; without one that of the empty content.
    fn set(&mut self, argument: &str) {
        let (file, number) = first_word(argument);
        let file = file.parse().unwrap_or(0);
        if !number.is_empty() {
            self.files.set(file, number.parse().unwrap_or(0));
        } else if let Ok(put) = self.parts.pool.put(b"") {
            self.files.set(file, put.number);
        }
    }

    /// Tells the counts of pool, log and book.
    fn tell_counts(&mut self) -> io::Result<()> {
        let state = self.state();
        tell_counts(&mut self.out, &state)
    }

    /// Tells the content of a file.
    fn tell_file(&mut self, argument: &str) -> io::Result<()> {
        let number = self.files.tell(argument.parse().unwrap_or(0));
        tell_content(&mut self.out, number, &self.parts.pool)
    }

    /// Reads a text as a script, and tells it.
    fn read(&mut self, argument: &str) -> io::Result<()> {
        let text = self.bytes_of(argument)?;
        read_and_tell(&mut self.out, text.as_slice())
    }

    /// Fills an image with bytes and zeros behind them, as many as the argument begins with.
    fn fill(&mut self, argument: &str) -> io::Result<()> {
        let (len, text) = first_word(argument);
        let mut bytes = self.bytes_of(text)?;
        bytes.resize(number(len), 0)?;
        fill_and_tell(&mut self.out, bytes.as_slice())
    }

    /// Answers a command that shows something.
    fn show(&mut self, name: &str, argument: &str) -> io::Result<()> {
        match name {
            "left" => self.tell_changes(),
            "counts" => self.tell_counts(),
            "file" => self.tell_file(argument),
            "book" => tell_book(&mut self.out, &self.parts.book),
            "saves" => self.tell_length(),
            "save" => self.save(argument),
            "report" => self.report(argument),
            "read" => self.read(argument),
            "fill" => self.fill(argument),
            // The parts are made by these before the first command.
            "lent" | "spare" => Ok(()),
            _ => writeln!(&mut self.out, "no such command"),
        }
    }

    /// Answers a command that arranges something, or one of the others.
    fn arrange(&mut self, name: &str, argument: &str) -> io::Result<()> {
        match name {
            "mark" => self.mark = self.state(),
            "set" => self.set(argument),
            "swap" => self.swap(argument),
            _ => self.show(name, argument)?,
        }
        Ok(())
    }

    /// Answers a call that may be refused, or one of the others. Answers whether a call is refused.
    fn call(&mut self, name: &str, argument: &str) -> io::Result<bool> {
        match name {
            "lay" => self.lay(argument),
            "build" => self.build(argument),
            "earlier" => self.build_earlier(argument),
            "load" => self.load(argument),
            "audit" => self.audit(argument),
            _ => {
                self.arrange(name, argument)?;
                Ok(false)
            }
        }
    }

    /// Answers a command that has nothing to do with a ticket; a refused one tells what it leaves.
    fn call_and_tell(&mut self, name: &str, argument: &str) -> io::Result<()> {
        let before = self.state();
        if self.call(name, argument)? {
            self.tell_left(&before)?;
        }
        Ok(())
    }

    /// Answers a command.
    pub fn answer(&mut self, tickets: &mut Tickets, line: &str) -> io::Result<()> {
        writeln!(&mut self.out, "> {line}")?;
        let (name, argument) = first_word(line);
        match name {
            "begin" => self.begin(tickets),
            "steps" => self.steps(argument, tickets),
            "close" => self.close(argument, tickets),
            "swap-ticket" => {
                mem::swap(&mut tickets.last, &mut tickets.spare);
                Ok(())
            }
            _ => self.call_and_tell(name, argument),
        }
    }
}
