use console_lines::{Line, Request};
use std::alloc::Global;
use std::io;
use std::io::{BufRead, Write};

/// Where commands come from and answers go to. The line at hand and the answers that are not yet written lie in two
/// buffers, which are used again for each line.
#[derive(Drop)]
pub struct Terminal<R, W> {
    alloc: Global,
    reader: R,
    writer: W,
    line: Vec<u8>,
    pub answer: Vec<u8>,
}

/// A line without the byte 10 at its end.
fn without_end(line: &[u8]) -> &[u8] {
    match line {
        [start @ .., b'\n'] => start,
        _ => line,
    }
}

impl<R: BufRead + Drop, W: Write + Drop> Terminal<R, W> {
    pub fn new(alloc: Global, reader: R, writer: W) -> Terminal<R, W> {
        Terminal {
            alloc,
            reader,
            writer,
            line: Vec::new(alloc),
            answer: Vec::new(alloc),
        }
    }

    /// Writes the answers that are not yet written.
    fn send(&mut self) -> io::Result<()> {
        self.writer.write_all(self.answer.as_slice())?;
        self.writer.flush()?;
        self.answer.clear();
        Ok(())
    }

    /// Reads the next line; none at the end of the input.
    fn read_line(&mut self) -> io::Result<Option<Line>> {
        self.line.clear();
        if self.reader.read_until(b'\n', &mut self.line)? == 0 {
            return Ok(None);
        }
        Ok(Some(Line::read(self.alloc, without_end(self.line.as_slice()))?))
    }

    /// Writes the answers so far and reads the next command, none at the end of the input. A line that is malformed is
    /// answered here.
    pub fn next(&mut self) -> io::Result<Option<Request>> {
        for _ in 0..u64::MAX {
            self.send()?;
            match self.read_line()? {
                None => return Ok(None),
                Some(Line::Nothing) => {}
                Some(Line::Malformed) => self.answer.write_all(b"what\n")?,
                Some(Line::Asks(request)) => return Ok(Some(request)),
            }
        }
        Ok(None)
    }
}
