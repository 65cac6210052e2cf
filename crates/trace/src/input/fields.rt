ghost use Rattle.std.specs.Prelude.{◌≡◌, ◌≤◌, IfOk};
ghost use Rattle.trace.specs.Format.{a_file};
ghost use Rattle.trace.specs.Reads.{a_byte, a_number, a_count, a_piece};
ghost use Rattle.trace.specs.Told.{left, told, plain};

use crate::input::Input;
use model::Refusal;

impl<'t> Input<'t> {
    /// One byte.
    pub fn byte(&mut self) -> Result<u8, Refusal>
        ensures { plain result self.new ≡ a_byte (left self.old) }
    {
        let (first, rest) = self.rest.split_first().ok_or(Refusal::TraceLength)?;
        self.rest = rest;
        Ok(*first)
    }

    /// Two bytes, the most significant first.
    pub fn number(&mut self) -> Result<u16, Refusal>
        ensures { plain result self.new ≡ a_number (left self.old) }
    {
        let (bytes, rest) = self.rest.split_first_chunk().ok_or(Refusal::TraceLength)?;
        self.rest = rest;
        Ok(u16::from_be_bytes(*bytes))
    }

    /// A count or a length.
    pub fn count(&mut self, most: u16) -> Result<usize, Refusal>
        ensures value { plain result self.new ≡ a_count most (left self.old) }
        ensures within { IfOk result (λ n. n ≤ most) }
    {
        let n = self.number()?;
        if n > most {
            return Err(Refusal::TraceRule);
        }
        Ok(n as usize)
    }

    /// The next `n` bytes.
    pub fn piece(&mut self, n: usize) -> Result<&'t [u8], Refusal>
        ensures { told (λ x. x.now) result self.new ≡ a_piece n (left self.old) }
    {
        let (piece, rest) = self.rest.split_at_checked(n).ok_or(Refusal::TraceLength)?;
        self.rest = rest;
        Ok(piece)
    }

    /// A file number.
    pub fn file(&mut self, most: u8) -> Result<u8, Refusal>
        ensures { plain result self.new ≡ a_file most (left self.old) }
    {
        let file = self.byte()?;
        if file > most {
            return Err(Refusal::TraceRule);
        }
        Ok(file)
    }
}
