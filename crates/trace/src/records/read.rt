ghost use Rattle.std.specs.Prelude.{◌≡◌, ◌≤◌, IfOk};
ghost use Rattle.trace.specs.Format.{a_record, all_records, raised};
ghost use Rattle.trace.specs.Told.{left, told, plain, shown, met, gathered, high_of};

use crate::input::Input;
use crate::records::Parsed;
use arrayvec::ArrayVec;
use model::{Command, Record, Refusal, Standing};

impl<'t> Input<'t> {
    /// A record, in a file of so many contents.
    pub fn record(
        &mut self,
        contents: usize,
        earlier: &[Command],
        high: u16,
    ) -> Result<Parsed, Refusal>
        ensures value { told shown result self.new ≡ a_record contents (met earlier.now high) (left self.old) }
        ensures high { IfOk result (λ n. n.high ≡ raised high (shown n)) }
    {
        let command = self.command(earlier)?;
        let count = self.byte()?;
        if count < 1 || count > 16 {
            return Err(Refusal::TraceRule);
        }
        let reads = self.uses(count as usize, contents, high)?;
        let write = self.one_use(contents, reads.high)?;
        let list = reads.list;
        let record = Record {
            command,
            reads: list,
            count,
            write,
            standing: Standing::Hint,
        };
        let high = reads.high.max(write.number);
        Ok(Parsed { record, high })
    }

    /// The records of a file, and the highest index in them.
    pub fn records(&mut self, count: usize, contents: usize) -> Result<u16, Refusal>
        requires { count ≤ 256 }
        ensures { plain result self.new ≡ gathered high_of (all_records contents count (left self.old)) }
    {
        let mut commands = ArrayVec::<Command, 256>::new();
        let mut high = 0;
        for _ in 0..count {
            let next = self.record(contents, commands.as_slice(), high)?;
            commands.push(next.record.command);
            high = next.high;
        }
        Ok(high)
    }
}
