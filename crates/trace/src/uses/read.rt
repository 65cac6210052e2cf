ghost use Rattle.std.specs.Prelude.{◌≡◌, ◌≤◌, IfOk};
ghost use Rattle.trace.specs.Format.{index_ok, a_use, higher};
ghost use Rattle.trace.specs.Reads.{many, after};
ghost use Rattle.trace.specs.Told.{left, told, plain, used};

use crate::input::Input;
use crate::uses::Uses;
use model::{Refusal, Use};

/// Indices stand in order of first use.
fn index_ok(contents: usize, high: u16, index: u16) -> bool
    ensures { result ≡ index_ok contents high index }
{
    index >= 1 && index as usize <= contents && index as u32 <= high as u32 + 1
}

impl<'t> Input<'t> {
    // Kept: how many contents there are and how high the indices have come are what the format's own definition takes.
    /// A file and an index.
    pub fn one_use(&mut self, contents: usize, high: u16) -> Result<Use, Refusal>
        ensures { plain result self.new ≡ a_use contents high (left self.old) }
    {
        let file = self.file(63)?;
        let number = self.number()?;
        if !index_ok(contents, high, number) {
            return Err(Refusal::TraceRule);
        }
        Ok(Use { file, number })
    }

    /// The reads of a record.
    pub fn uses(&mut self, count: usize, contents: usize, high: u16) -> Result<Uses, Refusal>
        requires { count ≤ 16 }
        ensures value { told used result self.new ≡ many (a_use contents) higher count high (left self.old) }
        ensures high { IfOk result (λ u. u.high ≡ after higher high (used u)) }
        ensures few { IfOk result (λ u. u.count ≡ count) }
    {
        // Kept: the places that a record has, in a table that is copied.
        let mut list = [Use::default(); 16];
        let mut top = high;
        // Kept: an index, by which the invariant says how many reads have been taken.
        for i in 0..count {
            let u = self.one_use(contents, top)?;
            list[i] = u;
            top = top.max(u.number);
        }
        Ok(Uses {
            list,
            count,
            high: top,
        })
    }
}
