ghost use Rattle.std.specs.Prelude.{◌≡◌, true, map, IfOk};
ghost use Rattle.std.specs.Option.{option_map};
ghost use Rattle.std.specs.List.{slice_get};
ghost use Rattle.model.specs.Records.{said};
ghost use Rattle.trace.specs.Format.{decoded, encoded, lawful};
ghost use Rattle.trace.specs.Told.{left, at_end, checked, meant, coming, content_at};

use crate::file::Trace;
use crate::input::Input;
use crate::records::Records;
use model::{Record, Refusal};

/// Every content has been used, and no bytes are left.
fn at_end(high: u16, contents: usize, rest: &[u8]) -> Result<(), Refusal>
    ensures { result ≡ at_end high contents rest.now }
{
    if high as usize != contents {
        return Err(Refusal::TraceRule);
    }
    if !rest.is_empty() {
        return Err(Refusal::TraceLength);
    }
    Ok(())
}

impl<'t> Input<'t> {
    /// The two sections, and nothing after them.
    fn trace(&mut self) -> Result<Trace<'t>, Refusal>
        ensures { checked result ≡ decoded (left self.old) }
    {
        let contents = self.contents()?;
        let records = self.count(256)?;
        let rest = self.rest;
        let high = self.records(records, contents.count)?;
        at_end(high, contents.count, self.rest)?;
        Ok(Trace {
            contents,
            records,
            rest,
        })
    }
}

/// Checks the bytes of a trace file from front to back. A file that is accepted holds a lawful trace, and its bytes
/// are what that trace is written as.
pub fn check(bytes: &[u8]) -> Result<Trace<'_>, Refusal>
    ensures value { checked result ≡ decoded bytes.now }
    ensures lawful { IfOk result (λ t. lawful (meant t) ≡ true) }
    ensures written { IfOk result (λ t. encoded (meant t) ≡ bytes.now) }
{
    let mut input = Input { rest: bytes };
    input.trace()
}

impl<'t> Trace<'t> {
    /// Its contents in order: the content of index 1 comes first.
    pub fn contents(&self) -> &[&'t [u8]]
        ensures { map (λ x. x.now) result.now ≡ (meant self.now).contents }
    {
        &self.contents.list[..self.contents.count]
    }

    /// The content of an index; indices count from 1.
    pub fn content(&self, index: u16) -> Option<&'t [u8]>
        ensures { option_map (λ x. x.now) result ≡ content_at (meant self.now).contents index }
    {
        let at = usize::from(index).checked_sub(1)?;
        self.contents().get(at).copied()
    }

    /// Its records, one after the other.
    pub fn records(&self) -> Records<'t>
        ensures { coming result ≡ (meant self.now).records }
    {
        Records {
            rest: self.rest,
            left: self.records,
            contents: self.contents.count,
            high: 0,
        }
    }

    /// The record at a place; places count from 0.
    pub fn record(&self, at: usize) -> Option<Record>
        ensures { option_map said result ≡ slice_get (meant self.now).records at }
    {
        self.records().nth(at)
    }
}
