ghost use Rattle.std.specs.Prelude.{◌≡◌, ℕ, ◌<◌, true, map, length, take, None, slice_index_or};
ghost use Rattle.std.specs.Option.{option_map};
ghost use Rattle.model.specs.Records.{said};
ghost use Rattle.policy.specs.Lines.{has, leads, highest, some_below};
ghost use Rattle.policy.specs.Waiting.{waits, waits_on, finds, held_up, free};

use super::Waits;
use super::found::{found, waits_by};
use crate::line_set::LineSet;
use model::{Command, Record};
use std::array;

/// The record that each line finds.
fn found_all(commands: &[Command], records: &[Record]) -> [Option<Record>; 64]
    ensures long { length result ≡ 64 }
    ensures each { (k : ℕ) → k < 64 → option_map said (slice_index_or result k None) ≡ finds commands.now (map said records.now) k }
{
    array::from_fn(|line| found(commands, records, line))
}

impl Waits {
    /// Who waits on whom among the first 64 commands, by their records.
    pub fn new(commands: &[Command], records: &[Record]) -> Waits
        ensures { (line earlier : ℕ) → waits result line earlier ≡ waits_on (take 64 commands.now) (map said records.now) line earlier }
    {
        let all = found_all(commands, records);
        Waits {
            table: array::from_fn(|at| waits_by(&all[at / 64], &all[at % 64])),
        }
    }

    /// A line waits on another line. What is no line has no record, so it waits on all earlier ones.
    pub fn on(&self, line: u8, earlier: u8) -> bool
        ensures { result ≡ waits self.now line earlier }
    {
        earlier < line && (line >= 64 || self.table[line as usize * 64 + earlier as usize])
    }

    /// A line waits on an earlier line of the set.
    fn is_held_up(&self, among: &LineSet, line: u8) -> bool
        ensures { result ≡ some_below (held_up (waits self.now) (has among.now) line) line }
    {
        // From above: a line without a record is held up by the next lower one of the set.
        (0..line)
            .rev()
            .any(|earlier| among.has(earlier) && self.on(line, earlier))
    }

    /// A line is of the set and waits on no line of it.
    pub fn is_free(&self, among: &LineSet, line: u8) -> bool
        ensures { result ≡ free (waits self.now) (has among.now) line }
    {
        among.has(line) && !self.is_held_up(among, line)
    }

    // Kept: a chain of its own beside `LineSet::highest_or`; one function over a closure for both would be no plainer.
    /// The highest line of the set that waits on no line of it, or the one given if there is none.
    pub fn highest_free(&self, among: &LineSet, default: u8) -> u8
        ensures value { result ≡ highest (free (waits self.now) (has among.now)) 64 default }
        ensures free { leads (has among.now) default ≡ true → free (waits self.now) (has among.now) result ≡ true }
    {
        (0..64u8)
            .rev()
            .find(|line| self.is_free(among, *line))
            .unwrap_or(default)
    }
}
