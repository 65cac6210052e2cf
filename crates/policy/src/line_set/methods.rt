ghost use Rattle.std.specs.Prelude.{◌≡◌, ℕ, min, false, not, ◌&&◌, ◌||◌, ◌==◌, nat_lt};
ghost use Rattle.policy.specs.Lines.{has, some_below, leads, highest, Lowest};

use super::LineSet;
use std::array;

impl LineSet {
    /// The set of no line.
    pub fn new() -> LineSet
        ensures { (k : ℕ) → has result k ≡ false }
    {
        LineSet::below(0)
    }

    /// The lines below a number, at most all 64.
    pub fn below(count: u8) -> LineSet
        ensures { (k : ℕ) → has result k ≡ nat_lt k (min count 64) }
    {
        LineSet {
            lines: array::from_fn(|line| line < count as usize),
        }
    }

    /// A line is in the set.
    pub fn has(&self, line: u8) -> bool
        ensures { result ≡ has self.now line }
    {
        line < 64 && self.lines[line as usize]
    }

    /// Puts a line into the set. Numbers above 63 are no lines.
    pub fn insert(&mut self, line: u8)
        ensures { (k : ℕ) → has self.new k ≡ (has self.old k || (k == line && nat_lt k 64)) }
    {
        if line < 64 {
            self.lines[line as usize] = true;
        }
    }

    /// Takes a line out of the set.
    pub fn remove(&mut self, line: u8)
        ensures { (k : ℕ) → has self.new k ≡ (has self.old k && not (k == line)) }
    {
        if line < 64 {
            self.lines[line as usize] = false;
        }
    }

    /// The lowest line of the set, if it has any.
    pub fn lowest(&self) -> Option<u8>
        ensures { Lowest (has self.now) result }
    {
        (0..64u8).find(|line| self.has(*line))
    }

    /// A line is the lowest of the set.
    pub fn leads(&self, line: u8) -> bool
        ensures { result ≡ leads (has self.now) line }
    {
        self.has(line) && !self.any_below(line)
    }

    /// The set has a line below a number.
    fn any_below(&self, line: u8) -> bool
        ensures { result ≡ some_below (has self.now) line }
    {
        (0..line).any(|lower| self.has(lower))
    }

    // Kept: `Waits::highest_free` is this chain with another test; one function over a closure for both is no plainer.
    /// The highest line of the set, or the one given if it has none.
    pub fn highest_or(&self, default: u8) -> u8
        ensures { result ≡ highest (has self.now) 64 default }
    {
        (0..64u8)
            .rev()
            .find(|line| self.has(*line))
            .unwrap_or(default)
    }
}
