ghost use Rattle.std.specs.Prelude.{◌≡◌, ℕ, Bool};
ghost use Rattle.policy.specs.Choices.{answer, highest_first, last_run};
ghost use Rattle.policy.specs.Lines.{has};
ghost use Rattle.policy.specs.Waiting.{waits};

use crate::line_set::LineSet;
use crate::waits::Waits;

// Kept: a closure has no name, and `HighestFirst` and `LastRun` are types that callers name.
/// Which line a policy would choose: with a patience, this is all that a policy is.
pub trait Choice {
    ghost line: { Self → (ℕ → Bool) → ℕ → ℕ → ℕ → ℕ };

    /// The line to choose from a set with this front. Taken where the patience allows it, it gives the answer that
    /// `line` says.
    fn choose(&self, among: &LineSet, front: u8) -> u8
        ensures { (patience passes : ℕ) → answer (has among.now) front patience passes result ≡ line self.now (has among.now) front patience passes };
}

/// The choice of the highest line.
#[derive(Clone, Copy, Debug, PartialEq, Eq)]
pub struct Highest;

impl Choice for Highest {
    ghost line = { λ _. highest_first };

    fn choose(&self, among: &LineSet, front: u8) -> u8 {
        among.highest_or(front)
    }
}

impl Choice for Waits {
    ghost line = { λ w. last_run (waits w) };

    fn choose(&self, among: &LineSet, front: u8) -> u8 {
        self.highest_free(among, front)
    }
}
