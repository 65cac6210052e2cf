ghost use Rattle.std.specs.Prelude.{◌≡◌, ◌+◌, ◌≤◌, not, ◌&&◌, if◌then◌else◌};
ghost use Rattle.runner.specs.States.{is_waiting};

use crate::states::is_waiting;
use model::{LineState, Stepped};

/// How many lines the steps of a run executed and skipped.
#[derive(Clone, Copy, Debug, PartialEq, Eq)]
pub(crate) struct Counts {
    pub executed: u8,
    pub skipped: u8,
}

impl Counts {
    /// Counts a step, by the state that its line had before it: a line is executed from its first act on.
    pub(crate) fn count(&mut self, stepped: Stepped, before: LineState)
        requires { self.old.executed + self.old.skipped ≤ 64 }
        ensures executed { self.new.executed ≡ self.old.executed + (if not stepped.skipped && is_waiting before then 1 else 0) }
        ensures skipped { self.new.skipped ≡ self.old.skipped + (if stepped.skipped then 1 else 0) }
    {
        if stepped.skipped {
            self.skipped += 1;
        } else if is_waiting(before) {
            self.executed += 1;
        }
    }
}
