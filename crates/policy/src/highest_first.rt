ghost use Rattle.std.specs.Prelude.{◌≡◌, min};
ghost use Rattle.policy.specs.Patiences.{patience_of, passes_of};

use crate::choice::Highest;
use crate::patient::Patient;

/// The policy that always chooses the highest line.
pub type HighestFirst = Patient<Highest>;

impl HighestFirst {
    /// A patience above 32 counts as 32.
    pub fn new(patience: u8) -> HighestFirst
        ensures patience { patience_of result ≡ min patience 32 }
        ensures passes { passes_of result ≡ 0 }
    {
        Patient::with_choice(patience, Highest)
    }
}
