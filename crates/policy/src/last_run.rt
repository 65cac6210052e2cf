ghost use Rattle.std.specs.Prelude.{◌≡◌, ℕ, min, map, take};
ghost use Rattle.model.specs.Records.{said};
ghost use Rattle.policy.specs.Patiences.{patience_of, passes_of, choice_of};
ghost use Rattle.policy.specs.Waiting.{waits, waits_on};

use crate::patient::Patient;
use crate::waits::Waits;
use model::{Command, Record};

/// The policy that starts early what the last run's records show to wait on no line that is left.
pub type LastRun = Patient<Waits>;

impl LastRun {
    /// Primed from the commands of a script and the records of a book. A patience above 32 counts as 32.
    pub fn new(patience: u8, commands: &[Command], records: &[Record]) -> LastRun
        ensures patience { patience_of result ≡ min patience 32 }
        ensures passes { passes_of result ≡ 0 }
        ensures waits { (line earlier : ℕ) → waits (choice_of result) line earlier ≡ waits_on (take 64 commands.now) (map said records.now) line earlier }
    {
        Patient::with_choice(patience, Waits::new(commands, records))
    }
}
