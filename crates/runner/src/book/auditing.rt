ghost use Rattle.std.specs.Prelude.{◌≡◌, ℕ, List};
ghost use Rattle.model.specs.Audit.{finding};
ghost use Rattle.model.specs.Calls.{on_audit};
ghost use Rattle.model.specs.Promise.{Promised};
ghost use Rattle.model.specs.Records.{said};
ghost use Rattle.pool.specs.Contents.{meant};
ghost use Rattle.runner.specs.Standings.{stands_as};
ghost use Rattle.runner.specs.Views.{world};

use super::Book;
use crate::log::Log;
use engine::is_true;
use lists::Change;
use model::{Record, Refusal, Standing};
use pool::Pool;

/// The change of a record's standing, and of nothing else of it.
#[derive(Clone, Copy)]
struct Stand {
    standing: Standing,
}

impl Change<Record> for Stand {
    ghost changed = { λ stand r. stands_as stand.standing r };

    fn apply(&self, element: &mut Record) {
        element.standing = self.standing;
    }
}

/// What an audit finds of a record.
fn finding(candidate: &Record, pool: &Pool) -> Standing
    ensures { result ≡ finding (meant pool.now) (said candidate.now) }
{
    if is_true(candidate, pool) {
        Standing::Own
    } else {
        Standing::Struck
    }
}

impl<'a> Book<'a> {
    /// Replays the record in a place and gives it the standing that this finds.
    pub(crate) fn audit(&mut self, at: usize, pool: &Pool, log: &Log) -> Result<Standing, Refusal>
        ensures { (fs : List ℕ) → Promised (on_audit at result) (world fs (meant pool.now) log.now self.old) (world fs (meant pool.now) log.now self.new) }
    {
        if log.is_open() {
            return Err(Refusal::RunOpen);
        }
        let candidate = self.list.get(at).ok_or(Refusal::NoSuchRecord)?;
        let standing = finding(&candidate, pool);
        self.list.change(at, &Stand { standing });
        Ok(standing)
    }
}
