ghost use Rattle.std.specs.Prelude.{◌≡◌, ℕ, true, List, [], is_ok};
ghost use Rattle.model.specs.Calls.{on_load};
ghost use Rattle.model.specs.Promise.{Promised};
ghost use Rattle.pool.specs.Contents.{meant};
ghost use Rattle.trace.specs.Format.{decoded};
ghost use Rattle.trace_write.specs.Laws.{RoundTrip};
ghost use Rattle.runner.specs.Views.{records, world};

use super::Book;
use crate::log::Log;
use model::Refusal;
use pool::Pool;
use trace_load::load_file;

impl<'a> Book<'a> {
    /// Takes a trace file into the pool and the book, unless a run is open.
    pub(crate) fn load(&mut self, bytes: &[u8], pool: &mut Pool, log: &Log) -> Result<(), Refusal>
        ensures promise { (fs : List ℕ) → Promised (on_load (decoded bytes.now) result) (world fs (meant pool.old) log.now self.old) (world fs (meant pool.new) log.now self.new) }
        ensures trip { is_ok result ≡ true → (meant pool.old).contents ≡ [] → records self.old ≡ [] → RoundTrip bytes.now (meant pool.new) (records self.new) }
    {
        if log.is_open() {
            return Err(Refusal::RunOpen);
        }
        load_file(bytes, pool, &mut self.list)
    }
}
