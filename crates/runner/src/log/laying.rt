ghost use Rattle.std.specs.Prelude.{◌≡◌, ℕ, List};
ghost use Rattle.model.specs.Calls.{on_lay};
ghost use Rattle.model.specs.Lay.{laid};
ghost use Rattle.model.specs.Promise.{Promised};
ghost use Rattle.model.specs.Records.{Record as RecordMeant};
ghost use Rattle.pool.specs.Contents.{meant};
ghost use Rattle.script.specs.Haves.{haves_of};
ghost use Rattle.script.specs.Scripts.{meaning};
ghost use Rattle.runner.specs.Stocks.{lay_told, files_laid, pool_laid};
ghost use Rattle.runner.specs.Views.{world_with};

use super::Log;
use files::{FileStore, Table, copy_all};
use model::Refusal;
use pool::Pool;
use script::Script;

/// Puts each starting content into the pool and sets its file; where the pool refuses one, both are as they were.
fn put_starts<F: FileStore>(script: &Script, files: &mut F, pool: &mut Pool) -> Result<(), Refusal>
    ensures value { result ≡ lay_told (laid (haves_of (meaning script.now).haves) (F.FileStore.map files.old) (meant pool.old)) }
    ensures files { F.FileStore.map files.new ≡ files_laid (laid (haves_of (meaning script.now).haves) (F.FileStore.map files.old) (meant pool.old)) (F.FileStore.map files.old) }
    ensures pool { meant pool.new ≡ pool_laid (laid (haves_of (meaning script.now).haves) (F.FileStore.map files.old) (meant pool.old)) (meant pool.old) }
{
    let mut before = Table::new();
    copy_all(files, &mut before);
    let count = pool.count();
    for have in script.starts() {
        // Kept: pool and files are put back before the refusal is told.
        let Ok(put) = pool.put(have.content) else {
            pool.cut(count);
            copy_all(&before, files);
            return Err(Refusal::NoRoomToLay);
        };
        files.set(have.file, put.number);
    }
    Ok(())
}

impl<'a> Log<'a> {
    /// Lays a script, unless a run is open.
    pub(crate) fn lay<F: FileStore>(
        &self,
        script: &Script,
        files: &mut F,
        pool: &mut Pool,
    ) -> Result<(), Refusal>
        ensures { (rs : List RecordMeant) (n : ℕ) → Promised (on_lay (haves_of (meaning script.now).haves) result) (world_with (F.FileStore.map files.old) (meant pool.old) self.now rs n) (world_with (F.FileStore.map files.new) (meant pool.new) self.now rs n) }
    {
        if self.is_open() {
            return Err(Refusal::RunOpen);
        }
        put_starts(script, files, pool)
    }
}
