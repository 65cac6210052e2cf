ghost use Rattle.pool.specs.Contents.{meant};
ghost use Rattle.script.specs.Scripts.{meaning};
ghost use Rattle.runner.specs.Views.{world};
ghost use Rattle.boundary.specs.Rounds.{BuiltBy};
ghost use Rattle.boundary.specs.Wishes.{patience_by};

use crate::setting::Setting;
use crate::wished::Wished;
use files::FileStore;
use model::{BuildRefusal, Built};
use policy::{HighestFirst, LastRun, ScriptOrder};
use pool::Pool;
use runner::{Book, Log, build};
use script::Script;

/// Builds a script with a policy that is made for it, and primed from the book as it is.
pub fn build_by<F: FileStore>(
    setting: &Setting,
    wishes: &[u8],
    script: &Script,
    files: &mut F,
    pool: &mut Pool,
    log: &mut Log,
    book: &mut Book,
) -> Result<Built, BuildRefusal>
    ensures { BuiltBy (meaning script.now).commands (patience_by setting.now.policy setting.now.patience wishes.now) result (world (F.FileStore.map files.old) (meant pool.old) log.old book.old) (world (F.FileStore.map files.new) (meant pool.new) log.new book.new) }
{
    match setting.policy {
        1 => {
            let mut policy = LastRun::new(setting.patience, script.commands(), book.records());
            build(script, &mut policy, files, pool, log, book)
        }
        2 => {
            let mut policy = HighestFirst::new(setting.patience);
            build(script, &mut policy, files, pool, log, book)
        }
        3 if !wishes.is_empty() => {
            let mut policy = Wished::new(setting.patience, wishes);
            build(script, &mut policy, files, pool, log, book)
        }
        _ => build(script, &mut ScriptOrder, files, pool, log, book),
    }
}
