ghost use Rattle.std.specs.Prelude.{◌≡◌};
ghost use Rattle.model.specs.Past.{Past};
ghost use Rattle.pool.specs.Contents.{meant};
ghost use Rattle.script.specs.Scripts.{meaning};
ghost use Rattle.script.specs.Text.{reading};
ghost use Rattle.runner.specs.Views.{world};
ghost use Rattle.boundary.specs.Rounds.{Released, Chained, labels_by, last_text};
ghost use Rattle.boundary.specs.Wishes.{patience_by};

use crate::policies::build_by;
use crate::setting::Setting;
use files::FileStore;
use model::{BuildRefusal, Built};
use pool::Pool;
use runner::{Book, Log, lay};
use script::Script;

/// Reads a text, lays its script and builds it; a text or a starting content that is refused is told as a build that
/// is.
fn release_text<'t, F: FileStore>(
    text: &'t [u8],
    setting: &Setting,
    wishes: &[u8],
    script: &mut Script<'t>,
    files: &mut F,
    pool: &mut Pool,
    log: &mut Log,
    book: &mut Book,
) -> Result<Built, BuildRefusal>
    ensures labels { (meaning script.new).labels ≡ labels_by (reading text.now) }
    ensures past { Past (world (F.FileStore.map files.old) (meant pool.old) log.old book.old) → Past (world (F.FileStore.map files.new) (meant pool.new) log.new book.new) }
    ensures released { Past (world (F.FileStore.map files.old) (meant pool.old) log.old book.old) → Released (patience_by setting.now.policy setting.now.patience wishes.now) text.now (world (F.FileStore.map files.old) (meant pool.old) log.old book.old) result (world (F.FileStore.map files.new) (meant pool.new) log.new book.new) }
{
    script
        .read(text)
        .map_err(|refused| BuildRefusal::By(refused.refusal))?;
    lay(script, files, pool, log).map_err(BuildRefusal::By)?;
    build_by(setting, wishes, script, files, pool, log, book)
}

/// Releases a first text, and then a second one as often as the setting says: the answer is the last.
pub fn release_all<'t, F: FileStore>(
    first: &'t [u8],
    second: &'t [u8],
    setting: &Setting,
    wishes: &[u8],
    script: &mut Script<'t>,
    files: &mut F,
    pool: &mut Pool,
    log: &mut Log,
    book: &mut Book,
) -> Result<Built, BuildRefusal>
    ensures labels { (meaning script.new).labels ≡ labels_by (reading (last_text first.now second.now setting.now.times)) }
    ensures chained { Past (world (F.FileStore.map files.old) (meant pool.old) log.old book.old) → Chained (patience_by setting.now.policy setting.now.patience wishes.now) first.now second.now setting.now.times result (world (F.FileStore.map files.old) (meant pool.old) log.old book.old) (world (F.FileStore.map files.new) (meant pool.new) log.new book.new) }
{
    let mut outcome = release_text(first, setting, wishes, script, files, pool, log, book);
    for _ in 0..setting.times {
        outcome = release_text(second, setting, wishes, script, files, pool, log, book);
    }
    outcome
}
