ghost use Rattle.std.specs.Prelude.{◌≡◌, ◌≤◌, length};
ghost use Rattle.files.specs.Tables.{numbers_of};
ghost use Rattle.output.specs.Writes.{laid};
ghost use Rattle.pool.specs.Contents.{meant};
ghost use Rattle.report.specs.Report.{report_bytes};
ghost use Rattle.script.specs.Scripts.{meaning};
ghost use Rattle.runner.specs.Views.{world};
ghost use Rattle.releasing.specs.Printed.{printed};
ghost use Rattle.releasing.specs.Starts.{AtStart};

use crate::unrecorded::Unrecorded;
use files::Table;
use model::{BuildRefusal, Built, Entry, Record};
use pool::{Place, Pool};
use runner::{Book, Log, build, lay, report};
use script::Script;

/// The patience of the policy that a release asks.
const PATIENCE: u8 = 4;

/// Reads a script, lays it on absent files, and builds it; a text or a starting content that is refused is told as a
/// build that is.
fn build_text<'t>(
    text: &'t [u8],
    script: &mut Script<'t>,
    files: &mut Table,
    pool: &mut Pool,
    log: &mut Log,
    book: &mut Book,
) -> Result<Built, BuildRefusal>
    requires { AtStart (world (numbers_of files.old) (meant pool.old) log.old book.old) }
    ensures { report_bytes result (meaning script.new).labels (meant pool.new) (numbers_of files.new) ≡ printed text.now }
{
    script
        .read(text)
        .map_err(|refused| BuildRefusal::By(refused.refusal))?;
    lay(script, files, pool, log).map_err(BuildRefusal::By)?;
    let mut policy = Unrecorded::new(PATIENCE, script.commands());
    build(script, &mut policy, files, pool, log, book)
}

// Kept: slices of these lengths, and no arrays: of an array that is lent to the pool the check asks that the pool has
// the same borrow at the end, and no call says so.
/// Releases the script of a text: writes to the start of a buffer what the text prints, and answers its length.
fn release_in(
    text: &[u8],
    bytes: &mut [u8],
    places: &mut [Place],
    entries: &mut [Entry],
    records: &mut [Record],
    out: &mut [u8],
) -> usize
    requires bytes { length bytes.old ≡ 65536 }
    requires places { length places.old ≡ 1024 }
    requires entries { length entries.old ≡ 1088 }
    requires records { length records.old ≡ 256 }
    requires out { length out.old ≡ 2048 }
    ensures length { result ≡ length (printed text.now) }
    ensures fits { result ≤ 2048 }
    ensures bytes { out.new ≡ laid 0 (printed text.now) out.old }
{
    let mut script = Script::new();
    let mut files = Table::new();
    let mut pool = Pool::new(bytes, places);
    let mut log = Log::new(entries);
    let mut book = Book::new(records);
    let outcome = build_text(
        text,
        &mut script,
        &mut files,
        &mut pool,
        &mut log,
        &mut book,
    );
    report(out, outcome, &script, &files, &pool).unwrap()
}

/// Releases the script of a text from nothing, in memory that is lent to pool, log and book: writes to the start of a
/// buffer what the text prints, and answers its length.
pub fn release(
    text: &[u8],
    bytes: &mut [u8; 65536],
    places: &mut [Place; 1024],
    entries: &mut [Entry; 1088],
    records: &mut [Record; 256],
    out: &mut [u8; 2048],
) -> usize
    ensures length { result ≡ length (printed text.now) }
    ensures fits { result ≤ 2048 }
    ensures bytes { out.new ≡ laid 0 (printed text.now) out.old }
{
    release_in(text, bytes, places, entries, records, out)
}
