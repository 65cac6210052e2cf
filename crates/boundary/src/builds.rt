ghost use Rattle.std.specs.Prelude.{◌≡◌, ◌<◌, ◌≤◌, ℕ, min, length, replicate};
ghost use Rattle.boundary.specs.Accounts.{FromStart};
ghost use Rattle.boundary.specs.Wishes.{patience_by};

use crate::accounts::write_account;
use crate::rounds::release_all;
use crate::setting::Setting;
use files::{FileStore, Image, Table};
use model::{Entry, Record};
use pool::{Place, Pool};
use runner::{Book, Log};
use script::Script;

/// How many bytes of a buffer are used: what is told has room in them.
const ROOM: usize = 90_000;

/// Releases the texts over what is lent, and writes what is told of it.
fn build_in<F: FileStore + Drop>(
    first: &[u8],
    second: &[u8],
    setting: &Setting,
    wishes: &[u8],
    mut files: F,
    bytes: &mut [u8],
    places: &mut [Place],
    entries: &mut [Entry],
    records: &mut [Record],
    out: &mut [u8],
) -> usize
    requires room { length out.old ≡ 90000 }
    requires absent { F.FileStore.map files ≡ replicate 64 0 }
    ensures fits { result ≤ 90000 }
    ensures told { FromStart (length places.old) (length bytes.old) (length entries.old) (length records.old) (patience_by setting.now.policy setting.now.patience wishes.now) first.now second.now setting.now.times out.old out.new result }
{
    let mut script = Script::new();
    let mut pool = Pool::new(bytes, places);
    let mut log = Log::new(entries);
    let mut book = Book::new(records);
    let outcome = release_all(
        first,
        second,
        setting,
        wishes,
        &mut script,
        &mut files,
        &mut pool,
        &mut log,
        &mut book,
    );
    write_account(out, outcome, &script, &files, &pool, &log, &book)
}

/// The same in memory of its own but for the pool's bytes, as much of it as the setting says.
fn build_with<F: FileStore + Drop>(
    first: &[u8],
    second: &[u8],
    setting: &Setting,
    wishes: &[u8],
    files: F,
    bytes: &mut [u8],
    out: &mut [u8],
) -> usize
    requires room { length out.old ≡ 90000 }
    requires absent { F.FileStore.map files ≡ replicate 64 0 }
    ensures fits { result ≤ 90000 }
    ensures told { FromStart setting.now.places (length bytes.old) (min setting.now.log 1088) setting.now.book (patience_by setting.now.policy setting.now.patience wishes.now) first.now second.now setting.now.times out.old out.new result }
{
    let mut places = [Place::NOWHERE; 1024];
    let mut entries = [Entry::default(); 1088];
    let mut records = [Record::default(); 256];
    build_in(
        first,
        second,
        setting,
        wishes,
        files,
        bytes,
        &mut places[..setting.places.min(1024)],
        &mut entries[..setting.log.min(1088)],
        &mut records[..setting.book.min(256)],
        out,
    )
}

/// Releases a first text from nothing, and a second one as often as the setting says, each by a policy made anew, and
/// writes to the start of a buffer what is told of it; the answer is how long that is. A buffer of under 90,000 bytes
/// stays as it was, and 0 is answered.
#[unsafe(no_mangle)]
pub extern "C" fn boundary_builds(
    first: &[u8],
    second: &[u8],
    setting: &Setting,
    wishes: &[u8],
    bytes: &mut [u8],
    out: &mut [u8],
) -> usize
    ensures short { length out.old < 90000 → (result ≡ 0) × (out.new ≡ out.old) }
    ensures told { 90000 ≤ length out.old → FromStart setting.now.places (length bytes.old) (min setting.now.log 1088) setting.now.book (patience_by setting.now.policy setting.now.patience wishes.now) first.now second.now setting.now.times out.old out.new result }
{
    if out.len() < ROOM {
        return 0;
    }
    let out = &mut out[..ROOM];
    if setting.image {
        build_with(first, second, setting, wishes, Image::new(), bytes, out)
    } else {
        build_with(first, second, setting, wishes, Table::new(), bytes, out)
    }
}
