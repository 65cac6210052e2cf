ghost use Rattle.std.specs.Prelude.{◌≡◌, false, [], map, length, min};
ghost use Rattle.model.specs.Audit.{judged};
ghost use Rattle.pool.specs.Contents.{meant};
ghost use Rattle.runner.specs.Views.{records, places, is_open};
ghost use Rattle.trace.specs.Format.{decoded};
ghost use Rattle.boundary.specs.Puts.{fresh_pool};
ghost use Rattle.boundary.specs.Retraced.{taken, retold, rewritten, number_told, length_told};

use model::{Entry, Record, Refusal};
use pool::{Place, Pool};
use runner::{Book, Log, audit, load, save};

/// Audits each record of a book.
fn audit_all(pool: &Pool, log: &Log, book: &mut Book)
    requires { is_open log.now ≡ false }
    ensures { records book.new ≡ map (judged (meant pool.now)) (records book.old) }
{
    for at in 0..book.records().len() {
        let _ = audit(at, pool, log, book);
    }
}

/// Takes a trace file into a pool and a book, audits each record, and saves them.
fn retrace(file: &[u8], pool: &mut Pool, book: &mut Book, out: &mut [u8]) -> Result<usize, Refusal>
    requires pool { (meant pool.old).contents ≡ [] }
    requires book { records book.old ≡ [] }
    ensures value { result ≡ retold (taken (decoded file.now) (places book.old) (meant pool.old)) out.old }
    ensures bytes { out.new ≡ rewritten (taken (decoded file.now) (places book.old) (meant pool.old)) out.old }
{
    let mut entries: [Entry; 0] = [];
    let log = Log::new(&mut entries);
    load(file, pool, &log, book)?;
    audit_all(pool, &log, book);
    save(out, pool, book)
}

/// The same with a fresh pool and a fresh book over what is lent.
fn retrace_over(
    file: &[u8],
    bytes: &mut [u8],
    places: &mut [Place],
    records: &mut [Record],
    out: &mut [u8],
) -> Result<usize, Refusal>
    ensures value { result ≡ retold (taken (decoded file.now) (min (length records.old) 256) (fresh_pool (length places.old) (length bytes.old))) out.old }
    ensures bytes { out.new ≡ rewritten (taken (decoded file.now) (min (length records.old) 256) (fresh_pool (length places.old) (length bytes.old))) out.old }
{
    let mut pool = Pool::new(bytes, places);
    let mut book = Book::new(records);
    retrace(file, &mut pool, &mut book, out)
}

/// Takes a trace file into an empty pool, over lent bytes and at most so many places, and into an empty book, audits
/// each record, and saves the book to the start of a buffer. It answers 0 and tells the length of what was saved; or
/// it answers the number of the refusal, of the load or else of the save, with the length 0 and the buffer as it was.
#[unsafe(no_mangle)]
pub extern "C" fn boundary_trace(
    file: &[u8],
    bytes: &mut [u8],
    places: usize,
    book: usize,
    out: &mut [u8],
    saved: &mut usize,
) -> u8
    ensures number { result ≡ number_told (retold (taken (decoded file.now) (min book 256) (fresh_pool places (length bytes.old))) out.old) }
    ensures length { saved.new ≡ length_told (retold (taken (decoded file.now) (min book 256) (fresh_pool places (length bytes.old))) out.old) }
    ensures bytes { out.new ≡ rewritten (taken (decoded file.now) (min book 256) (fresh_pool places (length bytes.old))) out.old }
{
    let mut lent = [Place::NOWHERE; 1024];
    let mut records = [Record::default(); 256];
    let answer = retrace_over(
        file,
        bytes,
        &mut lent[..places.min(1024)],
        &mut records[..book.min(256)],
        out,
    );
    *saved = answer.unwrap_or(0);
    answer.map_or_else(|refusal| refusal.number(), |_| 0)
}
