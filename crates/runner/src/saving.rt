ghost use Rattle.std.specs.Prelude.{◌≡◌, take, IfOk, Ok};
ghost use Rattle.pool.specs.Contents.{meant};
ghost use Rattle.trace.specs.Format.{decoded};
ghost use Rattle.trace_write.specs.Puts.{saved, after_save};
ghost use Rattle.trace_write.specs.Saves.{to_save};
ghost use Rattle.runner.specs.Views.{records};

use crate::book::Book;
use model::Refusal;
use pool::Pool;

/// Writes the book to the start of a buffer as a trace file and returns its length: the records that are not struck and
/// whose numbers are all in the pool, in order. A buffer that is too short stays as it was; so do the bytes past the
/// end of the file. What is written is accepted, and means what was saved.
pub fn save(out: &mut [u8], pool: &Pool, book: &Book) -> Result<usize, Refusal>
    ensures value { result ≡ saved (to_save (meant pool.now) (records book.now)) out.old }
    ensures bytes { out.new ≡ after_save (to_save (meant pool.now) (records book.now)) out.old }
    ensures accepted { IfOk result (λ n. decoded (take n out.new) ≡ Ok (to_save (meant pool.now) (records book.now))) }
{
    trace_write::save(out, pool, book.records())
}
