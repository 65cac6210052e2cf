ghost use Rattle.std.specs.Prelude.{◌≡◌, map, length, take, IfOk, Ok};
ghost use Rattle.model.specs.Records.{said};
ghost use Rattle.output.specs.Writes.{Room, Writes};
ghost use Rattle.pool.specs.Contents.{meant};
ghost use Rattle.trace.specs.Format.{decoded, encoded};
ghost use Rattle.trace_write.specs.Puts.{saved, after_save};
ghost use Rattle.trace_write.specs.Saves.{traced, to_save};

// Kept throughout: a struct of the three references would be made for three private functions, and their clauses would
// say the same of its fields.

use crate::chosen::choose;
use crate::order::{Order, order_of};
use crate::saves::pieces::put_number;
use crate::saves::sections::{put_contents, put_records};
use crate::saves::sizes::{contents_size, records_size};
use arrayvec::ArrayVec;
use model::{Record, Refusal};
use output::Output;
use pool::Pool;

/// How many bytes the file takes that holds the contents of some numbers, and records that name them.
fn trace_size(pool: &Pool, order: &Order, list: &ArrayVec<Record, 256>) -> usize
    ensures { result ≡ length (encoded (traced (meant pool.now) order.now.numbers.items (map said list.now.items))) }
{
    let numbers = order.numbers();
    let records = list.as_slice();
    4 + contents_size(pool, numbers) + records_size(records)
}

/// Writes that file.
fn write_trace(out: &mut Output, pool: &Pool, order: &Order, list: &ArrayVec<Record, 256>)
    requires { Room (length (encoded (traced (meant pool.now) order.now.numbers.items (map said list.now.items)))) out.old }
    ensures { Writes (encoded (traced (meant pool.now) order.now.numbers.items (map said list.now.items))) out.old out.new }
{
    let numbers = order.numbers();
    let records = list.as_slice();
    put_number(out, numbers.len() as u16);
    put_contents(out, pool, numbers);
    put_number(out, records.len() as u16);
    put_records(out, order, records);
}

/// Writes that file if there is room for it. The length is known before the first byte is written.
fn put_trace(
    out: &mut [u8],
    pool: &Pool,
    order: &Order,
    list: &ArrayVec<Record, 256>,
) -> Result<usize, Refusal>
    ensures value { result ≡ saved (traced (meant pool.now) order.now.numbers.items (map said list.now.items)) out.old }
    ensures bytes { out.new ≡ after_save (traced (meant pool.now) order.now.numbers.items (map said list.now.items)) out.old }
{
    let size = trace_size(pool, order, list);
    if size > out.len() {
        return Err(Refusal::SaveBufferShort);
    }
    let mut file = Output::new(out);
    write_trace(&mut file, pool, order, list);
    Ok(file.len())
}

/// Writes a trace file to the start of a buffer and returns its length: the records that are not struck and whose
/// numbers are all in the pool, in order, and the contents that they name, in order of first use. A buffer that is
/// too short stays as it was; so do the bytes past the end of the file. What is written is accepted, and means what
/// was saved.
pub fn save(out: &mut [u8], pool: &Pool, records: &[Record]) -> Result<usize, Refusal>
    ensures value { result ≡ saved (to_save (meant pool.now) (map said records.now)) out.old }
    ensures bytes { out.new ≡ after_save (to_save (meant pool.now) (map said records.now)) out.old }
    ensures accepted { IfOk result (λ n. decoded (take n out.new) ≡ Ok (to_save (meant pool.now) (map said records.now))) }
{
    let kept = choose(pool, records);
    let order = order_of(&kept);
    put_trace(out, pool, &order, &kept)
}
