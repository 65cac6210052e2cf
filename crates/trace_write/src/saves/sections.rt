ghost use Rattle.std.specs.Prelude.{length};
ghost use Rattle.std.specs.List.{flat_map};
ghost use Rattle.output.specs.Writes.{Room, Writes};
ghost use Rattle.pool.specs.Contents.{meant};
ghost use Rattle.trace_write.specs.Puts.{content_of, record_of};

use crate::order::Order;
use crate::saves::pieces::{put_command, put_content, put_use, put_uses};
use model::Record;
use output::Output;
use pool::Pool;

// Kept throughout: the order is read and the buffer written; one struct of both would be borrowed mutably for each.

/// Writes the contents of some numbers.
pub fn put_contents(out: &mut Output, pool: &Pool, numbers: &[u16])
    requires { Room (length (flat_map (content_of (meant pool.now)) numbers.now)) out.old }
    ensures { Writes (flat_map (content_of (meant pool.now)) numbers.now) out.old out.new }
{
    for n in numbers {
        put_content(out, pool.bytes(*n));
    }
}

/// Writes a record, with the places of its numbers in the order.
fn put_record(out: &mut Output, order: &Order, rec: &Record)
    requires { Room (length (record_of order.now.numbers.items rec.now)) out.old }
    ensures { Writes (record_of order.now.numbers.items rec.now) out.old out.new }
{
    let reads = rec.reads();
    put_command(out, rec.command);
    out.put_byte(reads.len() as u8);
    put_uses(out, order, reads);
    put_use(out, order, rec.write);
}

/// Writes some records.
pub fn put_records(out: &mut Output, order: &Order, list: &[Record])
    requires { Room (length (flat_map (record_of order.now.numbers.items) list.now)) out.old }
    ensures { Writes (flat_map (record_of order.now.numbers.items) list.now) out.old out.new }
{
    for r in list {
        put_record(out, order, r);
    }
}
