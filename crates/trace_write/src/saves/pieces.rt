ghost use Rattle.std.specs.Prelude.{◌≤◌, length};
ghost use Rattle.std.specs.List.{flat_map};
ghost use Rattle.output.specs.Writes.{Room, Writes};
ghost use Rattle.trace.specs.Format.{command_bytes, content_bytes};
ghost use Rattle.trace.specs.Reads.{two_bytes};
ghost use Rattle.trace_write.specs.Puts.{use_of};

use crate::order::Order;
use model::{Command, Use};
use output::Output;

// Kept throughout: the order is read and the buffer written; one struct of both would be borrowed mutably for each.

// Kept: two bytes here, decimal digits in a report.
/// Writes two bytes, the most significant first.
pub fn put_number(out: &mut Output, n: u16)
    requires { Room 2 out.old }
    ensures { Writes (two_bytes n) out.old out.new }
{
    out.put(&n.to_be_bytes());
}

/// Writes a content after its length.
pub fn put_content(out: &mut Output, content: &[u8])
    requires short { length content.now ≤ 4096 }
    requires room { Room (length (content_bytes content.now)) out.old }
    ensures { Writes (content_bytes content.now) out.old out.new }
{
    put_number(out, content.len() as u16);
    out.put(content);
}

/// Writes a command, five bytes.
pub fn put_command(out: &mut Output, c: Command)
    requires { Room 5 out.old }
    ensures { Writes (command_bytes c) out.old out.new }
{
    out.put(&[c.kind.number(), c.a, c.b, c.c, c.d]);
}

/// Writes a file and the index of its content.
pub fn put_use(out: &mut Output, order: &Order, u: Use)
    requires { Room 3 out.old }
    ensures { Writes (use_of order.now.numbers.items u) out.old out.new }
{
    out.put_byte(u.file);
    put_number(out, order.place(u.number) as u16);
}

/// Writes some uses, one after the other.
pub fn put_uses(out: &mut Output, order: &Order, list: &[Use])
    requires { Room (length (flat_map (use_of order.now.numbers.items) list.now)) out.old }
    ensures { Writes (flat_map (use_of order.now.numbers.items) list.now) out.old out.new }
{
    for u in list {
        put_use(out, order, *u);
    }
}
