ghost use Rattle.output.specs.Writes.{Room, Writes};
ghost use Rattle.trace.specs.Reads.{two_bytes};

use output::Output;

/// Writes two bytes, the most significant first.
pub fn put_number(out: &mut Output, number: u16)
    requires { Room 2 out.old }
    ensures { Writes (two_bytes number) out.old out.new }
{
    out.put(&number.to_be_bytes());
}
