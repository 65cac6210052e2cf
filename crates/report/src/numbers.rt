ghost use Rattle.std.specs.Prelude.{length, decimal};
ghost use Rattle.output.specs.Writes.{Room, Writes};
ghost use Rattle.report.specs.Report.{two_digits, then_number};

use output::Output;

// Kept: digits into a buffer that has room for them, where nothing can fail; `write!` would answer an error.
/// Writes a number in decimal, with no leading zeros.
fn put_decimal(out: &mut Output, n: u16)
    requires { Room (length (decimal n)) out.old }
    ensures { Writes (decimal n) out.old out.new }
{
    if n < 10 {
        out.put_byte(b'0' + n as u8);
    } else {
        put_decimal(out, n / 10);
        out.put_byte(b'0' + (n % 10) as u8);
    }
}

/// Writes a space and a number.
pub(crate) fn put_number(out: &mut Output, n: u16)
    requires { Room (length (then_number n)) out.old }
    ensures { Writes (then_number n) out.old out.new }
{
    out.put_byte(b' ');
    put_decimal(out, n);
}

/// Writes a file number, two digits.
pub(crate) fn put_file(out: &mut Output, file: u8)
    requires { Room 2 out.old }
    ensures { Writes (two_digits file) out.old out.new }
{
    out.put(&[b'0' + file / 10, b'0' + file % 10]);
}
