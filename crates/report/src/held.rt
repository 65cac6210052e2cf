ghost use Rattle.std.specs.Prelude.{◌+◌, ◌≤◌, [], ◌∷◌, ◌++◌, length};
ghost use Rattle.output.specs.Writes.{written, Room, Writes};
ghost use Rattle.report.specs.Report.{label_word, file_words};

use crate::numbers::{put_file, put_number};
use output::Output;

/// Writes a label, or `-` where there is none.
fn put_label(out: &mut Output, label: &[u8])
    requires short { length label.now ≤ 16 }
    requires room { Room 16 out.old }
    ensures written { Writes (label_word label.now) out.old out.new }
    ensures short { written out.new ≤ written out.old + 16 }
{
    if label.is_empty() {
        out.put_byte(b'-');
    } else {
        out.put(label);
    }
}

/// Writes the line of a file that has a content.
#[tactic(auto, using(crate::proofs::Digits::four_digits))]
pub(crate) fn put_held(out: &mut Output, file: u8, label: &[u8], size: u16)
    requires label { length label.now ≤ 16 }
    requires size { size ≤ 4096 }
    requires room { Room 25 out.old }
    ensures written { Writes (file_words file label.now size ++ 10 ∷ []) out.old out.new }
    ensures short { written out.new ≤ written out.old + 25 }
{
    put_file(out, file);
    out.put_byte(b' ');
    put_label(out, label);
    put_number(out, size);
    out.put_byte(b'\n');
}
