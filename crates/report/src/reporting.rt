ghost use Rattle.std.specs.Prelude.{◌≡◌, ◌+◌, ◌≤◌, [], length, if◌then◌else◌, Ok, Err, nat_lt, slice_index, slice_index_or};
ghost use Rattle.model.specs.Contents.{told};
ghost use Rattle.model.specs.declared.refusal.Refusal.TheVariants.{ReportBufferShort};
ghost use Rattle.output.specs.Writes.{written, laid, Room, Writes};
ghost use Rattle.pool.specs.Contents.{meant};
ghost use Rattle.script.specs.Scripts.{meaning};
ghost use Rattle.report.specs.Report.{held_line, file_lines, report_bytes};

use crate::first::put_first;
use crate::held::put_held;
use files::FileStore;
use model::{BuildRefusal, Built, Refusal};
use output::Output;
use pool::Pool;
use script::Script;

// Kept throughout: script, files and pool are borrowed from three owners; a struct of them would be made for three
// private functions.

/// The least length of a buffer for a report: every report fits it.
const LEAST: usize = 2048;

/// Writes the line of a file, if it has a content.
fn put_file_line<F: FileStore>(out: &mut Output, file: u8, script: &Script, files: &F, pool: &Pool)
    requires { Room 25 out.old }
    ensures written { Writes (held_line file (slice_index_or (meaning script.now).labels file []) (told (meant pool.now) (slice_index (F.FileStore.map files.now) file))) out.old out.new }
    ensures short { written out.new ≤ written out.old + 25 }
{
    let number = files.tell(file);
    if pool.holds(number) {
        let size = pool.bytes(number).len();
        put_held(out, file, script.label(file), size as u16);
    }
}

/// Writes the lines of the files that have a content.
fn put_file_lines<F: FileStore>(out: &mut Output, script: &Script, files: &F, pool: &Pool)
    requires { Room 1600 out.old }
    ensures written { Writes (file_lines (meaning script.now).labels (meant pool.now) 0 (F.FileStore.map files.now)) out.old out.new }
    ensures short { written out.new ≤ written out.old + 1600 }
{
    for file in 0..64u8 {
        put_file_line(out, file, script, files, pool);
    }
}

/// Writes the first line and those of the files.
fn put_report<F: FileStore>(
    out: &mut Output,
    outcome: Result<Built, BuildRefusal>,
    script: &Script,
    files: &F,
    pool: &Pool,
)
    requires { Room 1656 out.old }
    ensures written { Writes (report_bytes outcome (meaning script.now).labels (meant pool.now) (F.FileStore.map files.now)) out.old out.new }
    ensures short { written out.new ≤ written out.old + 1656 }
{
    put_first(out, outcome);
    put_file_lines(out, script, files, pool);
}

/// Writes the report of a build, and answers its length; bytes past it stay as they were.
pub fn report<F: FileStore>(
    out: &mut [u8],
    outcome: Result<Built, BuildRefusal>,
    script: &Script,
    files: &F,
    pool: &Pool,
) -> Result<usize, Refusal>
    ensures answer { result ≡ (if nat_lt (length out.old) 2048 then Err ReportBufferShort else Ok (length (report_bytes outcome (meaning script.now).labels (meant pool.now) (F.FileStore.map files.now)))) }
    ensures bytes { out.new ≡ (if nat_lt (length out.old) 2048 then out.old else laid 0 (report_bytes outcome (meaning script.now).labels (meant pool.now) (F.FileStore.map files.now)) out.old) }
    ensures whole { 2048 ≤ length out.old → length (report_bytes outcome (meaning script.now).labels (meant pool.now) (F.FileStore.map files.now)) ≤ 2048 }
{
    if out.len() < LEAST {
        return Err(Refusal::ReportBufferShort);
    }
    let mut text = Output::new(out);
    put_report(&mut text, outcome, script, files, pool);
    Ok(text.len())
}
