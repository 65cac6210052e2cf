ghost use Rattle.std.specs.Prelude.{◌≡◌, ◌<◌, ◌≤◌, length};
ghost use Rattle.output.specs.Writes.{laid};
ghost use Rattle.releasing.specs.Printed.{printed};

use model::{Entry, Record};
use pool::Place;
use releasing::release;

/// Releases the script of a text from nothing, in memory of its own.
fn release_into(text: &[u8], report: &mut [u8; 2048]) -> usize
    ensures length { result ≡ length (printed text.now) }
    ensures fits { result ≤ 2048 }
    ensures bytes { report.new ≡ laid 0 (printed text.now) report.old }
{
    let mut bytes = [0; 65536];
    let mut places = [Place::NOWHERE; 1024];
    let mut entries = [Entry::default(); 1088];
    let mut records = [Record::default(); 256];
    release(
        text,
        &mut bytes,
        &mut places,
        &mut entries,
        &mut records,
        report,
    )
}

/// Releases the script of a text from nothing: writes to the start of a buffer what the text prints, and answers its
/// length. A buffer of under 2,048 bytes stays as it was, and 0 is answered.
#[unsafe(no_mangle)]
pub extern "C" fn boundary_release(text: &[u8], report: &mut [u8]) -> usize
    ensures short { length report.old < 2048 → (result ≡ 0) × (report.new ≡ report.old) }
    ensures length { 2048 ≤ length report.old → result ≡ length (printed text.now) }
    ensures bytes { 2048 ≤ length report.old → report.new ≡ laid 0 (printed text.now) report.old }
{
    match report.first_chunk_mut::<2048>() {
        None => 0,
        Some(buffer) => release_into(text, buffer),
    }
}
