//! Reads a script from standard input, releases it from nothing, and prints the report: what the build came to, and
//! each file that has a content then. A script that is refused is told by its number alone.
#![tactic(auto)]

use input::read_input;
use model::{Entry, Record};
use pool::Place;
use releasing::release;
use std::io;
use std::io::Write;

/// One byte more than a script may have, so that a longer text is seen to be too long.
const MOST: usize = 16385;

fn main(rt: HostRuntime) -> io::Result<()> {
    let mut text = [0u8; MOST];
    let len = read_input(&rt, &mut text)?;
    let mut bytes = [0u8; 65536];
    let mut places = [Place::NOWHERE; 1024];
    let mut entries = [Entry::default(); 1088];
    let mut records = [Record::default(); 256];
    let mut report = [0u8; 2048];
    let length = release(
        &text[0..len],
        &mut bytes,
        &mut places,
        &mut entries,
        &mut records,
        &mut report,
    );
    rt.stdout().write_all(&report[0..length])
}
