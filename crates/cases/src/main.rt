//! Plays a table of cases, which it reads from standard input, through the calls of the library. Each case is played
//! over both file stores, and what it comes to is compared with what the table says. Prints a line for each case, and
//! at the end how many there are and how many differ.
#![tactic(auto)]

mod asked;
mod buffers;
mod desk;
mod parts;
mod playing;
mod reading;
mod spelling;
mod state;
mod table;
mod telling;

use playing::compare;
use std::io;
use table::case_of;

fn main(rt: HostRuntime) -> io::Result<()> {
    let table = io::read_to_string(rt.alloc(), rt.reader())?;
    let table = table.as_str().trim_end();
    let mut cases = 0u32;
    let mut differ = 0u32;
    for block in table.split("\n\n") {
        let Some((name, lines)) = case_of(block) else {
            continue;
        };
        let is_same = compare(&rt, table, name, lines)?;
        cases = cases.saturating_add(1);
        differ = differ.saturating_add(!is_same as u32);
    }
    println!(rt; "{cases} cases, {differ} differ")
}
