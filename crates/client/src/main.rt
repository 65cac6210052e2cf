//! Builds a small script twice, with other calls in between, over a file store and a policy of its own, and prints what
//! each call answered, the report of the last build, and how often files were set.
#![tactic(auto)]

mod chain;
mod counted;
mod odd_first;
mod telling;

use chain::from_nothing;
use odd_first::OddFirst;
use script::Script;
use std::io;
use std::io::Write;
use telling::tell;

/// Line 1 can start before line 0 has written `route`, since that file has a starting content.
const SCRIPT: &[u8] = b"file 00 net\n\
    file 01 route\n\
    file 02 film\n\
    file 03 proof\n\
    have net AB\n\
    have route C\n\
    copy net route\n\
    join route net film\n\
    copy film proof\n";

/// A trace file with one record, of a tally of file 02 into file 04: that of `ABAB` was 7, which is untrue.
const TRACE: [u8; 28] = [
    0, 2, 0, 4, 65, 66, 65, 66, 0, 4, 0, 0, 0, 7, 0, 1, 5, 2, 4, 0, 0, 1, 2, 0, 1, 4, 0, 2,
];

fn main(rt: HostRuntime) -> io::Result<()> {
    let mut script = Script::new();
    if let Err(refused) = script.read(SCRIPT) {
        return println!(rt; "script: refused {refused}");
    }
    let mut out = [0; 2048];
    let outcome = from_nothing(&script, &TRACE, &mut OddFirst::new(), &mut out);
    tell(&rt, &outcome.answers)?;
    rt.stdout().write_all(&out[..outcome.len])?;
    let sets = outcome.sets;
    println!(rt; "files set {sets} times")
}
