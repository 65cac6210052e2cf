//! A console: every call of the library by commands that are read from standard input, one a line. Each command is
//! answered on standard output by the lines that docs/CONSOLE.md tells.
#![tactic(auto)]

mod asked;
mod desk;
mod directory;
mod listed;
mod session;
mod terminal;

use session::converse;
use std::io;
use std::io::BufReader;
use terminal::Terminal;

fn main(rt: HostRuntime) -> io::Result<()> {
    let reader = BufReader::new(rt.alloc(), rt.reader())?;
    converse(
        rt.alloc(),
        &mut Terminal::new(rt.alloc(), reader, rt.stdout()),
    )
}
