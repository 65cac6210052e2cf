//! Reads a script from standard input and tells what it says: how many lines it has, and each file that has a starting
//! content, with its label and the length of the content. A script that is refused is told by its number and its text
//! line.
#![tactic(auto)]

use input::read_input;
use script::Script;
use std::io;
use std::io::Write;

/// One byte more than a script may have, so that a longer text is seen to be too long.
const MOST: usize = 16385;

/// Tells of a file, if it has a starting content; of several the last one stays.
fn show_file(rt: &HostRuntime, script: &Script, file: u8) -> io::Result<()> {
    let starts = script.starts();
    let Some(start) = starts.iter().rev().find(|start| start.file == file) else {
        return Ok(());
    };
    let length = start.content.len();
    print!(rt; "{file:02} ")?;
    rt.stdout().write_all(script.label(file))?;
    println!(rt; " {length}")
}

fn show(rt: &HostRuntime, script: &Script) -> io::Result<()> {
    let lines = script.commands().len();
    println!(rt; "lines {lines}")?;
    for file in 0..64u8 {
        show_file(rt, script, file)?;
    }
    Ok(())
}

fn main(rt: HostRuntime) -> io::Result<()> {
    let mut buffer = [0u8; MOST];
    let len = read_input(&rt, &mut buffer)?;
    let mut script = Script::new();
    match script.read(&buffer[0..len]) {
        Ok(()) => show(&rt, &script),
        Err(refused) => println!(rt; "refused {refused}"),
    }
}
