use script::Script;
use std::io;
use std::io::Write;

/// What a script has read before it reads the text of a case.
const BEFORE: &[u8] = b"file 00 net\nfile 01 route\nhave net AB\ncopy net route";

/// Tells whether a script has no label, no starting content and no line.
fn tell_emptied(out: &mut Vec<u8>, script: &Script) -> io::Result<()> {
    let mut left = script.starts().len() + script.commands().len();
    for file in 0..64u8 {
        left = left.saturating_add(script.label(file).len());
    }
    let left = if left == 0 { "empty" } else { "filled" };
    writeln!(out, "{left}")
}

/// Tells what the reading of a text gives to a script that has read another: the counts of lines and of starting
/// contents, or the refusal and whether the script is empty.
pub fn read_and_tell(out: &mut Vec<u8>, text: &[u8]) -> io::Result<()> {
    let mut script = Script::new();
    if script.read(BEFORE).is_err() {
        return writeln!(out, "not read");
    }
    match script.read(text) {
        Ok(()) => {
            let lines = script.commands().len();
            let haves = script.starts().len();
            writeln!(out, "lines {lines} haves {haves}")
        }
        Err(refused) => {
            write!(out, "refused {refused}, ")?;
            tell_emptied(out, &script)
        }
    }
}
