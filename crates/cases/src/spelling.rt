use crate::table::{first_word, number};
use std::io;
use std::io::Write;

/// Appends a text so many times, with byte 10 for a slash.
fn write_text(out: &mut Vec<u8>, times: usize, text: &str) -> io::Result<()> {
    for _ in 0..times {
        for byte in text.bytes() {
            out.push(if byte == b'/' { b'\n' } else { byte })?;
        }
    }
    Ok(())
}

/// Appends the byte of a number, or a text as many times as the number before it says.
fn write_bracket(out: &mut Vec<u8>, bracket: &str) -> io::Result<()> {
    match bracket.split_once(' ') {
        Some((times, text)) => write_text(out, number(times), text),
        None => Ok(out.push(bracket.parse().unwrap_or(0))?),
    }
}

/// Appends the bytes of a text, in which `/` stands for byte 10, `[0]` for byte 0, and `[64 x]` for x 64 times.
pub fn write_spelled(out: &mut Vec<u8>, spelled: &str) -> io::Result<()> {
    for piece in spelled.split('[') {
        match piece.split_once(']') {
            Some((bracket, after)) => {
                write_bracket(out, bracket)?;
                write_text(out, 1, after)?;
            }
            None => write_text(out, 1, piece)?,
        }
    }
    Ok(())
}

/// Tells bytes as they are spelled, with no part told as a repetition.
pub fn tell_bytes(out: &mut Vec<u8>, bytes: &[u8]) -> io::Result<()> {
    for byte in bytes {
        let told = match *byte {
            b'\n' => out.write_all(b"/"),
            b' '..=b'~' => out.write_all(&[*byte]),
            _ => write!(out, "[{byte}]"),
        };
        told?;
    }
    Ok(())
}

/// Appends a trace file of one content and of as many records of copies, the first from file 10 to 30, then to 31.
pub fn write_copies(out: &mut Vec<u8>, argument: &str) -> io::Result<()> {
    let copies: u16 = argument.parse().unwrap_or(0);
    out.write_all(&[0, 1, 0, 1, b'x'])?;
    out.write_all(&copies.to_be_bytes())?;
    for copy in 0..copies {
        let [_, low] = copy.to_be_bytes();
        let (from, to) = (10 + low / 16, 30 + low % 16);
        out.write_all(&[1, from, to, 0, 0, 1, from, 0, 1, to, 0, 1])?;
    }
    Ok(())
}
