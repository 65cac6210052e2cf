use crate::spelling::tell_bytes;
use files::{FileStore, Image};
use model::Refusal;
use std::io;
use std::io::Write;

/// The byte of a buffer before it is written.
pub const BLANK: u8 = 7;

/// Tells whether the bytes of a buffer behind those that are written stay.
fn tell_rest(out: &mut Vec<u8>, rest: &[u8]) -> io::Result<()> {
    let blank = [BLANK; 4096];
    if rest == &blank[..rest.len().min(4096)] {
        writeln!(out, ", rest as it was")
    } else {
        writeln!(out, ", rest changed")
    }
}

/// Tells what was written to the start of a buffer, and whether the rest of it stays.
pub fn tell_written(
    out: &mut Vec<u8>,
    buffer: &[u8; 4096],
    answer: Result<usize, Refusal>,
) -> io::Result<()> {
    match answer {
        Ok(len) => {
            let len = len.min(4096);
            write!(out, "length {len}: ")?;
            tell_bytes(out, &buffer[..len])?;
            tell_rest(out, &buffer[len..])
        }
        Err(refusal) => {
            write!(out, "refused {refusal}")?;
            tell_rest(out, buffer)
        }
    }
}

/// Fills an image that has file 05 with bytes, and tells whether they are accepted and which bytes it then has.
pub fn fill_and_tell(out: &mut Vec<u8>, bytes: &[u8]) -> io::Result<()> {
    let mut image = Image::new();
    image.set(5, 258);
    let before = *image.bytes();
    match image.fill(bytes) {
        Ok(()) => write!(out, "accepted")?,
        Err(refusal) => write!(out, "refused {refusal}")?,
    }
    let after = image.bytes();
    if *after == before {
        writeln!(out, ", as it was")
    } else if &after[..] == bytes {
        writeln!(out, ", as given")
    } else {
        writeln!(out, ", as neither")
    }
}
