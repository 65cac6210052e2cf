//! Checks two sound trace files, every cut of them, every change of one byte, every byte more at the end, and some
//! changes of two bytes. Prints one character for each: `.` where it is accepted, `1` where it is refused with 11,
//! and `2` where it is refused with 12.
#![tactic(auto)]

use model::Refusal;
use std::io;
use std::io::Write;
use trace::check;

/// Two contents, and the records of `copy 00 01` and `join 01 00 02`; a byte follows the file.
const FIRST: [u8; 42] = [
    0, 2, 0, 2, 65, 66, 0, 4, 65, 66, 65, 66, 0, 2, 1, 0, 1, 0, 0, 1, 0, 0, 1, 1, 0, 1, 2, 1, 0, 2,
    0, 2, 1, 0, 1, 0, 0, 1, 2, 0, 2, 0,
];

/// Three contents, one of them empty, and the records of `choose 03 04 05 06` and `gather 07 00`; a byte follows.
const SECOND: [u8; 44] = [
    0, 3, 0, 1, 121, 0, 0, 0, 2, 48, 48, 0, 2, 4, 3, 4, 5, 6, 2, 3, 0, 1, 4, 0, 2, 6, 0, 2, 3, 7,
    0, 0, 0, 2, 7, 0, 3, 0, 0, 1, 0, 0, 1, 0,
];

/// What checking comes to, in one character.
fn outcome(bytes: &[u8]) -> u8 {
    match check(bytes) {
        Ok(_) => b'.',
        Err(Refusal::TraceLength) => b'1',
        Err(Refusal::TraceRule) => b'2',
        Err(_) => b'?',
    }
}

/// The outcome for the first bytes of a file, with one byte changed.
fn variant<const N: usize>(mut file: [u8; N], len: usize, at: usize, byte: u8) -> u8 {
    if at < N && len <= N {
        file[at] = byte;
        let bytes = &file[..];
        outcome(&bytes[0..len])
    } else {
        b'?'
    }
}

/// The cuts, from the empty file up to the whole one.
fn print_cuts(rt: &HostRuntime, file: &[u8]) -> io::Result<()> {
    print!(rt; "cut ")?;
    let mut out = rt.stdout();
    // Kept: the number is how much of the file is left.
    for n in 0..file.len() {
        out.write_all(&[outcome(&file[0..n])])?;
    }
    out.write_all(b"\n")
}

/// The outcomes for each byte from 0 to 255 at a place.
fn print_bytes<const N: usize>(
    rt: &HostRuntime,
    file: [u8; N],
    len: usize,
    at: usize,
) -> io::Result<()> {
    let mut out = rt.stdout();
    for byte in 0..=255 {
        out.write_all(&[variant(file, len, at, byte)])?;
    }
    out.write_all(b"\n")
}

/// The outcomes for a file that is followed by one byte: its cuts and itself, each change of one of its bytes, and
/// each byte more at its end.
fn print_all<const N: usize>(rt: &HostRuntime, file: [u8; N]) -> io::Result<()> {
    print_cuts(rt, &file)?;
    let len = N.saturating_sub(1);
    for at in 0..len {
        print!(rt; "at {at:02} ")?;
        print_bytes(rt, file, len, at)?;
    }
    print!(rt; "end ")?;
    print_bytes(rt, file, N, len)
}

/// The outcome with two bytes changed.
fn print_pair(rt: &HostRuntime, at: usize, high: u8, low: u8) -> io::Result<()> {
    let mut file = FIRST;
    if at < 40 {
        file[at] = high;
        file[at + 1] = low;
    }
    print!(rt; "at {at:02} {high:02x} {low:02x} ")?;
    rt.stdout().write_all(&[outcome(&file[0..41]), b'\n'])
}

fn main(rt: HostRuntime) -> io::Result<()> {
    print_all(&rt, FIRST)?;
    print_pair(&rt, 0, 4, 1)?;
    print_pair(&rt, 0, 4, 0)?;
    print_pair(&rt, 0, 0, 3)?;
    print_pair(&rt, 2, 16, 1)?;
    print_pair(&rt, 2, 16, 0)?;
    print_pair(&rt, 12, 1, 1)?;
    print_pair(&rt, 12, 1, 0)?;
    print_all(&rt, SECOND)
}
