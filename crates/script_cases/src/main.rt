//! Reads a table of scripts, sound and damaged, and prints what each comes to: how many lines and starting contents
//! it gives, or the refusal's number and its text line.
#![tactic(auto)]

use arrayvec::ArrayVec;
use script::Script;
use std::io::Write;
use std::{io, iter};

/// The scripts that are short enough to be written out.
const CASES: [&[u8]; 50] = [
    b"",
    b"\n\n   \n",
    b"# only a comment",
    b"#comment without a space\n # and one behind a space",
    b"file 00 net\nhave net AB\ncopy net net\n",
    b"file 00 net\nhave net AB\ncopy net net",
    b"file 00 net\nfile 01 route\nfile 02 film\nhave net AB\ncopy net route\njoin route net film",
    b"  file   63   a.b-9  \n   have a.b-9    x   ",
    b"file 00 a\ncopy a a\njoin a a a\ngather a a\nchoose a a a a\ntally a a\ncheck a a a",
    b"file 00 a\nhave a first\nhave a second",
    b"file 07 abcdefghijklmnop",
    b"# a\tb",
    b"file 00 a\n\tcopy a a",
    b"file 00 a\r\ncopy a a",
    b"copy \x7f a",
    b"copy \xc3\xa4 a",
    b"\x00",
    b"fold a b",
    b"File 00 a",
    b"copying a b",
    b"file",
    b"file 00",
    b"file 00 a b",
    b"have",
    b"file 00 a\nhave a",
    b"file 00 a\nhave a b c",
    b"have unknown b c",
    b"file 00 a\ncopy a",
    b"file 00 a\ncopy a a a",
    b"file 00 a\njoin a a",
    b"file 00 a\nchoose a a a",
    b"file 00 a\nchoose a a a a a",
    b"file 00 a\ncopy a a # no comment here",
    b"copy unknown",
    b"file 0 a",
    b"file 000 a",
    b"file 64 a",
    b"file 99 a",
    b"file 0a a",
    b"file -1 a",
    b"file 00 A",
    b"file 00 a_b",
    b"file 00 abcdefghijklmnopq",
    b"file 00 a\nfile 00 b",
    b"file 00 a\n\nfile 01 a",
    b"have net AB\nfile 00 net",
    b"file 00 a\ncopy a b",
    b"file 00 a\ncopy b a",
    b"file 00 a\ngather a b\nfold",
    b"file 00 a\n\n\n# x\nfold",
];

/// More bytes than any script may have.
const ROOM: usize = 17000;

/// Prints a text on one line: byte 10 as a slash, what cannot be seen as a question mark.
fn print_text(rt: &HostRuntime, text: &[u8]) -> io::Result<()> {
    let mut out = rt.stdout();
    for b in text {
        match *b {
            b'\n' => out.write_all(b" / ")?,
            32..=126 => out.write_all(&[*b])?,
            _ => out.write_all(b"?")?,
        }
    }
    Ok(())
}

/// Prints what a text comes to.
fn print_outcome(rt: &HostRuntime, text: &[u8]) -> io::Result<()> {
    let mut script = Script::new();
    match script.read(text) {
        Ok(()) => {
            let lines = script.commands().len();
            let haves = script.starts().len();
            println!(rt; " -> lines {lines} haves {haves}")
        }
        Err(refused) => println!(rt; " -> refused {refused}"),
    }
}

/// Reads a text that says one thing over and over after its first text line.
fn print_repeated(
    rt: &HostRuntime,
    name: &str,
    first: &[u8],
    again: &[u8],
    times: usize,
) -> io::Result<()> {
    let mut text = ArrayVec::<u8, ROOM>::new();
    for bytes in iter::once(first).chain(iter::repeat_n(again, times)) {
        for b in bytes {
            // Kept: what does not fit is left out, and is no error.
            if text.try_push(*b).is_err() {
                break;
            }
        }
    }
    print!(rt; "{name}")?;
    print_outcome(rt, &text)
}

fn main(rt: HostRuntime) -> io::Result<()> {
    for text in CASES {
        print_text(&rt, text)?;
        print_outcome(&rt, text)?;
    }
    let head = b"file 00 a\n";
    let have = b"file 00 a\nhave a ";
    print_repeated(&rt, "64 lines", head, b"copy a a\n", 64)?;
    print_repeated(&rt, "65 lines", head, b"copy a a\n", 65)?;
    print_repeated(&rt, "64 haves", head, b"have a x\n", 64)?;
    print_repeated(&rt, "65 haves", head, b"have a x\n", 65)?;
    print_repeated(&rt, "4,096 bytes", have, b"x", 4096)?;
    print_repeated(&rt, "4,097 bytes", have, b"x", 4097)?;
    print_repeated(&rt, "16,384 bytes", b"", b"#", 16384)?;
    print_repeated(&rt, "16,385 bytes", b"", b"#", 16385)?;
    print_repeated(&rt, "16,385 bad bytes", b"", b"\t", 16385)
}
