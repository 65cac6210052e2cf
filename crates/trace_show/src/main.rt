//! Tells what trace files hold: the contents with their lengths, and each record with its command, its reads and its
//! write. A file is told by two digits and a content by its index, which counts from 1. A trace file that is refused is
//! told by its number alone. The words that it is given name the trace files, `-` standard input; without a word it
//! reads standard input.
#![tactic(auto)]

use model::{Command, Record, Use};
use std::io::Read;
use std::{env, fs, io};
use trace::{Records, Trace, check};

fn show_command(rt: &HostRuntime, command: Command) -> io::Result<()> {
    let Command { kind, a, b, c, d } = command;
    print!(rt; "{kind} {a:02} {b:02}")?;
    if kind.arity() >= 3 {
        print!(rt; " {c:02}")?;
    }
    if kind.arity() >= 4 {
        print!(rt; " {d:02}")?;
    }
    Ok(())
}

fn show_record(rt: &HostRuntime, record: &Record) -> io::Result<()> {
    print!(rt; "record ")?;
    show_command(rt, record.command)?;
    print!(rt; " reads")?;
    for read in record.reads() {
        let Use { file, number } = *read;
        print!(rt; " {file:02}:{number}")?;
    }
    let Use { file, number } = record.write;
    println!(rt; " writes {file:02}:{number}")
}

fn show_contents(rt: &HostRuntime, contents: &[&[u8]]) -> io::Result<()> {
    let count = contents.len();
    println!(rt; "contents {count}")?;
    for (i, content) in contents.iter().enumerate() {
        let index = i + 1;
        let length = content.len();
        println!(rt; "content {index} length {length}")?;
    }
    Ok(())
}

fn show_records(rt: &HostRuntime, records: Records) -> io::Result<()> {
    for record in records {
        show_record(rt, &record)?;
    }
    Ok(())
}

fn show(rt: &HostRuntime, trace: &Trace) -> io::Result<()> {
    show_contents(rt, trace.contents())?;
    show_records(rt, trace.records())
}

/// Tells what the bytes of a trace file hold, or the number by which they are refused.
fn tell(rt: &HostRuntime, bytes: &[u8]) -> io::Result<()> {
    match check(bytes) {
        Ok(trace) => show(rt, &trace),
        Err(refusal) => println!(rt; "refused {refusal}"),
    }
}

fn tell_input(rt: &HostRuntime) -> io::Result<()> {
    let mut bytes = Vec::new(rt.alloc());
    rt.stdin().read_to_end(&mut bytes)?;
    tell(rt, bytes.as_slice())
}

fn tell_named(rt: &HostRuntime, name: &str) -> io::Result<()> {
    rt.println(name)?;
    if name == "-" {
        return tell_input(rt);
    }
    let bytes = fs::read(rt, name)?;
    tell(rt, bytes.as_slice())
}

fn main(rt: HostRuntime) -> io::Result<()> {
    let mut names = env::args(&rt)?.skip(1).peekable();
    if names.peek().is_none() {
        return tell_input(&rt);
    }
    for name in names {
        tell_named(&rt, name.as_str())?;
    }
    Ok(())
}
