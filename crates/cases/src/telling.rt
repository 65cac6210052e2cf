ghost use Rattle.std.specs.Prelude.{◌≤◌};

use crate::spelling::tell_bytes;
use files::{FileStore, Table};
use model::{
    BuildRefusal, Built, CloseRefusal, Closed, Entry, Refusal, Standing, StepRefusal, Stepped, Stop,
};
use pool::Pool;
use runner::{Book, report};
use script::Script;
use std::io;
use std::io::Write;

/// Writes a report into a buffer that every report fits.
fn report_into<F: FileStore>(
    buffer: &mut [u8; 2048],
    outcome: Result<Built, BuildRefusal>,
    script: &Script,
    files: &F,
    pool: &Pool,
) -> usize
    ensures { result ≤ 2048 }
{
    report(buffer, outcome, script, files, pool).unwrap()
}

/// Tells a stop, if there is one, behind some words, as the first line of a report does.
fn tell_stop(out: &mut Vec<u8>, words: &str, stop: Option<Stop>) -> io::Result<()> {
    let Some(stop) = stop else {
        return Ok(());
    };
    let none = Built {
        first: None,
        executed: 0,
        skipped: 0,
    };
    let pool = Pool::new(&mut [], &mut []);
    let outcome = Err(BuildRefusal::Stopped(stop, none));
    let mut buffer = [0; 2048];
    let len = report_into(&mut buffer, outcome, &Script::new(), &Table::new(), &pool);
    out.write_all(words.as_bytes())?;
    out.write_all(&buffer[..len.saturating_sub(1)])
}

/// Tells the report of a build.
fn tell_report<F: FileStore>(
    out: &mut Vec<u8>,
    outcome: Result<Built, BuildRefusal>,
    script: &Script,
    files: &F,
    pool: &Pool,
) -> io::Result<()> {
    let mut buffer = [0; 2048];
    let len = report_into(&mut buffer, outcome, script, files, pool);
    tell_bytes(out, &buffer[..len])
}

/// Tells a build: the report, then the counts of a stopped build, which the report lacks, then the first run's stop.
pub fn tell_build<F: FileStore>(
    out: &mut Vec<u8>,
    outcome: Result<Built, BuildRefusal>,
    script: &Script,
    files: &F,
    pool: &Pool,
) -> io::Result<()> {
    tell_report(out, outcome, script, files, pool)?;
    match outcome {
        Ok(built) => {
            tell_stop(out, " first ", built.first)?;
            writeln!(out)
        }
        Err(BuildRefusal::By(_)) => write!(out, ", "),
        Err(BuildRefusal::Stopped(_, built)) => {
            let Built {
                first,
                executed,
                skipped,
            } = built;
            write!(out, " executed {executed} skipped {skipped}")?;
            tell_stop(out, " first ", first)?;
            write!(out, ", ")
        }
    }
}

/// Tells a refusal, and the stop that it comes of.
pub fn tell_refusal(out: &mut Vec<u8>, refusal: Refusal, stop: Option<Stop>) -> io::Result<()> {
    write!(out, "refused {refusal}")?;
    tell_stop(out, " ", stop)?;
    write!(out, ", ")
}

/// Tells what a step did: its line, the entries that it made, which are those behind the earlier ones, and its stop.
pub fn tell_step(
    out: &mut Vec<u8>,
    stepped: Stepped,
    entries: &[Entry],
    earlier: usize,
) -> io::Result<()> {
    let line = stepped.line;
    let how = if stepped.skipped { " skipped" } else { "" };
    write!(out, "{line}{how}")?;
    for entry in entries.iter().skip(earlier) {
        let Entry { file, number, .. } = *entry;
        let act = if entry.wrote { "writes" } else { "reads" };
        write!(out, " {act} {file:02}:{number}")?;
    }
    tell_stop(out, " ", stepped.stop)?;
    writeln!(out)
}

/// Tells why a step is refused.
pub fn tell_unstepped(out: &mut Vec<u8>, unstepped: StepRefusal) -> io::Result<()> {
    let stop = match unstepped {
        StepRefusal::By(_) => None,
        StepRefusal::Stopped(stop) => Some(stop),
    };
    tell_refusal(out, unstepped.refusal(), stop)
}

/// Tells what closing came to.
pub fn tell_close(out: &mut Vec<u8>, closed: Result<Closed, CloseRefusal>) -> io::Result<()> {
    match closed {
        Ok(Closed::Kept) => write!(out, "kept, "),
        Ok(Closed::PutBack) => write!(out, "put back, "),
        Err(CloseRefusal::By(refusal)) => tell_refusal(out, refusal, None),
        Err(CloseRefusal::Stopped(stop)) => tell_refusal(out, stop.fault.refusal(), Some(stop)),
    }
}

/// Tells the content of a number.
pub fn tell_content(out: &mut Vec<u8>, number: u16, pool: &Pool) -> io::Result<()> {
    match pool.content(number) {
        Some(content) => {
            write!(out, "holds '")?;
            tell_bytes(out, content.bytes)?;
            writeln!(out, "'")
        }
        None => writeln!(out, "absent"),
    }
}

/// The word for a standing.
pub fn word(standing: Standing) -> &'static str {
    match standing {
        Standing::Hint => "hint",
        Standing::Own => "own",
        Standing::Struck => "struck",
    }
}

/// Tells how many records a book has, and for each that is no hint its place and its standing.
pub fn tell_book(out: &mut Vec<u8>, book: &Book) -> io::Result<()> {
    let records = book.records();
    let count = records.len();
    write!(out, "records {count}")?;
    for (at, record) in records.iter().enumerate() {
        if record.standing != Standing::Hint {
            let standing = word(record.standing);
            write!(out, ", {at} {standing}")?;
        }
    }
    writeln!(out)
}
