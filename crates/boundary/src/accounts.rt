ghost use Rattle.std.specs.Prelude.{◌≡◌, ◌+◌, ◌-◌, ◌≤◌, ◌<◌, ◌^◌, ℕ, List, length};
ghost use Rattle.std.specs.List.{flat_map};
ghost use Rattle.output.specs.Writes.{laid, Room, Writes};
ghost use Rattle.pool.specs.Contents.{meant};
ghost use Rattle.report.specs.Report.{report_bytes};
ghost use Rattle.script.specs.Scripts.{meaning};
ghost use Rattle.trace.specs.Reads.{two_bytes};
ghost use Rattle.trace_write.specs.Saves.{to_save};
ghost use Rattle.runner.specs.Views.{records, world};
ghost use Rattle.boundary.specs.Accounts.{did, end_number, stop_number, head, after_length, four_bytes, trace_part, account};

use crate::numbers::put_number;
use files::FileStore;
use model::{BuildRefusal, Built, Stop};
use output::Output;
use pool::Pool;
use runner::{Book, Log, report, save};
use script::Script;

/// How many bytes stand before the length of the report.
const HEAD: usize = 134;

/// What the runs of a build did.
fn did(outcome: Result<Built, BuildRefusal>) -> Built
    ensures { result ≡ did outcome }
{
    match outcome {
        Ok(built) | Err(BuildRefusal::Stopped(_, built)) => built,
        Err(BuildRefusal::By(_)) => Built {
            first: None,
            executed: 0,
            skipped: 0,
        },
    }
}

/// The number by which the end of a build is told, 0 where it was kept.
fn end_number(outcome: Result<Built, BuildRefusal>) -> u8
    ensures { result ≡ end_number outcome }
{
    match outcome {
        Ok(_) => 0,
        Err(why) => why.refusal().number(),
    }
}

/// The number by which a stop is told, 0 where there is none.
fn stop_number(stop: Option<Stop>) -> u8
    ensures { result ≡ stop_number stop }
{
    match stop {
        None => 0,
        Some(stop) => stop.fault.refusal().number(),
    }
}

/// Writes the numbers of the files, two bytes each.
fn put_files<F: FileStore>(out: &mut Output, files: &F)
    requires { Room 128 out.old }
    ensures { Writes (flat_map two_bytes (F.FileStore.map files.now)) out.old out.new }
{
    for file in 0..64u8 {
        put_number(out, files.tell(file));
    }
}

/// Writes what a build came to, and the numbers of the files.
fn put_head<F: FileStore>(out: &mut Output, outcome: Result<Built, BuildRefusal>, files: &F)
    requires { Room 134 out.old }
    ensures { Writes (head outcome (F.FileStore.map files.now)) out.old out.new }
{
    let built = did(outcome);
    out.put(&[end_number(outcome), stop_number(built.first)]);
    put_number(out, built.executed as u16);
    put_number(out, built.skipped as u16);
    put_files(out, files);
}

/// Writes the head to the start of a buffer.
fn write_head<F: FileStore>(out: &mut [u8], outcome: Result<Built, BuildRefusal>, files: &F)
    requires { 134 ≤ length out.old }
    ensures { out.new ≡ laid 0 (head outcome (F.FileStore.map files.now)) out.old }
{
    let mut text = Output::new(out);
    put_head(&mut text, outcome, files);
}

/// Writes a length to the start of a buffer, in two bytes.
fn write_two(out: &mut [u8], len: usize)
    requires room { 2 ≤ length out.old }
    requires short { len < 65536 }
    ensures { out.new ≡ laid 0 (two_bytes len) out.old }
{
    let mut text = Output::new(out);
    put_number(&mut text, len as u16);
}

/// Writes a length to the start of a buffer, in four bytes.
fn write_four(out: &mut [u8], len: usize)
    requires room { 4 ≤ length out.old }
    requires short { len < 2 ^ 32 }
    ensures { out.new ≡ laid 0 (four_bytes len) out.old }
{
    let mut text = Output::new(out);
    put_number(&mut text, (len / 65536) as u16);
    put_number(&mut text, (len % 65536) as u16);
}

/// Writes the report of a build after its length, and answers how long both are.
fn write_report<F: FileStore>(
    out: &mut [u8],
    outcome: Result<Built, BuildRefusal>,
    script: &Script,
    files: &F,
    pool: &Pool,
) -> usize
    requires { 2050 ≤ length out.old }
    ensures value { result ≡ length (after_length (report_bytes outcome (meaning script.now).labels (meant pool.now) (F.FileStore.map files.now))) }
    ensures bytes { out.new ≡ laid 0 (after_length (report_bytes outcome (meaning script.now).labels (meant pool.now) (F.FileStore.map files.now))) out.old }
    ensures short { result ≤ 2050 }
{
    let len = report(&mut out[2..], outcome, script, files, pool).unwrap();
    write_two(out, len);
    len + 2
}

/// Writes the trace file after its length, and answers how long both are; where it has no room, the length is 0.
fn write_trace(out: &mut [u8], pool: &Pool, book: &Book) -> usize
    requires room { 4 ≤ length out.old }
    requires few { length out.old < 2 ^ 32 }
    ensures value { result ≡ length (trace_part (length out.old - 4) (to_save (meant pool.now) (records book.now))) }
    ensures bytes { out.new ≡ laid 0 (trace_part (length out.old - 4) (to_save (meant pool.now) (records book.now))) out.old }
    ensures fits { result ≤ length out.old }
{
    let len = save(&mut out[4..], pool, book).unwrap_or(0);
    write_four(out, len);
    len + 4
}

/// Writes what is told of builds: what the last one came to, the files, its report, and the book as a trace file.
pub fn write_account<F: FileStore>(
    out: &mut [u8],
    outcome: Result<Built, BuildRefusal>,
    script: &Script,
    files: &F,
    pool: &Pool,
    log: &Log,
    book: &Book,
) -> usize
    requires room { 2188 ≤ length out.old }
    requires few { length out.old < 2 ^ 32 }
    ensures value { result ≡ length (account (length out.old) (meaning script.now).labels outcome (world (F.FileStore.map files.now) (meant pool.now) log.now book.now)) }
    ensures bytes { out.new ≡ laid 0 (account (length out.old) (meaning script.now).labels outcome (world (F.FileStore.map files.now) (meant pool.now) log.now book.now)) out.old }
    ensures fits { result ≤ length out.old }
{
    write_head(out, outcome, files);
    let at = HEAD + write_report(&mut out[HEAD..], outcome, script, files, pool);
    at + write_trace(&mut out[at..], pool, book)
}
