use crate::desk::Desk;
use crate::parts::{Parts, Tickets};
use crate::table::size;
use files::{FileStore, Image, Table};
use model::{Entry, Record};
use pool::{Place, Pool};
use runner::{Book, Log};
use std::alloc::Global;
use std::io;
use std::io::Write;

/// Answers the commands among the lines of a case.
fn play<F: FileStore>(desk: &mut Desk<F>, tickets: &mut Tickets, lines: &str) -> io::Result<()> {
    for line in lines.lines() {
        if let Some(command) = line.strip_prefix("> ") {
            desk.answer(tickets, command)?;
        }
    }
    Ok(())
}

/// What the lines of a case come to over a file store.
fn told<F: FileStore + Drop>(
    alloc: Global,
    table: &str,
    lines: &str,
    files: F,
) -> io::Result<Vec<u8>> {
    let mut bytes = [0; 65536];
    let mut places = [Place::NOWHERE; 1024];
    let mut entries = [Entry::default(); 1088];
    let mut records = [Record::default(); 256];
    let parts = Parts {
        pool: Pool::new(
            &mut bytes[..size(lines, "> lent bytes ", 65536)],
            &mut places[..size(lines, "> lent places ", 1024)],
        ),
        log: Log::new(&mut entries[..size(lines, "> lent entries ", 1088)]),
        book: Book::new(&mut records[..size(lines, "> lent records ", 256)]),
    };
    let mut places = [Place::NOWHERE; 1];
    let mut entries = [Entry::default(); 34];
    let mut records = [Record::default(); 64];
    let spare = Parts {
        pool: Pool::new(&mut [], &mut places[..size(lines, "> spare places ", 1)]),
        log: Log::new(&mut entries),
        book: Book::new(&mut records[..size(lines, "> spare records ", 64)]),
    };
    let mut desk = Desk::new(alloc, table, files, parts, spare);
    let mut tickets = Tickets {
        last: None,
        spare: None,
    };
    // No question mark: the tickets are closed before an error is handed on.
    let played = play(&mut desk, &mut tickets, lines);
    let mut out = desk.end(tickets);
    played?;
    // The table has no end of a line behind the last one of a case.
    out.pop();
    Ok(out)
}

/// Prints what a case came to over a file store.
fn print_told(rt: &HostRuntime, store: &str, told: &[u8]) -> io::Result<()> {
    println!(rt; "  over {store}:")?;
    rt.stdout().write_all(told)?;
    println!(rt)
}

/// Plays a case over both file stores, and prints its line; where it differs, also what it came to. Answers whether it
/// came to what its lines say.
pub fn compare(rt: &HostRuntime, table: &str, name: &str, lines: &str) -> io::Result<bool> {
    let over_table = told(rt.alloc(), table, lines, Table::new())?;
    let over_image = told(rt.alloc(), table, lines, Image::new())?;
    let (over_table, over_image) = (over_table.as_slice(), over_image.as_slice());
    if over_table == lines.as_bytes() && over_image == lines.as_bytes() {
        println!(rt; "ok {name}")?;
        return Ok(true);
    }
    println!(rt; "differs {name}:")?;
    print_told(rt, "a table", over_table)?;
    print_told(rt, "an image", over_image)?;
    Ok(false)
}
