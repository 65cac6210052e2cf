use crate::desk::Desk;
use crate::directory::Directory;
use crate::terminal::Terminal;
use console_lines::{Plain, Request, Start, Store, tell_close};
use files::{Image, Table};
use model::{Entry, Record, Wish};
use pool::{Place, Pool};
use runner::{Book, Log, Ticket, close};
use std::alloc::Global;
use std::io;
use std::io::{BufRead, Write};

/// How the commands over some parts ended.
#[derive(Clone, Copy)]
enum End {
    Start(Start),
    Input,
}

/// How the commands of a run ended.
#[derive(Clone, Copy)]
enum RunEnd {
    Close(Wish),
    Start(Start),
    Input,
}

/// Begins a run, though one is open: the ticket is blank, and is closed at once.
fn begin_again<F: Directory>(
    out: &mut Vec<u8>,
    desk: &Desk,
    files: &mut F,
    pool: &mut Pool,
    log: &mut Log,
    book: &mut Book,
) -> io::Result<()> {
    let ticket = desk.begin(files, pool, log, book);
    let refusal = ticket.refusal();
    let closed = close(ticket, Wish::PutBack, files, pool, log, book);
    match refusal {
        Some(refusal) => writeln!(out, "blank {refusal}"),
        None => tell_close(out, closed),
    }
}

/// Answers the commands of an open run, up to one that ends it.
fn run_commands<R: BufRead + Drop, W: Write + Drop, F: Directory>(
    terminal: &mut Terminal<R, W>,
    desk: &mut Desk,
    ticket: &Ticket,
    files: &mut F,
    pool: &mut Pool,
    log: &mut Log,
    book: &mut Book,
) -> io::Result<RunEnd> {
    terminal.answer.write_all(b"live\n")?;
    for _ in 0..u64::MAX {
        match terminal.next()? {
            None => break,
            Some(Request::Close(wish)) => return Ok(RunEnd::Close(wish)),
            Some(Request::Start(start)) => return Ok(RunEnd::Start(start)),
            Some(Request::Plain(Plain::Step)) => {
                desk.step(&mut terminal.answer, ticket, files, pool, log, book)?;
            }
            Some(Request::Plain(Plain::Begin)) => {
                begin_again(&mut terminal.answer, desk, files, pool, log, book)?;
            }
            Some(request) => {
                desk.answer(&mut terminal.answer, request, files, pool, log, book)?;
            }
        }
    }
    Ok(RunEnd::Input)
}

/// The wish with which a run is closed: that of its command, and else to put back.
fn wish_at(ended: &io::Result<RunEnd>) -> Wish {
    match ended {
        Ok(RunEnd::Close(wish)) => *wish,
        _ => Wish::PutBack,
    }
}

/// Answers the commands of an open run, and closes it: as it is asked for, or else, and where a line could not be read
/// or written, with the wish to put back. Tells how the commands over the parts ended, if they did.
fn run<R: BufRead + Drop, W: Write + Drop, F: Directory>(
    terminal: &mut Terminal<R, W>,
    desk: &mut Desk,
    ticket: Ticket,
    files: &mut F,
    pool: &mut Pool,
    log: &mut Log,
    book: &mut Book,
) -> io::Result<Option<End>> {
    // No question mark: the ticket is closed before an error is handed on.
    let ended = run_commands(terminal, desk, &ticket, files, pool, log, book);
    let closed = close(ticket, wish_at(&ended), files, pool, log, book);
    match ended? {
        RunEnd::Close(_) => {
            tell_close(&mut terminal.answer, closed)?;
            Ok(None)
        }
        RunEnd::Start(start) => Ok(Some(End::Start(start))),
        RunEnd::Input => Ok(Some(End::Input)),
    }
}

/// Begins a run and answers its commands; a blank ticket is told and closed at once.
fn begin_run<R: BufRead + Drop, W: Write + Drop, F: Directory>(
    terminal: &mut Terminal<R, W>,
    desk: &mut Desk,
    files: &mut F,
    pool: &mut Pool,
    log: &mut Log,
    book: &mut Book,
) -> io::Result<Option<End>> {
    let ticket = desk.begin(files, pool, log, book);
    match ticket.refusal() {
        None => run(terminal, desk, ticket, files, pool, log, book),
        Some(refusal) => {
            let _ = close(ticket, Wish::PutBack, files, pool, log, book);
            writeln!(&mut terminal.answer, "blank {refusal}")?;
            Ok(None)
        }
    }
}

/// Answers commands over some parts, up to the next start or the end of the input.
fn part_commands<R: BufRead + Drop, W: Write + Drop, F: Directory>(
    terminal: &mut Terminal<R, W>,
    desk: &mut Desk,
    files: &mut F,
    pool: &mut Pool,
    log: &mut Log,
    book: &mut Book,
) -> io::Result<End> {
    for _ in 0..u64::MAX {
        match terminal.next()? {
            None => break,
            Some(Request::Start(start)) => return Ok(End::Start(start)),
            Some(Request::Plain(Plain::Begin)) => {
                if let Some(end) = begin_run(terminal, desk, files, pool, log, book)? {
                    return Ok(end);
                }
            }
            Some(request) => {
                desk.answer(&mut terminal.answer, request, files, pool, log, book)?;
            }
        }
    }
    Ok(End::Input)
}

/// Answers commands over a fresh store and fresh parts.
fn session<R: BufRead + Drop, W: Write + Drop, F: Directory>(
    terminal: &mut Terminal<R, W>,
    desk: &mut Desk,
    files: &mut F,
    bytes: &mut [u8],
    places: &mut [Place],
    entries: &mut [Entry],
    records: &mut [Record],
) -> io::Result<End> {
    let mut pool = Pool::new(bytes, places);
    let mut log = Log::new(entries);
    let mut book = Book::new(records);
    part_commands(terminal, desk, files, &mut pool, &mut log, &mut book)
}

/// Answers commands over the parts of a start.
fn started<R: BufRead + Drop, W: Write + Drop>(
    terminal: &mut Terminal<R, W>,
    desk: &mut Desk,
    start: Start,
) -> io::Result<End> {
    let mut bytes = [0; 65536];
    let mut places = [Place::NOWHERE; 1024];
    let mut entries = [Entry::default(); 2048];
    let mut records = [Record::default(); 256];
    let bytes = &mut bytes[..start.bytes];
    let places = &mut places[..start.places];
    let entries = &mut entries[..start.entries];
    let records = &mut records[..start.records];
    match start.store {
        Store::Table => {
            session(
                terminal,
                desk,
                &mut Table::new(),
                bytes,
                places,
                entries,
                records,
            )
        }
        Store::Image => {
            session(
                terminal,
                desk,
                &mut Image::new(),
                bytes,
                places,
                entries,
                records,
            )
        }
    }
}

/// Answers all commands of the input.
pub fn converse<R: BufRead + Drop, W: Write + Drop>(
    alloc: Global,
    terminal: &mut Terminal<R, W>,
) -> io::Result<()> {
    let mut desk = Desk::new(alloc);
    let mut end = started(terminal, &mut desk, Start::first())?;
    for _ in 0..u64::MAX {
        let End::Start(start) = end else {
            break;
        };
        terminal.answer.write_all(b"started\n")?;
        end = started(terminal, &mut desk, start)?;
    }
    Ok(())
}
