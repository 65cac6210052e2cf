ghost use Rattle.std.specs.Prelude.{◌≡◌, ◌++◌, map, codes, IfOk};
ghost use Rattle.model.specs.Records.{said};
ghost use Rattle.pool.specs.Contents.{meant};
ghost use Rattle.script.specs.Scripts.{meaning};
ghost use Rattle.console_lines.specs.Answered.{end_line, refused_line, done_line, script_line, audit_line, step_line, close_line, build_line, bytes_line, file_line, file_lines, content_line, content_lines, entry_lines, read_words, record_line, record_lines};

use crate::hex::put_hex;
use crate::told::{
    BuiltWords, CommandWords, EntryWords, StepWords, StopWords, UseWords, standing_word,
};
use files::FileStore;
use model::{
    BuildRefusal, Built, CloseRefusal, Closed, Entry, Record, Refusal, Standing, StepRefusal,
    Stepped, Use,
};
use pool::Pool;
use script::{Refused, Script};
use std::io;
use std::io::Write;

/// What is answered to a line that is no command.
pub fn tell_what(out: &mut Vec<u8>) -> io::Result<()>
    ensures { IfOk result (λ _. out.new.items ≡ out.old.items ++ codes "what\n") }
{
    writeln!(out, "what")
}

/// Tells a refusal by its number.
pub fn tell_refused(out: &mut Vec<u8>, refusal: Refusal) -> io::Result<()>
    ensures { IfOk result (λ _. out.new.items ≡ out.old.items ++ refused_line refusal) }
{
    writeln!(out, "refused {refusal}")
}

/// Tells a call that answers nothing, or its refusal.
pub fn tell_done(out: &mut Vec<u8>, answer: Result<(), Refusal>) -> io::Result<()>
    ensures { IfOk result (λ _. out.new.items ≡ out.old.items ++ done_line answer) }
{
    match answer {
        Ok(()) => writeln!(out, "ok"),
        Err(refusal) => tell_refused(out, refusal),
    }
}

/// Tells a script that was read, or why its text is refused.
pub fn tell_script(out: &mut Vec<u8>, script: &Script, read: Result<(), Refused>) -> io::Result<()>
    ensures { IfOk result (λ _. out.new.items ≡ out.old.items ++ script_line (meaning script.now) read) }
{
    match read {
        Ok(()) => {
            let lines = script.commands().len();
            let haves = script.haves();
            writeln!(out, "lines {lines} haves {haves}")
        }
        Err(Refused { refusal, line }) => writeln!(out, "refused {refusal} {line}"),
    }
}

/// Tells what an audit found, or why it is refused.
pub fn tell_audit(out: &mut Vec<u8>, answer: Result<Standing, Refusal>) -> io::Result<()>
    ensures { IfOk result (λ _. out.new.items ≡ out.old.items ++ audit_line answer) }
{
    match answer {
        Ok(standing) => {
            let word = standing_word(standing);
            writeln!(out, "{word}")
        }
        Err(refusal) => tell_refused(out, refusal),
    }
}

/// Tells what a step did, or why it is refused.
pub fn tell_step(out: &mut Vec<u8>, answer: Result<Stepped, StepRefusal>) -> io::Result<()>
    ensures { IfOk result (λ _. out.new.items ≡ out.old.items ++ step_line answer) }
{
    match answer {
        Ok(stepped) => {
            let step = StepWords(stepped);
            writeln!(out, "{step}")
        }
        Err(StepRefusal::By(refusal)) => tell_refused(out, refusal),
        Err(StepRefusal::Stopped(stop)) => {
            let refusal = Refusal::RunStopped;
            let stop = StopWords(stop);
            writeln!(out, "refused {refusal} {stop}")
        }
    }
}

/// Tells what a run came to that was closed.
pub fn tell_close(out: &mut Vec<u8>, answer: Result<Closed, CloseRefusal>) -> io::Result<()>
    ensures { IfOk result (λ _. out.new.items ≡ out.old.items ++ close_line answer) }
{
    match answer {
        Ok(Closed::Kept) => writeln!(out, "kept"),
        Ok(Closed::PutBack) => writeln!(out, "put back"),
        Err(CloseRefusal::By(refusal)) => tell_refused(out, refusal),
        Err(CloseRefusal::Stopped(stop)) => {
            let stop = StopWords(stop);
            writeln!(out, "{stop}")
        }
    }
}

/// Tells what a build came to.
pub fn tell_build(out: &mut Vec<u8>, answer: Result<Built, BuildRefusal>) -> io::Result<()>
    ensures { IfOk result (λ _. out.new.items ≡ out.old.items ++ build_line answer) }
{
    match answer {
        Ok(built) => {
            let built = BuiltWords(built);
            writeln!(out, "kept {built}")
        }
        Err(BuildRefusal::By(refusal)) => tell_refused(out, refusal),
        Err(BuildRefusal::Stopped(stop, built)) => {
            let stop = StopWords(stop);
            let built = BuiltWords(built);
            writeln!(out, "{stop} {built}")
        }
    }
}

/// Tells a trace file that was saved.
pub fn tell_saved(out: &mut Vec<u8>, bytes: &[u8]) -> io::Result<()>
    ensures { IfOk result (λ _. out.new.items ≡ out.old.items ++ codes "saved " ++ bytes_line bytes.now) }
{
    write!(out, "saved ")?;
    tell_bytes(out, bytes)
}

/// Tells bytes, in a line of their own.
pub fn tell_bytes(out: &mut Vec<u8>, bytes: &[u8]) -> io::Result<()>
    ensures { IfOk result (λ _. out.new.items ≡ out.old.items ++ bytes_line bytes.now) }
{
    put_hex(out, bytes)?;
    writeln!(out)
}

/// Tells a file, if it has a number above 0.
fn tell_file(out: &mut Vec<u8>, file: u8, number: u16) -> io::Result<()>
    ensures { IfOk result (λ _. out.new.items ≡ out.old.items ++ file_line file number) }
{
    if number == 0 {
        return Ok(());
    }
    let held = UseWords(Use { file, number });
    writeln!(out, "{held}")
}

/// Tells each file that has a number above 0.
pub fn tell_files<F: FileStore>(out: &mut Vec<u8>, files: &F) -> io::Result<()>
    ensures { IfOk result (λ _. out.new.items ≡ out.old.items ++ file_lines 0 (F.FileStore.map files.now) ++ end_line) }
{
    for file in 0..64u8 {
        tell_file(out, file, files.tell(file))?;
    }
    writeln!(out, ".")
}

/// Tells a content and its number.
fn tell_content(out: &mut Vec<u8>, number: u16, bytes: &[u8]) -> io::Result<()>
    ensures { IfOk result (λ _. out.new.items ≡ out.old.items ++ content_line number bytes.now) }
{
    write!(out, "{number} ")?;
    tell_bytes(out, bytes)
}

/// Tells each content of the pool.
pub fn tell_pool(out: &mut Vec<u8>, pool: &Pool) -> io::Result<()>
    ensures { IfOk result (λ _. out.new.items ≡ out.old.items ++ content_lines 1 (meant pool.now).contents ++ end_line) }
{
    for at in 0..pool.count() {
        let number = at + 1;
        tell_content(out, number, pool.bytes(number))?;
    }
    writeln!(out, ".")
}

/// Tells the entries of the log.
pub fn tell_log(out: &mut Vec<u8>, entries: &[Entry]) -> io::Result<()>
    ensures { IfOk result (λ _. out.new.items ≡ out.old.items ++ entry_lines entries.now ++ end_line) }
{
    for entry in entries {
        let entry = EntryWords(*entry);
        writeln!(out, "{entry}")?;
    }
    writeln!(out, ".")
}

/// Tells what a command read.
fn tell_reads(out: &mut Vec<u8>, reads: &[Use]) -> io::Result<()>
    ensures { IfOk result (λ _. out.new.items ≡ out.old.items ++ read_words reads.now) }
{
    for read in reads {
        let read = UseWords(*read);
        write!(out, " {read}")?;
    }
    Ok(())
}

/// Tells a record.
fn tell_record(out: &mut Vec<u8>, recorded: &Record) -> io::Result<()>
    ensures { IfOk result (λ _. out.new.items ≡ out.old.items ++ record_line (said recorded.now)) }
{
    let standing = standing_word(recorded.standing);
    let command = CommandWords(recorded.command);
    write!(out, "{standing} {command} :")?;
    tell_reads(out, recorded.reads())?;
    let write = UseWords(recorded.write);
    writeln!(out, " > {write}")
}

/// Tells the records of the book.
pub fn tell_book(out: &mut Vec<u8>, records: &[Record]) -> io::Result<()>
    ensures { IfOk result (λ _. out.new.items ≡ out.old.items ++ record_lines (map said records.now) ++ end_line) }
{
    for record in records {
        tell_record(out, record)?;
    }
    writeln!(out, ".")
}

/// The commands, in short.
const HELP: &[u8] = b"start table|image BYTES PLACES LOG BOOK: fresh parts over that much memory\n\
script HEX: reads a script\n\
policy order, policy last W, policy high W, policy list W A,B,C: the policy from now on\n\
lay: puts the starting contents\n\
load HEX: takes in a trace file\n\
audit I: judges the record in a place of the book\n\
begin, step, close keep, close back: a run, step by step\n\
build: a whole build\n\
save: the book as a trace file\n\
report: the report of the last build\n\
files, pool, log, book: what they hold\n\
image HEX: fills an image; image: its bytes\n\
help: these lines\n\
bytes are in hexadecimal, - for none; a line that begins with # is passed over\n";

/// Tells the commands.
pub fn tell_help(out: &mut Vec<u8>) -> io::Result<()>
    ensures { IfOk result (λ _. out.new.items ≡ out.old.items ++ HELP.now) }
{
    out.write_all(HELP)
}
