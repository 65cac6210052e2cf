use crate::asked::Asked;
use crate::directory::Directory;
use console_lines::{
    Plain, PolicyRequest, Request, tell_audit, tell_book, tell_build, tell_bytes, tell_done,
    tell_files, tell_help, tell_log, tell_pool, tell_refused, tell_saved, tell_script, tell_step,
    tell_what,
};
use files::FileStore;
use model::{BuildRefusal, Built, Refusal};
use policy::ScriptOrder;
use pool::Pool;
use runner::{Book, Log, Ticket, audit, begin, build, lay, load, report, save, step};
use script::Script;
use std::alloc::Global;
use std::io;
use std::io::Write;

/// What stays from command to command beside files, pool, log and book.
#[derive(Drop)]
pub struct Desk {
    /// The text of the script, empty where the last one was refused.
    text: Vec<u8>,
    policy: Asked,
    /// What the last build answered.
    built: Option<Result<Built, BuildRefusal>>,
}

/// The script of a text, empty where the text is refused.
fn script_of(text: &[u8]) -> Script<'_> {
    let mut script = Script::new();
    let _ = script.read(text);
    script
}

impl Desk {
    pub fn new(alloc: Global) -> Desk {
        Desk {
            text: Vec::new(alloc),
            policy: Asked::Order(ScriptOrder),
            built: None,
        }
    }

    /// Takes over the text of a script.
    fn read_script(&mut self, out: &mut Vec<u8>, text: Vec<u8>) -> io::Result<()> {
        self.text = text;
        let mut script = Script::new();
        let read = script.read(self.text.as_slice());
        tell_script(out, &script, read)
    }

    fn take_policy(
        &mut self,
        out: &mut Vec<u8>,
        request: PolicyRequest,
        book: &Book,
    ) -> io::Result<()> {
        let script = script_of(self.text.as_slice());
        self.policy = Asked::of_request(request, script.commands(), book.records());
        writeln!(out, "ready")
    }

    fn lay<F: FileStore>(
        &self,
        out: &mut Vec<u8>,
        files: &mut F,
        pool: &mut Pool,
        log: &Log,
    ) -> io::Result<()> {
        let script = script_of(self.text.as_slice());
        tell_done(out, lay(&script, files, pool, log))
    }

    /// Begins a run of the script.
    pub fn begin<F: FileStore>(
        &self,
        files: &F,
        pool: &Pool,
        log: &mut Log,
        book: &Book,
    ) -> Ticket {
        let script = script_of(self.text.as_slice());
        begin(&script, files, pool, log, book)
    }

    /// Makes a step of a run.
    pub fn step<F: FileStore>(
        &mut self,
        out: &mut Vec<u8>,
        ticket: &Ticket,
        files: &mut F,
        pool: &mut Pool,
        log: &mut Log,
        book: &Book,
    ) -> io::Result<()> {
        tell_step(out, step(ticket, &mut self.policy, files, pool, log, book))
    }

    fn build<F: FileStore>(
        &mut self,
        out: &mut Vec<u8>,
        files: &mut F,
        pool: &mut Pool,
        log: &mut Log,
        book: &mut Book,
    ) -> io::Result<()> {
        let script = script_of(self.text.as_slice());
        let built = build(&script, &mut self.policy, files, pool, log, book);
        self.built = Some(built);
        tell_build(out, built)
    }

    fn report<F: FileStore>(&self, out: &mut Vec<u8>, files: &F, pool: &Pool) -> io::Result<()> {
        let Some(built) = self.built else {
            return tell_what(out);
        };
        let script = script_of(self.text.as_slice());
        let mut buffer = [0; 2048];
        match report(&mut buffer, built, &script, files, pool) {
            Ok(len) => out.write_all(&buffer[..len]),
            Err(refusal) => tell_refused(out, refusal),
        }
    }

    /// Answers a command of those that neither begin nor end a run; a close without a ticket is malformed.
    pub fn answer<F: Directory>(
        &mut self,
        out: &mut Vec<u8>,
        request: Request,
        files: &mut F,
        pool: &mut Pool,
        log: &mut Log,
        book: &mut Book,
    ) -> io::Result<()> {
        match request {
            Request::Plain(plain) => self.answer_plain(out, plain, files, pool, log, book),
            Request::Script(text) => self.read_script(out, text),
            Request::Policy(request) => self.take_policy(out, request, book),
            Request::Load(bytes) => tell_done(out, load(bytes.as_slice(), pool, log, book)),
            Request::Audit(at) => tell_audit(out, audit(at, pool, log, book)),
            Request::Fill(bytes) => fill_and_tell(out, bytes.as_slice(), files, log),
            Request::Start(_) | Request::Close(_) => tell_what(out),
        }
    }

    /// Answers a command that is a name alone. A step without a ticket is malformed.
    fn answer_plain<F: Directory>(
        &mut self,
        out: &mut Vec<u8>,
        plain: Plain,
        files: &mut F,
        pool: &mut Pool,
        log: &mut Log,
        book: &mut Book,
    ) -> io::Result<()> {
        match plain {
            Plain::Help => tell_help(out),
            Plain::Lay => self.lay(out, files, pool, log),
            Plain::Build => self.build(out, files, pool, log, book),
            Plain::Save => save_and_tell(out, pool, book),
            Plain::Report => self.report(out, files, pool),
            Plain::Files => tell_files(out, files),
            Plain::Pool => tell_pool(out, pool),
            Plain::Log => tell_log(out, log.entries()),
            Plain::Book => tell_book(out, book.records()),
            Plain::Image => tell_image(out, files),
            Plain::Begin | Plain::Step => tell_what(out),
        }
    }
}

/// The most bytes of a trace file that is saved.
const LONGEST: usize = 82180;

fn save_and_tell(out: &mut Vec<u8>, pool: &Pool, book: &Book) -> io::Result<()> {
    let mut buffer = [0; LONGEST];
    match save(&mut buffer, pool, book) {
        Ok(len) => tell_saved(out, &buffer[..len]),
        Err(refusal) => tell_refused(out, refusal),
    }
}

/// Fills an image, unless a run is open or the store is no image.
fn fill_and_tell<F: Directory>(
    out: &mut Vec<u8>,
    bytes: &[u8],
    files: &mut F,
    log: &Log,
) -> io::Result<()> {
    if log.is_open() {
        return tell_what(out);
    }
    match files.fill(bytes) {
        Some(answer) => tell_done(out, answer),
        None => tell_what(out),
    }
}

fn tell_image<F: Directory>(out: &mut Vec<u8>, files: &F) -> io::Result<()> {
    match files.image() {
        Some(bytes) => tell_bytes(out, bytes),
        None => tell_what(out),
    }
}
