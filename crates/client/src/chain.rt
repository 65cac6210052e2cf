//! A chain of calls, and what their contracts say of the last of them. Each call says that the past of the world before
//! it goes on with it. So the last call has a past, over which it promises that it ends as script order does.
ghost use Rattle.std.specs.Prelude.{◌≡◌, ◌≤◌};
ghost use Rattle.model.specs.Past.{Past};
ghost use Rattle.pool.specs.Contents.{meant};
ghost use Rattle.script.specs.Scripts.{meaning};
ghost use Rattle.runner.specs.Views.{world};
ghost use Rattle.client.specs.LastBuild.{BuiltOverPast, LastBuilt, LastReported};

use crate::counted::Counted;
use files::{FileStore, Table};
use model::{
    BuildRefusal, Built, CloseRefusal, Closed, Entry, Record, Refusal, Standing, StepRefusal,
    Stepped, Wish,
};
use policy::Policy;
use pool::{Place, Pool};
use runner::{Book, Log, audit, begin, build, close, lay, load, report, step};
use script::Script;

/// What the calls answered that begin a run, make three steps of it and close it.
#[derive(Clone, Copy)]
pub struct RunAnswers {
    /// Why the ticket was blank, if it was.
    pub blank: Option<Refusal>,
    pub steps: [Result<Stepped, StepRefusal>; 3],
    pub closed: Result<Closed, CloseRefusal>,
}

/// What the calls of a chain answered, in their order.
#[derive(Clone, Copy)]
pub struct Answers {
    pub laid: Result<(), Refusal>,
    pub built: Result<Built, BuildRefusal>,
    pub loaded: Result<(), Refusal>,
    pub audited: Result<Standing, Refusal>,
    pub run: RunAnswers,
    pub last: Result<Built, BuildRefusal>,
}

/// What came of a chain from nothing.
#[derive(Clone, Copy)]
pub struct Outcome {
    pub answers: Answers,
    /// How long the report is.
    pub len: usize,
    /// How often a file was set.
    pub sets: u32,
}

/// Begins a run, makes three steps of it, and closes it with the wish to put it back.
fn run_and_put_back<F: FileStore, P: Policy>(
    script: &Script,
    policy: &mut P,
    files: &mut F,
    pool: &mut Pool,
    log: &mut Log,
    book: &mut Book,
) -> RunAnswers
    ensures past { Past (world (F.FileStore.map files.old) (meant pool.old) log.old book.old) → Past (world (F.FileStore.map files.new) (meant pool.new) log.new book.new) }
    ensures same { P.Policy.patience policy.new ≡ P.Policy.patience policy.old }
{
    let ticket = begin(script, files, pool, log, book);
    let blank = ticket.refusal();
    let first = step(&ticket, policy, files, pool, log, book);
    let second = step(&ticket, policy, files, pool, log, book);
    let third = step(&ticket, policy, files, pool, log, book);
    let closed = close(ticket, Wish::PutBack, files, pool, log, book);
    RunAnswers {
        blank,
        steps: [first, second, third],
        closed,
    }
}

/// A build after any calls.
fn build_last<F: FileStore, P: Policy>(
    script: &Script,
    policy: &mut P,
    files: &mut F,
    pool: &mut Pool,
    log: &mut Log,
    book: &mut Book,
) -> Result<Built, BuildRefusal>
    ensures { Past (world (F.FileStore.map files.old) (meant pool.old) log.old book.old) → BuiltOverPast (meaning script.now).commands (P.Policy.patience policy.old) (P.Policy.passes policy.old) result (P.Policy.passes policy.new) (world (F.FileStore.map files.old) (meant pool.old) log.old book.old) (world (F.FileStore.map files.new) (meant pool.new) log.new book.new) }
{
    build(script, policy, files, pool, log, book)
}

/// Lays and builds a script, loads a trace file and audits the last record of the book, makes some steps of a run that
/// is put back, and builds again.
pub fn chain<F: FileStore, P: Policy>(
    script: &Script,
    trace: &[u8],
    policy: &mut P,
    files: &mut F,
    pool: &mut Pool,
    log: &mut Log,
    book: &mut Book,
) -> Answers
    ensures { Past (world (F.FileStore.map files.old) (meant pool.old) log.old book.old) → LastBuilt (meaning script.now).commands (P.Policy.patience policy.old) result.last (P.Policy.passes policy.new) (world (F.FileStore.map files.new) (meant pool.new) log.new book.new) }
{
    let laid = lay(script, files, pool, log);
    let built = build(script, policy, files, pool, log, book);
    let loaded = load(trace, pool, log, book);
    let at = book.records().len().saturating_sub(1);
    let audited = audit(at, pool, log, book);
    let run = run_and_put_back(script, policy, files, pool, log, book);
    let last = build_last(script, policy, files, pool, log, book);
    Answers {
        laid,
        built,
        loaded,
        audited,
        run,
        last,
    }
}

/// Makes the chain over parts of its own, which have no past, and writes the report of its last build to the start of a
/// buffer.
pub fn from_nothing<P: Policy>(
    script: &Script,
    trace: &[u8],
    policy: &mut P,
    out: &mut [u8; 2048],
) -> Outcome
    ensures reported { LastReported (meaning script.now).labels (meaning script.now).commands (P.Policy.patience policy.old) result.answers.last (P.Policy.passes policy.new) out.old out.new result.len }
    ensures fits { result.len ≤ 2048 }
{
    let mut bytes = [0; 8192];
    let mut places = [Place::NOWHERE; 64];
    // As many as a begin asks for a script of 64 lines.
    let mut entries = [Entry::default(); 1088];
    let mut records = [Record::default(); 64];
    let mut files = Counted::new(Table::new());
    let mut pool = Pool::new(&mut bytes, &mut places);
    let mut log = Log::new(&mut entries);
    let mut book = Book::new(&mut records);
    let answers = chain(
        script, trace, policy, &mut files, &mut pool, &mut log, &mut book,
    );
    let len = report(out, answers.last, script, &files, &pool).unwrap();
    Outcome {
        answers,
        len,
        sets: files.sets(),
    }
}
