//! The calls of the library. Each says in its contract what it does to files, pool, log and book, accepted or refused,
//! and what it promises over any past: `Promised`, `StepPromised`, `ClosePromised` and `BuildPromised` stand at the
//! end of the model's page of promises. Where a call does not take a part, its clause holds for every value of it.
ghost use Rattle.std.specs.Prelude.{◌≡◌, ℕ, true, List, [], is_ok, OnErr};
ghost use Rattle.model.specs.Calls.{on_lay, on_load, on_audit, on_begin};
ghost use Rattle.model.specs.Promise.{Promised, StepPromised, ClosePromised, BuildPromised};
ghost use Rattle.model.specs.Records.{Record as RecordMeant};
ghost use Rattle.pool.specs.Contents.{meant};
ghost use Rattle.script.specs.Haves.{haves_of};
ghost use Rattle.script.specs.Scripts.{meaning};
ghost use Rattle.trace.specs.Format.{decoded};
ghost use Rattle.trace_write.specs.Laws.{RoundTrip};
ghost use Rattle.runner.specs.Tickets.{why_blank};
ghost use Rattle.runner.specs.Views.{records, world_with, world};

// Kept throughout: files, pool, log and book are parameters of their own, each borrowed by `&` where it is only read.

use crate::book::Book;
use crate::log::Log;
use crate::ticket::Ticket;
use files::FileStore;
use model::{
    BuildRefusal, Built, CloseRefusal, Closed, Refusal, Standing, StepRefusal, Stepped, Wish,
};
use policy::Policy;
use pool::Pool;
use script::Script;

/// Puts the starting contents of a script into the pool, in order, and sets their files. Refused while a run is open,
/// and where the pool refuses one of them; files and pool are then as they were.
pub fn lay<F: FileStore>(
    script: &Script,
    files: &mut F,
    pool: &mut Pool,
    log: &Log,
) -> Result<(), Refusal>
    ensures { (rs : List RecordMeant) (n : ℕ) → Promised (on_lay (haves_of (meaning script.now).haves) result) (world_with (F.FileStore.map files.old) (meant pool.old) log.now rs n) (world_with (F.FileStore.map files.new) (meant pool.new) log.now rs n) }
{
    log.lay(script, files, pool)
}

/// Puts the contents of a trace file into the pool and takes its records into the book as hints; own records stay.
/// Refused while a run is open, where the bytes are no trace file, and where pool or book is too small; pool and book
/// are then as they were. A file that is loaded into an empty pool and an empty book gives its own bytes when it is
/// saved, and one that was saved brings back the records that were saved, as hints.
pub fn load(bytes: &[u8], pool: &mut Pool, log: &Log, book: &mut Book) -> Result<(), Refusal>
    ensures promise { (fs : List ℕ) → Promised (on_load (decoded bytes.now) result) (world fs (meant pool.old) log.now book.old) (world fs (meant pool.new) log.now book.new) }
    ensures trip { is_ok result ≡ true → (meant pool.old).contents ≡ [] → records book.old ≡ [] → RoundTrip bytes.now (meant pool.new) (records book.new) }
{
    book.load(bytes, pool, log)
}

/// Replays the record in a place of the book: a true one becomes own, another struck. Refused while a run is open, and
/// where there is no such record; the book is then as it was.
pub fn audit(at: usize, pool: &Pool, log: &Log, book: &mut Book) -> Result<Standing, Refusal>
    ensures { (fs : List ℕ) → Promised (on_audit at result) (world fs (meant pool.now) log.now book.old) (world fs (meant pool.now) log.now book.new) }
{
    book.audit(at, pool, log)
}

/// Opens a run of a script's lines: the log is emptied, and files and the pool's extent are noted. The ticket is live,
/// or blank with the refusal; all is then as it was.
pub fn begin<F: FileStore>(
    script: &Script,
    files: &F,
    pool: &Pool,
    log: &mut Log,
    book: &Book,
) -> Ticket
    ensures { Promised (on_begin (meaning script.now).commands (why_blank result)) (world (F.FileStore.map files.now) (meant pool.now) log.old book.now) (world (F.FileStore.map files.now) (meant pool.now) log.new book.now) }
{
    log.begin(script, files, pool, book)
}

/// One step of the open run: asks the policy once, and works on the line that it answers, which is skipped by its
/// record or makes one act. A refused step leaves all as it was, and the policy unasked.
pub fn step<F: FileStore, P: Policy>(
    ticket: &Ticket,
    policy: &mut P,
    files: &mut F,
    pool: &mut Pool,
    log: &mut Log,
    book: &Book,
) -> Result<Stepped, StepRefusal>
    ensures promise { StepPromised (why_blank ticket.now) (record { patience = P.Policy.patience policy.old; before = P.Policy.passes policy.old; after = P.Policy.passes policy.new }) result (world (F.FileStore.map files.old) (meant pool.old) log.old book.now) (world (F.FileStore.map files.new) (meant pool.new) log.new book.now) }
    ensures same { P.Policy.patience policy.new ≡ P.Policy.patience policy.old }
    ensures unasked { OnErr result (policy.new ≡ policy.old) }
{
    log.advance(ticket, policy, files, pool, book)
}

/// Ends a run. A stopped run is put back, and so is any run with the wish for it, and one that is to be kept before all
/// its lines have ended; else it is kept, and each line gives its own record. With a blank ticket, or where no run is
/// open, nothing changes.
pub fn close<F: FileStore>(
    ticket: Ticket,
    wish: Wish,
    files: &mut F,
    pool: &mut Pool,
    log: &mut Log,
    book: &mut Book,
) -> Result<Closed, CloseRefusal>
    ensures { ClosePromised (why_blank ticket) wish result (world (F.FileStore.map files.old) (meant pool.old) log.old book.old) (world (F.FileStore.map files.new) (meant pool.new) log.new book.new) }
{
    log.close(ticket, wish, files, pool, book)
}

/// Builds a script: begins, steps under the policy to the end of the run, and closes it with the wish to keep. If that
/// run stopped, a second one follows in script order.
pub fn build<F: FileStore, P: Policy>(
    script: &Script,
    policy: &mut P,
    files: &mut F,
    pool: &mut Pool,
    log: &mut Log,
    book: &mut Book,
) -> Result<Built, BuildRefusal>
    ensures promise { BuildPromised (meaning script.now).commands (P.Policy.patience policy.old) (P.Policy.passes policy.old) result (P.Policy.passes policy.new) (world (F.FileStore.map files.old) (meant pool.old) log.old book.old) (world (F.FileStore.map files.new) (meant pool.new) log.new book.new) }
    ensures same { P.Policy.patience policy.new ≡ P.Policy.patience policy.old }
{
    log.build(script, policy, files, pool, book)
}
