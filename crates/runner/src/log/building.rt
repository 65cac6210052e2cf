ghost use Rattle.std.specs.Prelude.{◌≡◌, ◌+◌, ◌≤◌, List, None};
ghost use Rattle.model.specs.Build.{answer};
ghost use Rattle.model.specs.Calls.{Did, on_begin};
ghost use Rattle.model.specs.Promise.{BuildPromised};
ghost use Rattle.model.specs.World.{World};
ghost use Rattle.model.specs.declared.command.Command.{Command as CommandMeant};
ghost use Rattle.pool.specs.Contents.{meant};
ghost use Rattle.script.specs.Scripts.{meaning};
ghost use Rattle.runner.specs.Ends.{Begun, WholeRun, stop_told};
ghost use Rattle.runner.specs.Tickets.{why_blank};
ghost use Rattle.runner.specs.Views.{world};

// Kept throughout: files, pool, log and book are parameters of their own, each borrowed by `&` where it is only read.

use super::Log;
use crate::book::Book;
use crate::counts::Counts;
use crate::ticket::Ticket;
use files::FileStore;
use model::{BuildRefusal, Built, CloseRefusal, Closed, Stop, Wish};
use policy::{Policy, ScriptOrder};
use pool::Pool;
use script::Script;

/// What a whole run came to: its stop, if it met one, and the lines that it executed and skipped.
#[derive(Clone, Copy, Debug, PartialEq, Eq)]
struct Ran {
    stop: Option<Stop>,
    counts: Counts,
}

// Kept: a stop is looked for in the answer of a close, and may not be there.
/// The stop that a close told.
fn stop_told(end: Result<Closed, CloseRefusal>) -> Option<Stop>
    ensures { result ≡ stop_told end }
{
    match end {
        Err(CloseRefusal::Stopped(stop)) => Some(stop),
        _ => None,
    }
}

/// The answer of a build: how its last run ended, and what its runs did.
fn answer(stop: Option<Stop>, built: Built) -> Result<Built, BuildRefusal>
    ensures { result ≡ answer stop built }
{
    match stop {
        None => Ok(built),
        Some(stop) => Err(BuildRefusal::Stopped(stop, built)),
    }
}

impl<'a> Log<'a> {
    /// Steps the run that was just begun to its end, and closes it with the wish to keep.
    fn run_whole<F: FileStore, P: Policy>(
        &mut self,
        ticket: Ticket,
        policy: &mut P,
        files: &mut F,
        pool: &mut Pool,
        book: &mut Book,
    ) -> Ran
        requires live { why_blank ticket ≡ None }
        requires begun { Begun (world (F.FileStore.map files.old) (meant pool.old) self.old book.old) }
        ensures run { (cs : List CommandMeant) (u : World) → Did (on_begin cs None) u (world (F.FileStore.map files.old) (meant pool.old) self.old book.old) → WholeRun cs (P.Policy.patience policy.old) (P.Policy.passes policy.old) result.stop u (P.Policy.passes policy.new) (world (F.FileStore.map files.new) (meant pool.new) self.new book.new) result.counts.executed result.counts.skipped }
        ensures few { result.counts.executed + result.counts.skipped ≤ 64 }
        ensures same { P.Policy.patience policy.new ≡ P.Policy.patience policy.old }
    {
        let counts = self.run_to_end(&ticket, policy, files, pool, book);
        let end = self.close(ticket, Wish::Keep, files, pool, book);
        Ran {
            stop: stop_told(end),
            counts,
        }
    }

    /// One run under the policy and, where that stops, a second one in script order.
    pub(crate) fn build<F: FileStore, P: Policy>(
        &mut self,
        script: &Script,
        policy: &mut P,
        files: &mut F,
        pool: &mut Pool,
        book: &mut Book,
    ) -> Result<Built, BuildRefusal>
        ensures promise { BuildPromised (meaning script.now).commands (P.Policy.patience policy.old) (P.Policy.passes policy.old) result (P.Policy.passes policy.new) (world (F.FileStore.map files.old) (meant pool.old) self.old book.old) (world (F.FileStore.map files.new) (meant pool.new) self.new book.new) }
        ensures same { P.Policy.patience policy.new ≡ P.Policy.patience policy.old }
    {
        let ticket = self.begin(script, files, pool, book);
        if let Some(refusal) = ticket.refusal() {
            let _ = ticket.spend();
            return Err(BuildRefusal::By(refusal));
        }
        let first = self.run_whole(ticket, policy, files, pool, book);
        let Some(stop) = first.stop else {
            return Ok(Built {
                first: None,
                executed: first.counts.executed,
                skipped: first.counts.skipped,
            });
        };
        let again = self.begin(script, files, pool, book);
        let second = self.run_whole(again, &mut ScriptOrder, files, pool, book);
        // Kept: `Built` is public, and `Counts` is not.
        let built = Built {
            first: Some(stop),
            executed: first.counts.executed + second.counts.executed,
            skipped: first.counts.skipped + second.counts.skipped,
        };
        answer(second.stop, built)
    }
}
