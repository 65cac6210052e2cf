ghost use Rattle.std.specs.Prelude.{◌≡◌, None, OnErr};
ghost use Rattle.model.specs.Promise.{StepPromised};
ghost use Rattle.pool.specs.Contents.{meant};
ghost use Rattle.runner.specs.Ends.{Begun, Counted, Over};
ghost use Rattle.runner.specs.Tickets.{why_blank};
ghost use Rattle.runner.specs.Views.{world};

// Kept throughout: files, pool, log and book are parameters of their own, each borrowed by `&` where it is only read.

use super::Log;
use crate::book::Book;
use crate::counts::Counts;
use crate::ticket::Ticket;
use files::FileStore;
use model::{Refusal, StepRefusal, Stepped};
use policy::Policy;
use pool::Pool;

impl<'a> Log<'a> {
    /// One step of the open run: asks the policy once for a line of those that are left, and works on it. Refused,
    /// with nothing changed and the policy unasked, where the ticket is blank, no run is open, the run has stopped, or
    /// all its lines have ended.
    pub(crate) fn advance<F: FileStore, P: Policy>(
        &mut self,
        ticket: &Ticket,
        policy: &mut P,
        files: &mut F,
        pool: &mut Pool,
        book: &Book,
    ) -> Result<Stepped, StepRefusal>
        ensures promise { StepPromised (why_blank ticket.now) (record { patience = P.Policy.patience policy.old; before = P.Policy.passes policy.old; after = P.Policy.passes policy.new }) result (world (F.FileStore.map files.old) (meant pool.old) self.old book.now) (world (F.FileStore.map files.new) (meant pool.new) self.new book.now) }
        ensures same { P.Policy.patience policy.new ≡ P.Policy.patience policy.old }
        ensures unasked { OnErr result (policy.new ≡ policy.old) }
    {
        // Kept: a blank ticket and a stop are an `Option` each, which `?` would hand on as none.
        if let Some(refusal) = ticket.refusal() {
            return Err(StepRefusal::By(refusal));
        }
        if !self.is_open() {
            return Err(StepRefusal::By(Refusal::NoRun));
        }
        if let Some(stop) = self.stop() {
            return Err(StepRefusal::Stopped(stop));
        }
        let left = self.left();
        let front = left.lowest().ok_or(Refusal::LinesEnded)?;
        let line = policy.ask(&left, front);
        Ok(self.work(line, files, pool, book))
    }

    /// Steps the run that was just begun until it has stopped or all its lines have ended, and tells how many lines
    /// that executed and skipped.
    pub(crate) fn run_to_end<F: FileStore, P: Policy>(
        &mut self,
        ticket: &Ticket,
        policy: &mut P,
        files: &mut F,
        pool: &mut Pool,
        book: &Book,
    ) -> Counts
        requires live { why_blank ticket.now ≡ None }
        requires begun { Begun (world (F.FileStore.map files.old) (meant pool.old) self.old book.now) }
        ensures steps { Counted (P.Policy.patience policy.old) (P.Policy.passes policy.old) (world (F.FileStore.map files.old) (meant pool.old) self.old book.now) (P.Policy.passes policy.new) (world (F.FileStore.map files.new) (meant pool.new) self.new book.now) result.executed result.skipped }
        ensures over { Over (world (F.FileStore.map files.new) (meant pool.new) self.new book.now) }
        ensures same { P.Policy.patience policy.new ≡ P.Policy.patience policy.old }
    {
        let mut counts = Counts {
            executed: 0,
            skipped: 0,
        };
        // Kept: the states are read before each step, and the step that is refused ends the run.
        loop {
            let states = self.inner.run.states;
            let Ok(stepped) = self.advance(ticket, policy, files, pool, book) else {
                return counts;
            };
            counts.count(stepped, states[stepped.line as usize]);
        }
    }
}
