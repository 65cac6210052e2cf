ghost use Rattle.std.specs.Prelude.{◌≡◌, ℕ, false, [], length};
ghost use Rattle.model.specs.Step.{left};
ghost use Rattle.policy.specs.Lines.{has};
ghost use Rattle.runner.specs.Views.{notes_of, entries_of, log_places, is_open};

use super::{Inner, Log};
use crate::run::Run;
use crate::states::has_ended;
use files::Table;
use lists::Lent;
use model::{Command, Entry, LineState, Stop};
use policy::LineSet;

impl Run {
    /// A run of no line, which is not open.
    fn none() -> Run
        ensures opened { result.opened ≡ false }
        ensures lines { result.lines ≡ 0 }
    {
        Run {
            commands: [Command::default(); 64],
            lines: 0,
            files: Table::new(),
            count: 0,
            stop: None,
            states: [LineState::Waiting; 64],
            opened: false,
        }
    }
}

impl<'a> Log<'a> {
    /// An empty log over what is lent, with no open run.
    pub fn new(entries: &'a mut [Entry]) -> Log<'a>
        ensures entries { entries_of result ≡ [] }
        ensures room { log_places result ≡ length entries.old }
        ensures shut { is_open result ≡ false }
    {
        Log {
            inner: Inner {
                entries: Lent::new(entries),
                run: Run::none(),
            },
        }
    }

    /// A run is open.
    pub fn is_open(&self) -> bool
        ensures { result ≡ is_open self.now }
    {
        self.inner.run.opened
    }

    // Kept: a run may have no stop; as an error it is told by the call that meets it.
    /// The stop of the run, if it met one.
    pub fn stop(&self) -> Option<Stop>
        ensures { result ≡ (notes_of self.now).stop }
    {
        self.inner.run.stop
    }

    /// The entries of the run, the oldest first.
    pub fn entries(&self) -> &[Entry]
        ensures { result.now ≡ entries_of self.now }
    {
        self.inner.entries.as_slice()
    }

    /// How many entries it can hold.
    pub fn places(&self) -> usize
        ensures { result ≡ log_places self.now }
    {
        self.inner.entries.room()
    }

    /// The lines that have not ended.
    pub fn left(&self) -> LineSet
        ensures { (k : ℕ) → has result k ≡ left (length (notes_of self.now).commands) (entries_of self.now) k }
    {
        let run = &self.inner.run;
        let mut set = LineSet::below(run.lines);
        // Kept: the number of the line is the index, and what is taken out of the set.
        for line in 0..64u8 {
            if has_ended(run.states[line as usize]) {
                set.remove(line);
            }
        }
        set
    }
}
