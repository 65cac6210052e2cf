ghost use Rattle.std.specs.Prelude.{◌≡◌, ℕ, ◌*◌, ◌≤◌, true, List, length, replicate, None};
ghost use Rattle.model.specs.Begin.{begun};
ghost use Rattle.model.specs.Contents.{Pool as PoolMeant, count as count_of};
ghost use Rattle.model.specs.Records.{Record as RecordMeant};
ghost use Rattle.model.specs.declared.run.LineState.TheVariants.{Waiting};
ghost use Rattle.script.specs.Scripts.{meaning};
ghost use Rattle.runner.specs.Views.{notes, log_places, world_with};

use super::Log;
use crate::run::Run;
use files::{FileStore, Table, copy_all};
use model::{Command, LineState};
use script::Script;

impl Run {
    /// An open run of a script's commands, from these files and a pool of so many contents.
    fn begun<F: FileStore>(script: &Script, files: &F, count: u16) -> Run
        ensures notes { notes result ≡ record { commands = (meaning script.now).commands; files = F.FileStore.map files.now; count = count; stop = None; states = replicate 64 Waiting } }
        ensures opened { result.opened ≡ true }
        ensures lines { result.lines ≡ length (meaning script.now).commands }
        ensures few { length (meaning script.now).commands ≤ 64 }
    {
        let commands = script.commands();
        let lines = commands.len();
        let mut copied = [Command::default(); 64];
        copied[0..lines].copy_from_slice(commands);
        let mut found = Table::new();
        copy_all(files, &mut found);
        Run {
            commands: copied,
            lines: lines as u8,
            files: found,
            count,
            stop: None,
            states: [LineState::Waiting; 64],
            opened: true,
        }
    }
}

impl<'a> Log<'a> {
    /// Opens a run: the log is emptied, and what begin found is noted.
    pub(crate) fn open<F: FileStore>(&mut self, script: &Script, files: &F, count: u16)
        requires { 17 * length (meaning script.now).commands ≤ log_places self.old }
        ensures few { length (meaning script.now).commands ≤ 64 }
        ensures world { (p : PoolMeant) (rs : List RecordMeant) (n : ℕ) → count ≡ count_of p → world_with (F.FileStore.map files.now) p self.new rs n ≡ begun (meaning script.now).commands (world_with (F.FileStore.map files.now) p self.old rs n) }
    {
        self.inner.entries.clear();
        self.inner.run = Run::begun(script, files, count);
    }
}
