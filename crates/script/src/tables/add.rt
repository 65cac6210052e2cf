ghost use Rattle.std.specs.Prelude.{◌≡◌, ◌<◌};
ghost use Rattle.script.specs.Text.{nothing, add_label, add_have, add_command};
ghost use Rattle.script.specs.Views.{held, changed};

use crate::answer::Have;
use crate::label::{file_of, is_label};
use crate::tables::Tables;
use arrayvec::ArrayVec;
use model::{Command, Refusal};

impl<'t> Tables<'t> {
    /// Tables that hold nothing.
    pub(crate) fn new() -> Tables<'t>
        ensures { held result ≡ nothing }
    {
        Tables {
            labels: [&[]; 64],
            haves: ArrayVec::new(),
            commands: ArrayVec::new(),
        }
    }

    /// Empties the tables in place: new ones would have all their blanks made.
    pub(crate) fn clear(&mut self)
        ensures { held self.new ≡ nothing }
    {
        self.labels = [&[]; 64];
        self.haves.clear();
        self.commands.clear();
    }

    /// Gives a file its label.
    pub(crate) fn add_label(&mut self, number: u8, label: &'t [u8]) -> Result<(), Refusal>
        requires { number < 64 }
        ensures { changed result self.new ≡ add_label (held self.old) number label.now }
    {
        let at = number as usize;
        if !is_label(label)
            || !self.labels[at].is_empty()
            || file_of(&self.labels, label).is_some()
        {
            return Err(Refusal::BadLabel);
        }
        self.labels[at] = label;
        Ok(())
    }

    /// Adds a starting content.
    pub(crate) fn add_have(&mut self, file: u8, content: &'t [u8]) -> Result<(), Refusal>
        ensures { changed result self.new ≡ add_have (held self.old) file content.now }
    {
        if content.len() > 4096 {
            return Err(Refusal::HaveTooLong);
        }
        self.haves
            .try_push(Have { file, content })
            .map_err(|_| Refusal::ScriptFull)
    }

    /// Adds a line.
    pub(crate) fn add_command(&mut self, command: Command) -> Result<(), Refusal>
        ensures { changed result self.new ≡ add_command (held self.old) command }
    {
        self.commands
            .try_push(command)
            .map_err(|_| Refusal::ScriptFull)
    }
}
