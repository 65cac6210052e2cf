ghost use Rattle.std.specs.Prelude.{◌≡◌, ◌<◌, ◌≤◌, [], map, length, All, IfSome, OnErr, slice_index_or};
ghost use Rattle.std.specs.Option.{option_map};
ghost use Rattle.std.specs.List.{slice_get};
ghost use Rattle.script.specs.Scripts.{meaning, answered};
ghost use Rattle.script.specs.Text.{nothing, reading};
ghost use Rattle.script.specs.Views.{start_of};

use super::Script;
use crate::answer::{Have, Refused};
use crate::reading::read;
use crate::tables::Tables;
use model::Command;

impl<'t> Script<'t> {
    /// A script that says nothing.
    pub fn new() -> Script<'t>
        ensures { meaning result ≡ nothing }
    {
        Script {
            tables: Tables::new(),
        }
    }

    // Kept: it fills the script that a caller has, so that there is one whatever is read; a refused text leaves it
    // empty.
    /// Reads a text in place of what the script said; a refused text leaves an empty script.
    pub fn read(&mut self, text: &'t [u8]) -> Result<(), Refused>
        ensures value { answered result self.new ≡ reading text.now }
        ensures emptied { OnErr result (meaning self.new ≡ nothing) }
    {
        // Kept: no question mark, since a refusal has to empty the script; a text that is taken replaces it whole.
        match read(text) {
            Ok(tables) => {
                self.tables = tables;
                Ok(())
            }
            Err(refused) => {
                self.tables.clear();
                Err(refused)
            }
        }
    }

    // Kept: by the rules a label has one byte at least, and an empty one says that there is none, as in a report.
    /// The label of a file, empty where it has none.
    pub fn label(&self, file: u8) -> &'t [u8]
        ensures value { result.now ≡ slice_index_or (meaning self.now).labels file [] }
        ensures short { length result.now ≤ 16 }
    {
        self.tables
            .labels
            .get(file as usize)
            .copied()
            .unwrap_or(&[])
    }

    // Kept: this and `have` are public, and edits turn them; `starts` is the form for new code.
    /// How many starting contents there are.
    pub fn haves(&self) -> usize
        ensures value { result ≡ length (meaning self.now).haves }
        ensures few { result ≤ 64 }
    {
        self.tables.haves.len()
    }

    /// A starting content, from 0 in the order of the text.
    pub fn have(&self, i: usize) -> Option<Have<'t>>
        ensures value { option_map start_of result ≡ slice_get (meaning self.now).haves i }
        ensures fits { IfSome result (λ h. (h.file < 64) × (length h.content.now ≤ 4096)) }
    {
        self.tables.haves.get(i).copied()
    }

    /// The starting contents, in the order of the text.
    pub fn starts(&self) -> &[Have<'t>]
        ensures value { map start_of result.now ≡ (meaning self.now).haves }
        ensures few { length result.now ≤ 64 }
        ensures fit { All (λ h. (h.file < 64) × (length h.content.now ≤ 4096)) result.now }
    {
        self.tables.haves.as_slice()
    }

    /// The lines' commands, in the order of the text.
    pub fn commands(&self) -> &[Command]
        ensures value { result.now ≡ (meaning self.now).commands }
        ensures few { length result.now ≤ 64 }
    {
        self.tables.commands.as_slice()
    }
}
