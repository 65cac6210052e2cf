ghost use Rattle.std.specs.Prelude.{◌≡◌, Some, map};
ghost use Rattle.script.specs.Text.{file_line, have_line, command_line, verb_line, line_adds, words};
ghost use Rattle.script.specs.Views.{held, changed};

use crate::label::{file_of, files_of};
use crate::tables::Tables;
use crate::verb::{Verb, verb_of};
use crate::words::{is_plain, next_word, words_of};
use model::{Command, Kind, Refusal, file_number};

impl<'t> Tables<'t> {
    /// `file NN label`
    fn file_line(&mut self, args: &[&'t [u8]]) -> Result<(), Refusal>
        ensures { changed result self.new ≡ file_line (held self.old) (map (λ x. x.now) args.now) }
    {
        // Kept: `<[_; 2]>::try_from(args)` with a question mark says no more than the pattern.
        let [number, label] = args else {
            return Err(Refusal::BadTextLine);
        };
        let file = file_number(number).ok_or(Refusal::BadLabel)?;
        self.add_label(file, label)
    }

    /// `have label content`
    fn have_line(&mut self, args: &[&'t [u8]]) -> Result<(), Refusal>
        ensures { changed result self.new ≡ have_line (held self.old) (map (λ x. x.now) args.now) }
    {
        // Kept: a pattern, as in `file_line`.
        let [label, content] = args else {
            return Err(Refusal::BadTextLine);
        };
        let file = file_of(&self.labels, label).ok_or(Refusal::BadLabel)?;
        self.add_have(file, content)
    }

    /// A command and its labels.
    fn command_line(&mut self, kind: Kind, args: &[&'t [u8]]) -> Result<(), Refusal>
        ensures { changed result self.new ≡ command_line (held self.old) kind (map (λ x. x.now) args.now) }
    {
        if args.len() != kind.arity() {
            return Err(Refusal::BadTextLine);
        }
        let [a, b, c, d] = files_of(&self.labels, args).ok_or(Refusal::BadLabel)?;
        self.add_command(Command { kind, a, b, c, d })
    }

    /// Adds what a verb and the words after it say. Those of a comment are not looked for.
    fn verb_line(&mut self, verb: Verb, rest: &'t [u8]) -> Result<(), Refusal>
        ensures { changed result self.new ≡ verb_line (held self.old) (Some verb) (words rest.now) }
    {
        match verb {
            Verb::Comment => Ok(()),
            Verb::File => self.file_line(&words_of(rest)),
            Verb::Have => self.have_line(&words_of(rest)),
            Verb::Command(kind) => self.command_line(kind, &words_of(rest)),
        }
    }

    /// Adds what a text line says.
    pub(crate) fn add_line(&mut self, line: &'t [u8]) -> Result<(), Refusal>
        ensures { changed result self.new ≡ line_adds (held self.old) line.now }
    {
        if !is_plain(line) {
            return Err(Refusal::BadTextLine);
        }
        let Some(first) = next_word(line, 0) else {
            return Ok(());
        };
        let verb = verb_of(first.bytes).ok_or(Refusal::BadTextLine)?;
        self.verb_line(verb, &line[first.start + first.bytes.len()..])
    }
}
