use super::{Desk, script_of};
use crate::telling::tell_build;
use files::FileStore;
use model::Refusal;
use runner::lay;
use script::Script;
use std::io;
use std::io::Write;

impl<F: FileStore> Desk<'_, F> {
    /// Reads the text of the script and lays it.
    fn read_and_lay(&mut self) -> Result<(), Refusal> {
        let mut script = Script::new();
        if let Err(refused) = script.read(self.text.as_slice()) {
            return Err(refused.refusal);
        }
        let parts = &mut self.parts;
        lay(&script, &mut self.files, &mut parts.pool, &parts.log)
    }

    /// Lays a script, the one at hand if no text is given.
    pub fn lay(&mut self, argument: &str) -> io::Result<bool> {
        if !argument.is_empty() {
            self.text = self.bytes_of(argument)?;
        }
        let answer = self.read_and_lay();
        self.tell_done(answer)
    }

    /// Tells what the last build answered.
    fn tell_outcome(&mut self) -> io::Result<()> {
        let script = script_of(self.text.as_slice());
        let parts = &self.parts;
        tell_build(
            &mut self.out,
            self.outcome,
            &script,
            &self.files,
            &parts.pool,
        )
    }

    /// Builds the script at hand. Answers whether that is not kept.
    pub fn build(&mut self, argument: &str) -> io::Result<bool> {
        self.ask(argument);
        let script = script_of(self.text.as_slice());
        self.outcome = self.policy.build(&script, &mut self.files, &mut self.parts);
        self.tell_outcome()?;
        Ok(self.outcome.is_err())
    }

    /// Lays and builds a script in script order. It is told only where that is not kept.
    pub fn build_earlier(&mut self, argument: &str) -> io::Result<bool> {
        if self.lay(argument)? {
            return Ok(true);
        }
        let len = self.out.len();
        let is_refused = self.build("order")?;
        if !is_refused {
            self.out.truncate(len);
        }
        Ok(is_refused)
    }
}
