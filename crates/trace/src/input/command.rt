ghost use Rattle.std.specs.Prelude.{◌≡◌};
ghost use Rattle.trace.specs.Format.{a_kind, a_command};
ghost use Rattle.trace.specs.Told.{left, plain};

use crate::input::Input;
use crate::kinds::highest;
use model::{Command, Kind, Refusal, is_among};

impl<'t> Input<'t> {
    fn kind(&mut self) -> Result<Kind, Refusal>
        ensures { plain result self.new ≡ a_kind (left self.old) }
    {
        let byte = self.byte()?;
        Kind::try_from(byte).map_err(|_| Refusal::TraceRule)
    }

    /// A command that differs from the earlier ones.
    pub fn command(&mut self, earlier: &[Command]) -> Result<Command, Refusal>
        ensures { plain result self.new ≡ a_command earlier.now (left self.old) }
    {
        let kind = self.kind()?;
        let a = self.file(highest(kind, 1))?;
        let b = self.file(highest(kind, 2))?;
        let c = self.file(highest(kind, 3))?;
        let d = self.file(highest(kind, 4))?;
        let command = Command { kind, a, b, c, d };
        if is_among(earlier, command) {
            return Err(Refusal::TraceRule);
        }
        Ok(command)
    }
}
