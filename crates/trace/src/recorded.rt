ghost use Rattle.std.specs.Prelude.{◌≡◌, map};
ghost use Rattle.model.specs.Records.{said};
ghost use Rattle.trace.specs.Format.{known_command};

use model::{Command, Record, same_command};

// Kept: the test of `place_of` of `model`, in the word of the format.
/// A record of the command is among others.
pub fn has_command(list: &[Record], command: Command) -> bool
    ensures { result ≡ known_command command (map (λ s. s.command) (map said list.now)) }
{
    list.iter().any(|rec| same_command(command, rec.command))
}
