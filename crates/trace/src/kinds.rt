ghost use Rattle.std.specs.Prelude.{◌≡◌};
ghost use Rattle.trace.specs.Format.{highest as highest_of, files_ok};

use model::{Command, Kind};

/// The highest number that the file in a place of a command may have; places count from 1.
pub fn highest(kind: Kind, place: usize) -> u8
    ensures { result ≡ highest_of kind place }
{
    if place <= kind.arity() { 63 } else { 0 }
}

// Kept: by the rules a command has four file numbers, of which those that its kind does not use are 0.
/// A command's files are at most 63, and 0 where its kind does not use them.
pub fn files_ok(command: Command) -> bool
    ensures { result ≡ files_ok command }
{
    let Command { kind, a, b, c, d } = command;
    a <= highest(kind, 1) && b <= highest(kind, 2) && c <= highest(kind, 3) && d <= highest(kind, 4)
}
