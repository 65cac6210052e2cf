ghost use Rattle.std.specs.Prelude.{◌≡◌, ◌≤◌, length};

use files::Table;
use model::{Command, LineState, Stop};

// Kept: a count, which is that of both tables and by which the facts of a log are said; a flag, since by the rules the
// notes of a run stay once it is closed.
/// What a log notes of its run: the commands copied in, the files and the pool's count as begin found them, the stop
/// if there is one, and the state of each line.
#[derive(Drop)]
pub(crate) struct Run {
    pub commands: [Command; 64],
    pub lines: u8,
    pub files: Table,
    pub count: u16,
    pub stop: Option<Stop>,
    pub states: [LineState; 64],
    pub opened: bool,
    ghost long: { length commands ≡ 64 },
    ghost wide: { length states ≡ 64 },
    ghost few: { lines ≤ 64 },
}
