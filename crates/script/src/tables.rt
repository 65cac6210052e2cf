use crate::answer::Have;
use arrayvec::ArrayVec;
use model::Command;

mod add;
mod line;

/// What a script holds: the label of each file, empty where it has none, the starting contents with their files,
/// and the lines' commands.
#[derive(Drop)]
pub(crate) struct Tables<'t> {
    pub(crate) labels: [&'t [u8]; 64],
    pub(crate) haves: ArrayVec<Have<'t>, 64>,
    pub(crate) commands: ArrayVec<Command, 64>,
}
