mod command;
mod fields;

/// The bytes of a file that are still to be read.
#[derive(Drop)]
pub struct Input<'t> {
    pub rest: &'t [u8],
}
