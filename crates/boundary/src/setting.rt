/// How builds are to go: how often the second text is released, the places of pool, log and book, and who acts next.
///
/// The policies are: 1 the last-run policy, 2 the highest line first, 3 a list of wishes; any other number is script
/// order. With `image` the files are a directory image, else a table.
#[repr(C)]
#[derive(Clone, Copy, Debug, PartialEq, Eq)]
pub struct Setting {
    pub times: usize,
    pub places: usize,
    pub log: usize,
    pub book: usize,
    pub policy: u8,
    pub patience: u8,
    pub image: bool,
}
