/// Where a content lies in the lent bytes.
#[derive(Clone, Copy, Debug, PartialEq, Eq)]
pub struct Place {
    pub(crate) start: usize,
    pub(crate) len: usize,
}

impl Place {
    /// What a place may hold before it is lent.
    pub const NOWHERE: Place = Place { start: 0, len: 0 };
}
