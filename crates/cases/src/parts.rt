use pool::Pool;
use runner::{Book, Log, Ticket};

/// Pool, log and book.
#[derive(Drop)]
pub struct Parts<'a> {
    pub pool: Pool<'a>,
    pub log: Log<'a>,
    pub book: Book<'a>,
}

/// The ticket at hand, and one that waits; none of them is closed.
pub struct Tickets {
    pub last: Option<Ticket>,
    pub spare: Option<Ticket>,
}
