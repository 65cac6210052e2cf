ghost use Rattle.runner.specs.Inner.{Roomy, Inside, Few, Follows};

use crate::run::Run;
use lists::Lent;
use model::Entry;

mod beginning;
mod building;
mod closing;
mod laying;
mod methods;
mod opening;
mod stepping;
mod working;

/// The entries and the run, without what is always so of them.
#[derive(Drop)]
pub(crate) struct Inner<'a> {
    pub entries: Lent<'a, Entry>,
    pub run: Run,
}

/// The log: the entries of a run, over lent places, and the run itself.
///
/// A run has at least 17 places for each line, and no line has more than 17 entries, so that a step always finds
/// room.
#[derive(Drop)]
pub struct Log<'a> {
    inner: Inner<'a>,
    ghost roomy: { Roomy inner },
    ghost inside: { Inside inner },
    ghost few: { Few inner },
    ghost follows: { Follows inner },
}
