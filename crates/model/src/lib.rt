//! The words that every crate of the runner shares, what they mean, and the promise that the runner keeps.
//!
//! The meaning stands in `specs/`: what a line does, what an act is, script order, what each call does to the
//! world, and the promises over every past. Each function here whose name ends in `_stand` or `_stands` says in its
//! contract that such a promise is proved.
#![tactic(auto)]

ghost use Rattle.model.specs.Promise.{KeptAsScriptOrder, PutBackAsFound, BuildAsScriptOrder, StoppedBuildPutsBack, BeginsAgain, BeginsAnywhere, NoLineStarves, NoLineStarvesInBuilds, OwnRecordsTrue, OneRecordACommand, PoolInRoom};
ghost use Rattle.model.specs.Laws.{ScriptOrderAppends, LinesCounted, EachLineCounted, FrontBuildCounted, StatesFollow, KeptLinesRecorded, RoomIsLeft, RoomIsKept, LogHasRoom};

mod answers;
mod command;
mod digits;
mod fairness;
mod record;
mod refusal;
mod run;

pub use answers::{BuildRefusal, Built, CloseRefusal, Closed, StepRefusal, Stepped, Wish};
pub use command::{Command, Kind, UnknownKind, is_among, same_command};
pub use digits::file_number;
pub use fairness::asks_stand;
pub use record::{Record, Standing, Use, place_of, record_of};
pub use refusal::Refusal;
pub use run::{Entry, Fault, Hazard, HazardKind, LineState, Stop};

/// What is kept is what script order leaves, after any calls; what is not kept is put back; and script order of two
/// scripts in a row is that of the one and then of the other.
pub fn order_stands()
    ensures keeps { KeptAsScriptOrder }
    ensures puts_back { PutBackAsFound }
    ensures appends { ScriptOrderAppends }
{}

/// A build is kept exactly where script order does not stop, and else stops as it does.
pub fn build_stands()
    ensures order { BuildAsScriptOrder }
    ensures puts_back { StoppedBuildPutsBack }
    ensures again { BeginsAgain }
    ensures anywhere { BeginsAnywhere }
{}

/// The lines that a run counts are those that it executed and skipped; a kept build in script order, from a book
/// without records, executes each line once.
pub fn counts_stand()
    ensures run { LinesCounted }
    ensures kept { EachLineCounted }
    ensures front { FrontBuildCounted }
{}

/// No line waits for long once it is the front.
pub fn fronts_stand()
    ensures any { NoLineStarves }
    ensures build { NoLineStarvesInBuilds }
{}

/// Own records are true, the book has at most one record of a command, and a kept run leaves the record of each line.
pub fn records_stand()
    ensures own { OwnRecordsTrue }
    ensures unique { OneRecordACommand }
    ensures lines { KeptLinesRecorded }
{}

/// The table of line states follows from the entries.
pub fn states_stand()
    ensures { StatesFollow }
{}

/// Pool and log have the room that they need.
pub fn room_stands()
    ensures pool { PoolInRoom }
    ensures left { RoomIsLeft }
    ensures kept { RoomIsKept }
    ensures log { LogHasRoom }
{}
