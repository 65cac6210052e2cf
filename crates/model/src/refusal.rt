ghost use Rattle.std.specs.Prelude.{◌≡◌, Some, decimal};
ghost use Rattle.model.specs.Numbers.{number_of};

use std::error::Error;
use std::fmt;

/// Why a call is refused or a run stops. Each case has the number by which reports and programs tell it.
#[derive(Clone, Copy, Debug, PartialEq, Eq)]
pub enum Refusal {
    /// A script's text is longer than 16,384 bytes.
    TextTooLong = 1,
    /// A text line has a byte that no word may have, an unknown first word, or too few or too many words.
    BadTextLine = 2,
    /// A file number or a label breaks its rule, is given twice, or is used before it is given.
    BadLabel = 3,
    /// A script has a 65th line or a 65th `have`.
    ScriptFull = 4,
    /// A `have` gives a content of more than 4,096 bytes.
    HaveTooLong = 5,
    /// A directory image has another length than 193 bytes.
    ImageSize = 6,
    /// The bytes of a directory image break its layout.
    ImageLayout = 7,
    /// A trace file ends early, or goes on after its end.
    TraceLength = 11,
    /// A trace file breaks a rule of its format.
    TraceRule = 12,
    /// The pool or the book is too small for what a trace file holds.
    NoRoomToLoad = 13,
    /// The buffer is shorter than the trace file that is to be saved.
    SaveBufferShort = 14,
    /// The book has no record at that place.
    NoSuchRecord = 15,
    /// The buffer for a report has fewer than 2,048 bytes.
    ReportBufferShort = 16,
    /// A run is open.
    RunOpen = 20,
    /// The pool refuses a starting content.
    NoRoomToLay = 21,
    /// The log has fewer than 17 places for each line.
    LogTooSmall = 22,
    /// The book has fewer than 64 places.
    BookTooSmall = 23,
    /// A file has a content number that is not in the pool.
    UnknownContent = 24,
    /// The run has stopped.
    RunStopped = 26,
    /// All lines have ended.
    LinesEnded = 27,
    /// A run is to be kept before all its lines have ended.
    LinesLeft = 28,
    /// The log has no open run.
    NoRun = 29,
    /// A line is to write more than 4,096 bytes.
    WriteTooLong = 31,
    /// The pool refuses the content that a line is to write.
    PoolFull = 32,
    /// An act met an earlier act in an order that matters.
    HazardMet = 33,
    /// A line read a file that is absent.
    FileAbsent = 34,
    /// A gather read a list that breaks the rule of lists.
    BadList = 35,
}

impl Refusal {
    // Kept: `as` under a name of its own, which says what the number is.
    /// The number of the refusal.
    pub fn number(self) -> u8
        ensures { result ≡ number_of self }
    {
        self as u8
    }
}

/// A refusal is told by its number.
impl fmt::Display for Refusal {
    ghost output = { λ refusal. Some (decimal (number_of refusal)) };

    fn fmt<W: fmt::Write>(&self, f: &mut fmt::Formatter<W>) -> fmt::Result {
        let number = self.number();
        write!(f, "{number}")
    }
}

impl Error for Refusal {}
