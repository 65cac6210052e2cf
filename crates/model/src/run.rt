ghost use Rattle.std.specs.Prelude.{◌≡◌};
ghost use Rattle.model.specs.Answers.{fault_refusal};

use crate::refusal::Refusal;

/// One act of a line, as the log notes it: it read or wrote this file, and the content has this number (0: the
/// file was absent).
#[derive(Clone, Copy, Debug, Default, PartialEq, Eq)]
pub struct Entry {
    pub line: u8,
    pub wrote: bool,
    pub file: u8,
    pub number: u16,
}

/// How two acts on one file are in an order that matters.
#[derive(Clone, Copy, Debug, PartialEq, Eq)]
pub enum HazardKind {
    /// A write after an earlier write.
    WriteWrite,
    /// A write after an earlier read.
    ReadWrite,
    /// A read after an earlier write by a higher line.
    SpeculativeWriteRead,
}

/// A new act met an earlier act on the same file.
#[derive(Clone, Copy, Debug, PartialEq, Eq)]
pub struct Hazard {
    pub kind: HazardKind,
    pub file: u8,
    pub earlier: Entry,
    pub later: Entry,
}

/// Why a line could not go on.
#[derive(Clone, Copy, Debug, PartialEq, Eq)]
pub enum Fault {
    /// It is to write more than 4,096 bytes.
    TooLong,
    /// The pool refuses what it is to write.
    NoRoom,
    /// Its act met an earlier one.
    Hazard(Hazard),
    /// It read a file that is absent.
    Absent,
    /// It read a list that breaks the rule of lists.
    BadList,
}

impl Fault {
    // Kept: a method and no `From`, since a hazard is lost.
    /// The refusal by which reports and programs tell it.
    pub fn refusal(&self) -> Refusal
        ensures { result ≡ fault_refusal self.now }
    {
        match self {
            Fault::TooLong => Refusal::WriteTooLong,
            Fault::NoRoom => Refusal::PoolFull,
            Fault::Hazard(_) => Refusal::HazardMet,
            Fault::Absent => Refusal::FileAbsent,
            Fault::BadList => Refusal::BadList,
        }
    }
}

/// The end of a run that could not go on: the line, and why.
#[derive(Clone, Copy, Debug, PartialEq, Eq)]
pub struct Stop {
    pub line: u8,
    pub fault: Fault,
}

/// How far a line has come.
#[derive(Clone, Copy, Debug, PartialEq, Eq)]
pub enum LineState {
    /// It has made no act.
    Waiting,
    /// It has reads left.
    Reading,
    /// It has made all its reads.
    Writing,
    /// It has made its write.
    Ended,
}
