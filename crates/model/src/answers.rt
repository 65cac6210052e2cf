ghost use Rattle.std.specs.Prelude.{◌≡◌, Some, decimal};
ghost use Rattle.model.specs.Answers.{unstepped, unclosed, unbuilt};
ghost use Rattle.model.specs.Numbers.{number_of};

use crate::refusal::Refusal;
use crate::run::Stop;
use std::error::Error;
use std::fmt;

/// What a step did: the line that it worked on, whether it skipped the line by a record, and the stop if it met
/// one.
#[derive(Clone, Copy, Debug, PartialEq, Eq)]
pub struct Stepped {
    pub line: u8,
    pub skipped: bool,
    pub stop: Option<Stop>,
}

/// Why a step did nothing.
#[derive(Clone, Copy, Debug, PartialEq, Eq)]
pub enum StepRefusal {
    /// The ticket is blank, the log has no open run, or all lines have ended.
    By(Refusal),
    /// The run has stopped, and this is its stop.
    Stopped(Stop),
}

impl From<Refusal> for StepRefusal {
    ghost use Rattle.std.specs.Prelude.{◌≡◌};
    ghost use Rattle.model.specs.declared.answers.StepRefusal.TheVariants.{By};

    ghost from_gives = { λ refusal why. why ≡ By refusal };

    fn from(refusal: Refusal) -> StepRefusal {
        StepRefusal::By(refusal)
    }
}

/// It is told by the number of its refusal.
impl fmt::Display for StepRefusal {
    ghost output = { λ why. Some (decimal (number_of (unstepped why))) };

    fn fmt<W: fmt::Write>(&self, f: &mut fmt::Formatter<W>) -> fmt::Result {
        let unstepped = self.refusal();
        write!(f, "{unstepped}")
    }
}

impl Error for StepRefusal {}

impl StepRefusal {
    // Kept: a method and no `From`, since the stop is lost.
    /// The refusal by which it is told.
    pub fn refusal(&self) -> Refusal
        ensures { result ≡ unstepped self.now }
    {
        match self {
            StepRefusal::By(refusal) => *refusal,
            StepRefusal::Stopped(_) => Refusal::RunStopped,
        }
    }
}

/// What a run is to come to when it is closed.
#[derive(Clone, Copy, Debug, PartialEq, Eq)]
pub enum Wish {
    Keep,
    PutBack,
}

/// What a closed run came to.
#[derive(Clone, Copy, Debug, PartialEq, Eq)]
pub enum Closed {
    /// Files and pool stay, and each line gave an own record.
    Kept,
    /// Files and pool are as begin found them.
    PutBack,
}

// Kept: a type of its own beside StepRefusal, since the stop is told by another number.
/// Why a run was not closed as wished.
#[derive(Clone, Copy, Debug, PartialEq, Eq)]
pub enum CloseRefusal {
    /// The ticket is blank or the log has no open run, and nothing changed; or the run was to be kept before its
    /// end, and was put back.
    By(Refusal),
    /// The run had stopped, and was put back.
    Stopped(Stop),
}

/// It is told by the number of its refusal.
impl fmt::Display for CloseRefusal {
    ghost output = { λ why. Some (decimal (number_of (unclosed why))) };

    fn fmt<W: fmt::Write>(&self, f: &mut fmt::Formatter<W>) -> fmt::Result {
        let unclosed = self.refusal();
        write!(f, "{unclosed}")
    }
}

impl Error for CloseRefusal {}

impl CloseRefusal {
    // Kept: a method and no `From`, since the stop is lost.
    /// The refusal by which it is told: a stop has the refusal of its fault.
    pub fn refusal(&self) -> Refusal
        ensures { result ≡ unclosed self.now }
    {
        match self {
            CloseRefusal::By(refusal) => *refusal,
            CloseRefusal::Stopped(stop) => stop.fault.refusal(),
        }
    }
}

/// What the runs of a build did: why the first stopped, if it did, and how many lines were executed and skipped
/// in all its runs.
#[derive(Clone, Copy, Debug, PartialEq, Eq)]
pub struct Built {
    pub first: Option<Stop>,
    pub executed: u8,
    pub skipped: u8,
}

/// Why a build was not kept.
#[derive(Clone, Copy, Debug, PartialEq, Eq)]
pub enum BuildRefusal {
    /// Its begin was refused, and nothing changed.
    By(Refusal),
    /// Its last run stopped, and was put back; and what its runs did.
    Stopped(Stop, Built),
}

/// It is told by the number of its refusal.
impl fmt::Display for BuildRefusal {
    ghost output = { λ why. Some (decimal (number_of (unbuilt why))) };

    fn fmt<W: fmt::Write>(&self, f: &mut fmt::Formatter<W>) -> fmt::Result {
        let unbuilt = self.refusal();
        write!(f, "{unbuilt}")
    }
}

impl Error for BuildRefusal {}

impl BuildRefusal {
    // Kept: a method and no `From`, since the stop is lost.
    /// The refusal by which it is told: a stop has the refusal of its fault.
    pub fn refusal(&self) -> Refusal
        ensures { result ≡ unbuilt self.now }
    {
        match self {
            BuildRefusal::By(refusal) => *refusal,
            BuildRefusal::Stopped(stop, _) => stop.fault.refusal(),
        }
    }
}
