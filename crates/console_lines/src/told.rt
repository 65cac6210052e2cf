ghost use Rattle.std.specs.Prelude.{◌≡◌, Some};
ghost use Rattle.report.specs.Report.{kind_word};
ghost use Rattle.console_lines.specs.Told.{standing_word};

use model::{Built, Command, Entry, Fault, Hazard, HazardKind, Standing, Stepped, Stop, Use};
use std::fmt;

/// A file, told in two digits.
#[derive(Clone, Copy)]
struct FileWord(u8);

impl fmt::Display for FileWord {
    ghost use Rattle.console_lines.specs.Told.{file_word};

    ghost output = { λ f. Some (file_word f.0) };

    fn fmt<W: fmt::Write>(&self, f: &mut fmt::Formatter<W>) -> fmt::Result {
        let tens = self.0 / 10;
        let units = self.0 % 10;
        write!(f, "{tens}{units}")
    }
}

/// Two numbers.
#[derive(Clone, Copy)]
struct PairWords(u16, u16);

impl fmt::Display for PairWords {
    ghost use Rattle.console_lines.specs.Told.{pair_words};

    ghost output = { λ p. Some (pair_words p.0 p.1) };

    fn fmt<W: fmt::Write>(&self, f: &mut fmt::Formatter<W>) -> fmt::Result {
        let PairWords(first, second) = *self;
        write!(f, "{first} {second}")
    }
}

/// The name of a hazard.
fn kind_word(kind: HazardKind) -> &'static str
    ensures { result.now ≡ kind_word kind }
{
    match kind {
        HazardKind::WriteWrite => "write-write",
        HazardKind::ReadWrite => "read-write",
        HazardKind::SpeculativeWriteRead => "speculative-write-read",
    }
}

/// A hazard: its kind, its file, the lines of its entries, and their contents.
#[derive(Clone, Copy)]
struct HazardWords(Hazard);

impl fmt::Display for HazardWords {
    ghost use Rattle.console_lines.specs.Told.{hazard_words};

    ghost output = { λ h. Some (hazard_words h.0) };

    fn fmt<W: fmt::Write>(&self, f: &mut fmt::Formatter<W>) -> fmt::Result {
        let kind = kind_word(self.0.kind);
        let file = FileWord(self.0.file);
        let Hazard { earlier, later, .. } = self.0;
        let lines = PairWords(u16::from(earlier.line), u16::from(later.line));
        let numbers = PairWords(earlier.number, later.number);
        write!(f, "{kind} {file} {lines} {numbers}")
    }
}

/// A stop.
#[derive(Clone, Copy)]
pub struct StopWords(pub Stop);

impl fmt::Display for StopWords {
    ghost use Rattle.console_lines.specs.Told.{stop_words};

    ghost output = { λ s. Some (stop_words s.0) };

    fn fmt<W: fmt::Write>(&self, f: &mut fmt::Formatter<W>) -> fmt::Result {
        let Stop { line, fault } = self.0;
        let refusal = fault.refusal();
        match fault {
            Fault::Hazard(hazard) => {
                let hazard = HazardWords(hazard);
                write!(f, "stopped {refusal} {hazard}")
            }
            Fault::TooLong | Fault::NoRoom | Fault::Absent | Fault::BadList => {
                write!(f, "stopped {refusal} {line}")
            }
        }
    }
}

/// What a step did.
#[derive(Clone, Copy)]
pub struct StepWords(pub Stepped);

impl fmt::Display for StepWords {
    ghost use Rattle.console_lines.specs.Told.{step_words};

    ghost output = { λ s. Some (step_words s.0) };

    fn fmt<W: fmt::Write>(&self, f: &mut fmt::Formatter<W>) -> fmt::Result {
        let Stepped {
            line,
            skipped,
            stop,
        } = self.0;
        let word = if skipped { "skip" } else { "act" };
        match stop {
            Some(stop) => {
                let stop = StopWords(stop);
                write!(f, "{word} {line} {stop}")
            }
            None => write!(f, "{word} {line}"),
        }
    }
}

/// How many lines the runs of a build executed and skipped.
#[derive(Clone, Copy)]
struct CountWords(Built);

impl fmt::Display for CountWords {
    ghost use Rattle.console_lines.specs.Told.{count_words};

    ghost output = { λ b. Some (count_words b.0) };

    fn fmt<W: fmt::Write>(&self, f: &mut fmt::Formatter<W>) -> fmt::Result {
        let Built {
            executed,
            skipped,
            ..
        } = self.0;
        write!(f, "executed {executed} skipped {skipped}")
    }
}

/// What the runs of a build did.
#[derive(Clone, Copy)]
pub struct BuiltWords(pub Built);

impl fmt::Display for BuiltWords {
    ghost use Rattle.console_lines.specs.Told.{built_words};

    ghost output = { λ b. Some (built_words b.0) };

    fn fmt<W: fmt::Write>(&self, f: &mut fmt::Formatter<W>) -> fmt::Result {
        let counts = CountWords(self.0);
        match self.0.first {
            Some(stop) => {
                let stop = StopWords(stop);
                write!(f, "{counts} first {stop}")
            }
            None => write!(f, "{counts}"),
        }
    }
}

/// An entry of the log.
#[derive(Clone, Copy)]
pub struct EntryWords(pub Entry);

impl fmt::Display for EntryWords {
    ghost use Rattle.console_lines.specs.Told.{entry_words};

    ghost output = { λ e. Some (entry_words e.0) };

    fn fmt<W: fmt::Write>(&self, f: &mut fmt::Formatter<W>) -> fmt::Result {
        let Entry {
            line,
            wrote,
            file,
            number,
        } = self.0;
        let act = if wrote { "w" } else { "r" };
        let file = FileWord(file);
        write!(f, "{line} {act} {file} {number}")
    }
}

/// A standing.
pub fn standing_word(standing: Standing) -> &'static str
    ensures { result.now ≡ standing_word standing }
{
    match standing {
        Standing::Hint => "hint",
        Standing::Own => "own",
        Standing::Struck => "struck",
    }
}

/// A command: the number of its kind, and its four files.
#[derive(Clone, Copy)]
pub struct CommandWords(pub Command);

impl fmt::Display for CommandWords {
    ghost use Rattle.console_lines.specs.Told.{command_words};

    ghost output = { λ c. Some (command_words c.0) };

    fn fmt<W: fmt::Write>(&self, f: &mut fmt::Formatter<W>) -> fmt::Result {
        let Command { kind, a, b, c, d } = self.0;
        let number = kind.number();
        let first = PairWords(u16::from(a), u16::from(b));
        let second = PairWords(u16::from(c), u16::from(d));
        write!(f, "{number} {first} {second}")
    }
}

/// A file and the number of its content.
#[derive(Clone, Copy)]
pub struct UseWords(pub Use);

impl fmt::Display for UseWords {
    ghost use Rattle.console_lines.specs.Told.{use_words};

    ghost output = { λ u. Some (use_words u.0) };

    fn fmt<W: fmt::Write>(&self, f: &mut fmt::Formatter<W>) -> fmt::Result {
        let file = FileWord(self.0.file);
        let number = self.0.number;
        write!(f, "{file} {number}")
    }
}
