ghost use Rattle.std.specs.Prelude.{◌≡◌, ◌++◌, Some, codes, decimal};
ghost use Rattle.model.specs.Book.{same_command, in_script};
ghost use Rattle.model.specs.Numbers.{kind_number, kind_name, arity, TellsKind};

use std::error::Error;
use std::fmt;

/// What a line does with its files.
#[derive(Clone, Copy, Debug, Default, PartialEq, Eq)]
pub enum Kind {
    #[default]
    Copy = 1,
    Join = 2,
    Gather = 3,
    Choose = 4,
    Tally = 5,
    Check = 6,
}

impl Kind {
    /// Every kind.
    pub const ALL: [Kind; 6] = [
        Kind::Copy,
        Kind::Join,
        Kind::Gather,
        Kind::Choose,
        Kind::Tally,
        Kind::Check,
    ];

    // Kept: `as` under a name of its own, which says what the number is.
    /// The number by which trace files tell the kind.
    pub fn number(self) -> u8
        ensures { result ≡ kind_number self }
    {
        self as u8
    }

    /// The word by which scripts name the kind.
    pub fn name(self) -> &'static str
        ensures { result.now ≡ kind_name self }
    {
        match self {
            Kind::Copy => "copy",
            Kind::Join => "join",
            Kind::Gather => "gather",
            Kind::Choose => "choose",
            Kind::Tally => "tally",
            Kind::Check => "check",
        }
    }

    /// How many files a line of this kind names.
    pub fn arity(self) -> usize
        ensures { result ≡ arity self }
    {
        match self {
            Kind::Copy | Kind::Gather | Kind::Tally => 2,
            Kind::Join | Kind::Check => 3,
            Kind::Choose => 4,
        }
    }
}

impl fmt::Display for Kind {
    ghost output = { λ kind. Some (kind_name kind) };

    fn fmt<W: fmt::Write>(&self, f: &mut fmt::Formatter<W>) -> fmt::Result {
        f.write_str(self.name())
    }
}

/// A number that tells no kind.
#[derive(Clone, Copy, Debug, PartialEq, Eq)]
pub struct UnknownKind {
    pub number: u8,
}

impl fmt::Display for UnknownKind {
    ghost output = { λ unknown. Some (codes "no kind has the number " ++ decimal unknown.number) };

    fn fmt<W: fmt::Write>(&self, f: &mut fmt::Formatter<W>) -> fmt::Result {
        let number = self.number;
        write!(f, "no kind has the number {number}")
    }
}

impl Error for UnknownKind {}

impl TryFrom<u8> for Kind {
    type Error = UnknownKind;

    ghost try_from_gives = { TellsKind };

    fn try_from(number: u8) -> Result<Kind, UnknownKind> {
        match number {
            1 => Ok(Kind::Copy),
            2 => Ok(Kind::Join),
            3 => Ok(Kind::Gather),
            4 => Ok(Kind::Choose),
            5 => Ok(Kind::Tally),
            6 => Ok(Kind::Check),
            _ => Err(UnknownKind { number }),
        }
    }
}

// Kept: four named files, in the order of the line, as the rules and the bytes of a trace file have them.
/// A command: its kind, and the files that it names in the order of the line. Those that its kind has no use for
/// are 0. `default` is for places that are not used.
#[derive(Clone, Copy, Debug, Default, PartialEq, Eq)]
pub struct Command {
    pub kind: Kind,
    pub a: u8,
    pub b: u8,
    pub c: u8,
    pub d: u8,
}

// Kept: the derived `==`, under a name whose contract is the model's word.
/// Two commands are the same: `==`, said in the words of the model, so that searches by it need no proof of their own.
pub fn same_command(a: Command, b: Command) -> bool
    ensures { result ≡ same_command a b }
{
    a == b
}

/// A command is among others.
pub fn is_among(commands: &[Command], command: Command) -> bool
    ensures { result ≡ in_script command commands.now }
{
    commands.iter().any(|other| same_command(command, *other))
}
