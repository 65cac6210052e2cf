ghost use Rattle.std.specs.Prelude.{◌++◌, Some, codes, decimal};
ghost use Rattle.model.specs.Numbers.{number_of};

use model::Refusal;
use std::error::Error;
use std::fmt;

// Kept: 0 for a text that is too long, as the rules tell it.
/// Why a text is refused, and at which text line, counted from 1; a text that is too long tells 0.
#[derive(Clone, Copy, Debug, PartialEq, Eq)]
pub struct Refused {
    pub refusal: Refusal,
    pub line: usize,
}

/// A refused text is told by the refusal's number and the text line.
impl fmt::Display for Refused {
    ghost output = { λ refused. Some (decimal (number_of refused.refusal) ++ codes " line " ++ decimal refused.line) };

    fn fmt<W: fmt::Write>(&self, f: &mut fmt::Formatter<W>) -> fmt::Result {
        let Refused { refusal, line } = *self;
        write!(f, "{refusal} line {line}")
    }
}

impl Error for Refused {}

/// A starting content, a part of the script's text, and its file.
#[derive(Clone, Copy, Default)]
pub struct Have<'t> {
    pub file: u8,
    pub content: &'t [u8],
}
