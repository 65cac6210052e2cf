ghost use Rattle.std.specs.Prelude.{◌≡◌};
ghost use Rattle.script.specs.Sound.{Holds};
ghost use Rattle.script.specs.Text.{reading};
ghost use Rattle.script.specs.Views.{made};

use crate::answer::Refused;
use crate::tables::Tables;
use model::Refusal;

/// The most bytes that a text may have.
const LONGEST: usize = 16384;

/// Reads a text.
pub(crate) fn read<'t>(text: &'t [u8]) -> Result<Tables<'t>, Refused>
    ensures value { made result ≡ reading text.now }
    ensures sound { Holds (made result) }
{
    if text.len() > LONGEST {
        return Err(Refused {
            refusal: Refusal::TextTooLong,
            line: 0,
        });
    }
    let mut tables = Tables::new();
    for (i, part) in text.split(|b| *b == b'\n').enumerate() {
        let line = i + 1;
        tables
            .add_line(part)
            .map_err(|refusal| Refused { refusal, line })?;
    }
    Ok(tables)
}
