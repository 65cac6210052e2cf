ghost use Rattle.std.specs.Prelude.{◌≡◌};
ghost use Rattle.script.specs.Text.{kind_of, verb_of};

use model::Kind;

/// What a text line's first word says that the line is.
#[derive(Clone, Copy, Debug, PartialEq, Eq)]
pub(crate) enum Verb {
    Comment,
    File,
    Have,
    Command(Kind),
}

// Kept: no `FromStr`, since the words of a script are bytes; `Kind::name` says each name once.
/// The command of a name.
fn kind_of(word: &[u8]) -> Option<Kind>
    ensures { result ≡ kind_of word.now }
{
    Kind::ALL
        .iter()
        .copied()
        .find(|kind| word == kind.name().as_bytes())
}

/// The verb of a first word.
pub(crate) fn verb_of(word: &[u8]) -> Option<Verb>
    ensures { result ≡ verb_of word.now }
{
    match word {
        [b'#', ..] => Some(Verb::Comment),
        b"file" => Some(Verb::File),
        b"have" => Some(Verb::Have),
        _ => kind_of(word).map(Verb::Command),
    }
}
