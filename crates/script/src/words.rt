ghost use Rattle.std.specs.Prelude.{◌≡◌, [], map, take, drop, MatchOption};
ghost use Rattle.std.specs.List.{list_all};
ghost use Rattle.script.specs.Text.{words, plain};
ghost use Rattle.script.specs.Words.{FirstWord};

use arrayvec::ArrayVec;

/// A word of a text, and where it starts there.
#[derive(Clone, Copy)]
pub struct Word<'t> {
    pub bytes: &'t [u8],
    pub start: usize,
}

/// The next word of a text from a place on. Words are separated by spaces.
pub fn next_word<'t>(text: &'t [u8], from: usize) -> Option<Word<'t>>
    ensures { MatchOption result (words (drop from text.now) ≡ []) (λ w. FirstWord text.now from w.start w.bytes.now) }
{
    let skipped = text.get(from..)?.iter().position(|b| *b != b' ')?;
    let start = from + skipped;
    let rest = &text[start..];
    let length = rest.iter().position(|b| *b == b' ').unwrap_or(rest.len());
    let bytes = &rest[..length];
    Some(Word { bytes, start })
}

/// Whether each byte is a space or one of a word. It goes on after one that is not, so that many are tested at a time.
pub(crate) fn is_plain(line: &[u8]) -> bool
    ensures { result ≡ list_all plain line.now }
{
    line.iter()
        .fold(true, |plain, b| plain & matches!(*b, b' '..=b'~'))
}

// Never inlined: in the large function that calls it the search's counters would lie in memory and not in registers,
// and each byte of a word would cost more.
/// The words of a part of a text line, the first six if there are more: no verb takes more than four.
#[inline(never)]
pub(crate) fn words_of<'t>(line: &'t [u8]) -> ArrayVec<&'t [u8], 6>
    ensures { map (λ x. x.now) result.items ≡ take 6 (words line.now) }
{
    let mut words = ArrayVec::new();
    let mut at = 0;
    // Kept: `next_word` is public, and words are found in one way; `at` is where the last one ended, and no counter.
    while !words.is_full() {
        let Some(word) = next_word(line, at) else {
            break;
        };
        words.push(word.bytes);
        at = word.start + word.bytes.len();
    }
    words
}
