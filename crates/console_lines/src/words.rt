ghost use Rattle.std.specs.Prelude.{◌≡◌, map, take};
ghost use Rattle.script.specs.Text.{words};

use arrayvec::ArrayVec;
use script::next_word;

/// The words of a line, the first seven if it has more: no command has more than six.
pub fn words_of<'l>(line: &'l [u8]) -> ArrayVec<&'l [u8], 7>
    ensures { map (λ x. x.now) result.items ≡ take 7 (words line.now) }
{
    let mut words = ArrayVec::new();
    let mut at = 0;
    // `at` is where the last word ended.
    while !words.is_full() {
        let Some(word) = next_word(line, at) else {
            break;
        };
        words.push(word.bytes);
        at = word.start + word.bytes.len();
    }
    words
}
