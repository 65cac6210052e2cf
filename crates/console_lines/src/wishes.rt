ghost use Rattle.std.specs.Prelude.{◌≡◌, ◌<◌, ◌≤◌, Some, length, IfSome};
ghost use Rattle.std.specs.Option.{option_map};
ghost use Rattle.console_lines.specs.Numbers.{number_up_to};

use crate::numbers::number_up_to;
use arrayvec::ArrayVec;

/// The lines that a policy wishes for, 1 to 64.
#[derive(Drop)]
pub struct Wishes {
    pub lines: ArrayVec<u8, 64>,
    ghost some: { 0 < length lines.items },
}

/// The highest line.
const HIGHEST: u32 = 63;

fn line_of(word: &[u8]) -> Option<u8>
    ensures value { result ≡ number_up_to word.now 63 }
    ensures fits { IfSome result (λ n. n ≤ 63) }
{
    let line = number_up_to(word, HIGHEST)?;
    Some(line as u8)
}

impl Wishes {
    ghost use Rattle.console_lines.specs.Lists.{push, lines_written};

    /// The lines with the one that a word writes behind them; none where it writes no line or there are 64.
    fn with_line(mut lines: ArrayVec<u8, 64>, word: &[u8]) -> Option<ArrayVec<u8, 64>>
        ensures value { option_map (λ v. v.items) result ≡ push (Some lines.items) word.now }
        ensures some { IfSome result (λ v. 0 < length v.items) }
    {
        let line = line_of(word)?;
        if lines.is_full() {
            return None;
        }
        lines.push(line);
        Some(lines)
    }

    /// The lines that a word lists, separated by commas.
    fn lines_of(word: &[u8]) -> Option<ArrayVec<u8, 64>>
        ensures value { option_map (λ v. v.items) result ≡ lines_written word.now }
        ensures some { IfSome result (λ v. 0 < length v.items) }
    {
        let mut lines = ArrayVec::new();
        let mut start = 0;
        for (i, b) in word.iter().enumerate() {
            if *b == b',' {
                lines = Wishes::with_line(lines, &word[start..i])?;
                start = i + 1;
            }
        }
        Wishes::with_line(lines, &word[start..])
    }

    /// The wishes that a word lists.
    pub fn of_word(word: &[u8]) -> Option<Wishes>
        ensures { option_map (λ w. w.lines.items) result ≡ lines_written word.now }
    {
        let lines = Wishes::lines_of(word)?;
        Some(Wishes { lines })
    }
}
