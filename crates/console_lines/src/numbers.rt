ghost use Rattle.std.specs.Prelude.{◌≡◌, ◌-◌, ◌<◌, ◌≤◌, true, false, IfSome, MatchOption};
ghost use Rattle.model.specs.Digits.{digit};
ghost use Rattle.console_lines.specs.Numbers.{number, number_up_to};

/// The most digits that a number has.
const MOST: usize = 9;

/// The value of a digit.
fn value_of(b: u8) -> Option<u8>
    ensures { MatchOption result (digit b ≡ false) (λ d. (digit b ≡ true) × (d ≡ b - 48) × (d < 10)) }
{
    match b {
        b'0'..=b'9' => Some(b - b'0'),
        _ => None,
    }
}

/// The number that a word writes: 1 to 9 decimal digits.
fn number(word: &[u8]) -> Option<u32>
    ensures { result ≡ number word.now }
{
    if word.is_empty() || word.len() > MOST {
        return None;
    }
    let mut value = 0;
    for b in word {
        let digit = value_of(*b)?;
        value = value * 10 + u32::from(digit);
    }
    Some(value)
}

/// The number that a word writes, if it is at most another.
pub fn number_up_to(word: &[u8], most: u32) -> Option<u32>
    ensures value { result ≡ number_up_to word.now most }
    ensures fits { IfSome result (λ n. n ≤ most) }
{
    let value = number(word)?;
    if value <= most { Some(value) } else { None }
}
