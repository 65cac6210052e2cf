ghost use Rattle.std.specs.Prelude.{◌≡◌, ◌<◌, IfSome};
ghost use Rattle.model.specs.Digits.{file_number};

/// The file number that two digits write, tens and units, from 00 to 63.
pub fn file_number(word: &[u8]) -> Option<u8>
    ensures value { result ≡ file_number word.now }
    ensures below { IfSome result (λ n. n < 64) }
{
    match word {
        [tens @ b'0'..=b'9', units @ b'0'..=b'9'] => {
            let number = (*tens - b'0') * 10 + (*units - b'0');
            (number < 64).then_some(number)
        }
        _ => None,
    }
}
