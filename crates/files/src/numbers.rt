ghost use Rattle.std.specs.Prelude.{◌≡◌, ℕ, ◌<◌, length, slice_index, slice_set};

// Kept: 0 stands for an absent file wherever a number of a content is told; the image and the rules fix it.
/// The number at a file, 0 above 63.
pub fn number_at(numbers: &[u16; 64], file: u8) -> u16
    ensures { result ≡ slice_index numbers.now file }
{
    numbers.get(file as usize).copied().unwrap_or(0)
}

/// The numbers with another one at a file, the same above 63.
pub fn with_number(mut numbers: [u16; 64], file: u8, number: u16) -> [u16; 64]
    ensures value { result ≡ slice_set numbers file number }
    ensures long { length result ≡ 64 }
    ensures fits { (k : ℕ) → slice_index result k < 65536 }
{
    if file < 64 {
        numbers[file as usize] = number;
    }
    numbers
}
