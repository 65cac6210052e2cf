ghost use Rattle.std.specs.Prelude.{◌≡◌, ℕ, ◌<◌, true, false, List, length, is_some, IfSome, find, ◌==◌, ◌≢◌, slice_index};
ghost use Rattle.std.specs.Str.{bytes_eq};
ghost use Rattle.files.specs.Layout.{Map, Rules, layout, mapped};
ghost use Rattle.files.specs.Laws.{Laid, RoundTrip};

use crate::draft::Draft;
use std::array;

/// The image of a table of numbers.
pub fn encoded(numbers: [u16; 64]) -> [u8; 193]
    ensures value { result ≡ layout numbers }
    ensures back { mapped result ≡ numbers }
    ensures fits { (k : ℕ) → slice_index (mapped result) k < 65536 }
{
    let mut draft = Draft::blank();
    for file in 0..64 {
        draft.add(&numbers, file);
    }
    draft.finished(numbers)
}

// Kept: 0 stands for an absent file wherever a number of a content is told; the image and the rules fix it.
/// The number that an image gives a file: that of the file's entry, 0 if there is none.
pub fn number_in(bytes: &[u8; 193], file: u8) -> u16
    ensures { result ≡ slice_index (mapped bytes.now) file }
{
    if file >= 64 {
        return 0;
    }
    let entries = bytes[1..].as_chunks::<3>().0;
    let count = bytes[0].min(64) as usize;
    // Kept: the proof did not close over `map_or`.
    match entry_of(&entries[..count], file) {
        Some(entry) => u16::from_be_bytes([entry[1], entry[2]]),
        None => 0,
    }
}

/// The first entry of a file.
fn entry_of(entries: &[[u8; 3]], file: u8) -> Option<[u8; 3]>
    ensures { result ≡ find (λ entry. slice_index entry 0 == file) entries.now }
{
    entries.iter().copied().find(|entry| entry[0] == file)
}

/// The table of the numbers that an image gives.
pub fn decoded(bytes: &[u8; 193]) -> [u16; 64]
    ensures { result ≡ mapped bytes.now }
{
    array::from_fn(|file| number_in(bytes, file as u8))
}

/// The bytes as an image, if they have its length.
pub fn sized(bytes: &[u8]) -> Option<[u8; 193]>
    ensures size { is_some result ≡ (length bytes.now == 193) }
    ensures same { IfSome result (λ image. image ≡ bytes.now) }
    ensures unruly { is_some result ≡ false → Rules bytes.now → ⊥ }
    ensures none { is_some result ≡ false → (ns : List ℕ) → Map ns → bytes.now ≢ layout ns }
{
    <[u8; 193]>::try_from(bytes).ok()
}

/// An image is the layout of the map that it means.
pub fn is_laid(image: [u8; 193]) -> bool
    ensures value { result ≡ bytes_eq image (layout (mapped image)) }
    ensures laid { result ≡ true → Laid image }
    ensures fits { result ≡ true → (k : ℕ) → slice_index (mapped image) k < 65536 }
    ensures rules { result ≡ true → Rules image }
    ensures kept { Rules image → result ≡ true }
    ensures found { (ns : List ℕ) → Map ns → image ≡ layout ns → result ≡ true }
    ensures same { (ns : List ℕ) → Map ns → image ≡ layout ns → mapped image ≡ ns }
{
    encoded(decoded(&image)) == image
}

/// The law of the layout stands.
pub fn round_trip_stands()
    ensures { RoundTrip }
{}
