ghost use Rattle.std.specs.Prelude.{◌≡◌, ℕ, ◌<◌, true, List, replicate, is_ok, if◌then◌else◌};
ghost use Rattle.files.specs.Images.{shown, means, filling};
ghost use Rattle.files.specs.Layout.{Map, Rules, layout};
ghost use Rattle.files.specs.Trips.{mapped_long};
ghost use Rattle.std.proofs.Common.{rules, arith};

use super::Image;
use crate::codec::{decoded, encoded, is_laid, number_in, sized};
use crate::numbers::with_number;
use crate::store::FileStore;
use model::Refusal;

impl Image {
    /// An image in which every file is absent.
    pub fn new() -> Image
        ensures { means result ≡ replicate 64 0 }
    {
        let bytes = encoded([0; 64]);
        Image { bytes }
    }

    // Kept: it fills the image that a caller has, which stays as it was where the bytes are refused.
    /// Takes over the bytes of an image, or refuses those that are not the layout of a map; then nothing has
    /// changed.
    pub fn fill(&mut self, bytes: &[u8]) -> Result<(), Refusal>
        ensures answer { result ≡ filling bytes.now }
        ensures after { shown self.new ≡ (if is_ok result then bytes.now else shown self.old) }
        ensures rules { is_ok result ≡ true → Rules bytes.now }
        ensures kept { Rules bytes.now → is_ok result ≡ true }
        ensures laid { is_ok result ≡ true → bytes.now ≡ layout (means self.new) }
        ensures found { (ns : List ℕ) → Map ns → bytes.now ≡ layout ns → is_ok result ≡ true }
        ensures same { (ns : List ℕ) → Map ns → bytes.now ≡ layout ns → means self.new ≡ ns }
    {
        let image = sized(bytes).ok_or(Refusal::ImageSize)?;
        if !is_laid(image) {
            return Err(Refusal::ImageLayout);
        }
        self.bytes = image;
        Ok(())
    }

    /// The bytes of the image.
    pub fn bytes(&self) -> &[u8; 193]
        ensures value { result.now ≡ shown self.now }
        ensures laid { result.now ≡ layout (means self.now) }
    {
        &self.bytes
    }
}

impl FileStore for Image {
    ghost map = { means };

    ghost long = { λ i. mapped_long i.bytes };

    ghost fits = { first_of (Prim.search rules, Prim.grind (arith, Self.row.coded.inj)) };

    fn tell(&self, file: u8) -> u16 {
        number_in(&self.bytes, file)
    }

    fn set(&mut self, file: u8, number: u16) {
        let numbers = decoded(&self.bytes);
        self.bytes = encoded(with_number(numbers, file, number));
    }
}
