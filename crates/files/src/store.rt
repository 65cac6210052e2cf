ghost use Rattle.std.specs.Prelude.{◌≡◌, ℕ, ◌<◌, List, length, slice_index, slice_set};

// Kept: 0 stands for an absent file wherever a number of a content is told; the image and the rules fix it.
/// A store of files. It means a map: the content numbers of the files 0 to 63, 0 where a file is absent.
pub trait FileStore {
    ghost map: { Self → List ℕ };

    // Kept: 0, the number of an absent file; by the rules a file above 63 is told as absent.
    /// The number of a file; 0 above 63.
    fn tell(&self, file: u8) -> u16
        ensures { result ≡ slice_index (map self.now) file };

    /// Gives one file a number; above 63 nothing changes.
    fn set(&mut self, file: u8, number: u16)
        ensures { map self.new ≡ slice_set (map self.old) file number };

    ghost long: { (s : Self) → length (map s) ≡ 64 };

    ghost fits: { (s : Self) (k : ℕ) → slice_index (map s) k < 65536 };
}
