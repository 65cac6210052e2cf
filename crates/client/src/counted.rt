ghost use Rattle.std.specs.Prelude.{◌≡◌, ◌+◌, min, slice_set};

use files::FileStore;

/// A store of files over another one, which counts how often a file was set.
#[derive(Drop)]
pub struct Counted<F> {
    files: F,
    sets: u32,
}

impl<F: FileStore> Counted<F> {
    /// The files of a store, none of which was set so far.
    pub fn new(files: F) -> Counted<F>
        ensures files { result.files ≡ files }
        ensures sets { result.sets ≡ 0 }
    {
        Counted { files, sets: 0 }
    }

    /// How often a file was set. The count ends at the greatest number of its type.
    pub fn sets(&self) -> u32
        ensures { result ≡ self.now.sets }
    {
        self.sets
    }
}

impl<F: FileStore> FileStore for Counted<F> {
    ghost map = { λ s. F.FileStore.map s.files };

    ghost long = { λ s. F.FileStore.long s.files };

    ghost fits = { λ s k. F.FileStore.fits s.files k };

    fn tell(&self, file: u8) -> u16 {
        self.files.tell(file)
    }

    fn set(&mut self, file: u8, number: u16)
        ensures map { F.FileStore.map self.new.files ≡ slice_set (F.FileStore.map self.old.files) file number }
        ensures sets { self.new.sets ≡ min (self.old.sets + 1) u32.MAX }
    {
        self.files.set(file, number);
        self.sets = self.sets.saturating_add(1);
    }
}
