use files::{FileStore, Image, Table};
use model::Refusal;

/// A store of files that may be an image.
pub trait Directory: FileStore {
    /// Fills an image with bytes; none where the store is no image.
    fn fill(&mut self, bytes: &[u8]) -> Option<Result<(), Refusal>>;

    /// The bytes of an image; none where the store is no image.
    fn image(&self) -> Option<&[u8; 193]>;
}

impl Directory for Table {
    fn fill(&mut self, bytes: &[u8]) -> Option<Result<(), Refusal>> {
        None
    }

    fn image(&self) -> Option<&[u8; 193]> {
        None
    }
}

impl Directory for Image {
    fn fill(&mut self, bytes: &[u8]) -> Option<Result<(), Refusal>> {
        Some(Image::fill(self, bytes))
    }

    fn image(&self) -> Option<&[u8; 193]> {
        Some(self.bytes())
    }
}
