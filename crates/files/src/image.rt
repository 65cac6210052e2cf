ghost use Rattle.std.specs.Prelude.{ℕ, ◌<◌, slice_index};
ghost use Rattle.files.specs.Layout.{mapped};
ghost use Rattle.files.specs.Laws.{Laid};

mod methods;

/// A directory image: 193 bytes, always the one layout of the map that they mean.
///
/// A count of 0 to 64, then as many entries of a file and its number, most significant byte first, in rising
/// file number, then zeros. Only files that are there have an entry.
#[derive(Drop)]
pub struct Image {
    bytes: [u8; 193],
    ghost laid: { Laid bytes },
    ghost fits: { (k : ℕ) → slice_index (mapped bytes) k < 65536 },
}
