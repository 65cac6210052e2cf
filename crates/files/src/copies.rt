ghost use Rattle.std.specs.Prelude.{◌≡◌};

use crate::store::FileStore;

/// Gives each of the 64 files of one store the number that it has in another.
pub fn copy_all<F: FileStore, G: FileStore>(from: &F, to: &mut G)
    ensures { G.FileStore.map to.new ≡ F.FileStore.map from.now }
{
    for file in 0..64 {
        to.set(file, from.tell(file));
    }
}
