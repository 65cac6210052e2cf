ghost use Rattle.std.specs.Prelude.{◌≡◌, ℕ, ◌≤◌, length, slice_index};
ghost use Rattle.std.specs.List.{AllByRecursion, AllByRecursion-prop};
ghost use Rattle.trace_write.specs.Rooms.{Number, Number-prop, Apart, Apart-prop};
ghost use Rattle.trace_write.specs.Saves.{place_listed};

use arrayvec::ArrayVec;

mod notes;

pub use notes::order_of;

/// The numbers of the contents that are saved, in order of first use: numbers of a pool, and no two the same. So 1,024
/// places are enough.
#[derive(Drop)]
pub struct Order {
    numbers: ArrayVec<u16, 1024>,
    /// The place of each number in that list, counted from 1; 0 of a number that is not listed.
    places: [u16; 1025],
    ghost all: { AllByRecursion Number numbers.items } by { AllByRecursion-prop Number Number-prop numbers.items },
    ghost apart: { Apart numbers.items } by { Apart-prop numbers.items },
    ghost long: { length places ≡ 1025 },
    ghost placed: { (n : ℕ) → n ≤ 1024 → slice_index places n ≡ place_listed n numbers.items },
}
