ghost use Rattle.std.specs.Prelude.{◌≡◌, ◌+◌, ◌-◌, ◌<◌, [], ◌∷◌, ◌++◌, length, take, if◌then◌else◌, nat_le, nat_lt, slice_set};
ghost use Rattle.std.specs.Option.{option_map};
ghost use Rattle.std.specs.List.{slice_get};
ghost use Rattle.lists.specs.Altered.{altered};
ghost use Rattle.lists.specs.Held.{held, room};

use super::Lent;
use crate::change::Change;

// Kept throughout: a bool tells whether there was room or a place, as a set's `insert` does; `engine` makes an error of
// it where a text does not fit.

impl<'a, T: Copy> Lent<'a, T> {
    /// An empty list with as much room as is lent.
    pub fn new(items: &'a mut [T]) -> Lent<'a, T>
        ensures held { held result ≡ [] }
        ensures room { room result ≡ length items.old }
    {
        Lent { items, len: 0 }
    }

    /// All that it holds.
    pub fn as_slice(&self) -> &[T]
        ensures { result.now ≡ held self.now }
    {
        &self.items[..self.len]
    }

    /// How many elements it holds.
    pub fn len(&self) -> usize
        ensures { result ≡ length (held self.now) }
    {
        self.as_slice().len()
    }

    /// How many elements it can hold.
    pub fn room(&self) -> usize
        ensures { result ≡ room self.now }
    {
        self.items.len()
    }

    /// The element at a place, borrowed.
    pub fn at(&self, at: usize) -> Option<&T>
        ensures { option_map (λ x. x.now) result ≡ slice_get (held self.now) at }
    {
        self.as_slice().get(at)
    }

    /// A copy of the element at a place.
    pub fn get(&self, at: usize) -> Option<T>
        ensures { result ≡ slice_get (held self.now) at }
    {
        self.at(at).copied()
    }

    /// Adds an element; false, and nothing changed, where the list is full.
    pub fn push(&mut self, x: T) -> bool
        ensures fits { result ≡ nat_lt (length (held self.old)) (room self.old) }
        ensures held { held self.new ≡ (if result then held self.old ++ x ∷ [] else held self.old) }
        ensures room { room self.new ≡ room self.old }
    {
        let fits = self.len < self.items.len();
        if fits {
            self.items[self.len] = x;
            self.len += 1;
        }
        fits
    }

    /// Adds several elements; false, and nothing changed, where there is not room for all of them.
    pub fn extend(&mut self, more: &[T]) -> bool
        ensures fits { result ≡ nat_le (length more.now) (room self.old - length (held self.old)) }
        ensures held { held self.new ≡ (if result then held self.old ++ more.now else held self.old) }
        ensures room { room self.new ≡ room self.old }
    {
        let fits = more.len() <= self.items.len() - self.len;
        if fits {
            let end = self.len + more.len();
            self.items[self.len..end].copy_from_slice(more);
            self.len = end;
        }
        fits
    }

    /// Puts another element at a place; false, and nothing changed, where nothing is held there.
    pub fn replace(&mut self, at: usize, x: T) -> bool
        ensures fits { result ≡ nat_lt at (length (held self.old)) }
        ensures held { held self.new ≡ (if result then slice_set (held self.old) at x else held self.old) }
        ensures room { room self.new ≡ room self.old }
    {
        let fits = at < self.len;
        if fits {
            self.items[at] = x;
        }
        fits
    }

    /// Changes the element at a place where it lies; false, and nothing changed, where nothing is held there.
    pub fn change<C: Change<T>>(&mut self, at: usize, change: &C) -> bool
        ensures fits { result ≡ nat_lt at (length (held self.old)) }
        ensures held { held self.new ≡ altered (C.Change.changed change.now) (held self.old) at }
        ensures room { room self.new ≡ room self.old }
    {
        let is_held = at < self.len;
        if is_held {
            let items = &mut *self.items;
            change.apply(&mut items[at]);
        }
        is_held
    }

    /// Keeps the first elements, at most as many as are told: the count never rises.
    pub fn truncate(&mut self, count: usize)
        ensures held { held self.new ≡ take count (held self.old) }
        ensures room { room self.new ≡ room self.old }
    {
        self.len = self.len.min(count);
    }

    /// Empties the list.
    pub fn clear(&mut self)
        ensures held { held self.new ≡ [] }
        ensures room { room self.new ≡ room self.old }
    {
        self.len = 0;
    }
}
