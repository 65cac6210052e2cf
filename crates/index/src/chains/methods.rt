ghost use Rattle.std.specs.Prelude.{◌≡◌, ◌-◌, [], ◌∷◌, ◌++◌, cond, length, take, nat_lt};
ghost use Rattle.index.specs.Newest.{newest, numbered};

use super::Index;
use crate::{Bucket, Sought};

impl Index {
    /// An index of no elements.
    pub fn new() -> Index
        ensures { result ≡ [] }
    {
        Index {
            heads: [0; 1024],
            before: [0; 1024],
            buckets: [0; 1024],
            count: 0,
        }
    }

    /// Adds an element, by its bucket; nothing has changed where it holds 1,024.
    pub fn push(&mut self, bucket: Bucket)
        ensures { self.new ≡ cond (nat_lt (length self.old) 1024) (self.old ++ bucket.at ∷ []) self.old }
    {
        if self.count < 1024 {
            let at = self.count as usize;
            let head = bucket.at as usize;
            self.buckets[at] = bucket.at;
            self.before[at] = self.heads[head];
            self.count += 1;
            self.heads[head] = self.count;
        }
    }

    /// Keeps the first elements, at most as many as are told.
    pub fn cut(&mut self, count: u16)
        ensures { self.new ≡ take count self.old }
    {
        while self.len() > count {
            self.pop();
        }
    }

    /// The number of the newest element that is looked for, of those in its bucket; none if there is none.
    pub fn find<S: Sought>(&self, bucket: Bucket, sought: &S) -> Option<u16>
        ensures { result ≡ numbered (newest (S.is sought.now) self.now bucket.at (length self.now)) }
    {
        let mut number = self.heads[bucket.at as usize];
        while number > 0 {
            if sought.is(number) {
                return Some(number);
            }
            number = self.before[(number - 1) as usize];
        }
        None
    }

    fn len(&self) -> u16
        ensures { result ≡ length self.now }
    {
        self.count
    }

    /// Takes the newest element away.
    fn pop(&mut self)
        ensures { self.new ≡ take (length self.old - 1) self.old }
    {
        if self.count > 0 {
            self.count -= 1;
            let at = self.count as usize;
            self.heads[self.buckets[at] as usize] = self.before[at];
        }
    }
}
