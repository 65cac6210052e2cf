ghost use Rattle.std.specs.Prelude.{◌≡◌, ◌<◌, [], ◌∷◌, ◌++◌, map, length, IfOk};
ghost use Rattle.index.specs.Sums.{bucket_of_ends};
ghost use Rattle.trace.specs.Format.{a_content, the_contents};
ghost use Rattle.trace.specs.Told.{left, told, listed};

use crate::contents::Contents;
use crate::input::Input;
use crate::known::known_content;
use index::{Bucket, Index};
use model::Refusal;

impl<'t> Input<'t> {
    /// A content that differs from the earlier ones. The index holds the buckets of those, and then this one's too.
    fn content(&mut self, earlier: &[&'t [u8]], index: &mut Index) -> Result<&'t [u8], Refusal>
        requires index { index.old ≡ map bucket_of_ends (map (λ x. x.now) earlier.now) }
        requires room { length earlier.now < 1024 }
        ensures value { told (λ x. x.now) result self.new ≡ a_content (map (λ x. x.now) earlier.now) (left self.old) }
        ensures index { IfOk result (λ x. index.new ≡ map bucket_of_ends (map (λ x. x.now) earlier.now ++ x.now ∷ [])) }
    {
        let n = self.count(4096)?;
        let piece = self.piece(n)?;
        let bucket = Bucket::of_ends(piece);
        if known_content(earlier, index, bucket, piece) {
            return Err(Refusal::TraceRule);
        }
        index.push(bucket);
        Ok(piece)
    }

    /// The section of the contents.
    pub fn contents(&mut self) -> Result<Contents<'t>, Refusal>
        ensures count { IfOk result (λ c. length (listed c) ≡ c.count) }
        ensures value { told listed result self.new ≡ the_contents (left self.old) }
    {
        let count = self.count(1024)?;
        let none: &'t [u8] = &[];
        let mut list = [none; 1024];
        let mut index = Index::new();
        // Kept: a place, since each content is compared with those that stand before it in the table.
        for i in 0..count {
            list[i] = self.content(&list[0..i], &mut index)?;
        }
        Ok(Contents { list, count })
    }
}
