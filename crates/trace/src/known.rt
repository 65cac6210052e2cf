ghost use Rattle.std.specs.Prelude.{◌≡◌, map};
ghost use Rattle.index.specs.Sums.{bucket_of_ends};
ghost use Rattle.index.specs.Equal.{equal};
ghost use Rattle.model.specs.Contents.{mem};

use index::{Bucket, Index, Sought};

/// The content that equals this one, among earlier ones.
#[derive(Clone, Copy)]
struct Same<'e, 't> {
    earlier: &'e [&'t [u8]],
    content: &'e [u8],
}

impl Sought for Same<'_, '_> {
    ghost is = { λ s. equal s.content.now (map (λ x. x.now) s.earlier.now) };

    fn is(&self, number: u16) -> bool {
        let at = number.saturating_sub(1) as usize;
        let earlier = self.earlier.get(at).copied().unwrap_or(&[]);
        self.content == earlier
    }
}

/// A content, which has this bucket, is among earlier ones, whose buckets the index holds.
pub fn known_content(earlier: &[&[u8]], index: &Index, bucket: Bucket, content: &[u8]) -> bool
    requires index { index.now ≡ map bucket_of_ends (map (λ x. x.now) earlier.now) }
    requires bucket { bucket.at ≡ bucket_of_ends content.now }
    ensures { result ≡ mem content.now (map (λ x. x.now) earlier.now) }
{
    let same = Same { earlier, content };
    index.find(bucket, &same).is_some()
}
