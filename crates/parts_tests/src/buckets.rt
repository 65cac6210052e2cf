ghost use Rattle.std.specs.Prelude.{true};

use index::{Bucket, Index, Sought};

/// Each element is looked for, so that a search tells the newest of a bucket.
#[derive(Clone, Copy)]
struct Each;

impl Sought for Each {
    ghost is = { λ _ _. true };

    fn is(&self, _number: u16) -> bool {
        true
    }
}

#[test]
fn strings_that_differ_in_the_middle(rt: HostRuntime) {
    let one = [7; 100];
    let mut other = one;
    other[50] = 8;
    let mut by_all = Index::new();
    by_all.push(Bucket::of(&one));
    assert_eq!(rt; by_all.find(Bucket::of(&one), &Each), Some(1));
    assert_eq!(rt; by_all.find(Bucket::of(&other), &Each), None);
    let mut by_ends = Index::new();
    by_ends.push(Bucket::of_ends(&one));
    assert_eq!(rt; by_ends.find(Bucket::of_ends(&other), &Each), Some(1));
}

#[test]
fn a_string_of_64_bytes_is_all_ends(rt: HostRuntime) {
    // Buckets of both in one index, to compare them.
    let mut index = Index::new();
    index.push(Bucket::of(&[0; 64]));
    assert_eq!(rt; index.find(Bucket::of_ends(&[0; 64]), &Each), Some(1));
    index.push(Bucket::of(&[0; 65]));
    assert_eq!(rt; index.find(Bucket::of(&[0; 65]), &Each), Some(2));
    assert_eq!(rt; index.find(Bucket::of_ends(&[0; 65]), &Each), None);
}
