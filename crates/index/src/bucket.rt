ghost use Rattle.std.specs.Prelude.{◌≡◌, ◌<◌};
ghost use Rattle.index.specs.Sums.{mixed, summed, bucket_of, bucket_of_ends};

/// One of the 1,024 buckets. Those of one index are told all by `of`, or all by `of_ends`: equal strings have equal
/// buckets by each, but a string of more than 64 bytes may have another by the one than by the other.
#[derive(Clone, Copy)]
pub struct Bucket {
    pub(crate) at: u16,
    ghost low: { at < 1024 },
}

impl Bucket {
    /// The bucket of a string of bytes, by all of them.
    pub fn of(bytes: &[u8]) -> Bucket
        ensures { result.at ≡ bucket_of bytes.now }
    {
        let all = summed(bytes.len() as u64, bytes);
        Bucket {
            at: (all >> 54) as u16,
        }
    }

    /// The bucket of a string of bytes, by its ends: of more than 64 bytes only these are summed up, so that what it
    /// takes does not grow with the string.
    pub fn of_ends(bytes: &[u8]) -> Bucket
        ensures { result.at ≡ bucket_of_ends bytes.now }
    {
        let len = bytes.len();
        let sum = if len <= 64 {
            summed(len as u64, bytes)
        } else {
            let front = summed(len as u64, &bytes[..32]);
            summed(front, &bytes[len - 32..])
        };
        Bucket {
            at: (sum >> 54) as u16,
        }
    }
}

/// The sum with some bytes more.
fn summed(sum: u64, bytes: &[u8]) -> u64
    ensures { result ≡ summed sum bytes.now }
{
    let (eights, rest) = bytes.as_chunks::<8>();
    let sum = eights
        .iter()
        .fold(sum, |sum, eight| mixed(sum, u64::from_le_bytes(*eight)));
    rest.iter()
        .fold(sum, |sum, byte| mixed(sum, u64::from(*byte)))
}

/// The sum with one word more.
fn mixed(sum: u64, word: u64) -> u64
    ensures { result ≡ mixed sum word }
{
    let product = sum.wrapping_add(word).wrapping_mul(0x9E37_79B9_7F4A_7C15);
    product ^ (product >> 32)
}
