ghost use Rattle.std.specs.Prelude.{◌≡◌, ℕ, ◌+◌, ◌<◌, List, slice_index};
ghost use Rattle.files.specs.Drafts.{Drafted};
ghost use Rattle.files.specs.Layout.{layout, mapped};

use super::Draft;

impl Draft {
    /// An image with no entries yet.
    pub fn blank() -> Draft
        ensures { (ns : List ℕ) → Drafted result ns 0 }
    {
        Draft {
            bytes: [0; 193],
            at: 1,
            count: 0,
        }
    }

    /// Writes the entry of the next file, if it is there.
    pub fn add(&mut self, numbers: &[u16; 64], file: u8)
        requires within { file < 64 }
        requires drafted { Drafted self.old numbers.now file }
        ensures { Drafted self.new numbers.now (file + 1) }
    {
        let number = numbers[file as usize];
        if number == 0 {
            return;
        }
        let [high, low] = number.to_be_bytes();
        let at = self.at;
        self.bytes[at] = file;
        self.bytes[at + 1] = high;
        self.bytes[at + 2] = low;
        self.at = at + 3;
        self.count += 1;
    }

    /// The image, once each file had its turn.
    pub fn finished(self, numbers: [u16; 64]) -> [u8; 193]
        requires { Drafted self numbers 64 }
        ensures value { result ≡ layout numbers }
        ensures back { mapped result ≡ numbers }
        ensures fits { (k : ℕ) → slice_index (mapped result) k < 65536 }
    {
        let mut bytes = self.bytes;
        bytes[0] = self.count;
        bytes
    }
}
