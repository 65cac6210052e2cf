ghost use Rattle.std.specs.Prelude.{◌≡◌, ◌+◌, ◌-◌, ◌≤◌, min, true, false, [], length, take, IfSome, is_ok, is_some, nat_lt};
ghost use Rattle.std.specs.Option.{option_map};
ghost use Rattle.std.specs.Str.{bytes_eq};
ghost use Rattle.index.specs.Newest.{numbered};
ghost use Rattle.index.specs.Sums.{bucket_of_ends};
ghost use Rattle.model.specs.Contents.{content as content_of, count as count_of, used as used_by, told, holds, known, find, mem, fits, given, put, cut};
ghost use Rattle.pool.specs.Contents.{meant, shown, part, number_told, number_found};
ghost use Rattle.pool.specs.Sound.{Sound};

use super::Pool;
use super::same::Same;
use crate::{Content, Found, NoRoom, Place, Put};
use index::{Bucket, Index};

impl<'a> Pool<'a> {
    /// An empty pool over what is lent.
    pub fn new(bytes: &'a mut [u8], places: &'a mut [Place]) -> Pool<'a>
        ensures { meant result ≡ record { contents = []; places = min (length places.old) 1024; room = min (length bytes.old) 65536 } }
    {
        Pool {
            bytes,
            places,
            used: 0,
            count: 0,
            index: Index::new(),
        }
    }

    /// How many contents it holds.
    pub fn count(&self) -> u16
        ensures value { result ≡ count_of (meant self.now) }
        ensures sound { Sound (meant self.now) }
    {
        self.count
    }

    /// How many bytes its contents have together.
    pub fn used(&self) -> usize
        ensures { result ≡ used_by (meant self.now).contents }
    {
        self.used
    }

    /// A number is in the pool.
    pub fn holds(&self, number: u16) -> bool
        ensures { result ≡ holds (meant self.now) number }
    {
        number >= 1 && number <= self.count
    }

    // Kept: 0 stands for an absent file wherever a number of a content is told.
    /// A number, read as 0 if it is not in the pool.
    pub fn known(&self, number: u16) -> u16
        ensures { result ≡ known (meant self.now) number }
    {
        if number <= self.count { number } else { 0 }
    }

    /// The content of a number: the part of the lent bytes that it is, and where it starts; none for 0 and for a
    /// number that is not in the pool.
    pub fn content(&self, number: u16) -> Option<Content<'_>>
        ensures told { option_map shown result ≡ told (meant self.now) number }
        ensures start { IfSome result (λ c. c.start ≡ used_by (take (number - 1) (meant self.now).contents)) }
        ensures part { IfSome result (λ c. shown c ≡ part self.now c.start (length (shown c))) }
    {
        if self.holds(number) {
            let place = self.places[(number - 1) as usize];
            let start = place.start;
            let bytes = &self.bytes[start..start + place.len];
            Some(Content { bytes, start })
        } else {
            None
        }
    }

    /// The bytes of a content that is in the pool. A number past the last has none, and 0 is read as 1: a caller
    /// that does not know that the number is in the pool asks `content`.
    pub fn bytes(&self, number: u16) -> &[u8]
        ensures value { result.now ≡ content_of (meant self.now) number }
        ensures short { length result.now ≤ 4096 }
    {
        // Kept: the proof did not close over `map_or`.
        match self.content(number.max(1)) {
            Some(content) => content.bytes,
            None => &[],
        }
    }

    /// The number of the content that equals this one, if there is one.
    pub fn find(&self, content: &[u8]) -> Option<Found>
        ensures number { number_found result ≡ find content.now (meant self.now).contents }
        ensures found { is_some result ≡ nat_lt 0 (find content.now (meant self.now).contents) }
    {
        self.number_of(Bucket::of_ends(content), content)
            .map(|number| Found { number })
    }

    /// The number of the content. Unless an equal one is held, it is appended, or refused where it is over 4,096
    /// bytes or no place or too few bytes are left; then nothing has changed.
    pub fn put(&mut self, content: &[u8]) -> Result<Put, NoRoom>
        ensures number { number_told result ≡ given (meant self.old) content.now }
        ensures taken { is_ok result ≡ nat_lt 0 (given (meant self.old) content.now) }
        ensures after { meant self.new ≡ put (meant self.old) content.now }
    {
        let bucket = Bucket::of_ends(content);
        if let Some(number) = self.number_of(bucket, content) {
            return Ok(Put { number });
        }
        if !self.fits(content) {
            return Err(NoRoom);
        }
        self.append(bucket, content);
        let number = self.count;
        Ok(Put { number })
    }

    /// Keeps the first contents, at most as many as are told: the count never rises.
    pub fn cut(&mut self, count: u16)
        ensures { meant self.new ≡ cut count (meant self.old) }
    {
        if count < self.count {
            self.used = self.places[count as usize].start;
            self.count = count;
            self.index.cut(count);
        }
    }

    /// The number of the content that equals this one, which has this bucket, if there is one.
    fn number_of(&self, bucket: Bucket, content: &[u8]) -> Option<u16>
        requires { bucket.at ≡ bucket_of_ends content.now }
        ensures { result ≡ numbered (find content.now (meant self.now).contents) }
    {
        let same = Same {
            pool: self,
            content,
        };
        self.index.find(bucket, &same)
    }

    /// The content of a number is this one.
    pub(super) fn equals(&self, number: u16, content: &[u8]) -> bool
        ensures { result ≡ bytes_eq content.now (content_of (meant self.now) number) }
    {
        content == self.bytes(number)
    }

    /// There is a place and room for one more content.
    fn fits(&self, content: &[u8]) -> bool
        ensures { result ≡ fits (meant self.now) content.now }
    {
        let len = content.len();
        let count = self.count() as usize;
        let used = self.used();
        let places = self.places.len().min(1024);
        let room = self.bytes.len().min(65536);
        len <= 4096 && count + 1 <= places && used + len <= room
    }

    /// Appends a content that has this bucket, that it does not hold and has room for.
    fn append(&mut self, bucket: Bucket, content: &[u8])
        requires bucket { bucket.at ≡ bucket_of_ends content.now }
        requires fresh { mem content.now (meant self.old).contents ≡ false }
        requires fits { fits (meant self.old) content.now ≡ true }
        ensures after { meant self.new ≡ put (meant self.old) content.now }
        ensures number { self.new.count ≡ given (meant self.old) content.now }
    {
        let start = self.used;
        let len = content.len();
        let end = start + len;
        self.bytes[start..end].copy_from_slice(content);
        let at = self.count as usize;
        self.places[at] = Place { start, len };
        self.used = end;
        self.count += 1;
        self.index.push(bucket);
    }
}
