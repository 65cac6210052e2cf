ghost use Rattle.std.specs.Prelude.{◌≡◌, [], ◌∷◌, length};
ghost use Rattle.output.specs.Writes.{buffer, written, Into, Room, Writes};

// Kept: a writer of its own beside the list over lent memory: past the count of a list all is free, and past the end of
// what is written the bytes stay as they were, which reports and trace files promise. Each function that writes says
// the room that it needs, since no type bounds what is left of a buffer.
/// A caller's buffer, and how many of its bytes are written.
#[derive(Drop)]
pub struct Output<'a> {
    bytes: &'a mut [u8],
    len: usize,
}

impl<'a> Output<'a> {
    /// A buffer of which nothing is written.
    pub fn new(bytes: &'a mut [u8]) -> Output<'a>
        ensures same { Into bytes.entry.ghost_name result }
        ensures bytes { buffer result ≡ bytes.old }
        ensures len { written result ≡ 0 }
    {
        Output { bytes, len: 0 }
    }

    /// How many bytes are written.
    pub fn len(&self) -> usize
        ensures { result ≡ written self.now }
    {
        self.len
    }

    /// Writes a byte.
    pub fn put_byte(&mut self, b: u8)
        requires { Room 1 self.old }
        ensures { Writes (b ∷ []) self.old self.new }
    {
        self.bytes[self.len] = b;
        self.len += 1;
    }

    /// Writes bytes.
    pub fn put(&mut self, piece: &[u8])
        requires { Room (length piece.now) self.old }
        ensures { Writes piece.now self.old self.new }
    {
        let end = self.len + piece.len();
        self.bytes[self.len..end].copy_from_slice(piece);
        self.len = end;
    }
}
