//! Where a reader of first fields is in a line, and what it keeps.
ghost use Rattle.std.specs.Prelude.{◌≡◌, ◌<◌, ◌≤◌, ◌+◌, ◌++◌, ◌==◌, ◌||◌, length, take};
ghost use Rattle.text_lines.specs.Fields.{is_blank};
ghost use Rattle.lex_words.specs.Places.{place_within, place_after, is_field, kept_of, IsKept};

/// Where a reader is in a line.
#[derive(Clone, Copy, Debug, PartialEq, Eq)]
pub enum Place {
    /// At its beginning.
    Beginning,
    /// In its first field.
    Field,
    /// After its first field, or in a remark.
    After,
}

/// Whether a byte is a space or a tab.
fn is_blank(byte: u8) -> bool
    ensures { result ≡ is_blank byte }
{
    byte == b' ' || byte == b'\t'
}

impl Place {
    /// The place after a byte that does not end a line.
    #[tactic(auto, unfolding(crate::specs::Places::place_within))]
    fn within(self, byte: u8) -> Place
        ensures { result ≡ place_within self byte }
    {
        match self {
            Place::Beginning if byte == b'#' => Place::After,
            Place::Beginning | Place::Field if is_blank(byte) => Place::After,
            Place::Beginning | Place::Field => Place::Field,
            Place::After => Place::After,
        }
    }

    /// Whether this place is in the first field.
    fn is_field(self) -> bool
        ensures { result ≡ is_field self }
    {
        match self {
            Place::Field => true,
            Place::Beginning | Place::After => false,
        }
    }
}

/// How many bytes are kept, and the place after them.
#[derive(Clone, Copy, Debug)]
pub struct Kept {
    /// How many bytes are kept.
    pub len: usize,
    /// The place.
    pub place: Place,
}

impl Kept {
    /// Reads one more byte, and appends it to those that are kept in the buffer if it is one of them.
    #[tactic(auto, unfolding(crate::specs::Places::place_after, crate::specs::Places::kept_of))]
    fn take_byte(&mut self, byte: u8, buf: &mut [u8])
        requires { self.old.len < length buf.old }
        ensures room { length buf.new ≡ length buf.old }
        ensures few { self.new.len ≤ self.old.len + 1 }
        ensures place { self.new.place ≡ place_after self.old.place byte }
        ensures kept { take self.new.len buf.new ≡ take self.old.len buf.old ++ kept_of self.old.place byte }
    {
        let is_end = byte == b'\n';
        let within = self.place.within(byte);
        if is_end || within.is_field() {
            buf[self.len] = byte;
            self.len += 1;
        }
        self.place = if is_end { Place::Beginning } else { within };
    }
}

/// Puts what is kept of a chunk, from a place on, at the front of a buffer.
pub fn keep_fields(place: Place, chunk: &[u8], buf: &mut [u8]) -> Kept
    requires { length chunk.now ≤ length buf.old }
    ensures room { length buf.new ≡ length buf.old }
    ensures few { result.len ≤ length chunk.now }
    ensures kept { IsKept place chunk.now result.place (take result.len buf.new) }
{
    let mut kept = Kept { len: 0, place };
    for byte in chunk {
        kept.take_byte(*byte, buf);
    }
    kept
}
