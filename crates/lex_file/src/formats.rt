//! The numbers of both formats of a lexicon file.

/// The number of bytes of the header.
pub const HEADER_BYTES: usize = 16;

/// The first bytes of a GAD1 file.
pub const GAD1_MAGIC: [u8; 4] = *b"GAD1";

/// The first bytes of a GAD2 file.
pub const GAD2_MAGIC: [u8; 4] = *b"GAD2";

/// The maximum number of arcs of a GAD1 file.
pub const MAX_ARCS: u32 = 33_554_431;

/// The maximum number of words of a GAD2 file after its header.
pub const MAX_BODY_WORDS: u32 = 67_108_863;

/// The maximum number of bytes of a file: that of a GAD2 file with the maximum number of words.
pub const MAX_FILE_BYTES: usize = HEADER_BYTES + 4 * MAX_BODY_WORDS as usize;

/// A format of compiled lexicon files.
#[derive(Clone, Copy, Debug, PartialEq, Eq)]
pub enum Format {
    /// A word for each arc.
    Gad1,
    /// For each node a label word and an accept word, and a word for each target.
    Gad2,
}

impl Format {
    ghost use Rattle.std.specs.Prelude.{◌≡◌};
    ghost use Rattle.lex_file.specs.Shapes.{format_of};

    /// The format of a file, by its first four bytes.
    pub(crate) fn of(bytes: &[u8]) -> Option<Format>
        ensures { result ≡ format_of bytes.now }
    {
        if bytes.starts_with(&GAD1_MAGIC) {
            return Some(Format::Gad1);
        }
        if bytes.starts_with(&GAD2_MAGIC) {
            return Some(Format::Gad2);
        }
        None
    }
}
