//! Words of at most 15 letters.
ghost use Rattle.std.specs.Prelude.{◌≡◌, ◌≤◌, ◌<◌, Some, refl, IfNone, IfSome, length, nat_eq};
ghost use Rattle.std.specs.Cmp.Lexicographic.{pointwise, slice_cmp};
ghost use Rattle.std.specs.Ordering.{nat_cmp};
ghost use Rattle.lex_list.specs.Lists.{capitals};
ghost use Rattle.lex_list.specs.Words.{most_letters};

use std::cmp::Ordering;
use std::marker::Model;

/// The maximum number of letters of a word.
pub const MAX_LETTERS: usize = 15;

/// At most 15 bytes, stored in 16, ordered as bytes. Contracts see the list of them.
#[derive(Debug, Drop)]
pub struct Word {
    letters: [u8; MAX_LETTERS],
    len: u8,
}

impl Model for Word {
    ghost use Rattle.std.specs.Prelude.{◌≡◌, List, ℕ, take, ◌≤◌, length};
    ghost use Rattle.lex_list.specs.Words.{most_letters};

    ghost Value = { List ℕ };

    ghost view = { λ w. take w.len w.letters };

    ghost invariant = { λ w. (w.len ≤ most_letters) × (length w.letters ≡ most_letters) };
}

impl Word {
    /// The word with these bytes; none if there are more than 15.
    pub fn of_bytes(bytes: &[u8]) -> Option<Word>
        ensures none { IfNone result (most_letters < length bytes.now) }
        ensures word { IfSome result (λ word. word ≡ bytes.now) }
    {
        if bytes.len() > MAX_LETTERS {
            return None;
        }
        let mut letters = [0; MAX_LETTERS];
        letters[..bytes.len()].copy_from_slice(bytes);
        Some(Word {
            letters,
            len: bytes.len() as u8,
        })
    }

    /// The word of a line, with its letters as capitals.
    pub fn of_line(line: &[u8]) -> Word
        requires { length line.now ≤ most_letters }
        ensures { result ≡ capitals line.now }
    {
        let mut letters = [0; MAX_LETTERS];
        for (place, byte) in line.iter().enumerate() {
            letters[place] = byte.to_ascii_uppercase();
        }
        Word {
            letters,
            len: line.len() as u8,
        }
    }

    /// The bytes of the word, at most 15.
    pub fn as_slice(&self) -> &[u8]
        ensures bytes { result.now ≡ self.now }
        ensures few { length result.now ≤ most_letters }
    {
        &self.letters[..self.len as usize]
    }
}

impl PartialEq for Word {
    ghost use Rattle.std.specs.Cmp.{partial_equiv_from_equiv};
    ghost use Rattle.std.proofs.lemmas.Cmp.{nat_list_eq_equiv};

    ghost eq = { pointwise nat_eq };

    ghost laws = { partial_equiv_from_equiv nat_list_eq_equiv };

    fn eq(&self, other: &Word) -> bool {
        self.as_slice() == other.as_slice()
    }
}

impl Eq for Word {
    ghost use Rattle.std.proofs.lemmas.Cmp.{nat_list_eq_equiv};

    ghost laws = { nat_list_eq_equiv };
}

impl PartialOrd for Word {
    ghost use Rattle.std.specs.Cmp.Lexicographic.{texts_po};

    ghost partial_cmp = { λ x y. Some (slice_cmp nat_cmp x y) };

    ghost laws = { texts_po };

    fn partial_cmp(&self, other: &Word) -> Option<Ordering> {
        Some(self.cmp(other))
    }
}

impl Ord for Word {
    ghost use Rattle.std.proofs.lemmas.Cmp.{nat_list_cmp_total};
    ghost use Rattle.std.specs.Cmp.{unsigned_ties};
    ghost use Rattle.std.specs.Cmp.Lexicographic.{lists_ties};

    ghost cmp = { slice_cmp nat_cmp };

    ghost total = { nat_list_cmp_total };

    ghost matches_partial_cmp = { λ x y. refl };

    ghost matches_eq = { lists_ties nat_cmp unsigned_ties };

    fn cmp(&self, other: &Word) -> Ordering {
        self.as_slice().cmp(other.as_slice())
    }
}
