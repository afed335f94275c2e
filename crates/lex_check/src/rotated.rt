//! Rotated paths, label by label.
ghost use Rattle.std.specs.Prelude.{◌≡◌, ◌≤◌, ◌<◌, ◌==◌, IsTrue, length, nat_eq, slice_index};
ghost use Rattle.std.specs.Cmp.Lexicographic.{pointwise};
ghost use Rattle.std.specs.Int.{w128, from_be_bytes};
ghost use Rattle.std.specs.List.{list_all};
ghost use Rattle.lex_file.specs.Lexicons.{is_label};
ghost use Rattle.lex_check.specs.Held.{held};

use std::marker::Model;

/// The maximum number of labels of a rotated path: the letters of a word, and the mark.
pub const MAX_LABELS: usize = 16;

/// A rotated path: at most 16 labels. Contracts see the list of them.
///
/// Each label is stored as the number above it, and zeros follow the last one. So the order of paths, label by label and a path
/// before all longer paths that begin with it, is that of the numbers that their 16 bytes spell, the first byte the highest.
#[derive(Debug, Drop)]
pub struct Rotated {
    bytes: [u8; MAX_LABELS],
}

impl Model for Rotated {
    ghost use Rattle.std.specs.Prelude.{List, ℕ};
    ghost use Rattle.lex_check.specs.Held.{path_in, IsHeld};

    ghost Value = { List ℕ };

    ghost view = { λ r. path_in r.bytes };

    ghost invariant = { λ r. IsHeld r.bytes };
}

impl Rotated {
    /// The path with these labels.
    #[tactic(auto, using(crate::proofs::Held::held_more, crate::proofs::Held::label_low))]
    pub fn of_labels(path: &[u8]) -> Rotated
        requires few { length path.now ≤ 16 }
        requires labels { IsTrue (list_all is_label path.now) }
        ensures { result ≡ path.now }
    {
        let mut bytes = [0; MAX_LABELS];
        for (place, label) in path.iter().enumerate() {
            bytes[place] = label + 1;
        }
        Rotated { bytes }
    }

    /// The label at a depth, from 0.
    #[tactic(auto, using(crate::proofs::Held::byte_at, crate::proofs::Held::row_length))]
    pub fn label(&self, depth: usize) -> u8
        requires { depth < length self.now }
        ensures { result ≡ slice_index self.now depth }
    {
        self.bytes[depth] - 1
    }

    /// Whether the path ends at a depth that it reaches.
    #[tactic(auto, using(crate::proofs::Held::ends_full, crate::proofs::Held::ends_zero, crate::proofs::Held::row_length))]
    pub fn ends_at(&self, depth: usize) -> bool
        requires { depth ≤ length self.now }
        ensures { result ≡ (length self.now == depth) }
    {
        depth == MAX_LABELS || self.bytes[depth] == 0
    }

    /// The number that the bytes of the path spell: paths are in order if their numbers are.
    #[tactic(auto, using(crate::proofs::Held::number_of_row))]
    pub fn number(&self) -> u128
        ensures number { result ≡ from_be_bytes w128 (held 16 self.now) }
        ensures few { length self.now ≤ 16 }
        ensures labels { IsTrue (list_all is_label self.now) }
    {
        u128::from_be_bytes(self.bytes)
    }
}

impl PartialEq for Rotated {
    ghost use Rattle.std.specs.Cmp.{partial_equiv_from_equiv};
    ghost use Rattle.std.proofs.lemmas.Cmp.{nat_list_eq_equiv};

    ghost eq = { pointwise nat_eq };

    ghost laws = { partial_equiv_from_equiv nat_list_eq_equiv };

    #[tactic(auto, using(crate::proofs::Held::same_numbers))]
    fn eq(&self, other: &Rotated) -> bool {
        self.number() == other.number()
    }
}
