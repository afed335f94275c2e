//! Arcs as words of a file.
ghost use Rattle.std.specs.Prelude.{◌≡◌, ◌+◌, ◌≤◌, false};
ghost use Rattle.lex_file.specs.Arcs.{arc_of, is_last};
ghost use Rattle.lex_file.specs.Formats.{greatest_label, most_arcs};

use smallvec::SmallVec;

/// The arcs of a node, in rising order of their labels: the words of a file, without the bit of a last arc.
pub type Arcs = SmallVec<u32, 4>;

/// The bit of an arc that says that the string that ends with it is in the set.
const ACCEPTS: u32 = 32;

/// The bit of an arc that says that it is the last of its node.
const LAST_ARC: u32 = 64;

/// The factor of the number of an arc's target in its word.
const TARGET: u32 = 128;

/// The word of an arc, without the bit of a last arc.
pub fn arc_word(label: u8, accepts: bool, target: u32) -> u32
    requires label { label ≤ greatest_label }
    requires target { target ≤ most_arcs }
    ensures label { (arc_of result).label ≡ label }
    ensures accepts { (arc_of result).accepts ≡ accepts }
    ensures target { (arc_of result).target ≡ target }
    ensures unmarked { is_last result ≡ false }
{
    let accepting = if accepts { ACCEPTS } else { 0 };
    TARGET * target + accepting + label as u32
}

/// The word of an arc that is the last of its node.
#[tactic(auto, using(crate::proofs::Bytes::markable))]
pub fn last_arc_word(word: u32) -> u32
    requires { is_last word ≡ false }
    ensures { result ≡ word + 64 }
{
    word + LAST_ARC
}
