//! Compiled lexicons: a view of the bytes of an untrusted file, and what every lexicon that is walked label by label promises.
//!
//! A compiled lexicon is a set of strings of labels, 1 to 26 for the letters A to Z and 0 for a mark between the two
//! parts of a rotated word (Steven Gordon, A Faster Scrabble Move Generation Algorithm, 1994). A file is a list of words
//! of 32 bits, the lowest byte first. The header has 16 bytes: the bytes of the format, `GAD1` or `GAD2`, the number of
//! arcs of a GAD1 file or of the words after the header of a GAD2 file, the root, the number of words of the list.
//!
//! The arcs of a GAD1 file follow its header, numbered from 1:
//!
//! | bits of an arc | meaning |
//! |---|---|
//! | 0 to 4 | label |
//! | 5 | accepts: the string that ends here is in the set |
//! | 6 | last arc of its node |
//! | 7 to 31 | target: the first arc of a node, 0 for none |
//!
//! A node is a run of arcs up to the first one marked as last, and is named by its first arc. Its labels rise, and a target is a
//! node that ends before the arc's own node begins.
//!
//! The nodes of a GAD2 file follow its header without a gap, over words numbered from 1. A node is a label word (bit 31 set; bit 0
//! the mark, bits 1 to 26 the letters), an accept word (a bit for each label that accepts), and a target for each label in rising
//! order, 0 for none. It is named by its label word, and a target is a node before it.
//!
//! So every walk ends. Nodes that no walk reaches are allowed.
//!
//! [`PathLex`] is what a lexicon that is walked label by label promises: its root, and what follows a label of a node. From these
//! it has the first label from one on with which a tail of a node begins, by which a walk goes from label to label. A lexicon that
//! finds it faster than by trying the labels can say how; and if it says what is left of the node after the label, a walk reads
//! each label once.
#![tactic(auto)]

mod arcs;
mod faults;
mod files;
mod formats;
mod laws;
mod lexicons;
mod mask_checks;
mod masks;
mod opening;
mod reading;
mod walking;

pub use arcs::Arc;
pub use faults::FileFault;
pub use files::{LexFile, Node};
pub use formats::{
    Format, GAD1_MAGIC, GAD2_MAGIC, HEADER_BYTES, MAX_ARCS, MAX_BODY_WORDS, MAX_FILE_BYTES,
};
pub use laws::{law_of_language, law_of_nodes};
pub use lexicons::{Branch, LABELS, MARK, Onward, PathLex, Step};
pub use walking::advance;
