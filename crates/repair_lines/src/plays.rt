//! Whether two plays have the same position, and the same text.

use gcg_read::EventKind;
use ref_tiles::Symbol;

/// Whether both are the same symbols.
fn same_symbols(word: &[Symbol], other: &[Symbol]) -> bool {
    if word.len() != other.len() {
        return false;
    }
    for place in 0..word.len() {
        if word[place].byte() != other[place].byte() {
            return false;
        }
    }
    true
}

/// Whether both are plays with the same text.
pub(crate) fn have_one_word(kind: &EventKind, other: &EventKind) -> bool {
    match (kind, other) {
        (EventKind::Play { word, .. }, EventKind::Play { word: text, .. }) => {
            same_symbols(word.as_slice(), text.as_slice())
        }
        _ => false,
    }
}

/// Whether both are plays in the same position.
pub(crate) fn have_one_position(kind: &EventKind, other: &EventKind) -> bool {
    match (kind, other) {
        (
            EventKind::Play { at, dir, .. },
            EventKind::Play {
                at: square,
                dir: way,
                ..
            },
        ) => *at == *square && *dir == *way,
        _ => false,
    }
}
