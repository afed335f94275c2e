//! Tiles from a text.
use ref_tiles::{Counts, Kind};

/// The tiles of a text, where `?` is a blank; none if a byte is not a tile, or if there are more than 255 of a kind.
pub fn tiles_of(text: &[u8]) -> Option<Counts> {
    let mut counts = Counts::new();
    for byte in text {
        let kind = Kind::of_byte(*byte)?;
        if counts.count(kind) == 255 {
            return None;
        }
        counts.add(kind);
    }
    Some(counts)
}
