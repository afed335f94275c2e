//! Racks, as records write them.
ghost use Rattle.std.specs.Prelude.{◌≡◌};
ghost use Rattle.gcg_read.specs.Racks.{rack_of};

use ref_tiles::{Counts, Kind};

/// The maximum number of tiles of a rack.
pub const MAX_TILES: usize = 7;

/// The rack that the bytes write, 1 to 7 of A to Z and `?` in any order; none for any other bytes.
pub fn read_rack(bytes: &[u8]) -> Option<Counts>
    ensures { result ≡ rack_of bytes.now }
{
    if bytes.is_empty() || bytes.len() > MAX_TILES {
        return None;
    }
    let mut counts = Counts::new();
    for byte in bytes {
        counts.add(Kind::of_byte(*byte)?);
    }
    Some(counts)
}
