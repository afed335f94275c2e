//! One tile fewer, or one more.
ghost use Rattle.std.specs.Prelude.{◌≡◌};
ghost use Rattle.repair_changes.specs.TileCounts.{one_less, one_more};

use ref_tiles::{Counts, Kind};

/// One fewer tile of a kind, if there is one.
pub fn one_less(counts: &Counts, kind: Kind) -> Counts
    ensures { result ≡ one_less counts.now kind }
{
    let mut less = *counts;
    if less.count(kind) == 0 {
        return less;
    }
    let _ = less.take(kind);
    less
}

/// One more tile of a kind, if there is room for it.
pub fn one_more(counts: &Counts, kind: Kind) -> Counts
    ensures { result ≡ one_more counts.now kind }
{
    let mut more = *counts;
    if more.count(kind) >= 255 {
        return more;
    }
    more.add(kind);
    more
}
