//! Changes of one kind at one place that differ in a letter, or in how many tiles are exchanged.
ghost use Rattle.std.specs.Prelude.{◌≡◌};
ghost use Rattle.repair_answers.specs.Alike.{same_tile, same_use, like_spelling, like_tile, like_misread, like_code, like_missing, like_slip, is_like};

use gcg_read::same_seat;
use ref_tiles::Kind;
use repair_changes::{CodeSlip, Misread, MissingLine, Slip, SpellingSlip, TileSlip, TilesOf};
use repair_single::Repair;

/// Whether both are the same kind of tile.
pub(crate) fn same_tile(kind: Kind, other: Kind) -> bool
    ensures { result ≡ same_tile kind other }
{
    kind.byte() == other.byte()
}

/// Whether both are tiles of the same field of a line.
fn same_use(of: TilesOf, other: TilesOf) -> bool
    ensures { result ≡ same_use of other }
{
    match (of, other) {
        (TilesOf::Rack, TilesOf::Rack) => true,
        (TilesOf::Exchange, TilesOf::Exchange) => true,
        (TilesOf::LastRack, TilesOf::LastRack) => true,
        _ => false,
    }
}

/// Whether two slips of a text differ at most in a letter.
fn like_spelling(slip: &SpellingSlip, other: &SpellingSlip) -> bool
    ensures { result ≡ like_spelling slip.now other.now }
{
    match (slip, other) {
        (SpellingSlip::OtherTile { place, .. }, SpellingSlip::OtherTile { place: at, .. }) => {
            *place == *at
        }
        (SpellingSlip::Letter { place, .. }, SpellingSlip::Letter { place: at, .. }) => {
            *place == *at
        }
        (SpellingSlip::OtherLetter { place, .. }, SpellingSlip::OtherLetter { place: at, .. }) => {
            *place == *at
        }
        (
            SpellingSlip::MissingLetter { place, .. },
            SpellingSlip::MissingLetter { place: at, .. },
        ) => *place == *at,
        _ => false,
    }
}

/// Whether two slips of tiles differ at most in the right tile.
fn like_tile(slip: &TileSlip, other: &TileSlip) -> bool
    ensures { result ≡ like_tile slip.now other.now }
{
    match (slip, other) {
        (TileSlip::Other { tile, .. }, TileSlip::Other { tile: one, .. }) => same_tile(*tile, *one),
        (TileSlip::Extra { .. }, TileSlip::Extra { .. }) => true,
        (TileSlip::Missing { .. }, TileSlip::Missing { .. }) => true,
        _ => false,
    }
}

/// Whether the same tile is misread twice.
fn like_misread(slip: &Misread, other: &Misread) -> bool
    ensures { result ≡ like_misread slip.now other.now }
{
    match (slip, other) {
        (Misread::Played { place, .. }, Misread::Played { place: at, .. }) => *place == *at,
        (Misread::Exchanged { tile, .. }, Misread::Exchanged { tile: one, .. }) => {
            same_tile(*tile, *one)
        }
        _ => false,
    }
}

/// Whether two codes differ at most in how many tiles are exchanged.
fn like_code(slip: &CodeSlip, other: &CodeSlip) -> bool
    ensures { result ≡ like_code slip.now other.now }
{
    match (slip, other) {
        (CodeSlip::Exchange(_), CodeSlip::Exchange(_)) => true,
        _ => false,
    }
}

/// Whether two missing lines differ at most in how many tiles are exchanged.
fn like_missing(line: &MissingLine, other: &MissingLine) -> bool
    ensures { result ≡ like_missing line.now other.now }
{
    match (line, other) {
        (MissingLine::Exchange { player, .. }, MissingLine::Exchange { player: one, .. }) => {
            same_seat(*player, *one)
        }
        _ => false,
    }
}

/// Whether two slips are of one kind, and differ at most in a letter or in how many tiles are exchanged.
fn like_slip(slip: &Slip, other: &Slip) -> bool
    ensures { result ≡ like_slip slip.now other.now }
{
    match (slip, other) {
        (Slip::Spelling(slip), Slip::Spelling(other)) => like_spelling(slip, other),
        (
            Slip::Tile { of, slip },
            Slip::Tile {
                of: whose,
                slip: other,
            },
        ) => { same_use(*of, *whose) && like_tile(slip, other) }
        (Slip::Misread(slip), Slip::Misread(other)) => like_misread(slip, other),
        (Slip::Number(_), Slip::Number(_)) => true,
        (Slip::Code(slip), Slip::Code(other)) => like_code(slip, other),
        (Slip::Missing(line), Slip::Missing(other)) => like_missing(line, other),
        _ => false,
    }
}

/// Whether two repairs share a line: they are of one kind and one cost, at one place.
pub(crate) fn is_like(repair: &Repair, other: &Repair) -> bool
    ensures { result ≡ is_like repair.now other.now }
{
    let change = &repair.listed.change;
    let next = &other.listed.change;
    change.place == next.place
        && repair.remains.cost(&change.slip) == other.remains.cost(&next.slip)
        && like_slip(&change.slip, &next.slip)
}
