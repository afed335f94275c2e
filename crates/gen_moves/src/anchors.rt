//! Upper bounds for the plays of each anchor of a line.
ghost use Rattle.std.specs.Prelude.{◌≡◌, ◌-◌, ◌*◌, ◌<◌, ◌≤◌, ℕ, Bool, true, List, [], slice_index, slice_index_or};
ghost use Rattle.gen_line.specs.Cells.{cell_at, is_anchor_cell};
ghost use Rattle.gen_moves.specs.Bounds.{IsSmall, IsAnchorBound, HasScores, AreOffers, place_in, rack_points, rack_ones};
ghost use Rattle.gen_moves.specs.Closing.{open_in};
ghost use Rattle.gen_moves.specs.Starts.{AreUnder, bound_in};

use crate::closing::open_places;
use crate::places::{Place, line_places};
use crate::stretches::longest;
use gen_cross::Cross;
use gen_line::Cell;
use ref_board::{Board, Dir, SIDE};
use ref_tiles::{KINDS, Rules};

/// What the tiles of a rack add to bounds.
#[derive(Clone, Copy, Debug)]
pub struct RackWorth {
    /// The sum of their points above one for each tile.
    pub points: u64,
    /// The number of them that have points.
    pub ones: u64,
}

/// Whether a cell is an anchor.
fn is_anchor(cell: &Cell) -> bool
    ensures { result ≡ is_anchor_cell cell.now }
{
    match cell {
        Cell::Old(_) => false,
        Cell::Free(free) => free.anchor,
    }
}

/// An upper bound for the plays whose first covered anchor is this one.
fn anchor_bound(
    cells: &[Cell; SIDE],
    places: &[Place; SIDE],
    opens: &[bool; SIDE],
    anchor: usize,
    worth: RackWorth,
    bonus: u64,
) -> u64
    requires anchor { anchor < SIDE }
    requires small { (i : ℕ) → i < SIDE → IsSmall (place_in places.now i) }
    requires points { worth.points ≤ 2000000 }
    requires ones { worth.ones ≤ 2000000 }
    requires bonus { bonus ≤ 65535 }
    ensures { IsAnchorBound bonus worth.points worth.ones cells.now (place_in places.now) (open_in opens.now) anchor result }
{
    if !opens[anchor] {
        return 0;
    }
    let mut bound = longest(places, opens, anchor, worth.points, worth.ones, bonus);
    let mut free = u64::from(places[anchor].free);
    for back in 0..anchor {
        let first = anchor - 1 - back;
        free += u64::from(places[first].free);
        if free > 7 {
            return bound;
        }
        if is_anchor(&cells[first]) {
            return bound;
        }
        if !opens[first] {
            return bound;
        }
        let further = longest(places, opens, first, worth.points, worth.ones, bonus);
        if further > bound {
            bound = further;
        }
    }
    bound
}

/// For each place of a line, an upper bound for the plays whose first covered anchor it is.
fn line_bounds(
    rules: &Rules,
    board: &Board,
    cross: &Cross,
    dir: Dir,
    line: usize,
    cells: &[Cell; SIDE],
    rack: &[u8; KINDS],
    worth: RackWorth,
) -> [u64; SIDE]
    requires line { line < SIDE }
    requires points { worth.points ≤ 2000000 }
    requires ones { worth.ones ≤ 2000000 }
    requires scores { HasScores rules.now board.now cross.now }
    ensures { (g : List ℕ → Bool) → AreOffers rules.now worth.points worth.ones board.now g cells.now rack.now dir line
        → (h : ℕ) → h < SIDE → AreUnder rules.now board.now g cells.now rack.now dir line h (slice_index result h) }
{
    let places = line_places(rules, board, cross, dir, line);
    let opens = open_places(cells, rack);
    let bonus = rules.bonus as u64;
    let mut bounds = [0; SIDE];
    for anchor in 0..SIDE {
        if !is_anchor(&cells[anchor]) {
            continue;
        }
        bounds[anchor] = anchor_bound(cells, &places, &opens, anchor, worth, bonus);
    }
    bounds
}

/// The same bounds for all lines of a direction.
pub fn all_bounds(
    rules: &Rules,
    board: &Board,
    cross: &Cross,
    dir: Dir,
    lines: &[[Cell; SIDE]; SIDE],
    rack: &[u8; KINDS],
    worth: RackWorth,
) -> [[u64; SIDE]; SIDE]
    requires points { worth.points ≤ 2000000 }
    requires ones { worth.ones ≤ 2000000 }
    requires scores { HasScores rules.now board.now cross.now }
    ensures { (line : ℕ) → line < SIDE → (g : List ℕ → Bool)
        → AreOffers rules.now worth.points worth.ones board.now g (slice_index_or lines.now line []) rack.now dir line
        → (h : ℕ) → h < SIDE → AreUnder rules.now board.now g (slice_index_or lines.now line []) rack.now dir line h (bound_in result line h) }
{
    let mut bounds = [[0; SIDE]; SIDE];
    for line in 0..SIDE {
        bounds[line] = line_bounds(rules, board, cross, dir, line, &lines[line], rack, worth);
    }
    bounds
}

/// The points of a tile above one.
fn above_one(points: u8) -> u8
    ensures { result ≡ points - 1 }
{
    points.saturating_sub(1)
}

/// The points of a number of tiles of a kind.
fn points_of_tiles(number: u8, points: u8) -> u64
    ensures points { result ≡ number * points }
    ensures limit { result ≤ 65025 }
{
    number as u64 * points as u64
}

/// One if a tile has points.
fn one_for(points: u8) -> u8
    ensures { result ≡ points - (points - 1) }
{
    u8::from(points > 0)
}

/// What the tiles of a rack add to bounds.
pub fn rack_worth(rules: &Rules, rack: &[u8; KINDS]) -> RackWorth
    ensures points { result.points ≡ rack_points rules.now rack.now KINDS }
    ensures ones { result.ones ≡ rack_ones rules.now rack.now KINDS }
    ensures few_points { result.points ≤ 2000000 }
    ensures few_ones { result.ones ≤ 2000000 }
{
    let mut points = 0;
    let mut ones = 0;
    for kind in 0..rules.points.len() {
        points += points_of_tiles(rack[kind], above_one(rules.points[kind]));
        ones += points_of_tiles(rack[kind], one_for(rules.points[kind]));
    }
    RackWorth { points, ones }
}
