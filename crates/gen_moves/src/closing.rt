//! Places of a line on which no tile of a rack can be laid, so that no play crosses them.
ghost use Rattle.std.specs.Prelude.{◌≡◌, ◌<◌, ℕ, false};
ghost use Rattle.gen_moves.specs.Closing.{lays, IsClosed, AreOpen, open_in};

use gen_cross::LETTERS;
use gen_line::{Cell, Open};
use ref_board::SIDE;
use ref_tiles::KINDS;

/// Whether a square allows a letter that a tile of a rack can show.
fn allows_some(free: &Open, rack: &[u8; KINDS]) -> bool
    ensures { result ≡ false → (k : ℕ) → k < 26 → lays free.now rack.now k ≡ false }
{
    let has_blank = rack[LETTERS] > 0;
    for letter in 0..LETTERS {
        if free.mask[letter] && (rack[letter] > 0 || has_blank) {
            return true;
        }
    }
    false
}

/// Whether a place may have a tile once a play lies there.
fn is_open(cell: &Cell, rack: &[u8; KINDS]) -> bool
    ensures { result ≡ false → IsClosed rack.now cell.now }
{
    match cell {
        Cell::Old(_) => true,
        Cell::Free(free) => allows_some(free, rack),
    }
}

/// Which places of a line may have a tile once a play lies there.
pub fn open_places(cells: &[Cell; SIDE], rack: &[u8; KINDS]) -> [bool; SIDE]
    ensures { AreOpen cells.now rack.now (open_in result) }
{
    let mut opens = [false; SIDE];
    for place in 0..SIDE {
        opens[place] = is_open(&cells[place], rack);
    }
    opens
}
