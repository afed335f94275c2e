//! The play that a text names.
ghost use Rattle.std.specs.{Prelude.{◌≡◌, ◌+◌, ◌<◌, ◌≤◌, length, Some, None, IfErr, IfOk}, List.{list_all}};
ghost use Rattle.ref_board.specs.{Lines.{line_of, place_of}, Cells.{occupied_on}, Runs.{IsWhole}};
ghost use Rattle.ref_play.specs.{Placements.{with_tiles}, Formed.{along}, Texts.{symbol_fits, tile_of, fits_board, text_cells, placement_of, is_open_ended, text_fault}};

use crate::faults::PlayFault;
use crate::placed::Placed;
use crate::plays::{Play, RACK};
use arrayvec::ArrayVec;
use ref_board::{Board, Dir, SIDE, Square, follows_tile, precedes_tile};
use ref_tiles::{Symbol, Tile};

/// The square `by` places further on its line.
pub fn along(square: Square, dir: Dir, by: usize) -> Square
    requires { place_of dir square + by < 15 }
    ensures { result ≡ along dir square by }
{
    let line = square.line(dir);
    let place = square.place(dir) + by;
    Square::on_line(dir, line, place)
}

/// Whether a symbol agrees with what lies on its square.
pub fn symbol_fits(cell: Option<Tile>, symbol: Symbol) -> bool
    ensures { result ≡ symbol_fits cell symbol }
{
    match cell {
        None => symbol != Symbol::Dot,
        Some(tile) => shows(&tile, symbol),
    }
}

/// Whether a symbol may stand for a tile on the board.
fn shows(tile: &Tile, symbol: Symbol) -> bool
    ensures { result ≡ symbol_fits (Some tile.now) symbol }
{
    match symbol {
        Symbol::Dot => true,
        Symbol::Letter(letter) => letter.index == tile.shown.index,
        Symbol::Blank(letter) => letter.index == tile.shown.index,
    }
}

/// The new tile that a symbol puts on an empty square.
fn tile_of(cell: Option<Tile>, symbol: Symbol) -> Option<Tile>
    ensures { result ≡ tile_of cell symbol }
{
    if cell.is_some() {
        return None;
    }
    match symbol {
        Symbol::Dot => None,
        Symbol::Letter(letter) => Some(Tile::of_letter(letter)),
        Symbol::Blank(letter) => Some(Tile::of_blank(letter)),
    }
}

/// Whether each symbol of a text agrees with the board.
#[tactic(auto, unfolding(crate::specs::Texts::text_cells))]
fn fits_board(board: &Board, at: Square, dir: Dir, word: &[Symbol]) -> bool
    requires { place_of dir at + length word.now ≤ 15 }
    ensures { result ≡ list_all (fits_board board.now) (text_cells dir at word.now) }
{
    for (k, symbol) in word.iter().enumerate() {
        if !symbol_fits(board.at(along(at, dir, k)), *symbol) {
            return false;
        }
    }
    true
}

/// The new tiles of a text: its symbols that lie on empty squares.
#[tactic(auto, unfolding(crate::specs::Texts::placement_of, crate::specs::Texts::text_cells))]
pub fn placement_of(board: &Board, at: Square, dir: Dir, word: &[Symbol]) -> ArrayVec<Placed, SIDE>
    requires { place_of dir at + length word.now ≤ 15 }
    ensures { result.items ≡ placement_of board.now dir at word.now }
{
    let mut tiles = ArrayVec::new();
    for (k, symbol) in word.iter().enumerate() {
        let square = along(at, dir, k);
        if let Some(tile) = tile_of(board.at(square), *symbol) {
            tiles.push(Placed { square, tile });
        }
    }
    tiles
}

/// Whether a tile lies directly before or after a text.
#[tactic(auto, unfolding(crate::specs::Texts::is_open_ended))]
fn is_open_ended(board: &Board, at: Square, dir: Dir, word: &[Symbol]) -> bool
    requires { place_of dir at + length word.now ≤ 15 }
    ensures { result ≡ is_open_ended board.now dir at word.now }
{
    follows_tile(board, dir, at) || precedes_tile(board, dir, at, word.len())
}

/// The same tiles, in an array that has room for a rack.
pub fn shortened(tiles: &[Placed]) -> ArrayVec<Placed, RACK>
    requires { length tiles.now ≤ 7 }
    ensures { result.items ≡ tiles.now }
{
    let mut short = ArrayVec::new();
    for placed in tiles {
        short.push(*placed);
    }
    short
}

/// The play that a text names: its symbols lie on successive squares from `at` on; the new tiles are those that lie
/// on empty squares. A dot stands for a tile on the board, and so may the letter that the tile shows.
///
/// The fault is the first of: the text leaves the board, a symbol does not agree with the board, no tile is new,
/// more than seven are, a tile lies directly before or after the text.
#[tactic(auto, unfolding(crate::specs::Texts::text_fault, crate::specs::Texts::mismatches))]
pub fn from_text(board: &Board, at: Square, dir: Dir, word: &[Symbol]) -> Result<Play, PlayFault>
    ensures fault { IfErr result (λ why. text_fault board.now dir at word.now ≡ Some why) }
    ensures named { IfOk result (λ play. (text_fault board.now dir at word.now ≡ None)
        × (play.dir ≡ dir) × (play.tiles.items ≡ placement_of board.now dir at word.now)) }
    ensures whole { IfOk result (λ play.
        IsWhole (occupied_on dir (with_tiles board.now play.tiles.items) (line_of dir at)) (place_of dir at) (length word.now)) }
{
    board.law_of_squares();
    if word.len() > SIDE - at.place(dir) {
        return Err(PlayFault::OffBoard);
    }
    if !fits_board(board, at, dir, word) {
        return Err(PlayFault::Mismatch);
    }
    let tiles = placement_of(board, at, dir, word);
    if tiles.is_empty() {
        return Err(PlayFault::NoNewTile);
    }
    if tiles.len() > RACK {
        return Err(PlayFault::TooManyTiles);
    }
    if is_open_ended(board, at, dir, word) {
        return Err(PlayFault::NotWhole);
    }
    Ok(Play {
        dir,
        tiles: shortened(&tiles),
    })
}
