//! How a square is written.
ghost use Rattle.std.specs.Prelude.{◌≡◌};
ghost use Rattle.ref_tiles.specs.Symbols.{byte_of};
ghost use Rattle.ref_play.specs.Notations.{symbol_by};
ghost use Rattle.game_board.specs.Marks.{premium_mark, square_mark};

use ref_board::{Board, Square};
use ref_play::symbol_by;
use ref_tiles::{Premium, Rules, Tile};

/// The mark of a premium.
fn premium_mark(premium: Premium) -> u8
    ensures { result ≡ premium_mark premium }
{
    match premium {
        Premium::Plain => b'.',
        Premium::DoubleLetter => b'\'',
        Premium::TripleLetter => b'"',
        Premium::DoubleWord => b'-',
        Premium::TripleWord => b'=',
    }
}

/// The letter that a tile shows: a capital for a letter tile, a small one for a blank.
pub fn tile_mark(tile: &Tile) -> u8
    ensures { result ≡ byte_of (symbol_by tile.now.kind tile.now.shown) }
{
    symbol_by(tile).byte()
}

/// The mark of a square: its tile by the letter that it shows, a capital for a letter tile and a small one for a blank; if it is
/// empty, its premium: `=` for a triple word, `-` for a double word, `"` for a triple letter, `'` for a double letter and `.` for
/// none.
#[tactic(auto, unfolding(crate::specs::Marks::square_mark))]
pub fn square_mark(rules: &Rules, board: &Board, square: Square) -> u8
    ensures { result ≡ square_mark rules.now board.now square }
{
    match board.at(square) {
        None => premium_mark(rules.premium(square.number())),
        Some(tile) => tile_mark(&tile),
    }
}
