//! The most that each place of a line adds to the score of a play.
ghost use Rattle.std.specs.Prelude.{◌≡◌, ◌<◌, ◌≤◌, ℕ, ◌⊎◌};
ghost use Rattle.ref_tiles.specs.declared.tiles.Tile.{Tile};
ghost use Rattle.ref_tiles.specs.declared.rulebook.Rules.{Rules};
ghost use Rattle.ref_board.specs.Lines.{other_dir};
ghost use Rattle.ref_play.specs.Crosses.{cross_score};
ghost use Rattle.gen_moves.specs.Bounds.{IsPlaceOf, IsSmall, ArePlaces, HasScores, place_in};

use gen_cross::Cross;
use ref_board::{Board, Dir, SIDE, Square, follows_tile, precedes_tile};
use ref_play::points_on;
use ref_tiles::Rules;

/// The most that a place of a line adds to the score of a play along the line.
#[derive(Clone, Copy)]
pub struct Place {
    /// Whether it has no tile.
    pub free: bool,
    /// The points of its old tile.
    pub old: u64,
    /// The letter premium under a new tile.
    pub letter: u64,
    /// The word premium under a new tile.
    pub word: u64,
    /// The score of the old tiles of the cross word.
    pub side: u64,
    /// The factor of the cross word for the points of a new tile.
    pub cross: u64,
}

/// The factor of the cross word through an empty square for the points of a new tile, from the premiums of the square; if no tile
/// lies beside it across the play, there is no such word.
fn cross_factor(board: &Board, dir: Dir, square: Square, premiums: u64) -> u64
    ensures limit { result ≤ premiums }
    ensures factor { (result ≡ premiums) ⊎ ((rules : Rules) (t : Tile) → cross_score rules (other_dir dir) board.now square t ≡ 0) }
{
    board.law_of_squares();
    if follows_tile(board, dir.other(), square) || precedes_tile(board, dir.other(), square, 1) {
        return premiums;
    }
    0
}

/// What a square adds to the score of a play of a direction.
fn place_of(rules: &Rules, board: &Board, cross: &Cross, dir: Dir, square: Square) -> Place
    ensures place { HasScores rules.now board.now cross.now → IsPlaceOf rules.now dir board.now square result }
    ensures small { IsSmall result }
{
    if board.at(square).is_some() {
        return Place {
            free: false,
            old: points_on(rules, board.at(square)) as u64,
            letter: 0,
            word: 1,
            side: 0,
            cross: 0,
        };
    }
    let premium = rules.premium(square.number());
    let letter = premium.letter_factor() as u64;
    let word = premium.word_factor() as u64;
    Place {
        free: true,
        old: 0,
        letter,
        word,
        side: cross.side(dir, square) as u64 * word,
        cross: cross_factor(board, dir, square, letter * word),
    }
}

/// The places of a line.
pub fn line_places(
    rules: &Rules,
    board: &Board,
    cross: &Cross,
    dir: Dir,
    line: usize,
) -> [Place; SIDE]
    requires { line < SIDE }
    ensures places { HasScores rules.now board.now cross.now → ArePlaces rules.now dir board.now line (place_in result) }
    ensures small { (i : ℕ) → i < SIDE → IsSmall (place_in result i) }
{
    let mut places = [Place {
        free: true,
        old: 0,
        letter: 0,
        word: 0,
        side: 0,
        cross: 0,
    }; SIDE];
    for place in 0..SIDE {
        places[place] = place_of(rules, board, cross, dir, Square::on_line(dir, line, place));
    }
    places
}
