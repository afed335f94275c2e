//! The cross-sets of a board: computed from scratch, or updated after a play.
ghost use Rattle.std.specs.Prelude.{◌≡◌, ℕ, List, Option};
ghost use Rattle.ref_tiles.specs.declared.tiles.Tile.{Tile};
ghost use Rattle.ref_board.specs.Cells.{with_tile};
ghost use Rattle.lex_list.specs.RotatedPaths.{StandsFor};
ghost use Rattle.gen_cross.specs.Values.{value_at, AreValues, IsRight};
ghost use Rattle.gen_cross.specs.Changes.{IsPut, IsLifted, DifferOn};

use crate::masks::LETTERS;
use crate::renewals::{renew_beside, renew_play};
use crate::values::{nothing, value_of};
use lex_file::PathLex;
use ref_board::{Board, Dir, SIDE, Square};
use ref_play::Play;
use ref_tiles::{Rules, SQUARES};

/// What a square is for a play of one direction.
#[derive(Clone, Copy)]
pub struct Value {
    /// Which letters, A to Z, make a listed word across the play; none if the square has a tile.
    pub mask: [bool; LETTERS],
    /// The points of the old tiles of that word.
    pub side: u16,
}

/// The cross-sets of a board: for each direction of play and each square, the letters that may be put there, and the points beside
/// it. An empty square with no tile beside it, across the direction, has all letters and no points; a square with a tile has
/// neither.
#[derive(Clone, Copy)]
pub struct Cross {
    across: [Value; SQUARES],
    down: [Value; SQUARES],
}

impl Cross {
    /// The cross-sets of a board, computed from scratch: right for the board by the list of words that the lexicon stands for. It
    /// takes no memory.
    pub fn scratch<L: PathLex>(rules: &Rules, board: &Board, lex: &L) -> Cross
        ensures { (words : List (List ℕ)) → StandsFor (L.language lex.now) words → IsRight rules.now words board.now result }
    {
        Cross {
            across: values_along(rules, board, lex, Dir::Across),
            down: values_along(rules, board, lex, Dir::Down),
        }
    }

    /// Updates the cross-sets for a board on which a tile was put on an empty square: if they were right for the board before, they
    /// are right for the board after. It takes no memory.
    pub fn after_put<L: PathLex>(&mut self, rules: &Rules, board: &Board, lex: &L, square: Square)
        ensures { (words : List (List ℕ)) (before : List (Option Tile)) → StandsFor (L.language lex.now) words
            → IsPut square before board.now → IsRight rules.now words before self.old → IsRight rules.now words board.now self.new }
    {
        self.renew(rules, board, lex, square);
    }

    /// Updates the cross-sets for a board from which the tile of a square was lifted: if they were right for the board before, they
    /// are right for the board after. It takes no memory.
    pub fn after_lift<L: PathLex>(&mut self, rules: &Rules, board: &Board, lex: &L, square: Square)
        ensures { (words : List (List ℕ)) (before : List (Option Tile)) → StandsFor (L.language lex.now) words
            → IsLifted square before board.now → IsRight rules.now words before self.old → IsRight rules.now words board.now self.new }
    {
        self.renew(rules, board, lex, square);
    }

    /// Updates the cross-sets for a board on which the tiles of a play were put, or from which they were lifted: if they were right
    /// for the board before, they are right for the board after. Along the play, letters are searched only for the squares next to
    /// its run, and across it only for those next to the run through each of its tiles. It takes no memory.
    pub fn after_play<L: PathLex>(&mut self, rules: &Rules, board: &Board, lex: &L, play: &Play)
        ensures { (words : List (List ℕ)) (before : List (Option Tile)) → StandsFor (L.language lex.now) words
            → DifferOn play.now.tiles.items before board.now
            → IsRight rules.now words before self.old → IsRight rules.now words board.now self.new }
    {
        match play.dir {
            Dir::Across => renew_play(rules, board, lex, play, &mut self.across, &mut self.down),
            Dir::Down => renew_play(rules, board, lex, play, &mut self.down, &mut self.across),
        }
    }

    /// Updates the values that depend on the content of one square.
    fn renew<L: PathLex>(&mut self, rules: &Rules, board: &Board, lex: &L, square: Square)
        ensures { (words : List (List ℕ)) (before : List (Option Tile)) (cell : Option Tile) → StandsFor (L.language lex.now) words
            → board.now ≡ with_tile before square cell
            → IsRight rules.now words before self.old → IsRight rules.now words board.now self.new }
    {
        renew_beside(rules, board, lex, Dir::Across, square, &mut self.across);
        renew_beside(rules, board, lex, Dir::Down, square, &mut self.down);
    }

    /// The letters, A first, that make a listed word across a play of the direction through an empty square; all 26 if no tile lies
    /// beside it across the play, and none on a square with a tile.
    pub fn mask(&self, dir: Dir, square: Square) -> [bool; LETTERS]
        ensures { result ≡ (value_at self.now dir square).mask }
    {
        self.value(dir, square).mask
    }

    /// The points of the tiles beside an empty square that would be in one word with a tile put there, across a play of the
    /// direction. Blanks count 0, and no premium counts.
    pub fn side(&self, dir: Dir, square: Square) -> u16
        ensures { result ≡ (value_at self.now dir square).side }
    {
        self.value(dir, square).side
    }

    /// The value of a square.
    fn value(&self, dir: Dir, square: Square) -> Value
        ensures { result ≡ value_at self.now dir square }
    {
        match dir {
            Dir::Across => self.across[square.number()],
            Dir::Down => self.down[square.number()],
        }
    }
}

/// The values of all squares, for plays of a direction.
fn values_along<L: PathLex>(rules: &Rules, board: &Board, lex: &L, dir: Dir) -> [Value; SQUARES]
    ensures { (words : List (List ℕ)) → StandsFor (L.language lex.now) words → AreValues rules.now words dir board.now result }
{
    let mut values = [nothing(); SQUARES];
    for number in 0..SQUARES {
        let square = Square::on_line(Dir::Across, number / SIDE, number % SIDE);
        values[number] = value_of(rules, board, lex, dir, square);
    }
    values
}
