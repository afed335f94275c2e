//! A board and its cross-sets that follow a game.
ghost use Rattle.std.specs.Prelude.{◌≡◌, Some, option_map};
ghost use Rattle.ref_board.specs.Cells.{empty_board};
ghost use Rattle.ref_play.specs.{Placements.{with_tiles, without_tiles, HasTiles, EmptiesSquares}, Legality.{IsLegal}, Best.{IsAnnotation}};
ghost use Rattle.lex_check.specs.Pairs.{list_in};
ghost use Rattle.gen_cross.specs.Values.{value_at};
ghost use Rattle.gen_sinks.specs.Sinks.{seen_pair};
ghost use Rattle.game_notes.specs.Tops.{AreTop};

use crate::annotating::annotate;
use crate::crossing::cross_sets;
use crate::searching::best_plays;
use crate::tops::MANY;
use gen_cross::Cross;
use gen_sinks::{Sink, Top};
use lex_check::Checked;
use ref_board::{Board, Dir, Square};
use ref_play::{Play, apply, undo};
use ref_tiles::{Counts, Rules};

/// A board and its cross-sets, which follow a game from its first play to its last. A play that is applied or taken back
/// updates them only around its own tiles.
///
/// The calls need the rules and the words that [`Follow::new`] got: by these the cross-sets are right for the board. They
/// allocate nothing.
#[derive(Drop)]
pub struct Follow {
    board: Board,
    cross: Cross,
}

impl Follow {
    ghost use Rattle.game_notes.specs.Following.{board_of, cross_of, Follows};

    /// The empty board, by rules and the words of a pair.
    pub fn new(rules: &Rules, pair: &Checked<'_>) -> Follow
        ensures board { board_of result ≡ empty_board }
        ensures follows { Follows rules.now (list_in pair.now) result }
    {
        let board = Board::empty();
        let cross = cross_sets(rules, pair, &board);
        Follow { board, cross }
    }

    /// The board.
    pub fn board(&self) -> &Board
        ensures { result.now ≡ board_of self.now }
    {
        &self.board
    }

    /// The cross-set of an empty square across a play of the direction: the letters, A first, that make a listed word
    /// there; all 26 if no tile is next to the square across the play, and none on a square with a tile.
    pub fn mask(&self, dir: Dir, square: Square) -> [bool; 26]
        ensures { result ≡ (value_at (cross_of self.now) dir square).mask }
    {
        self.cross.mask(dir, square)
    }

    /// The points of the tiles next to an empty square that would be in one word with a tile put there, across a play of
    /// the direction. Blanks count 0, and no premium counts.
    pub fn side(&self, dir: Dir, square: Square) -> u16
        ensures { result ≡ (value_at (cross_of self.now) dir square).side }
    {
        self.cross.side(dir, square)
    }

    /// Puts the tiles of a legal play on the board.
    pub fn apply(&mut self, rules: &Rules, pair: &Checked<'_>, play: &Play)
        requires legal { IsLegal (board_of self.old) play.now.tiles.items }
        requires follows { Follows rules.now (list_in pair.now) self.old }
        ensures board { board_of self.new ≡ with_tiles (board_of self.old) play.now.tiles.items }
        ensures there { HasTiles (board_of self.new) play.now.tiles.items }
        ensures follows { Follows rules.now (list_in pair.now) self.new }
    {
        apply(&mut self.board, play);
        self.cross.after_play(rules, &self.board, pair.file(), play);
    }

    /// Takes the tiles of a play off the board that holds them. The squares of the play are empty then, and every other
    /// square is as it was.
    pub fn undo(&mut self, rules: &Rules, pair: &Checked<'_>, play: &Play)
        requires there { HasTiles (board_of self.old) play.now.tiles.items }
        requires follows { Follows rules.now (list_in pair.now) self.old }
        ensures board { board_of self.new ≡ without_tiles (board_of self.old) play.now.tiles.items }
        ensures squares { EmptiesSquares play.now.tiles.items (board_of self.old) (board_of self.new) }
        ensures follows { Follows rules.now (list_in pair.now) self.new }
    {
        undo(&mut self.board, play);
        self.cross.after_play(rules, &self.board, pair.file(), play);
    }

    /// The best play that a rack allows on the board, with its score; none if there is no play. It has the greatest score,
    /// and of the plays with that score it is the first by its notation.
    pub fn annotate(&self, rules: &Rules, pair: &Checked<'_>, rack: &Counts) -> Option<(Play, i32)>
        requires { Follows rules.now (list_in pair.now) self.now }
        ensures { IsAnnotation rules.now (list_in pair.now) (board_of self.now) rack.now (option_map seen_pair result) }
    {
        let mut board = self.board;
        annotate(rules, pair, &mut board, rack, &self.cross)
    }

    /// The ten best plays that a rack allows on the board, best first: by score, and plays of equal score by their notations.
    /// There are fewer if the rack allows fewer plays.
    pub fn top(&self, rules: &Rules, pair: &Checked<'_>, rack: &Counts) -> Top<MANY>
        requires { Follows rules.now (list_in pair.now) self.now }
        ensures made_for { ⟦<Top<10> as Sink>⟧.made_for result ≡ Some (board_of self.now) }
        ensures top { AreTop rules.now (list_in pair.now) (board_of self.now) rack.now (⟦<Top<10> as Sink>⟧.items result) }
    {
        let mut board = self.board;
        best_plays(rules, pair, &mut board, rack, &self.cross)
    }
}
