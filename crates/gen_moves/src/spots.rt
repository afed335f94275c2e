//! Where the tiles of a move are laid.
ghost use Rattle.std.specs.Prelude.{◌≡◌, ◌<◌};
ghost use Rattle.ref_play.specs.Legality.{IsLegal};
ghost use Rattle.ref_play.specs.Directions.{is_wanted, RunsAlong};
ghost use Rattle.gen_moves.specs.LineTiles.{placement_of};
ghost use Rattle.gen_moves.specs.Reporting.{IsFit, PlayIs};

use crate::entries::LineTiles;
use arrayvec::ArrayVec;
use ref_board::{Board, Dir, SIDE, Square};
use ref_play::{Placed, Play, RACK, notation, shortened};

/// A line of a board.
#[derive(Clone, Copy)]
pub struct Spot<'a> {
    /// The board.
    pub board: &'a Board,
    /// The direction of the line.
    pub dir: Dir,
    /// Its row across, its column down, from 0.
    pub line: usize,
}

impl Spot<'_> {
    /// Some new tiles, each with its square.
    fn placed(&self, tiles: &LineTiles) -> ArrayVec<Placed, SIDE>
        requires { self.now.line < SIDE }
        ensures { result.items ≡ placement_of self.now.dir self.now.line tiles.now }
    {
        let mut placed = ArrayVec::new();
        for place in 0..SIDE {
            if let Some(tile) = tiles[place] {
                let square = Square::on_line(self.dir, self.line, place);
                placed.push(Placed { square, tile });
            }
        }
        placed
    }

    /// Whether a play that runs along the line is written in its direction.
    fn has_written(&self, play: &Play) -> bool
        requires legal { IsLegal self.now.board.now play.now.tiles.items }
        requires runs { RunsAlong self.now.dir self.now.board.now play.now.tiles.items }
        ensures { result ≡ is_wanted self.now.board.now self.now.dir play.now.tiles.items }
    {
        self.board.law_of_squares();
        play.tiles.len() > 1 || notation(self.board, play).dir == self.dir
    }

    /// The play of some new tiles, if it is written in the direction of the line and does not have too many of them.
    pub fn play_of(&self, tiles: &LineTiles) -> Option<Play>
        requires { IsFit self.now.board.now self.now.dir self.now.line tiles.now }
        ensures { PlayIs self.now.board.now self.now.dir self.now.line tiles.now result }
    {
        let placed = self.placed(tiles);
        if placed.len() > RACK {
            return None;
        }
        let play = Play {
            dir: self.dir,
            tiles: shortened(&placed),
        };
        if !self.has_written(&play) {
            return None;
        }
        Some(play)
    }
}
