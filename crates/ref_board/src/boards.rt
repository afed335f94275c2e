//! The board.
ghost use Rattle.std.specs.Prelude.{◌≡◌, ◌↔◌, true, ◌<◌, IsTrue, IsSome, length, Some, None, OnSome};
ghost use Rattle.ref_board.specs.Cells.{empty_board, tile_at, holds, with_tile, HasNoTile, occupied_on, transposed, AreTransposed};
ghost use Rattle.ref_board.specs.Anchors.{centre, IsAnchor};
ghost use Rattle.ref_board.specs.Runs.{IsRunThrough, IsFirstBack, IsEndOn};

use crate::anchors::touches;
use crate::directions::Dir;
use crate::squares::Square;
use ref_tiles::{SIDE, SQUARES, Tile};
use std::marker::Model;

/// A board: which squares have a tile, and which tile.
#[derive(Clone, Copy, Debug, PartialEq, Eq)]
pub struct Board {
    cells: [Option<Tile>; SQUARES],
}

impl Model for Board {
    ghost use Rattle.std.specs.Prelude.{◌≡◌, List, Option, length};
    ghost use Rattle.ref_tiles.specs.declared.tiles.Tile.{Tile};

    ghost Value = { List (Option Tile) };

    ghost view = { λ b. b.cells };

    ghost invariant = { λ b. length b.cells ≡ 225 };

    ghost inverse = { λ cells. record { cells = cells } };
}

impl Board {
    /// A board with no tile.
    #[tactic(auto, unfolding(crate::specs::Cells::empty_board))]
    pub fn empty() -> Board
        ensures { result ≡ empty_board }
    {
        Board {
            cells: [None; SQUARES],
        }
    }

    /// The tile on a square.
    pub fn at(&self, square: Square) -> Option<Tile>
        ensures { result ≡ tile_at self.now square }
    {
        self.cells[square.number()]
    }

    /// Puts a tile on an empty square.
    pub fn put(&mut self, square: Square, tile: Tile)
        requires { tile_at self.old square ≡ None }
        ensures { self.new ≡ with_tile self.old square (Some tile) }
    {
        self.cells[square.number()] = Some(tile);
    }

    /// Takes the tile off a square and returns it.
    pub fn lift(&mut self, square: Square) -> Tile
        requires { IsSome (tile_at self.old square) }
        ensures tile { tile_at self.old square ≡ Some result }
        ensures lifted { self.new ≡ with_tile self.old square None }
    {
        let cell = self.cells[square.number()];
        self.cells[square.number()] = None;
        cell.unwrap()
    }

    /// Whether no square has a tile.
    pub fn is_empty(&self) -> bool
        ensures { IsTrue result ↔ HasNoTile self.now }
    {
        has_no_tile(&self.cells)
    }

    /// The number of squares of the board, always 225.
    pub fn len(&self) -> usize
        ensures len { result ≡ length self.now }
        ensures size { length self.now ≡ 225 }
    {
        let cells: &[Option<Tile>] = &self.cells;
        cells.len()
    }

    /// The board has 225 squares. The call does nothing: its contract is the law.
    pub fn law_of_squares(&self)
        ensures { length self.now ≡ 225 }
    {
        let _ = &self.cells;
    }

    /// The contents of the squares, in the order of their numbers.
    pub fn cells(&self) -> &[Option<Tile>]
        ensures cells { result.now ≡ self.now }
        ensures size { length self.now ≡ 225 }
    {
        &self.cells
    }

    /// Whether a square is an anchor: an empty square orthogonally beside a tile, or the centre, 8H, of an empty board.
    /// Each legal play covers one (Appel and Jacobson 1988, The World's Fastest Scrabble Program).
    pub fn is_anchor(&self, square: Square) -> bool
        ensures { IsTrue result ↔ IsAnchor self.now square }
    {
        let free = self.cells[square.number()].is_none();
        free && (self.opens_at(square) || touches(self, square))
    }

    /// Whether the board is empty and the square its centre, 8H, which the first play covers.
    fn opens_at(&self, square: Square) -> bool
        ensures { IsTrue result ↔ (square ≡ centre) × HasNoTile self.now }
    {
        square == Square::on_line(Dir::Across, 7, 7) && self.is_empty()
    }

    /// The board with its rows and columns exchanged: each row has the tiles of the column with its number.
    pub fn transposed(&self) -> Board
        ensures board { result ≡ transposed self.now }
        ensures exact { AreTransposed self.now result }
    {
        let mut cells = [None; SQUARES];
        for number in 0..SQUARES {
            cells[number] = self.cells[SIDE * (number % SIDE) + number / SIDE];
        }
        Board { cells }
    }

    /// The run through a square that has a tile: the maximal stretch of tiles in a direction, as its first square and the number of
    /// its tiles. A single tile is a run of one.
    pub fn run(&self, square: Square, dir: Dir) -> (Square, usize)
        requires { holds self.now square ≡ true }
        ensures { IsRunThrough self.now dir square result.0 result.1 }
    {
        let line = square.line(dir);
        let first = self.first_of_run(dir, line, square.place(dir));
        let end = self.end_of_run(dir, line, square.place(dir));
        (Square::on_line(dir, line, first), end - first)
    }

    /// Whether a place of a line has a tile.
    fn holds(&self, dir: Dir, line: usize, place: usize) -> bool
        requires line { line < 15 }
        requires place { place < 15 }
        ensures { result ≡ occupied_on dir self.now line place }
    {
        self.at(Square::on_line(dir, line, place)).is_some()
    }

    /// The first place of the stretch of tiles that ends directly before a place of a line; the place itself if there is no tile
    /// directly before it.
    pub fn first_of_run(&self, dir: Dir, line: usize, place: usize) -> usize
        requires line { line < 15 }
        requires place { place < 15 }
        ensures { IsFirstBack (occupied_on dir self.now line) place result }
    {
        let mut first = place;
        while first > 0 && self.holds(dir, line, first - 1) {
            first -= 1;
        }
        first
    }

    /// The place after the stretch of tiles that begins directly after a place of a line; the next place if that has no tile.
    pub fn end_of_run(&self, dir: Dir, line: usize, place: usize) -> usize
        requires line { line < 15 }
        requires place { place < 15 }
        ensures { IsEndOn (occupied_on dir self.now line) place result }
    {
        let mut end = place + 1;
        while end < SIDE && self.holds(dir, line, end) {
            end += 1;
        }
        end
    }
}

/// Whether no cell has a tile.
fn has_no_tile(cells: &[Option<Tile>]) -> bool
    ensures { IsTrue result ↔ HasNoTile cells.now }
{
    for cell in cells {
        if cell.is_some() {
            return false;
        }
    }
    true
}
