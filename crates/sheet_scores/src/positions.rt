//! What is said of the boards after the events.
ghost use Rattle.std.specs.Prelude.{◌≡◌, ◌+◌, ◌≤◌, ◌==◌, IfOk, length, count_by};
ghost use Rattle.ref_board.specs.Lines.{place_of};
ghost use Rattle.sheet_scores.specs.Positions.{played_tile, played_tiles, is_new_tile, IsLaidAt, IsLaidBy, IsPositionOf, ArePositions};

use crate::pictures::Picture;
use game_board::{kinds_off, tiles_off};
use gcg_read::{Event, EventKind};
use ref_board::{Dir, SIDE, Square};
use ref_play::{RACK, along};
use ref_tiles::{Rules, Tile};
use std::alloc::{AllocError, Global};

/// A square that a play covers.
#[derive(Clone, Copy)]
pub struct PlayedTile {
    /// The tile that lies there with the play.
    pub cell: Option<Tile>,
    /// Whether the play puts it there.
    pub is_new: bool,
}

/// A play as it lies on the board after it.
#[derive(Drop)]
pub struct LaidPlay {
    /// The squares of its text, in their order.
    pub tiles: Vec<PlayedTile>,
    /// Whether it is a bingo: it puts down seven tiles.
    pub is_full: bool,
}

/// What is said of the board after an event.
#[derive(Drop)]
pub struct Position {
    /// The play of the event; none if it is not a play.
    pub play: Option<LaidPlay>,
    /// How many tiles of each kind are not on the board, A to Z and then blanks.
    pub off: Vec<usize>,
    /// How many tiles of all kinds are not on the board.
    pub off_in_all: usize,
}

/// A square of a board, and whether its tile is new there.
fn played_tile(picture: &Picture, square: Square) -> PlayedTile
    ensures { result ≡ played_tile picture.now square }
{
    PlayedTile {
        cell: picture.board.at(square),
        is_new: picture.is_marked(square),
    }
}

/// The squares that a text of `many` symbols covers.
#[tactic(auto, using(ref_play::proofs::Ranges::map_range_more), unfolding(crate::specs::Positions::played_tiles))]
fn played_tiles(
    alloc: Global,
    picture: &Picture,
    at: Square,
    dir: Dir,
    many: usize,
) -> Result<Vec<PlayedTile>, AllocError>
    requires { place_of dir at + many ≤ 15 }
    ensures { IfOk result (λ tiles. tiles.items ≡ played_tiles picture.now at dir many) }
{
    let mut tiles = Vec::new(alloc);
    for k in 0..many {
        tiles.push(played_tile(picture, along(at, dir, k)))?;
    }
    Ok(tiles)
}

/// Whether seven of these tiles are new.
fn is_full(tiles: &[PlayedTile]) -> bool
    ensures { result ≡ (count_by is_new_tile tiles.now == 7) }
{
    tiles.iter().filter(|tile| tile.is_new).count() == RACK
}

/// A play of `many` symbols as it lies on a board, if it stays on the board.
fn laid_at(
    alloc: Global,
    picture: &Picture,
    at: Square,
    dir: Dir,
    many: usize,
) -> Result<Option<LaidPlay>, AllocError>
    ensures { IfOk result (IsLaidAt picture.now at dir many) }
{
    if many > SIDE - at.place(dir) {
        return Ok(None);
    }
    let tiles = played_tiles(alloc, picture, at, dir, many)?;
    let is_full = is_full(tiles.as_slice());
    Ok(Some(LaidPlay { tiles, is_full }))
}

/// The play of an event as it lies on the board after it, if it is one.
fn laid_by(
    alloc: Global,
    picture: &Picture,
    kind: &EventKind,
) -> Result<Option<LaidPlay>, AllocError>
    ensures { IfOk result (IsLaidBy picture.now kind.now) }
{
    match kind {
        EventKind::Play { at, dir, word } => {
            laid_at(alloc, picture, *at, *dir, word.as_slice().len())
        }
        EventKind::Pass
        | EventKind::Exchange(_)
        | EventKind::ExchangeUnknown(_)
        | EventKind::Withdraw
        | EventKind::Challenge
        | EventKind::Time
        | EventKind::LastRack(_) => Ok(None),
    }
}

/// What is said of the board after an event.
fn position_of(
    alloc: Global,
    rules: &Rules,
    kind: &EventKind,
    picture: &Picture,
) -> Result<Position, AllocError>
    ensures { IfOk result (IsPositionOf rules.now kind.now picture.now) }
{
    let play = laid_by(alloc, picture, kind)?;
    let off = kinds_off(alloc, rules, &picture.board)?;
    Ok(Position {
        play,
        off,
        off_in_all: tiles_off(rules, &picture.board),
    })
}

/// What is said of the boards after the first events.
///
/// It fails only if memory runs out.
pub fn positions_of(
    alloc: Global,
    rules: &Rules,
    events: &[Event],
    pictures: &[Picture],
) -> Result<Vec<Position>, AllocError>
    requires { length pictures.now ≤ length events.now }
    ensures { IfOk result (λ positions. ArePositions rules.now events.now pictures.now (length pictures.now) positions.items) }
{
    let mut positions = Vec::new(alloc);
    for place in 0..pictures.len() {
        let position = position_of(alloc, rules, &events[place].kind, &pictures[place])?;
        positions.push(position)?;
    }
    Ok(positions)
}
