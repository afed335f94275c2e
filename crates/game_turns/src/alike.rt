//! Whether two games are alike: nothing that the rules look at differs.
ghost use Rattle.std.specs.Prelude.{◌≡◌, ◌↔◌, length, IsTrue};
ghost use Rattle.ref_play.specs.Words.{items_of};
ghost use Rattle.game_turns.specs.LatestEvents.{play_of, latest_of};

use crate::latest::{Laid, LatestEvent};
use crate::machine::Machine;
use crate::sides::{Side, Sides};
use gcg_read::{Seat, same_seat};
use ref_board::Board;
use ref_play::{Placed, Word};
use ref_tiles::{Kind, Letter, Tile};

/// Whether both are the same letters.
fn same_letters(word: &[u8], other: &[u8]) -> bool
    ensures { IsTrue result ↔ (word.now ≡ other.now) }
{
    word == other
}

/// Whether both are the same words.
fn are_same_words(words: &[Word], others: &[Word]) -> bool
    ensures { IsTrue result ↔ (items_of words.now ≡ items_of others.now) }
{
    if words.len() != others.len() {
        return false;
    }
    for place in 0..words.len() {
        if !same_letters(&words[place], &others[place]) {
            return false;
        }
    }
    true
}

/// Whether both are the same letter.
fn is_same_letter(letter: Letter, other: Letter) -> bool
    ensures { IsTrue result ↔ (letter ≡ other) }
{
    letter.index == other.index
}

/// Whether both are the same kind of tile.
fn is_same_kind(kind: Kind, other: Kind) -> bool
    ensures { IsTrue result ↔ (kind ≡ other) }
{
    match (kind, other) {
        (Kind::Letter(letter), Kind::Letter(other)) => is_same_letter(letter, other),
        (Kind::Blank, Kind::Blank) => true,
        (Kind::Letter(_), Kind::Blank) | (Kind::Blank, Kind::Letter(_)) => false,
    }
}

/// Whether both tiles are the same, and show the same letter.
fn is_same_face(tile: Tile, other: Tile) -> bool
    ensures { IsTrue result ↔ (tile ≡ other) }
{
    is_same_letter(tile.shown, other.shown) && is_same_kind(tile.kind, other.kind)
}

/// Whether both are the same tile on the same square.
fn is_same_tile(tile: &Placed, other: &Placed) -> bool
    ensures { IsTrue result ↔ (tile.now ≡ other.now) }
{
    tile.square == other.square && is_same_face(tile.tile, other.tile)
}

/// Whether both are the same tiles on the same squares.
fn are_same_tiles(tiles: &[Placed], others: &[Placed]) -> bool
    ensures { IsTrue result ↔ (tiles.now ≡ others.now) }
{
    if tiles.len() != others.len() {
        return false;
    }
    for place in 0..tiles.len() {
        if !is_same_tile(&tiles[place], &others[place]) {
            return false;
        }
    }
    true
}

/// Whether both squares have the same tile, or none.
fn is_same_cell(cell: Option<Tile>, other: Option<Tile>) -> bool
    ensures { IsTrue result ↔ (cell ≡ other) }
{
    match (cell, other) {
        (Some(tile), Some(other)) => is_same_face(tile, other),
        (None, None) => true,
        (Some(_), None) | (None, Some(_)) => false,
    }
}

/// Whether both have the same tiles.
fn are_same_cells(cells: &[Option<Tile>], others: &[Option<Tile>]) -> bool
    requires { length cells.now ≡ length others.now }
    ensures { IsTrue result ↔ (cells.now ≡ others.now) }
{
    for place in 0..cells.len() {
        if !is_same_cell(cells[place], others[place]) {
            return false;
        }
    }
    true
}

/// Whether both boards have the same tiles.
fn is_same_board(board: &Board, other: &Board) -> bool
    ensures { IsTrue result ↔ (board.now ≡ other.now) }
{
    are_same_cells(board.cells(), other.cells())
}

/// Whether both are the same player, or none.
fn is_same_player(player: Option<Seat>, other: Option<Seat>) -> bool
    ensures { IsTrue result ↔ (player ≡ other) }
{
    match (player, other) {
        (Some(player), Some(other)) => same_seat(player, other),
        (None, None) => true,
        (Some(_), None) | (None, Some(_)) => false,
    }
}

/// Whether both players have the same total, rack and flags.
fn is_same_side(side: Side, other: Side) -> bool
    ensures { IsTrue result ↔ (side ≡ other) }
{
    side.total.value() == other.total.value()
        && side.rack == other.rack
        && side.timed == other.timed
        && side.ended == other.ended
}

/// Whether each player has the same in both.
fn are_same_sides(sides: Sides, others: Sides) -> bool
    ensures { IsTrue result ↔ (sides ≡ others) }
{
    is_same_side(sides.first, others.first) && is_same_side(sides.second, others.second)
}

impl Laid {
    /// Whether both are the same play.
    fn is_like(&self, other: &Laid) -> bool
        ensures { IsTrue result ↔ (play_of self.now ≡ play_of other.now) }
    {
        same_seat(self.player, other.player)
            && self.score == other.score
            && self.stands == other.stands
            && are_same_tiles(&self.play.tiles, &other.play.tiles)
            && are_same_words(&self.words, &other.words)
    }
}

impl LatestEvent {
    /// Whether both keep the same of the latest event.
    fn is_like(&self, other: &LatestEvent) -> bool
        ensures { IsTrue result ↔ (latest_of self.now ≡ latest_of other.now) }
    {
        match (self, other) {
            (LatestEvent::Played(laid), LatestEvent::Played(other)) => laid.is_like(other),
            (LatestEvent::TakenBack(play), LatestEvent::TakenBack(other)) => {
                are_same_tiles(&play.tiles, &other.tiles)
            }
            (LatestEvent::Other, LatestEvent::Other) => true,
            _ => false,
        }
    }
}

impl Machine {
    ghost use Rattle.game_turns.specs.Machines.{state_of};

    /// Whether both games have the same player on turn, and the same one out, if any.
    fn has_players_of(&self, other: &Machine) -> bool
        ensures { IsTrue result ↔ (self.now.mover ≡ other.now.mover) × (self.now.out ≡ other.now.out) }
    {
        is_same_player(self.mover, other.mover) && is_same_player(self.out, other.out)
    }

    /// Whether both games have the same numbers of tiles in the bag and of idle turns, and are both complete or both not.
    fn has_counts_of(&self, other: &Machine) -> bool
        ensures { IsTrue result ↔ (self.now.bag ≡ other.now.bag) × (self.now.zero_run ≡ other.now.zero_run)
            × (self.now.idle_pass ≡ other.now.idle_pass) × (self.now.complete ≡ other.now.complete) }
    {
        self.bag == other.bag
            && self.zero_run == other.zero_run
            && self.idle_pass == other.idle_pass
            && self.complete == other.complete
    }

    /// Whether both games are in the same state, so that the same events may follow and have the same effect.
    pub fn is_like(&self, other: &Machine) -> bool
        ensures { IsTrue result ↔ (state_of self.now ≡ state_of other.now) }
    {
        if !self.has_counts_of(other) {
            return false;
        }
        if !self.has_players_of(other) {
            return false;
        }
        if !are_same_sides(self.sides, other.sides) {
            return false;
        }
        if !self.latest.is_like(&other.latest) {
            return false;
        }
        is_same_board(&self.board, &other.board)
    }
}
