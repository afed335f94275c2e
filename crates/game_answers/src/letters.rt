//! The word of a play, with the letters that it plays through.
ghost use Rattle.std.specs.Prelude.{◌≡◌, ◌+◌, ◌≤◌, if◌then◌else◌, nat_lt, []};
ghost use Rattle.ref_board.specs.Lines.{place_of};
ghost use Rattle.ref_play.specs.Words.{capital_shown};
ghost use Rattle.game_answers.specs.Letters.{shown_from, word_of};

use arrayvec::ArrayVec;
use gcg_read::EventKind;
use ref_board::{Board, Dir, SIDE, Square};
use ref_play::{Word, along};
use ref_tiles::Tile;

/// The letter that a square shows, as a capital; 0 if it is empty.
fn capital_shown(cell: Option<Tile>) -> u8
    ensures { result ≡ capital_shown cell }
{
    match cell {
        None => 0,
        Some(tile) => tile.shown.capital(),
    }
}

/// The letters that successive squares show.
#[tactic(auto, using(ref_play::proofs::Ranges::map_range_more), unfolding(crate::specs::Letters::shown_from))]
fn shown_from(board: &Board, at: Square, dir: Dir, many: usize) -> Word
    requires { place_of dir at + many ≤ 15 }
    ensures { result.items ≡ shown_from board.now at dir many }
{
    let mut word = ArrayVec::new();
    for k in 0..many {
        word.push(capital_shown(board.at(along(at, dir, k))));
    }
    word
}

/// The letters that the squares of a text show, if it stays on the board.
fn shown_on(board: &Board, at: Square, dir: Dir, many: usize) -> Word
    ensures { result.items ≡ if nat_lt 15 (place_of dir at + many) then [] else shown_from board.now at dir many }
{
    if many > SIDE - at.place(dir) {
        return ArrayVec::new();
    }
    shown_from(board, at, dir, many)
}

/// The word of a play, with the letters that it plays through, by the board after it; none for other events.
pub(crate) fn word_of(board: &Board, kind: &EventKind) -> Word
    ensures { result.items ≡ word_of board.now kind.now }
{
    match kind {
        EventKind::Play { at, dir, word } => shown_on(board, *at, *dir, word.as_slice().len()),
        EventKind::Pass
        | EventKind::Exchange(_)
        | EventKind::ExchangeUnknown(_)
        | EventKind::Withdraw
        | EventKind::Challenge
        | EventKind::Time
        | EventKind::LastRack(_) => ArrayVec::new(),
    }
}
