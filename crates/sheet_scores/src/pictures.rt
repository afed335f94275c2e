//! A board with some of its squares marked.
ghost use Rattle.std.specs.Prelude.{◌≡◌, ◌<◌, false, length, slice_index_or};
ghost use Rattle.std.specs.Option.{option_copied};
ghost use Rattle.sheet_scores.specs.Pictures.{is_new, covered, covered_by, is_covered, AreMarked, IsPicture};

use gcg_read::{Event, EventKind};
use ref_board::{Board, Dir, Square};
use ref_tiles::{SIDE, SQUARES, Symbol};

/// A board, and which of its squares are marked.
#[derive(Drop)]
pub struct Picture {
    /// The board.
    pub board: Board,
    /// Whether each square is marked, in the order of their numbers.
    pub marked: [bool; SQUARES],
}

impl Picture {
    /// Whether a square is marked.
    pub fn is_marked(&self, square: Square) -> bool
        ensures { result ≡ slice_index_or self.now.marked square false }
    {
        self.marked[square.number()]
    }
}

/// Whether a square has a tile on a board, and had none before.
fn is_new(before: &Board, after: &Board, square: Square) -> bool
    ensures { result ≡ is_new before.now after.now square }
{
    after.at(square).is_some() && before.at(square).is_none()
}

/// Whether a text covers a square.
fn is_covered(at: Square, dir: Dir, word: &[Symbol], square: Square) -> bool
    ensures { result ≡ is_covered at dir (length word.now) square }
{
    let (first, place) = (at.place(dir), square.place(dir));
    square.line(dir) == at.line(dir) && first <= place && place < first + word.len()
}

/// Whether what happened in an event is a play that covers a square.
fn covered_by(kind: &EventKind, square: Square) -> bool
    ensures { result ≡ covered_by kind.now square }
{
    match kind {
        EventKind::Play { at, dir, word } => is_covered(*at, *dir, word.as_slice(), square),
        EventKind::Pass
        | EventKind::Exchange(_)
        | EventKind::ExchangeUnknown(_)
        | EventKind::Withdraw
        | EventKind::Challenge
        | EventKind::Time
        | EventKind::LastRack(_) => false,
    }
}

/// Whether the play of an event covers a square; false if there is no event, or it is not a play.
fn covered(event: Option<&Event>, square: Square) -> bool
    ensures { result ≡ covered (option_copied event.entry) square }
{
    match event {
        Some(event) => covered_by(&event.kind, square),
        None => false,
    }
}

/// The square of a number.
fn square_of(number: usize) -> Square
    requires { number < 225 }
    ensures { result ≡ number }
{
    Square::on_line(Dir::Across, number / SIDE, number % SIDE)
}

/// A board after another one: its new tiles are marked.
pub(crate) fn picture_after(before: &Board, after: &Board) -> Picture
    ensures { IsPicture after.now (is_new before.now after.now) result }
{
    let mut marked = [false; SQUARES];
    for number in 0..SQUARES {
        marked[number] = is_new(before, after, square_of(number));
    }
    Picture {
        board: *after,
        marked,
    }
}

/// A board on which the squares of a play are marked, if the event is one.
pub(crate) fn picture_for(board: &Board, event: Option<&Event>) -> Picture
    ensures { IsPicture board.now (covered (option_copied event.entry)) result }
{
    let mut marked = [false; SQUARES];
    for number in 0..SQUARES {
        marked[number] = covered(event, square_of(number));
    }
    Picture {
        board: *board,
        marked,
    }
}
