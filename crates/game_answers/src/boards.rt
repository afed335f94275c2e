//! The board of a record, as a value.
ghost use Rattle.std.specs.Prelude.{◌≡◌, ◌≤◌, ◌<◌, IfOk, length, slice_get};
ghost use Rattle.std.specs.Option.{option_copied};
ghost use Rattle.io_devices.specs.Devices.{HasRoom};
ghost use Rattle.ref_play.specs.Words.{items_of};
ghost use Rattle.gcg_read.specs.Records.{most_bytes};
ghost use Rattle.engine_stages.specs.Stages.{IsRead};
ghost use Rattle.engine.specs.Boards.{place_asked};
ghost use Rattle.game_answers.specs.Boards.{mark_at, row_marks, board_marks, line_at, IsShownBoard, IsBoardAt, IsBoardOf};

use arrayvec::ArrayVec;
use engine::{place_asked, shown_rack};
use engine_stages::{Decision, RunFault, read_text, record_from};
use game_board::{kinds_off, lay_plays, square_mark, tiles_off};
use game_corrections::had_before;
use gcg_read::{Event, MAX_BYTES, Players, Record, Seat};
use io_devices::Input;
use ref_board::{Board, Dir, SIDE, Square};
use ref_play::PlayFault;
use ref_tiles::{Counts, Rules};
use std::alloc::{AllocError, Global};

/// The marks of the squares of a row.
pub type RowMarks = ArrayVec<u8, SIDE>;

/// The board of a record before one of its events, or after the last.
#[derive(Drop)]
pub struct ShownBoard {
    /// The line of the event; none after the last event.
    pub line: Option<u32>,
    /// Why the play of the event cannot be laid, if it cannot.
    pub fault: Option<PlayFault>,
    /// The marks of the squares, row by row, as [`square_mark`] has them.
    pub rows: Vec<RowMarks>,
    /// The players.
    pub players: Players,
    /// The last total of the first player that is written before the event; 0 before the first.
    pub first: i32,
    /// The same for the other player.
    pub second: i32,
    /// The rack of the event, if its line shows one.
    pub rack: Option<Counts>,
    /// How many tiles of each kind are not on the board, A to Z and then blanks.
    pub off: Vec<usize>,
    /// How many tiles of all kinds are not on the board.
    pub off_in_all: usize,
}

/// The mark of a square of a row.
fn mark_at(rules: &Rules, board: &Board, row: usize, column: usize) -> u8
    requires row { row < 15 }
    requires column { column < 15 }
    ensures { result ≡ mark_at rules.now board.now row column }
{
    square_mark(rules, board, Square::on_line(Dir::Across, row, column))
}

/// The marks of the squares of a row.
#[tactic(auto, using(ref_play::proofs::Ranges::map_range_more), unfolding(crate::specs::Boards::row_marks))]
fn row_marks(rules: &Rules, board: &Board, row: usize) -> RowMarks
    requires { row < 15 }
    ensures { result.items ≡ row_marks rules.now board.now row 15 }
{
    let mut marks = ArrayVec::new();
    for column in 0..SIDE {
        marks.push(mark_at(rules, board, row, column));
    }
    marks
}

/// The marks of the squares of all rows.
#[tactic(auto, using(crate::proofs::BoardLaws::row_more), unfolding(crate::specs::Boards::board_marks))]
fn board_marks(alloc: Global, rules: &Rules, board: &Board) -> Result<Vec<RowMarks>, AllocError>
    ensures { IfOk result (λ rows. items_of rows.items ≡ board_marks rules.now board.now 15) }
{
    let mut rows = Vec::new(alloc);
    for row in 0..SIDE {
        rows.push(row_marks(rules, board, row))?;
    }
    Ok(rows)
}

/// The event at a place, if there is one.
#[tactic(auto, using(game_turns::proofs::PlaceLaws::copied_get))]
fn event_at(events: &[Event], place: usize) -> Option<&Event>
    ensures { option_copied result ≡ slice_get events.now place }
{
    events.get(place)
}

/// The line of an event, if there is one.
fn line_of(event: Option<&Event>) -> Option<u32>
    ensures { result ≡ line_at (option_copied event.entry) }
{
    match event {
        Some(event) => Some(event.line),
        None => None,
    }
}

/// The board on which the plays before a place are laid.
#[tactic(auto, using(crate::proofs::BoardLaws::is_shown))]
fn board_at(
    alloc: Global,
    rules: &Rules,
    game: Record,
    place: usize,
) -> Result<ShownBoard, AllocError>
    requires { place ≤ length game.events }
    ensures { IfOk result (IsShownBoard rules.now game place) }
{
    let events = game.events.as_slice();
    let laying = lay_plays(events, place);
    let event = event_at(events, laying.end);
    let rows = board_marks(alloc, rules, &laying.board)?;
    let off = kinds_off(alloc, rules, &laying.board)?;
    Ok(ShownBoard {
        line: line_of(event),
        fault: laying.fault,
        rows,
        first: had_before(events, Seat::First, laying.end),
        second: had_before(events, Seat::Second, laying.end),
        rack: shown_rack(event),
        off,
        off_in_all: tiles_off(rules, &laying.board),
        players: game.players,
    })
}

/// The board before the place of the question, if there is one.
fn board_on_line(
    alloc: Global,
    rules: &Rules,
    game: Record,
    before: Option<u32>,
) -> Result<Option<ShownBoard>, AllocError>
    ensures { IfOk result (IsBoardAt rules.now game (place_asked game.events before)) }
{
    match place_asked(game.events.as_slice(), before) {
        Some(place) => Ok(Some(board_at(alloc, rules, game, place)?)),
        None => Ok(None),
    }
}

/// The board of the record of a text, or the verdict that it is not a record.
fn board_from(
    alloc: Global,
    rules: &Rules,
    text: &[u8],
    before: Option<u32>,
) -> Result<Result<Option<ShownBoard>, Decision>, AllocError>
    ensures { IfOk result (IsBoardOf rules.now before text.now) }
{
    let written = match record_from(alloc, text)? {
        Ok(record) => record,
        Err(decision) => return Ok(Err(decision)),
    };
    let shown = board_on_line(alloc, rules, written, before)?;
    Ok(Ok(shown))
}

/// Reads a record, and gives its board before the first event on a line or after it, or without a line after the last event: what
/// [`run_board`](engine::run_board) shows, as a value. None if there is no such event. Or the verdict that names the first fault of
/// the record.
///
/// The input is read to its end, or to one byte past 1 MiB and no further.
///
/// The report that is written only from it is the one that `run_board` gives.
///
/// # Errors
///
/// `ReadFailed` comes only if the input failed; `NoMemory` if memory was refused.
pub fn shown_board<G: Input>(
    alloc: Global,
    rules: &Rules,
    game: &mut G,
    before: Option<u32>,
) -> Result<Result<Option<ShownBoard>, Decision>, RunFault>
    requires { HasRoom (G.device game.old) }
    ensures { IsRead most_bytes (G.device game.old) (G.device game.new) (IsBoardOf rules.now before) result }
{
    let text = read_text(alloc, game, MAX_BYTES)?;
    Ok(board_from(alloc, rules, &text, before)?)
}
