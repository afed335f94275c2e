//! The score sheet of a record.
ghost use Rattle.std.specs.Prelude.{◌≤◌, List, length, IfOk};
ghost use Rattle.gcg_read.specs.declared.events.Event.{Event};
ghost use Rattle.lex_check.specs.Pairs.{list_in};
ghost use Rattle.game_walk.specs.Walks.{IsWalk};
ghost use Rattle.sheet_scores.specs.Gains.{gains_to, IsGain};
ghost use Rattle.sheet_scores.specs.Positions.{ArePositions};
ghost use Rattle.sheet_scores.specs.Sheets.{IsScoreSheet};
ghost use Rattle.sheet_scores.specs.Sums.{best_of};

use crate::boards::{pictures_of, shown_at};
use crate::pictures::Picture;
use crate::positions::{Position, positions_of};
use crate::rows::{SheetRow, rows_of};
use crate::sums::gains_of;
use game_corrections::{Standing, last_total, standing_of};
use game_walk::Walk;
use gcg_read::{Event, Players, Points, Record, Seat};
use lex_check::Checked;
use ref_tiles::Rules;
use std::alloc::{AllocError, Global};

/// The score sheet of a record: its players and its events, and what it says of them.
#[derive(Drop)]
pub struct ScoreSheet<'a> {
    /// The players.
    pub players: &'a Players,
    /// The events, as they are written.
    pub events: &'a [Event],
    /// The last total that is written for the first player, if there is one.
    pub first_total: Option<Points>,
    /// The same for the other player.
    pub second_total: Option<Points>,
    /// Who has the greater of these totals.
    pub standing: Standing,
    /// What it says of each event, in their order.
    pub rows: Vec<SheetRow>,
    /// How many points more the best plays of the first player would have given in all; none exactly if that is 2^64 or more.
    pub first_gains: Option<u64>,
    /// The same for the other player.
    pub second_gains: Option<u64>,
    /// The boards after the events, up to the first whose play cannot be laid.
    pub boards: Vec<Picture>,
    /// What is said of each of these boards.
    pub positions: Vec<Position>,
    /// The board at the place that was given.
    pub shown: Picture,
}

/// What is said of the boards after the first events.
fn positions_in(
    alloc: Global,
    rules: &Rules,
    events: &[Event],
    boards: &Vec<Picture>,
) -> Result<Vec<Position>, AllocError>
    requires { length boards.now.items ≤ length events.now }
    ensures { IfOk result (λ positions. ArePositions rules.now events.now boards.now.items (length boards.now.items) positions.items) }
{
    positions_of(alloc, rules, events, boards.as_slice())
}

/// How many points more the best plays of a player's events would have given in all. None exactly if that is 2^64 or more.
fn gains_in(player: Seat, events: &[Event], rows: &Vec<SheetRow>) -> Option<u64>
    ensures { IsGain (gains_to player events.now (best_of rows.now.items) (length events.now)) result }
{
    gains_of(player, events, rows.as_slice())
}

/// The score sheet of a record, by a walk over its events, which has them with their right numbers as far as they can be corrected; with the
/// board at a place, counted from 0. At the end of the events it is the last board.
///
/// It fails only if memory runs out.
///
/// What a number should be is shown exactly if it is wrong. The best play of a row is the one that `judge` prints in the line of that event of the
/// corrected record.
pub fn score_sheet<'a>(
    alloc: Global,
    rules: &Rules,
    pair: &Checked<'_>,
    game: &'a Record,
    walk: &Walk,
    place: usize,
) -> Result<ScoreSheet<'a>, AllocError>
    requires { place ≤ length game.now.events }
    ensures { IfOk result (λ sheet. (right : List Event) → IsWalk rules.now (list_in pair.now) game.now.events right walk.now
        → IsScoreSheet rules.now (list_in pair.now) game.now right place sheet) }
{
    let events = game.events.as_slice();
    let rows = rows_of(alloc, rules, pair, events, walk)?;
    let boards = pictures_of(alloc, events)?;
    let positions = positions_in(alloc, rules, events, &boards)?;
    let first_total = last_total(events, Seat::First);
    let second_total = last_total(events, Seat::Second);
    let standing = standing_of(&first_total, &second_total);
    let first_gains = gains_in(Seat::First, events, &rows);
    let second_gains = gains_in(Seat::Second, events, &rows);
    Ok(ScoreSheet {
        players: &game.players,
        events,
        first_total,
        second_total,
        standing,
        first_gains,
        second_gains,
        rows,
        boards,
        positions,
        shown: shown_at(events, place),
    })
}
