//! Plays that are different ones altogether.
ghost use Rattle.std.specs.Prelude.{◌≤◌, ◌<◌, length, OnOk};
ghost use Rattle.repair_plays.specs.PlayChanges.{ArePlayChanges};

use crate::asking::Asked;
use crate::lacking::tiles_on_no_other;
use crate::writing::{is_written, plays_asked_for, right_play};
use game_turns::withdraws;
use game_walk::Walk;
use gcg_read::{Event, EventKind};
use lex_check::Checked;
use ref_board::Board;
use ref_play::Notation;
use ref_tiles::{Counts, Rules};
use repair_changes::{Change, Slip};
use repair_slips::is_rack;
use std::alloc::{AllocError, Global};

/// Whether a play that stands is at a place: one that no withdrawal follows.
fn has_play(events: &[Event], place: usize) -> bool
    requires { place < length events.now }
{
    match &events[place].kind {
        EventKind::Play { .. } => !withdraws(events.get(place + 1)),
        _ => false,
    }
}

/// Adds that the play at a place is another one, if that one is not written there.
#[tactic(auto, using(crate::proofs::Pushed::other_more))]
fn push_other(
    changes: &mut Vec<Change>,
    walk: &Walk,
    events: &[Event],
    place: usize,
    play: &Notation,
) -> Result<(), AllocError>
    requires within { place < length events.now }
    requires tried { place ≤ length walk.now.rows.items }
    requires before { ArePlayChanges events.now walk.now changes.old.items }
    ensures { OnOk result (ArePlayChanges events.now walk.now changes.new.items) }
{
    if is_written(play, &events[place].kind) {
        return Ok(());
    }
    let Some(play) = right_play(play) else {
        return Ok(());
    };
    changes.push(Change {
        place,
        slip: Slip::Replayed(play),
    })?;
    Ok(())
}

/// Adds that the play at a place is one of some others.
fn push_each(
    changes: &mut Vec<Change>,
    walk: &Walk,
    events: &[Event],
    place: usize,
    plays: &[Notation],
) -> Result<(), AllocError>
    requires within { place < length events.now }
    requires tried { place ≤ length walk.now.rows.items }
    requires before { ArePlayChanges events.now walk.now changes.old.items }
    ensures { OnOk result (ArePlayChanges events.now walk.now changes.new.items) }
{
    for play in plays {
        push_other(changes, walk, events, place, play)?;
    }
    Ok(())
}

/// The tiles that the play at a place must have had, by those that are on no other line; none if there is no last rack to say so, or if
/// they are not a rack.
fn tiles_had(rules: &Rules, events: &[Event], place: usize, ended: bool) -> Option<Counts>
    requires { place < length events.now }
{
    if !ended {
        return None;
    }
    let tiles = tiles_on_no_other(rules, events, place);
    if is_rack(&tiles) { Some(tiles) } else { None }
}

/// Adds each play with exactly these tiles in place of the one at a place.
fn push_of_tiles(
    alloc: Global,
    changes: &mut Vec<Change>,
    rules: &Rules,
    pair: &Checked<'_>,
    walk: &Walk,
    events: &[Event],
    place: usize,
    board: &Board,
    tiles: &Option<Counts>,
) -> Result<(), AllocError>
    requires within { place < length events.now }
    requires tried { place ≤ length walk.now.rows.items }
    requires before { ArePlayChanges events.now walk.now changes.old.items }
    ensures { OnOk result (ArePlayChanges events.now walk.now changes.new.items) }
{
    let Some(tiles) = tiles else {
        return Ok(());
    };
    let asked = Asked::Tiles(*tiles);
    let plays = plays_asked_for(alloc, rules, pair, board, tiles, &asked)?;
    push_each(changes, walk, events, place, plays.as_slice())
}

/// Adds each play of the rack that the line states, with the score that is written, in place of the one at a place; those with exactly the
/// tiles that it must have had have been added already.
fn push_of_rack(
    alloc: Global,
    changes: &mut Vec<Change>,
    rules: &Rules,
    pair: &Checked<'_>,
    walk: &Walk,
    events: &[Event],
    place: usize,
    board: &Board,
    tiles: &Option<Counts>,
) -> Result<(), AllocError>
    requires within { place < length events.now }
    requires tried { place ≤ length walk.now.rows.items }
    requires before { ArePlayChanges events.now walk.now changes.old.items }
    ensures { OnOk result (ArePlayChanges events.now walk.now changes.new.items) }
{
    let Some(rack) = &events[place].rack else {
        return Ok(());
    };
    let asked = Asked::Score {
        score: events[place].score.value(),
        not_of: tiles.unwrap_or(Counts::new()),
    };
    let plays = plays_asked_for(alloc, rules, pair, board, rack, &asked)?;
    push_each(changes, walk, events, place, plays.as_slice())
}

/// Adds each play that the one at a place may have been, if it stands: those with the tiles that it must have had, and those of the rack
/// that its line states with the score that is written.
///
/// It fails only if memory runs out.
pub(crate) fn push_other_plays(
    alloc: Global,
    changes: &mut Vec<Change>,
    rules: &Rules,
    pair: &Checked<'_>,
    walk: &Walk,
    events: &[Event],
    place: usize,
    ended: bool,
) -> Result<(), AllocError>
    requires within { place < length events.now }
    requires tried { place ≤ length walk.now.rows.items }
    requires before { ArePlayChanges events.now walk.now changes.old.items }
    ensures { OnOk result (ArePlayChanges events.now walk.now changes.new.items) }
{
    let Some(game) = walk.before(place) else {
        return Ok(());
    };
    if !has_play(events, place) {
        return Ok(());
    }
    let tiles = tiles_had(rules, events, place, ended);
    let board = game.board();
    push_of_tiles(
        alloc, changes, rules, pair, walk, events, place, board, &tiles,
    )?;
    push_of_rack(
        alloc, changes, rules, pair, walk, events, place, board, &tiles,
    )
}
