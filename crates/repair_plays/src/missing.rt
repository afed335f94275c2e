//! Plays that are missing.
ghost use Rattle.std.specs.Prelude.{◌≤◌, length, OnOk};
ghost use Rattle.repair_plays.specs.PlayChanges.{ArePlayChanges};

use crate::asking::Asked;
use crate::writing::{plays_asked_for, right_play};
use game_turns::{Machine, is_turn, withdraws};
use game_walk::Walk;
use gcg_read::{Event, Seat};
use lex_check::Checked;
use ref_play::Notation;
use ref_tiles::{Counts, Rules};
use repair_changes::{Change, MissingLine, Slip};
use std::alloc::{AllocError, Global};

/// The player of the last turn of some events.
fn last_mover(events: &[Event]) -> Option<Seat> {
    let mut mover = None;
    for event in events {
        if is_turn(&event.kind, None, false) {
            mover = Some(event.player);
        }
    }
    mover
}

/// Whose play may be missing before a place: that of the player who did not have the turn before it, or, if there was none, of the one who
/// does not have the line there.
fn player_at(events: &[Event], place: usize) -> Option<Seat>
    requires { place ≤ length events.now }
{
    match (last_mover(&events[..place]), events.get(place)) {
        (Some(player), _) => Some(player.other()),
        (None, Some(event)) => Some(event.player.other()),
        (None, None) => None,
    }
}

/// Whether the rules may allow a play: neither is a player out, nor did a last rack end the game.
fn may_play(game: &Machine) -> bool {
    game.out().is_none()
        && !game.has_ended(Seat::First)
        && !game.has_ended(Seat::Second)
        && !game.finished()
}

/// Adds that a play of a player is missing before a place.
#[tactic(auto, using(crate::proofs::Pushed::missing_more))]
fn push_missing(
    changes: &mut Vec<Change>,
    walk: &Walk,
    events: &[Event],
    place: usize,
    player: Seat,
    play: &Notation,
) -> Result<(), AllocError>
    requires within { place ≤ length events.now }
    requires tried { place ≤ length walk.now.rows.items }
    requires before { ArePlayChanges events.now walk.now changes.old.items }
    ensures { OnOk result (ArePlayChanges events.now walk.now changes.new.items) }
{
    let Some(play) = right_play(play) else {
        return Ok(());
    };
    changes.push(Change {
        place,
        slip: Slip::Missing(MissingLine::Play { player, play }),
    })?;
    Ok(())
}

/// Adds that one of some plays of a player is missing before a place.
fn push_each(
    changes: &mut Vec<Change>,
    walk: &Walk,
    events: &[Event],
    place: usize,
    player: Seat,
    plays: &[Notation],
) -> Result<(), AllocError>
    requires within { place ≤ length events.now }
    requires tried { place ≤ length walk.now.rows.items }
    requires before { ArePlayChanges events.now walk.now changes.old.items }
    ensures { OnOk result (ArePlayChanges events.now walk.now changes.new.items) }
{
    for play in plays {
        push_missing(changes, walk, events, place, player, play)?;
    }
    Ok(())
}

/// Adds each play with exactly these tiles that may be missing before a place.
///
/// It fails only if memory runs out.
pub(crate) fn push_missing_plays(
    alloc: Global,
    changes: &mut Vec<Change>,
    rules: &Rules,
    pair: &Checked<'_>,
    walk: &Walk,
    events: &[Event],
    place: usize,
    tiles: &Counts,
) -> Result<(), AllocError>
    requires within { place ≤ length events.now }
    requires tried { place ≤ length walk.now.rows.items }
    requires before { ArePlayChanges events.now walk.now changes.old.items }
    ensures { OnOk result (ArePlayChanges events.now walk.now changes.new.items) }
{
    let Some(game) = walk.before(place) else {
        return Ok(());
    };
    let Some(player) = player_at(events, place) else {
        return Ok(());
    };
    if withdraws(events.get(place)) || !may_play(game) {
        return Ok(());
    }
    let asked = Asked::Tiles(*tiles);
    let plays = plays_asked_for(alloc, rules, pair, game.board(), tiles, &asked)?;
    push_each(changes, walk, events, place, player, plays.as_slice())
}
