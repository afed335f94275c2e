//! The changes of plays of a record.
ghost use Rattle.std.specs.Prelude.{◌≤◌, length, IfOk, OnOk};
ghost use Rattle.repair_plays.specs.PlayChanges.{ArePlayChanges};

use crate::lacking::{has_last_rack, tiles_on_no_line};
use crate::missing::push_missing_plays;
use crate::replayed::push_other_plays;
use game_walk::Walk;
use gcg_read::Event;
use lex_check::Checked;
use ref_tiles::{Counts, Rules};
use repair_changes::Change;
use repair_slips::is_rack;
use std::alloc::{AllocError, Global};

/// Before how many of the last places plays are looked for.
const MOST_PLACES: usize = 100;

/// What a record says of its tiles.
#[derive(Clone, Copy)]
struct Tiles {
    /// Whether it has a last rack, so that all tiles are on its lines.
    ended: bool,
    /// The tiles that are on no line.
    remaining: Counts,
}

/// Adds each play that may be missing before a place, if the tiles that are on no line can be its tiles.
fn push_missing_at(
    alloc: Global,
    changes: &mut Vec<Change>,
    rules: &Rules,
    pair: &Checked<'_>,
    walk: &Walk,
    events: &[Event],
    place: usize,
    tiles: &Tiles,
) -> Result<(), AllocError>
    requires within { place ≤ length events.now }
    requires tried { place ≤ length walk.now.rows.items }
    requires before { ArePlayChanges events.now walk.now changes.old.items }
    ensures { OnOk result (ArePlayChanges events.now walk.now changes.new.items) }
{
    if tiles.ended && is_rack(&tiles.remaining) {
        push_missing_plays(
            alloc,
            changes,
            rules,
            pair,
            walk,
            events,
            place,
            &tiles.remaining,
        )
    } else {
        Ok(())
    }
}

/// Adds the changes of plays at a place: those of the play there, and then those that may be missing before it.
fn push_at(
    alloc: Global,
    changes: &mut Vec<Change>,
    rules: &Rules,
    pair: &Checked<'_>,
    walk: &Walk,
    events: &[Event],
    place: usize,
    tiles: &Tiles,
) -> Result<(), AllocError>
    requires within { place ≤ length events.now }
    requires tried { place ≤ length walk.now.rows.items }
    requires before { ArePlayChanges events.now walk.now changes.old.items }
    ensures { OnOk result (ArePlayChanges events.now walk.now changes.new.items) }
{
    if place < events.len() {
        push_other_plays(
            alloc,
            changes,
            rules,
            pair,
            walk,
            events,
            place,
            tiles.ended,
        )?;
    }
    push_missing_at(alloc, changes, rules, pair, walk, events, place, tiles)
}

/// The changes of plays that a record may need, at each place up to the event at which its correction stops, and of these at the last 101. In a record that has a last rack
/// all tiles are on its lines: those that are on none may be a play that is missing, and a play must have had those that are on no other
/// line. If the line of a play states a rack, it may be another play of this rack with the score that is written.
///
/// These are only candidates, so each has to be tried. It fails only if memory runs out.
///
/// Which plays these are is not promised.
pub fn plays_for(
    alloc: Global,
    rules: &Rules,
    pair: &Checked<'_>,
    walk: &Walk,
    events: &[Event],
) -> Result<Vec<Change>, AllocError>
    ensures { IfOk result (λ plays. ArePlayChanges events.now walk.now plays.items) }
{
    let tiles = Tiles {
        ended: has_last_rack(events),
        remaining: tiles_on_no_line(rules, events),
    };
    let mut changes = Vec::new(alloc);
    let last = walk.rows.len().min(events.len());
    for place in last.saturating_sub(MOST_PLACES)..last + 1 {
        push_at(
            alloc,
            &mut changes,
            rules,
            pair,
            walk,
            events,
            place,
            &tiles,
        )?;
    }
    Ok(changes)
}
