//! The text of a sheet with a repair.
ghost use Rattle.std.specs.Prelude.{◌≡◌, ◌↔◌, IsTrue, IfOk};
ghost use Rattle.repair_rewrites.specs.Ends.{without_last_feed};
ghost use Rattle.repair_rewrites.specs.Names.{AreNamed};
ghost use Rattle.repair_rewrites.specs.Texts.{repaired_text};

use crate::event_lines::event_lines;
use crate::repaired::Repaired;
use gcg_numbers::push_mark;
use gcg_read::{Event, Players};
use repair_changes::Change;
use std::alloc::{AllocError, Global};
use text_lines::without_mark;

/// Takes the LF off the end of a text, if there is one.
fn drop_last_feed(out: &mut Vec<u8>)
    ensures { out.new.items ≡ without_last_feed out.old.items }
{
    if out.as_slice().ends_with(b"\n") {
        out.pop();
    }
}

/// Whether a sheet with these players can be written: each of the events is by a player who has a nickname.
#[tactic(auto, using(crate::proofs::Names::named_more, crate::proofs::Names::unnamed, crate::proofs::Names::all_named))]
pub fn can_be_written(players: &Players, right: &[Event]) -> bool
    ensures { IsTrue result ↔ AreNamed players.now right.now }
{
    for event in right {
        if players.of(event.player).nick.as_bytes().is_empty() {
            return false;
        }
    }
    true
}

/// The text of a sheet with a change, given the right events with it.
///
/// # Errors
///
/// Memory ran out.
pub(crate) fn repaired_text(
    alloc: Global,
    text: &[u8],
    players: &Players,
    change: &Change,
    right: &[Event],
) -> Result<Vec<u8>, AllocError>
    ensures { IfOk result (λ made. made.items ≡ repaired_text change.now players.now right.now text.now) }
{
    let lines = event_lines(alloc, text)?;
    let repaired = Repaired {
        players,
        change,
        right,
        lines: lines.as_slice(),
    };
    let mut out = Vec::new(alloc);
    push_mark(&mut out, text)?;
    repaired.push_lines(&mut out, without_mark(text))?;
    drop_last_feed(&mut out);
    Ok(out)
}
