//! Reading a record, line by line.
ghost use Rattle.std.specs.Prelude.{◌≡◌, ◌≤◌, ◌<◌, length};
ghost use Rattle.gcg_read.specs.Faults.{Gives, Makes};
ghost use Rattle.gcg_read.specs.Cutting.{lines_in};
ghost use Rattle.gcg_read.specs.Records.{most_bytes, no_record, with_event, with_pragma, with_line, record_from, record_of, entry_of, IsEntry};

use crate::cutting::read_head;
use crate::event_lines::{Heading, read_event};
use crate::events::Event;
use crate::faults::{ReadFault, Why};
use crate::pragmas::read_naming;
use crate::records::Record;
use std::alloc::Global;
use text_lines::{Lines, without_mark};

/// The maximum number of bytes of a record.
pub const MAX_BYTES: usize = 1_048_576;

/// The maximum number of events of a record.
pub const MAX_EVENTS: usize = 1_000;

/// An event and the nickname of its player.
#[derive(Drop)]
struct Entry<'a> {
    nick: &'a [u8],
    event: Event,
}

/// Reads a game record, and gives its players and events, or its first fault: the first by line, and on a line
/// the first in the order of [`Why`].
///
/// A line that begins with `>` is an event. The first pragma `#player1` and the first `#player2` before it name the players; one
/// without a nickname, or whose nickname has a colon, does not count. Every other line is ignored.
#[tactic(auto, unfolding(crate::specs::Records::record_of))]
pub fn read(alloc: Global, bytes: &[u8]) -> Result<Record, ReadFault>
    ensures { Gives result (record_of bytes.now) }
{
    if bytes.len() > MAX_BYTES {
        return Err(ReadFault {
            line: 0,
            why: Why::TooLong,
        });
    }
    read_lines(alloc, without_mark(bytes))
}

/// Reads the lines of a text.
#[tactic(auto, using(crate::proofs::Steps::steps), unfolding(crate::specs::Records::record_from))]
fn read_lines(alloc: Global, text: &[u8]) -> Result<Record, ReadFault>
    requires { length text.now ≤ most_bytes }
    ensures { Gives result (record_from no_record 1 (lines_in text.now)) }
{
    let mut record = Record::empty(alloc);
    let mut number = 0;
    for line in Lines::of(text) {
        number += 1;
        take_line(alloc, &mut record, number, line)?;
    }
    Ok(record)
}

/// Reads one line into a record.
#[tactic(auto, unfolding(crate::specs::Records::with_line))]
fn take_line(alloc: Global, so_far: &mut Record, line: u32, text: &[u8]) -> Result<(), ReadFault>
    ensures { Makes so_far.new result (with_line so_far.old line text.now) }
{
    match text {
        [b'>', rest @ ..] => take_event(alloc, so_far, line, rest),
        [b'#', rest @ ..] => take_pragma(alloc, so_far, line, rest),
        _ => Ok(()),
    }
}

/// Reads a pragma, after its `#`, into a record. It counts if it is the first that names its player and no event comes before it.
#[tactic(auto, unfolding(crate::specs::Records::with_pragma, crate::specs::Records::players_with))]
fn take_pragma(alloc: Global, so_far: &mut Record, line: u32, text: &[u8]) -> Result<(), ReadFault>
    ensures { Makes so_far.new result (with_pragma so_far.old line text.now) }
{
    if !so_far.events.is_empty() {
        return Ok(());
    }
    let Some(naming) = read_naming(text) else {
        return Ok(());
    };
    if so_far.players.of(naming.seat).is_named() {
        return Ok(());
    }
    let other = so_far.players.of(naming.seat.other());
    if other.nick.as_bytes() == naming.nick {
        return Err(ReadFault {
            line,
            why: Why::ThirdPlayer,
        });
    }
    so_far.players.take_names(alloc, naming)?;
    Ok(())
}

/// Reads an event line, after its `>`, into a record.
#[tactic(auto, unfolding(crate::specs::Records::with_event))]
fn take_event(alloc: Global, so_far: &mut Record, line: u32, text: &[u8]) -> Result<(), ReadFault>
    ensures { Makes so_far.new result (with_event so_far.old line text.now) }
{
    let entry = match read_entry(so_far, line, text) {
        Ok(entry) => entry,
        Err(why) => return Err(ReadFault { line, why }),
    };
    so_far
        .players
        .take_nick(alloc, entry.event.player, entry.nick)?;
    so_far.events.push(entry.event)?;
    Ok(())
}

/// The event of a line, after its `>`, and the nickname that it names.
#[tactic(auto, unfolding(crate::specs::Records::entry_of))]
fn read_entry<'a>(so_far: &Record, line: u32, text: &'a [u8]) -> Result<Entry<'a>, Why>
    ensures { IsEntry result (entry_of so_far.now line text.now) }
{
    if so_far.events.len() >= MAX_EVENTS {
        return Err(Why::TooManyEvents);
    }
    let Some(head) = read_head(text) else {
        return Err(Why::NoColon);
    };
    let Some(player) = so_far.players.seat_for(head.bytes) else {
        return Err(Why::ThirdPlayer);
    };
    let event = read_event(Heading { line, player }, head.after)?;
    Ok(Entry {
        nick: head.bytes,
        event,
    })
}
