//! The public calls: each appends a record, an event or a play as a whole, or nothing.
ghost use Rattle.std.specs.Prelude.{◌≡◌, ◌++◌, ◌<◌, length, take, OnOk, OnErr};
ghost use Rattle.std.specs.List.{HoldsAt};
ghost use Rattle.gcg_write.specs.Fields.{kind_text, play_text, score_text, tiles_text};
ghost use Rattle.gcg_write.specs.Normal.{normal_of, event_line, event_text_of};

use crate::fields::{push_play, push_signed, push_tiles};
use crate::lines::{push_event, push_kind, push_line_of_event, push_record};
use gcg_read::{Event, EventKind, Players, Points, Record};
use ref_board::{Dir, Square};
use ref_tiles::{Counts, Symbol};

/// Memory ran out.
pub use std::alloc::AllocError as NoMemory;

/// The outcome of an append to `len` bytes. If it failed, only those bytes stay.
fn restored(written: Result<(), NoMemory>, len: usize, out: &mut Vec<u8>) -> Result<(), NoMemory>
    ensures same { result ≡ written }
    ensures written { OnOk result (out.new.items ≡ out.old.items) }
    ensures refused { OnErr result (out.new.items ≡ take len out.old.items) }
{
    if written.is_err() {
        out.truncate(len);
    }
    written
}

/// Appends the normal form of a record: a line for each player who has a nickname, and a line for each
/// event. It fails only if the growth of `out` was refused, and then `out` is as it was.
pub fn write(game: &Record, out: &mut Vec<u8>) -> Result<(), NoMemory>
    ensures written { OnOk result (out.new.items ≡ out.old.items ++ normal_of game.now) }
    ensures refused { OnErr result (out.new.items ≡ out.old.items) }
{
    let len = out.len();
    restored(push_record(game, out), len, out)
}

/// Appends the line of an event in the normal form, without an LF. It fails only if the growth of `out` was refused, and then `out` is as it was.
pub fn line_text(players: &Players, event: &Event, out: &mut Vec<u8>) -> Result<(), NoMemory>
    ensures written { OnOk result (out.new.items ≡ out.old.items ++ event_line players.now event.now) }
    ensures refused { OnErr result (out.new.items ≡ out.old.items) }
{
    let len = out.len();
    restored(push_line_of_event(players, event, out), len, out)
}

/// Appends what the line of event `i` says after its rack, in the normal form: the event, its score and the
/// total after it. It fails only if the growth of `out` was refused, and then `out` is as it was.
pub fn event_text(game: &Record, i: usize, out: &mut Vec<u8>) -> Result<(), NoMemory>
    requires { i < length game.now.events }
    ensures written { OnOk result (HoldsAt (λ event. out.new.items ≡ out.old.items ++ event_text_of event) game.now.events i) }
    ensures refused { OnErr result (out.new.items ≡ out.old.items) }
{
    let len = out.len();
    let events = game.events.as_slice();
    restored(push_event(&events[i], out), len, out)
}

/// Appends what happened, as event lines write it: the position and the word of a play, or a code. It fails only if the growth of `out` was refused, and
/// then `out` is as it was.
pub fn kind_text(kind: &EventKind, out: &mut Vec<u8>) -> Result<(), NoMemory>
    ensures written { OnOk result (out.new.items ≡ out.old.items ++ kind_text kind.now) }
    ensures refused { OnErr result (out.new.items ≡ out.old.items) }
{
    let len = out.len();
    restored(push_kind(kind, out), len, out)
}

/// Appends a score as event lines write it, always with its sign. It fails only if the growth of `out` was refused, and then `out` is as it was.
pub fn score_text(score: Points, out: &mut Vec<u8>) -> Result<(), NoMemory>
    ensures written { OnOk result (out.new.items ≡ out.old.items ++ score_text score) }
    ensures refused { OnErr result (out.new.items ≡ out.old.items) }
{
    let len = out.len();
    restored(push_signed(score, out), len, out)
}

/// Appends a play as event lines write it: the square of its first symbol, row and column for one across, column and row for one
/// down, and after a blank its text. It fails only if the growth of `out` was refused, and then `out` is as it was.
pub fn play_text(at: Square, dir: Dir, word: &[Symbol], out: &mut Vec<u8>) -> Result<(), NoMemory>
    ensures written { OnOk result (out.new.items ≡ out.old.items ++ play_text at dir word.now) }
    ensures refused { OnErr result (out.new.items ≡ out.old.items) }
{
    let len = out.len();
    restored(push_play(at, dir, word, out), len, out)
}

/// Appends tiles, A to Z and then `?` for each blank. It fails only if the growth of `out` was refused, and then `out` is
/// as it was.
pub fn tiles_text(tiles: &Counts, out: &mut Vec<u8>) -> Result<(), NoMemory>
    ensures written { OnOk result (out.new.items ≡ out.old.items ++ tiles_text tiles.now) }
    ensures refused { OnErr result (out.new.items ≡ out.old.items) }
{
    let len = out.len();
    restored(push_tiles(tiles, out), len, out)
}
