//! An event from the fields of its line.
ghost use Rattle.std.specs.Prelude.{◌≡◌, ◌<◌, ◌∷◌, [], length, MatchOption};
ghost use Rattle.std.specs.List.{list_any};
ghost use Rattle.std.specs.Char.{is_ascii_digit};
ghost use Rattle.gcg_read.specs.Cutting.{fields_of};
ghost use Rattle.gcg_read.specs.EventLines.{has_digit, scored_of, played_of, coded_of, event_of};

use crate::codes::read_code;
use crate::events::{Event, EventKind, Seat};
use crate::faults::Why;
use crate::points::Points;
use crate::positions::read_position;
use crate::racks::read_rack;
use crate::texts::Text;
use ref_tiles::Counts;
use text_lines::{Field, next_field};

/// What an event line says before its fields.
#[derive(Clone, Copy)]
pub struct Heading {
    /// The number of the line.
    pub line: u32,
    /// The player that it names.
    pub player: Seat,
}

/// The first three fields of a text.
#[derive(Clone, Copy)]
struct Start<'a> {
    /// The first.
    first: &'a [u8],
    /// The second.
    second: &'a [u8],
    /// The third.
    third: &'a [u8],
    /// The text after them.
    after: &'a [u8],
}

/// The first three fields of a text, if it has three.
fn read_start(text: &[u8]) -> Option<Start<'_>>
    ensures { MatchOption result (length (fields_of text.now) < 3)
        (λ start. fields_of text.now ≡ start.first.now ∷ start.second.now ∷ start.third.now ∷ fields_of start.after.now) }
{
    let first = next_field(text)?;
    let second = next_field(first.after)?;
    let third = next_field(second.after)?;
    Some(Start {
        first: first.bytes,
        second: second.bytes,
        third: third.bytes,
        after: third.after,
    })
}

/// The event that the text after a nickname says.
#[tactic(auto, using(crate::proofs::Fields::too_few), unfolding(crate::specs::EventLines::event_of))]
pub fn read_event(heading: Heading, text: &[u8]) -> Result<Event, Why>
    ensures { result ≡ event_of heading (fields_of text.now) }
{
    let Some(start) = read_start(text) else {
        return Err(Why::Fields);
    };
    match next_field(start.after) {
        None => read_coded(heading, None, start.first, start.second, start.third),
        Some(fourth) => read_longer(heading, start, fourth),
    }
}

/// The event of a line with four fields or more.
#[tactic(auto, unfolding(crate::specs::EventLines::event_of))]
fn read_longer(heading: Heading, start: Start<'_>, fourth: Field<'_>) -> Result<Event, Why>
    ensures { result ≡ event_of heading (start.entry.first.now ∷ start.entry.second.now ∷ start.entry.third.now ∷ fourth.entry.bytes.now ∷ fields_of fourth.entry.after.now) }
{
    let Some(fifth) = next_field(fourth.after) else {
        return read_four(
            heading,
            start.first,
            start.second,
            start.third,
            fourth.bytes,
        );
    };
    if next_field(fifth.after).is_some() {
        return Err(Why::Fields);
    }
    let Some(rack) = read_rack(start.first) else {
        return Err(Why::Rack);
    };
    read_play(
        heading,
        Some(rack),
        start.second,
        start.third,
        fourth.bytes,
        fifth.bytes,
    )
}

/// The event of a line with four fields: a play without a rack, or a code with one.
#[tactic(auto, unfolding(crate::specs::EventLines::event_of))]
fn read_four(
    heading: Heading,
    first: &[u8],
    second: &[u8],
    third: &[u8],
    fourth: &[u8],
) -> Result<Event, Why>
    ensures { result ≡ event_of heading (first.now ∷ second.now ∷ third.now ∷ fourth.now ∷ []) }
{
    if has_digit(first) {
        return read_play(heading, None, first, second, third, fourth);
    }
    let Some(rack) = read_rack(first) else {
        return Err(Why::Rack);
    };
    read_coded(heading, Some(rack), second, third, fourth)
}

/// Whether one of the bytes is a digit.
fn has_digit(bytes: &[u8]) -> bool
    ensures { result ≡ has_digit bytes.now }
{
    bytes.iter().any(|byte| byte.is_ascii_digit())
}

/// The event of a play.
#[tactic(auto, unfolding(crate::specs::EventLines::played_of))]
fn read_play(
    heading: Heading,
    rack: Option<Counts>,
    position: &[u8],
    word: &[u8],
    score: &[u8],
    total: &[u8],
) -> Result<Event, Why>
    ensures { result ≡ played_of heading rack position.now word.now score.now total.now }
{
    let Some(position) = read_position(position) else {
        return Err(Why::Position);
    };
    let Some(word) = Text::of_bytes(word) else {
        return Err(Why::Word);
    };
    let kind = EventKind::Play {
        at: position.at,
        dir: position.dir,
        word,
    };
    read_numbers(heading, rack, kind, score, total)
}

/// The event of a code.
#[tactic(auto, unfolding(crate::specs::EventLines::coded_of))]
fn read_coded(
    heading: Heading,
    rack: Option<Counts>,
    code: &[u8],
    score: &[u8],
    total: &[u8],
) -> Result<Event, Why>
    ensures { result ≡ coded_of heading rack code.now score.now total.now }
{
    let Some(kind) = read_code(code) else {
        return Err(Why::Code);
    };
    read_numbers(heading, rack, kind, score, total)
}

/// The event with its score and its total.
#[tactic(auto, unfolding(crate::specs::EventLines::scored_of))]
fn read_numbers(
    heading: Heading,
    rack: Option<Counts>,
    kind: EventKind,
    score: &[u8],
    total: &[u8],
) -> Result<Event, Why>
    ensures { result ≡ scored_of heading rack kind score.now total.now }
{
    let Some(score) = Points::of_bytes(score) else {
        return Err(Why::Number);
    };
    let Some(total) = Points::of_bytes(total) else {
        return Err(Why::Number);
    };
    Ok(Event {
        line: heading.line,
        player: heading.player,
        rack,
        kind,
        score,
        total,
    })
}
