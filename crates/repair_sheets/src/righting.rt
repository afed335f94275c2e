//! An event without a slip that runs through a sheet.
ghost use Rattle.std.specs.Prelude.{◌≡◌, ◌≤◌, map, length, is_some};
ghost use Rattle.repair_sheets.specs.Righting.{right_square, right_dir, other_case, right_word, right_kind, right_player, right_event, has_next, may_have, is_play, changes};

use crate::blanks::{has_blank, laid_by};
use crate::slips::{RunningSlip, Way};
use crate::squares::next_square;
use arrayvec::ArrayVec;
use gcg_read::{Event, EventKind, Seat, Text};
use ref_board::{Dir, SIDE, Square};
use ref_tiles::{Counts, Symbol};

/// The square on which a play begins.
fn right_square(slip: RunningSlip, at: Square) -> Square
    ensures { result ≡ right_square slip at }
{
    match slip {
        RunningSlip::OneOff(way) => next_square(way, at).unwrap_or(at),
        _ => at,
    }
}

/// The direction of a play.
fn right_dir(slip: RunningSlip, dir: Dir) -> Dir
    ensures { result ≡ right_dir slip dir }
{
    match slip {
        RunningSlip::Interchanged => dir.other(),
        _ => dir,
    }
}

/// A small letter for a capital, and a capital for a small letter.
fn other_case(symbol: &Symbol) -> Symbol
    ensures { result ≡ other_case symbol.now }
{
    match symbol {
        Symbol::Dot => Symbol::Dot,
        Symbol::Letter(letter) => Symbol::Blank(*letter),
        Symbol::Blank(letter) => Symbol::Letter(*letter),
    }
}

/// The symbols of a text in the other case.
fn symbols_in_other_case(word: &[Symbol]) -> ArrayVec<Symbol, SIDE>
    requires { length word.now ≤ 15 }
    ensures { result.items ≡ map other_case word.now }
{
    let mut symbols = ArrayVec::new();
    for symbol in word {
        symbols.push(other_case(symbol));
    }
    symbols
}

/// The text in the other case.
fn in_other_case(word: &Text) -> Text
    ensures { result ≡ map other_case word.now }
{
    let symbols = symbols_in_other_case(word.as_slice());
    Text::new(&symbols).unwrap()
}

/// The text of a play, given the rack that its line states.
fn right_word(slip: RunningSlip, rack: &Option<Counts>, word: &Text) -> Text
    ensures { result ≡ right_word slip rack.now word.now }
{
    match slip {
        RunningSlip::OtherCase => in_other_case(word),
        RunningSlip::CapitalBlanks => laid_by(rack, word),
        _ => word.copy(),
    }
}

/// What happened, given the rack that the line states.
fn right_kind(slip: RunningSlip, rack: &Option<Counts>, kind: &EventKind) -> EventKind
    ensures { result ≡ right_kind slip rack.now kind.now }
{
    match kind {
        EventKind::Play { at, dir, word } => EventKind::Play {
            at: right_square(slip, *at),
            dir: right_dir(slip, *dir),
            word: right_word(slip, rack, word),
        },
        _ => kind.copy(),
    }
}

/// The player whose line it is.
fn right_player(slip: RunningSlip, player: Seat) -> Seat
    ensures { result ≡ right_player slip player }
{
    match slip {
        RunningSlip::OtherPlayer => player.other(),
        _ => player,
    }
}

/// The event without the slip.
pub(crate) fn right_event(slip: RunningSlip, event: &Event) -> Event
    ensures { result ≡ right_event slip event.now }
{
    Event {
        line: event.line,
        player: right_player(slip, event.player),
        rack: event.rack,
        kind: right_kind(slip, &event.rack, &event.kind),
        score: event.score,
        total: event.total,
    }
}

/// Whether the board has the right square of a play.
fn has_next(way: Way, kind: &EventKind) -> bool
    ensures { result ≡ has_next way kind.now }
{
    match kind {
        EventKind::Play { at, .. } => next_square(way, *at).is_some(),
        _ => true,
    }
}

/// Whether an event may have the slip.
pub(crate) fn may_have(slip: RunningSlip, kind: &EventKind) -> bool
    ensures { result ≡ may_have slip kind.now }
{
    match slip {
        RunningSlip::OneOff(way) => has_next(way, kind),
        _ => true,
    }
}

/// Whether an event is a play.
pub(crate) fn is_play(kind: &EventKind) -> bool
    ensures { result ≡ is_play kind.now }
{
    matches!(kind, EventKind::Play { .. })
}

/// Whether the line of an event, which is without the slip, is another one with it: that of a play; if blanks are capitals, of one with a blank; or, if the
/// players are exchanged, each.
pub fn changes(slip: RunningSlip, kind: &EventKind) -> bool
    ensures { result ≡ changes slip kind.now }
{
    match slip {
        RunningSlip::OtherPlayer => true,
        RunningSlip::CapitalBlanks => has_blank(kind),
        _ => is_play(kind),
    }
}
