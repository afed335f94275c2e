//! An event without a slip.
ghost use Rattle.std.specs.Prelude.{◌≡◌};
ghost use Rattle.std.specs.Option.{option_map};
ghost use Rattle.ref_board.specs.Cells.{mirrored};
ghost use Rattle.ref_tiles.specs.declared.symbols.Symbol.TheVariants as symbol;
ghost use Rattle.gcg_read.specs.declared.events.EventKind.TheVariants as kind_of;
ghost use Rattle.repair_changes.specs.declared.slips.SpellingSlip.TheVariants as spelling;
ghost use Rattle.repair_changes.specs.Applied.{right_square, right_dir, right_tiles, code_kind, right_position, right_spelling, right_play, right_lot, misread_on_rack, right_misread, right_kind, right_rack, right_player, right_amount, right_event};

use crate::counting::{one_less, one_more};
use crate::slips::{
    CodeSlip, Misread, PositionSlip, RightPlay, Slip, SpellingSlip, TileSlip, TilesOf,
};
use crate::splices::right_word;
use gcg_read::{Event, EventKind, Points, Seat};
use ref_board::{Dir, Square};
use ref_tiles::{Counts, Kind, Letter, Symbol};

/// The square with the row and the column of another one interchanged.
fn mirrored(at: Square) -> Square
    ensures { result ≡ mirrored at }
{
    Square::on_line(Dir::Down, at.row(), at.column())
}

/// The square on which a play begins.
fn right_square(slip: &PositionSlip, at: Square) -> Square
    ensures { result ≡ right_square slip.now at }
{
    match slip {
        PositionSlip::OtherDirection => at,
        PositionSlip::OneOff(right) => *right,
        PositionSlip::Further(right) => *right,
        PositionSlip::Interchanged => mirrored(at),
    }
}

/// The direction of a play.
fn right_dir(slip: &PositionSlip, dir: Dir) -> Dir
    ensures { result ≡ right_dir slip.now dir }
{
    match slip {
        PositionSlip::OtherDirection => dir.other(),
        PositionSlip::OneOff(_) | PositionSlip::Further(_) | PositionSlip::Interchanged => dir,
    }
}

/// The right tiles.
fn right_tiles(slip: &TileSlip, counts: &Counts) -> Counts
    ensures { result ≡ right_tiles slip.now counts.now }
{
    match slip {
        TileSlip::Other { tile, right } => one_more(&one_less(counts, *tile), *right),
        TileSlip::Extra { tile } => one_less(counts, *tile),
        TileSlip::Missing { tile } => one_more(counts, *tile),
    }
}

/// What the right code says.
fn code_kind(slip: &CodeSlip) -> EventKind
    ensures { result ≡ code_kind slip.now }
{
    match slip {
        CodeSlip::Pass => EventKind::Pass,
        CodeSlip::Exchange(number) => EventKind::ExchangeUnknown(*number),
        CodeSlip::Withdrawal => EventKind::Withdraw,
    }
}

/// A play with the right position.
fn right_position(slip: &PositionSlip, kind: &EventKind) -> EventKind
    ensures { result ≡ right_position slip.now kind.now }
{
    match kind {
        EventKind::Play { at, dir, word } => EventKind::Play {
            at: right_square(slip, *at),
            dir: right_dir(slip, *dir),
            word: word.copy(),
        },
        _ => kind.copy(),
    }
}

/// A play with the right text.
fn right_spelling(slip: &SpellingSlip, kind: &EventKind) -> EventKind
    ensures { result ≡ right_spelling slip.now kind.now }
{
    match kind {
        EventKind::Play { at, dir, word } => EventKind::Play {
            at: *at,
            dir: *dir,
            word: right_word(slip, word),
        },
        _ => kind.copy(),
    }
}

/// The kind of an event that is this play.
pub(crate) fn play_kind(play: &RightPlay) -> EventKind
    ensures { result ≡ kind_of.Play play.now.at play.now.dir play.now.word }
{
    EventKind::Play {
        at: play.at,
        dir: play.dir,
        word: play.word.copy(),
    }
}

/// Another play in place of one.
fn right_play(right: &RightPlay, kind: &EventKind) -> EventKind
    ensures { result ≡ right_play right.now kind.now }
{
    match kind {
        EventKind::Play { .. } => play_kind(right),
        _ => kind.copy(),
    }
}

/// An exchange or a last rack with the right tiles.
fn right_lot(of: TilesOf, slip: &TileSlip, kind: &EventKind) -> EventKind
    ensures { result ≡ right_lot of slip.now kind.now }
{
    match (of, kind) {
        (TilesOf::Exchange, EventKind::Exchange(tiles)) => {
            EventKind::Exchange(right_tiles(slip, tiles))
        }
        (TilesOf::LastRack, EventKind::LastRack(tiles)) => {
            EventKind::LastRack(right_tiles(slip, tiles))
        }
        _ => kind.copy(),
    }
}

/// The slip of the stated rack, of a tile that is misread twice.
fn misread_on_rack(slip: &Misread) -> TileSlip
    ensures { result ≡ misread_on_rack slip.now }
{
    match slip {
        Misread::Played { tile, right, .. } => TileSlip::Other {
            tile: Kind::Letter(*tile),
            right: Kind::Letter(*right),
        },
        Misread::Exchanged { tile, right } => TileSlip::Other {
            tile: *tile,
            right: *right,
        },
    }
}

/// A play with another letter at a place of its text.
fn relettered(place: usize, right: Letter, kind: &EventKind) -> EventKind
    ensures { result ≡ right_spelling (spelling.OtherLetter place (symbol.Letter right)) kind.now }
{
    let right = Symbol::Letter(right);
    right_spelling(&SpellingSlip::OtherLetter { place, right }, kind)
}

/// What happened, of a tile that is misread twice.
fn right_misread(slip: &Misread, kind: &EventKind) -> EventKind
    ensures { result ≡ right_misread slip.now kind.now }
{
    match slip {
        Misread::Played { place, right, .. } => relettered(*place, *right, kind),
        Misread::Exchanged { .. } => { right_lot(TilesOf::Exchange, &misread_on_rack(slip), kind) }
    }
}

/// What happened.
fn right_kind(slip: &Slip, kind: &EventKind) -> EventKind
    ensures { result ≡ right_kind slip.now kind.now }
{
    match slip {
        Slip::Position(slip) => right_position(slip, kind),
        Slip::Spelling(slip) => right_spelling(slip, kind),
        Slip::Replayed(right) => right_play(right, kind),
        Slip::Tile { of, slip } => right_lot(*of, slip, kind),
        Slip::Misread(slip) => right_misread(slip, kind),
        Slip::Number(number) => EventKind::ExchangeUnknown(*number),
        Slip::Code(slip) => code_kind(slip),
        Slip::Rest(tiles) => EventKind::LastRack(*tiles),
        _ => kind.copy(),
    }
}

/// The right tiles of a rack, if one is stated.
fn right_tiles_of(slip: &TileSlip, rack: &Option<Counts>) -> Option<Counts>
    ensures { result ≡ option_map (right_tiles slip.now) rack.now }
{
    match rack {
        Some(tiles) => Some(right_tiles(slip, tiles)),
        None => None,
    }
}

/// The stated rack.
fn right_rack(slip: &Slip, rack: &Option<Counts>) -> Option<Counts>
    ensures { result ≡ right_rack slip.now rack.now }
{
    match slip {
        Slip::Tile {
            of: TilesOf::Rack,
            slip,
        } => right_tiles_of(slip, rack),
        Slip::Misread(slip) => right_tiles_of(&misread_on_rack(slip), rack),
        Slip::NoRack => None,
        _ => *rack,
    }
}

/// The player whose line it is.
fn right_player(slip: &Slip, player: Seat) -> Seat
    ensures { result ≡ right_player slip.now player }
{
    match slip {
        Slip::OtherPlayer => player.other(),
        _ => player,
    }
}

/// The score, if it is one that the rules do not give.
fn right_amount(slip: &Slip, score: Points) -> Points
    ensures { result ≡ right_amount slip.now score }
{
    match slip {
        Slip::Amount(right) => *right,
        _ => score,
    }
}

/// The event without the slip.
pub(crate) fn right_event(slip: &Slip, event: &Event) -> Event
    ensures { result ≡ right_event slip.now event.now }
{
    Event {
        line: event.line,
        player: right_player(slip, event.player),
        rack: right_rack(slip, &event.rack),
        kind: right_kind(slip, &event.kind),
        score: right_amount(slip, event.score),
        total: event.total,
    }
}
