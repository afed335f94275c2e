//! Copies of slips.
ghost use Rattle.std.specs.Prelude.{◌≡◌};

use crate::slips::{MissingLine, PositionSlip, RightPlay, Slip, SpellingSlip};

/// A copy of a play.
fn copy_play(play: &RightPlay) -> RightPlay
    ensures { result ≡ play.now }
{
    RightPlay {
        at: play.at,
        dir: play.dir,
        word: play.word.copy(),
    }
}

/// A copy of a slip in the position of a play.
fn copy_position(slip: &PositionSlip) -> PositionSlip
    ensures { result ≡ slip.now }
{
    match slip {
        PositionSlip::OtherDirection => PositionSlip::OtherDirection,
        PositionSlip::OneOff(square) => PositionSlip::OneOff(*square),
        PositionSlip::Further(square) => PositionSlip::Further(*square),
        PositionSlip::Interchanged => PositionSlip::Interchanged,
    }
}

/// A copy of a slip in the text of a play.
fn copy_spelling(slip: &SpellingSlip) -> SpellingSlip
    ensures { result ≡ slip.now }
{
    match slip {
        SpellingSlip::OtherTile { place, right } => SpellingSlip::OtherTile {
            place: *place,
            right: *right,
        },
        SpellingSlip::Dot { place } => SpellingSlip::Dot { place: *place },
        SpellingSlip::Letter { place, right } => SpellingSlip::Letter {
            place: *place,
            right: *right,
        },
        SpellingSlip::OtherLetter { place, right } => SpellingSlip::OtherLetter {
            place: *place,
            right: *right,
        },
        SpellingSlip::Extra { place } => SpellingSlip::Extra { place: *place },
        SpellingSlip::MissingDot { place } => SpellingSlip::MissingDot { place: *place },
        SpellingSlip::MissingLetter { place, right } => SpellingSlip::MissingLetter {
            place: *place,
            right: *right,
        },
        SpellingSlip::Twisted { place } => SpellingSlip::Twisted { place: *place },
        SpellingSlip::Laid(text) => SpellingSlip::Laid(text.copy()),
    }
}

/// A copy of a missing line.
fn copy_missing(line: &MissingLine) -> MissingLine
    ensures { result ≡ line.now }
{
    match line {
        MissingLine::Play { player, play } => MissingLine::Play {
            player: *player,
            play: copy_play(play),
        },
        MissingLine::Pass(player) => MissingLine::Pass(*player),
        MissingLine::Exchange { player, number } => MissingLine::Exchange {
            player: *player,
            number: *number,
        },
        MissingLine::Time {
            player,
            score,
            early,
        } => MissingLine::Time {
            player: *player,
            score: *score,
            early: *early,
        },
        MissingLine::Withdrawal(player) => MissingLine::Withdrawal(*player),
        MissingLine::Challenge {
            player,
            score,
            several,
        } => MissingLine::Challenge {
            player: *player,
            score: *score,
            several: *several,
        },
        MissingLine::Rest { player, tiles } => MissingLine::Rest {
            player: *player,
            tiles: *tiles,
        },
    }
}

/// A copy of a slip.
pub fn copy_slip(slip: &Slip) -> Slip
    ensures { result ≡ slip.now }
{
    match slip {
        Slip::Position(slip) => Slip::Position(copy_position(slip)),
        Slip::Spelling(slip) => Slip::Spelling(copy_spelling(slip)),
        Slip::Replayed(play) => Slip::Replayed(copy_play(play)),
        Slip::Tile { of, slip } => Slip::Tile {
            of: *of,
            slip: *slip,
        },
        Slip::Misread(slip) => Slip::Misread(*slip),
        Slip::NoRack => Slip::NoRack,
        Slip::Number(number) => Slip::Number(*number),
        Slip::Code(code) => Slip::Code(*code),
        Slip::Rest(tiles) => Slip::Rest(*tiles),
        Slip::Amount(score) => Slip::Amount(*score),
        Slip::OtherPlayer => Slip::OtherPlayer,
        Slip::Repeated => Slip::Repeated,
        Slip::Extra => Slip::Extra,
        Slip::ExtraPass => Slip::ExtraPass,
        Slip::Swapped => Slip::Swapped,
        Slip::SwappedOver => Slip::SwappedOver,
        Slip::Missing(line) => Slip::Missing(copy_missing(line)),
    }
}
