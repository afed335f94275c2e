//! The names of slips.
ghost use Rattle.std.specs.Prelude.{◌≡◌};
ghost use Rattle.repair_json.specs.Slips.{code_name, exchange_name, last_rack_name, misread_name, missing_name, off_name, position_name, rack_name, running_name, sheet_slip_name, slip_name, spelling_name, tile_name};

use repair_changes::{
    CodeSlip, Misread, MissingLine, PositionSlip, Slip, SpellingSlip, TileSlip, TilesOf,
};
use repair_sheets::{RunningSlip, SheetSlip, Way};

/// The name of a slip of a position.
fn position_name(slip: &PositionSlip) -> &'static str
    ensures { result.now ≡ position_name slip.now }
{
    match slip {
        PositionSlip::OtherDirection => "other direction",
        PositionSlip::OneOff(_) => "one square off",
        PositionSlip::Further(_) => "other square",
        PositionSlip::Interchanged => "row and column interchanged",
    }
}

/// The name of a slip of a text.
fn spelling_name(slip: &SpellingSlip) -> &'static str
    ensures { result.now ≡ spelling_name slip.now }
{
    match slip {
        SpellingSlip::OtherTile { .. } => "letter or blank",
        SpellingSlip::Dot { .. } => "letter in place of dot",
        SpellingSlip::Letter { .. } => "dot in place of letter",
        SpellingSlip::OtherLetter { .. } => "other letter",
        SpellingSlip::Extra { .. } => "symbol too many",
        SpellingSlip::MissingDot { .. } => "dot missing",
        SpellingSlip::MissingLetter { .. } => "letter missing",
        SpellingSlip::Twisted { .. } => "symbols interchanged",
        SpellingSlip::Laid(_) => "dots too many or too few",
    }
}

/// The name of a slip of the tiles of a rack.
fn rack_name(slip: &TileSlip) -> &'static str
    ensures { result.now ≡ rack_name slip.now }
{
    match slip {
        TileSlip::Other { .. } => "other tile on rack",
        TileSlip::Extra { .. } => "tile too many on rack",
        TileSlip::Missing { .. } => "tile missing on rack",
    }
}

/// The name of a slip of tiles that are exchanged.
fn exchange_name(slip: &TileSlip) -> &'static str
    ensures { result.now ≡ exchange_name slip.now }
{
    match slip {
        TileSlip::Other { .. } => "other tile exchanged",
        TileSlip::Extra { .. } => "tile too many exchanged",
        TileSlip::Missing { .. } => "tile missing in exchange",
    }
}

/// The name of a slip of a last rack.
fn last_rack_name(slip: &TileSlip) -> &'static str
    ensures { result.now ≡ last_rack_name slip.now }
{
    match slip {
        TileSlip::Other { .. } => "other tile on last rack",
        TileSlip::Extra { .. } => "tile too many on last rack",
        TileSlip::Missing { .. } => "tile missing on last rack",
    }
}

/// The name of a slip of tiles.
fn tile_name(of: TilesOf, slip: &TileSlip) -> &'static str
    ensures { result.now ≡ tile_name of slip.now }
{
    match of {
        TilesOf::Rack => rack_name(slip),
        TilesOf::Exchange => exchange_name(slip),
        TilesOf::LastRack => last_rack_name(slip),
    }
}

/// The name of a tile that is misread twice.
fn misread_name(slip: &Misread) -> &'static str
    ensures { result.now ≡ misread_name slip.now }
{
    match slip {
        Misread::Played { .. } => "other tile on rack and in word",
        Misread::Exchanged { .. } => "other tile on rack and exchanged",
    }
}

/// The name of a slip of a code.
fn code_name(slip: &CodeSlip) -> &'static str
    ensures { result.now ≡ code_name slip.now }
{
    match slip {
        CodeSlip::Pass => "pass",
        CodeSlip::Exchange(_) => "exchange",
        CodeSlip::Withdrawal => "withdrawal",
    }
}

/// The name of a line that is missing.
fn missing_name(line: &MissingLine) -> &'static str
    ensures { result.now ≡ missing_name line.now }
{
    match line {
        MissingLine::Play { .. } => "play missing",
        MissingLine::Pass(_) => "pass missing",
        MissingLine::Exchange { .. } => "exchange missing",
        MissingLine::Time { .. } => "penalty missing",
        MissingLine::Withdrawal(_) => "withdrawal missing",
        MissingLine::Challenge { .. } => "bonus missing",
        MissingLine::Rest { .. } => "last rack missing",
    }
}

/// The name of a slip.
pub(crate) fn slip_name(slip: &Slip) -> &'static str
    ensures { result.now ≡ slip_name slip.now }
{
    match slip {
        Slip::Position(slip) => position_name(slip),
        Slip::Spelling(slip) => spelling_name(slip),
        Slip::Replayed(_) => "another play",
        Slip::Tile { of, slip } => tile_name(*of, slip),
        Slip::Misread(slip) => misread_name(slip),
        Slip::NoRack => "other rack",
        Slip::Number(_) => "other number of tiles",
        Slip::Code(slip) => code_name(slip),
        Slip::Rest(_) => "other last rack",
        Slip::Amount(_) => "other amount",
        Slip::OtherPlayer => "other player",
        Slip::Repeated => "line repeated",
        Slip::ExtraPass => "pass too many",
        Slip::Extra => "line too many",
        Slip::Swapped => "lines interchanged",
        Slip::SwappedOver => "lines interchanged over another",
        Slip::Missing(line) => missing_name(line),
    }
}

/// The name of places that are one square off, if the right ones are there, seen from them.
fn off_name(way: Way) -> &'static str
    ensures { result.now ≡ off_name way }
{
    match way {
        Way::Left => "places one column too far right",
        Way::Right => "places one column too far left",
        Way::Up => "places one row too far down",
        Way::Down => "places one row too far up",
    }
}

/// The name of a slip that runs through the sheet.
fn running_name(slip: RunningSlip) -> &'static str
    ensures { result.now ≡ running_name slip }
{
    match slip {
        RunningSlip::Interchanged => "rows and columns interchanged",
        RunningSlip::OneOff(way) => off_name(way),
        RunningSlip::OtherCase => "small letters and capitals interchanged",
        RunningSlip::CapitalBlanks => "blanks as capitals",
        RunningSlip::OtherPlayer => "players interchanged",
    }
}

/// The name of a slip of the whole sheet.
pub(crate) fn sheet_slip_name(slip: &SheetSlip) -> &'static str
    ensures { result.now ≡ sheet_slip_name slip.now }
{
    match slip {
        SheetSlip::Unread(_) => "line not read",
        SheetSlip::ExtraMark { .. } => "> too many",
        SheetSlip::NoPlace { .. } => "no place",
        SheetSlip::Running { slip, .. } => running_name(*slip),
    }
}
