//! What a change costs: what stays wrong with it, and the weight of its slip.
ghost use Rattle.std.specs.Prelude.{◌≡◌};
ghost use Rattle.repair_changes.specs.Weights.{position_weight, spelling_weight, other_weight, number_weight, tile_weight, early_weight, several_weight, missing_weight, weight_of, remaining_cost};

use crate::slips::{MissingLine, PositionSlip, Slip, SpellingSlip, TileSlip, TilesOf};

/// What a wrong number costs.
pub const NUMBER: u128 = 5;

/// What a word costs that is not in the list.
pub const WORD: u128 = 3;

/// How many repairs one line may have: one more than there are letters.
pub const MOST_ALIKE: usize = 27;

/// How many words that are not in the list may come from slips: if there are more, they are phonies, or the game was played with another list.
pub const WORDS_OF_SLIPS: usize = 3;

/// What so many wrong numbers and so many words that are not in the list cost.
pub fn remaining_cost(wrong: usize, unlisted: usize) -> u128
    ensures { result ≡ remaining_cost wrong unlisted }
{
    NUMBER * wrong as u128 + WORD * unlisted as u128
}

fn position_weight(slip: &PositionSlip) -> usize
    ensures { result ≡ position_weight slip.now }
{
    match slip {
        PositionSlip::OtherDirection | PositionSlip::OneOff(_) => 2,
        PositionSlip::Further(_) => 3,
        PositionSlip::Interchanged => 4,
    }
}

fn spelling_weight(slip: &SpellingSlip) -> usize
    ensures { result ≡ spelling_weight slip.now }
{
    match slip {
        SpellingSlip::OtherTile { .. } => 2,
        SpellingSlip::Dot { .. } => 2,
        SpellingSlip::Letter { .. } => 2,
        SpellingSlip::OtherLetter { .. } => 3,
        SpellingSlip::Extra { .. } => 3,
        SpellingSlip::MissingDot { .. } => 2,
        SpellingSlip::MissingLetter { .. } => 4,
        SpellingSlip::Twisted { .. } => 2,
        SpellingSlip::Laid(_) => 2,
    }
}

fn other_weight(of: TilesOf) -> usize
    ensures { result ≡ other_weight of }
{
    match of {
        TilesOf::Rack | TilesOf::Exchange => 3,
        TilesOf::LastRack => 2,
    }
}

fn number_weight(of: TilesOf) -> usize
    ensures { result ≡ number_weight of }
{
    match of {
        TilesOf::Rack => 3,
        TilesOf::Exchange => 2,
        TilesOf::LastRack => 4,
    }
}

fn tile_weight(of: TilesOf, slip: &TileSlip) -> usize
    ensures { result ≡ tile_weight of slip.now }
{
    match slip {
        TileSlip::Other { .. } => other_weight(of),
        TileSlip::Extra { .. } | TileSlip::Missing { .. } => number_weight(of),
    }
}

fn early_weight(early: bool) -> usize
    ensures { result ≡ early_weight early }
{
    if early { 11 } else { 3 }
}

fn several_weight(several: bool) -> usize
    ensures { result ≡ several_weight several }
{
    if several { 5 } else { 3 }
}

fn missing_weight(line: &MissingLine) -> usize
    ensures { result ≡ missing_weight line.now }
{
    match line {
        MissingLine::Play { .. } => 4,
        MissingLine::Pass(_) => 2,
        MissingLine::Exchange { .. } => 2,
        MissingLine::Time { early, .. } => early_weight(*early),
        MissingLine::Withdrawal(_) => 2,
        MissingLine::Challenge { several, .. } => several_weight(*several),
        MissingLine::Rest { .. } => 2,
    }
}

/// The weight of a slip, 1 to 7, or 11 for a time penalty that is missing before a turn: a smaller one is likelier.
pub fn weight_of(slip: &Slip) -> usize
    ensures { result ≡ weight_of slip.now }
{
    match slip {
        Slip::Position(slip) => position_weight(slip),
        Slip::Spelling(slip) => spelling_weight(slip),
        Slip::Replayed(_) => 6,
        Slip::Tile { of, slip } => tile_weight(*of, slip),
        Slip::Misread(_) => 4,
        Slip::NoRack => 5,
        Slip::Number(_) => 4,
        Slip::Code(_) => 2,
        Slip::Rest(_) => 3,
        Slip::Amount(_) => 2,
        Slip::OtherPlayer => 2,
        Slip::Repeated => 1,
        Slip::ExtraPass => 2,
        Slip::Extra => 7,
        Slip::Swapped => 2,
        Slip::SwappedOver => 3,
        Slip::Missing(line) => missing_weight(line),
    }
}
