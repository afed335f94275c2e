//! The English rules.
ghost use Rattle.std.specs.Prelude.{◌≡◌, sum};
ghost use Rattle.ref_tiles.specs.English.{english_counts, english_points, english_premiums};

use crate::counting::Counts;
use crate::premiums::Premium;
use crate::rulebook::{Rules, SQUARES};

const P: Premium = Premium::Plain;

const DL: Premium = Premium::DoubleLetter;

const TL: Premium = Premium::TripleLetter;

const DW: Premium = Premium::DoubleWord;

const TW: Premium = Premium::TripleWord;

#[rattlefmt::skip]
const PREMIUMS: [Premium; SQUARES] = [
    TW, P, P, DL, P, P, P, TW, P, P, P, DL, P, P, TW,
    P, DW, P, P, P, TL, P, P, P, TL, P, P, P, DW, P,
    P, P, DW, P, P, P, DL, P, DL, P, P, P, DW, P, P,
    DL, P, P, DW, P, P, P, DL, P, P, P, DW, P, P, DL,
    P, P, P, P, DW, P, P, P, P, P, DW, P, P, P, P,
    P, TL, P, P, P, TL, P, P, P, TL, P, P, P, TL, P,
    P, P, DL, P, P, P, DL, P, DL, P, P, P, DL, P, P,
    TW, P, P, DL, P, P, P, DW, P, P, P, DL, P, P, TW,
    P, P, DL, P, P, P, DL, P, DL, P, P, P, DL, P, P,
    P, TL, P, P, P, TL, P, P, P, TL, P, P, P, TL, P,
    P, P, P, P, DW, P, P, P, P, P, DW, P, P, P, P,
    DL, P, P, DW, P, P, P, DL, P, P, P, DW, P, P, DL,
    P, P, DW, P, P, P, DL, P, DL, P, P, P, DW, P, P,
    P, DW, P, P, P, TL, P, P, P, TL, P, P, P, DW, P,
    TW, P, P, DL, P, P, P, TW, P, P, P, DL, P, P, TW,
];

/// The English game: 100 tiles, the standard board and the WESPA rules.
pub const ENGLISH: Rules = Rules {
    counts: Counts::ENGLISH,
    points: [
        1, 3, 3, 2, 1, 4, 2, 4, 1, 8, 5, 1, 3, 1, 1, 3, 10, 1, 1, 1, 1, 4, 4, 8, 4, 10,
    ],
    premiums: PREMIUMS,
    bonus: 50,
    exchange_min: 7,
    zero_limit: 6,
    challenge_unit: 5,
    time_step: 5,
};

/// The English game, [`ENGLISH`]: its tiles, their points, the premium squares and the five numbers are those of the tables.
#[tactic(auto, unfolding(crate::specs::English::english_premiums, crate::specs::Limits::most_tiles))]
pub fn english_rules() -> Rules
    ensures counts { result.counts ≡ english_counts }
    ensures tiles { sum result.counts ≡ 100 }
    ensures points { result.points ≡ english_points }
    ensures premiums { result.premiums ≡ english_premiums }
    ensures bonus { result.bonus ≡ 50 }
    ensures exchange_min { result.exchange_min ≡ 7 }
    ensures zero_limit { result.zero_limit ≡ 6 }
    ensures challenge_unit { result.challenge_unit ≡ 5 }
    ensures time_step { result.time_step ≡ 5 }
{
    ENGLISH
}
