//! What is said of racks that differ.

use crate::written::{event_at, push_numbers};
use compare_alignments::{Pair, Side};
use compare_answers::{OwnRack, RacksAnswer};
use compare_choices::Sheets;
use explain_parts::say;
use gcg_read::Event;
use std::alloc::AllocError;

/// Appends the rack of a line, if it states one.
fn push_rack(text: &mut Vec<u8>, event: Option<&Event>) -> Result<(), AllocError> {
    let Some(event) = event else {
        return Ok(());
    };
    match &event.rack {
        Some(tiles) => say!(text; "rack ", tiles),
        None => Ok(()),
    }
}

/// The words for a player's own sheet, if its rack is taken.
fn words_for_own(side: Side) -> &'static str {
    match side {
        Side::First => ": the first, the sheet of ",
        Side::Second => ": the second, the sheet of ",
    }
}

/// The words for a player's own sheet, if the rack of the other sheet is taken.
fn words_for_other(own: Side) -> &'static str {
    match own {
        Side::First => ": the second; with the first, the sheet of ",
        Side::Second => ": the first; with the second, the sheet of ",
    }
}

/// Why the rack of the player's own sheet is not taken.
fn words_for_why(why: OwnRack) -> &'static str {
    match why {
        OwnRack::NoGame => ", there is no game",
        OwnRack::NoDeal => ", no deal yields the racks",
        OwnRack::NoDealFound => ", no deal was found",
        OwnRack::MoreWrong => ", more is wrong",
    }
}

/// Appends which rack of a player is taken.
fn push_owner(text: &mut Vec<u8>, sheets: &Sheets, answer: RacksAnswer) -> Result<(), AllocError> {
    match answer {
        RacksAnswer::Same | RacksAnswer::Differ => Ok(()),
        RacksAnswer::Own { side, player } => {
            let nick = sheets.first.players.of(player).nick.as_bytes();
            say!(text; words_for_own(side), nick)
        }
        RacksAnswer::Other { own, player, why } => {
            let nick = sheets.first.players.of(player).nick.as_bytes();
            say!(text; words_for_other(own), nick, words_for_why(why))
        }
    }
}

/// Appends the racks of a pair, if they differ, and which of them is taken.
pub(crate) fn push_racks(
    text: &mut Vec<u8>,
    sheets: &Sheets,
    pair: &Pair,
    answer: RacksAnswer,
) -> Result<(), AllocError> {
    if matches!(answer, RacksAnswer::Same) {
        return Ok(());
    }
    push_numbers(text, sheets, pair)?;
    say!(text; ": ")?;
    push_rack(text, event_at(&sheets.first, pair.first))?;
    say!(text; " | ")?;
    push_rack(text, event_at(&sheets.second, pair.second))?;
    push_owner(text, sheets, answer)?;
    say!(text; "\n")
}
