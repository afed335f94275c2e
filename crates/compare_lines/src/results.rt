//! What is said of totals that differ, and of who won.

use compare_choices::{LastTotals, Results};
use explain_parts::say;
use game_corrections::Standing;
use gcg_read::{Players, Points, Seat};
use std::alloc::AllocError;

/// Appends a total, if there is one.
fn push_points(text: &mut Vec<u8>, points: Option<Points>) -> Result<(), AllocError> {
    match points {
        Some(points) => say!(text; points.value()),
        None => say!(text; "none"),
    }
}

/// Appends the last totals of a player, if they are not all the same.
fn push_totals(text: &mut Vec<u8>, nick: &[u8], totals: &LastTotals) -> Result<(), AllocError> {
    if totals.agree {
        return Ok(());
    }
    say!(text; "total of ", nick, ": ")?;
    push_points(text, totals.first)?;
    say!(text; " | ")?;
    push_points(text, totals.second)?;
    say!(text; ": the rules give ")?;
    push_points(text, totals.right)?;
    say!(text; "\n")
}

/// How a player is named: the nickname, or `the other player` if there is none.
fn name_of(players: &Players, seat: Seat) -> &[u8] {
    let nick = players.of(seat).nick.as_bytes();
    if nick.is_empty() {
        b"the other player"
    } else {
        nick
    }
}

/// Appends who has more points.
fn push_standing(
    text: &mut Vec<u8>,
    players: &Players,
    standing: Standing,
    complete: bool,
) -> Result<(), AllocError> {
    let ahead = if complete {
        " won by "
    } else {
        " is ahead by "
    };
    match standing {
        Standing::Even => say!(text; "both have the same total"),
        Standing::Ahead(seat, by) => say!(text; name_of(players, seat), ahead, by),
    }
}

/// Appends who has more points by a sheet, if it says so and that is not what the merged record says.
fn push_other_standing(
    text: &mut Vec<u8>,
    players: &Players,
    sheet: &'static str,
    standing: Option<Standing>,
    right: Standing,
    complete: bool,
) -> Result<(), AllocError> {
    let Some(standing) = standing else {
        return Ok(());
    };
    if standing == right {
        return Ok(());
    }
    say!(text; "; by ", sheet)?;
    push_standing(text, players, standing, complete)
}

/// Appends the last totals that differ, and who won by the merged record, and by a sheet that says otherwise.
pub(crate) fn push_results(
    text: &mut Vec<u8>,
    players: &Players,
    results: &Results,
    complete: bool,
) -> Result<(), AllocError> {
    push_totals(
        text,
        players.of(Seat::First).nick.as_bytes(),
        &results.of_first,
    )?;
    push_totals(
        text,
        players.of(Seat::Second).nick.as_bytes(),
        &results.of_second,
    )?;
    push_standing(text, players, results.right, complete)?;
    push_other_standing(
        text,
        players,
        "the first sheet ",
        results.first,
        results.right,
        complete,
    )?;
    push_other_standing(
        text,
        players,
        "the second sheet ",
        results.second,
        results.right,
        complete,
    )?;
    say!(text; "\n")
}
