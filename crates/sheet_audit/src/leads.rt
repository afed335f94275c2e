//! The line that says who is ahead.
ghost use Rattle.std.specs.Prelude.{◌≡◌, ◌++◌, OnOk};
ghost use Rattle.sheet_audit.specs.Lines.{won_by, is_ahead_by, same_total, other_player, name_of, ahead_text, same_standing, by_the_sheet, sheet_text, standing_text, lead_text};

use game_case::Finding;
use game_corrections::Standing;
use gcg_read::{Players, same_seat};
use std::alloc::AllocError;
use text_decimals::push_number;

/// Appends that both have the same total.
#[tactic(auto, unfolding(crate::specs::Lines::same_total))]
fn push_same(text: &mut Vec<u8>) -> Result<(), AllocError>
    ensures { OnOk result (text.new.items ≡ text.old.items ++ same_total) }
{
    text.extend_from_slice(b"both have the same total")
}

/// Appends how a player without a nickname is named.
#[tactic(auto, unfolding(crate::specs::Lines::other_player))]
fn push_other_player(text: &mut Vec<u8>) -> Result<(), AllocError>
    ensures { OnOk result (text.new.items ≡ text.old.items ++ other_player) }
{
    text.extend_from_slice(b"the other player")
}

/// Appends how a player is named: the nickname, or `the other player` if there is none.
fn push_name(text: &mut Vec<u8>, nick: &[u8]) -> Result<(), AllocError>
    ensures { OnOk result (text.new.items ≡ text.old.items ++ name_of nick.now) }
{
    match nick {
        [] => push_other_player(text),
        [..] => text.extend_from_slice(nick),
    }
}

/// Appends who is ahead, and by how many points.
fn push_ahead(
    text: &mut Vec<u8>,
    players: &Players,
    verb: &[u8],
    standing: &Standing,
) -> Result<(), AllocError>
    ensures { OnOk result (text.new.items ≡ text.old.items ++ ahead_text players.now verb.now standing.now) }
{
    match standing {
        Standing::Even => push_same(text),
        Standing::Ahead(player, by) => {
            push_name(text, players.of(*player).nick.as_bytes())?;
            text.extend_from_slice(verb)?;
            push_number(text, *by)
        }
    }
}

/// Whether the same player is ahead by the same number of points.
fn same_standing(ahead: &Standing, written: &Standing) -> bool
    ensures { result ≡ same_standing ahead.now written.now }
{
    match (ahead, written) {
        (Standing::Even, Standing::Even) => true,
        (Standing::Ahead(player, by), Standing::Ahead(other, points)) => {
            same_seat(*player, *other) && by == points
        }
        (Standing::Even, Standing::Ahead(_, _)) | (Standing::Ahead(_, _), Standing::Even) => false,
    }
}

/// Appends what comes before who is ahead by the sheet.
#[tactic(auto, unfolding(crate::specs::Lines::by_the_sheet))]
fn push_by_the_sheet(text: &mut Vec<u8>) -> Result<(), AllocError>
    ensures { OnOk result (text.new.items ≡ text.old.items ++ by_the_sheet) }
{
    text.extend_from_slice(b"; by the sheet ")
}

/// Appends who is ahead by the sheet, if that is not the same.
fn push_sheet(
    text: &mut Vec<u8>,
    players: &Players,
    verb: &[u8],
    ahead: &Standing,
    written: &Standing,
) -> Result<(), AllocError>
    ensures { OnOk result (text.new.items ≡ text.old.items ++ sheet_text players.now verb.now ahead.now written.now) }
{
    if same_standing(ahead, written) {
        return Ok(());
    }
    push_by_the_sheet(text)?;
    push_ahead(text, players, verb, written)
}

/// Appends who is ahead by the right numbers, and by the sheet if that is not the same.
fn push_standing(
    text: &mut Vec<u8>,
    players: &Players,
    verb: &[u8],
    ahead: &Standing,
    written: &Standing,
) -> Result<(), AllocError>
    ensures { OnOk result (text.new.items ≡ text.old.items ++ standing_text players.now verb.now ahead.now written.now) }
{
    push_ahead(text, players, verb, ahead)?;
    push_sheet(text, players, verb, ahead, written)?;
    text.push(b'\n')?;
    Ok(())
}

/// Appends who won.
#[tactic(auto, unfolding(crate::specs::Lines::won_by))]
fn push_winner(
    text: &mut Vec<u8>,
    players: &Players,
    ahead: &Standing,
    written: &Standing,
) -> Result<(), AllocError>
    ensures { OnOk result (text.new.items ≡ text.old.items ++ standing_text players.now won_by ahead.now written.now) }
{
    push_standing(text, players, b" won by ", ahead, written)
}

/// Appends who is ahead in a game that may go on.
#[tactic(auto, unfolding(crate::specs::Lines::is_ahead_by))]
fn push_leader(
    text: &mut Vec<u8>,
    players: &Players,
    ahead: &Standing,
    written: &Standing,
) -> Result<(), AllocError>
    ensures { OnOk result (text.new.items ≡ text.old.items ++ standing_text players.now is_ahead_by ahead.now written.now) }
{
    push_standing(text, players, b" is ahead by ", ahead, written)
}

/// Appends who is ahead, if the rules allow each event of the corrected record.
pub fn push_lead(
    text: &mut Vec<u8>,
    finding: &Finding,
    players: &Players,
    ahead: &Standing,
    written: &Standing,
) -> Result<(), AllocError>
    ensures { OnOk result (text.new.items ≡ text.old.items ++ lead_text finding.now players.now ahead.now written.now) }
{
    match finding {
        Finding::Legal { complete: true } => push_winner(text, players, ahead, written),
        Finding::Legal { complete: false } | Finding::Unsettled => {
            push_leader(text, players, ahead, written)
        }
        Finding::NoGame | Finding::Illegal { .. } => Ok(()),
    }
}
