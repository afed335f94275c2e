//! The lines of the normal form.
ghost use Rattle.std.specs.Prelude.{◌≡◌, ◌++◌, ◌∷◌, [], OnOk, decimal};
ghost use Rattle.gcg_write.specs.Fields.{kind_text, points_text, tiles_text, position_text, word_text};
ghost use Rattle.gcg_write.specs.Normal.{event_text_of, rack_text, head_text, event_line, events_text, full_text, player_lines, text_of_lines, normal_of};
ghost use Rattle.text_lines.specs.Fronts.{IsFront};

use crate::fields::{push_play, push_points, push_tiles};
use gcg_read::{Event, EventKind, Player, Players, Record};
use ref_tiles::Counts;
use std::alloc::AllocError;
use text_decimals::push_number;

/// Appends what happened: the position and the word of a play, or a code.
#[tactic(auto, unfolding(crate::specs::Fields::kind_text))]
pub fn push_kind(kind: &EventKind, out: &mut Vec<u8>) -> Result<(), AllocError>
    ensures done { OnOk result (out.new.items ≡ out.old.items ++ kind_text kind.now) }
    ensures kept { IsFront out.old.items out.new.items }
{
    match kind {
        EventKind::Play { at, dir, word } => push_play(*at, *dir, word.as_slice(), out),
        EventKind::Pass => out.extend_from_slice(b"-"),
        EventKind::Exchange(tiles) => push_exchange(tiles, out),
        EventKind::ExchangeUnknown(number) => push_unknown(*number, out),
        EventKind::Withdraw => out.extend_from_slice(b"--"),
        EventKind::Challenge => out.extend_from_slice(b"(challenge)"),
        EventKind::Time => out.extend_from_slice(b"(time)"),
        EventKind::LastRack(tiles) => push_last_rack(tiles, out),
    }
}

/// Appends the code of an exchange of known tiles.
fn push_exchange(tiles: &Counts, out: &mut Vec<u8>) -> Result<(), AllocError>
    ensures done { OnOk result (out.new.items ≡ out.old.items ++ 45 ∷ tiles_text tiles.now) }
    ensures kept { IsFront out.old.items out.new.items }
{
    out.push(b'-')?;
    push_tiles(tiles, out)
}

/// Appends the code of an exchange of a number of unknown tiles.
fn push_unknown(number: u8, out: &mut Vec<u8>) -> Result<(), AllocError>
    ensures done { OnOk result (out.new.items ≡ out.old.items ++ 45 ∷ decimal number) }
    ensures kept { IsFront out.old.items out.new.items }
{
    out.push(b'-')?;
    push_number(out, number)
}

/// Appends the code of a last rack, its tiles in round brackets.
fn push_last_rack(tiles: &Counts, out: &mut Vec<u8>) -> Result<(), AllocError>
    ensures done { OnOk result (out.new.items ≡ out.old.items ++ (40 ∷ tiles_text tiles.now ++ 41 ∷ [])) }
    ensures kept { IsFront out.old.items out.new.items }
{
    out.push(b'(')?;
    push_tiles(tiles, out)?;
    out.extend_from_slice(b")")
}

/// Appends an event: what happened, its score and the total after it.
#[tactic(auto, unfolding(crate::specs::Normal::event_text_of))]
pub fn push_event(event: &Event, out: &mut Vec<u8>) -> Result<(), AllocError>
    ensures done { OnOk result (out.new.items ≡ out.old.items ++ event_text_of event.now) }
    ensures kept { IsFront out.old.items out.new.items }
{
    push_kind(&event.kind, out)?;
    out.push(b' ')?;
    push_points(event.score, event.total, out)
}

/// Appends a stated rack and the blank after it.
fn push_rack(rack: Option<Counts>, out: &mut Vec<u8>) -> Result<(), AllocError>
    ensures done { OnOk result (out.new.items ≡ out.old.items ++ rack_text rack) }
    ensures kept { IsFront out.old.items out.new.items }
{
    if let Some(tiles) = rack {
        push_tiles(&tiles, out)?;
        out.push(b' ')?;
    }
    Ok(())
}

/// Appends what comes before the rack of an event: the nickname of its player between `>` and a colon.
fn push_head(players: &Players, event: &Event, out: &mut Vec<u8>) -> Result<(), AllocError>
    ensures done { OnOk result (out.new.items ≡ out.old.items ++ head_text players.now event.now) }
    ensures kept { IsFront out.old.items out.new.items }
{
    out.push(b'>')?;
    out.extend_from_slice(players.of(event.player).nick.as_bytes())?;
    out.extend_from_slice(b": ")
}

/// Appends the line of an event, without an LF.
#[tactic(auto, unfolding(crate::specs::Normal::event_line))]
pub fn push_line_of_event(
    players: &Players,
    event: &Event,
    out: &mut Vec<u8>,
) -> Result<(), AllocError>
    ensures done { OnOk result (out.new.items ≡ out.old.items ++ event_line players.now event.now) }
    ensures kept { IsFront out.old.items out.new.items }
{
    push_head(players, event, out)?;
    push_rack(event.rack, out)?;
    push_event(event, out)
}

/// Appends the line of an event and its LF.
fn push_event_line(players: &Players, event: &Event, out: &mut Vec<u8>) -> Result<(), AllocError>
    ensures done { OnOk result (out.new.items ≡ out.old.items ++ (event_line players.now event.now ++ 10 ∷ [])) }
    ensures kept { IsFront out.old.items out.new.items }
{
    push_line_of_event(players, event, out)?;
    out.push(b'\n')?;
    Ok(())
}

/// Appends the lines of events.
fn push_events(players: &Players, events: &[Event], out: &mut Vec<u8>) -> Result<(), AllocError>
    ensures done { OnOk result (out.new.items ≡ out.old.items ++ events_text players.now events.now) }
    ensures kept { IsFront out.old.items out.new.items }
{
    for event in events {
        push_event_line(players, event, out)?;
    }
    Ok(())
}

/// Appends a full name and the blank before it; nothing if it is empty.
fn push_full(full: &[u8], out: &mut Vec<u8>) -> Result<(), AllocError>
    ensures done { OnOk result (out.new.items ≡ out.old.items ++ full_text full.now) }
    ensures kept { IsFront out.old.items out.new.items }
{
    if !full.is_empty() {
        out.push(b' ')?;
        out.extend_from_slice(full)?;
    }
    Ok(())
}

/// Appends the line of a player, if the player has a nickname.
#[tactic(auto, unfolding(crate::specs::Normal::player_lines))]
fn push_player(pragma: &[u8], player: &Player, out: &mut Vec<u8>) -> Result<(), AllocError>
    ensures done { OnOk result (out.new.items ≡ out.old.items ++ text_of_lines (player_lines pragma.now player.now)) }
    ensures kept { IsFront out.old.items out.new.items }
{
    let nick = player.nick.as_bytes();
    if nick.is_empty() {
        return Ok(());
    }
    out.extend_from_slice(pragma)?;
    out.extend_from_slice(nick)?;
    push_full(player.full.as_bytes(), out)?;
    out.push(b'\n')?;
    Ok(())
}

/// Appends the normal form of a record.
#[tactic(auto, using(crate::proofs::Texts::normal_after))]
pub fn push_record(game: &Record, out: &mut Vec<u8>) -> Result<(), AllocError>
    ensures done { OnOk result (out.new.items ≡ out.old.items ++ normal_of game.now) }
    ensures kept { IsFront out.old.items out.new.items }
{
    push_player(b"#player1 ", &game.players.first, out)?;
    push_player(b"#player2 ", &game.players.second, out)?;
    push_events(&game.players, game.events.as_slice(), out)
}
