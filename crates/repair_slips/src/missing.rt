//! Lines that may be missing before a place.
ghost use Rattle.std.specs.Prelude.{◌≡◌, ◌≤◌, ◌++◌, length, OnOk};
ghost use Rattle.std.specs.List.{list_any};
ghost use Rattle.std.specs.Option.{option_copied};
ghost use Rattle.game_turns.specs.Machines.{state_of};
ghost use Rattle.repair_slips.specs.MissingLines.{missing_exchange, missing_exchanges, missing_penalty, missing_penalties, missing_of, missing_bonus, missing_bonuses, missing_of_play, missing_after, missing_following, is_played, missing_slips};

use crate::adding::add;
use crate::amounts::{STEPS, TILES, WORDS, bonus_for, penalty_of};
use crate::lines::event_before;
use crate::rests::{push_missing_rest, rest_tiles};
use game_turns::{Machine, is_turn};
use gcg_read::{Event, EventKind, Seat};
use ref_tiles::Rules;
use repair_changes::{MissingLine, Slip};
use std::alloc::AllocError;

/// Adds a missing exchange by a player, for each number of tiles.
#[tactic(auto, unfolding(crate::specs::MissingLines::missing_exchanges))]
fn push_exchanges(slips: &mut Vec<Slip>, player: Seat) -> Result<(), AllocError>
    ensures { OnOk result (slips.new.items ≡ slips.old.items ++ missing_exchanges player) }
{
    for tiles in 0..TILES {
        let line = MissingLine::Exchange {
            player,
            number: tiles + 1,
        };
        add(slips, Slip::Missing(line))?;
    }
    Ok(())
}

/// Adds a missing penalty of a player, of a number of steps.
fn push_penalty(
    slips: &mut Vec<Slip>,
    rules: &Rules,
    early: bool,
    player: Seat,
    steps: u8,
) -> Result<(), AllocError>
    requires { steps ≤ 20 }
    ensures { OnOk result (slips.new.items ≡ slips.old.items ++ missing_penalty rules.now early player steps) }
{
    let line = MissingLine::Time {
        player,
        score: penalty_of(rules, steps),
        early,
    };
    add(slips, Slip::Missing(line))
}

/// Adds a missing penalty of a player, for each number of steps.
#[tactic(auto, unfolding(crate::specs::MissingLines::missing_penalties))]
fn push_penalties(
    slips: &mut Vec<Slip>,
    rules: &Rules,
    early: bool,
    player: Seat,
) -> Result<(), AllocError>
    ensures { OnOk result (slips.new.items ≡ slips.old.items ++ missing_penalties rules.now early player) }
{
    for steps in 0..STEPS {
        push_penalty(slips, rules, early, player, steps + 1)?;
    }
    Ok(())
}

/// Adds the lines of a player that may be missing.
fn push_of(
    slips: &mut Vec<Slip>,
    rules: &Rules,
    early: bool,
    player: Seat,
) -> Result<(), AllocError>
    ensures { OnOk result (slips.new.items ≡ slips.old.items ++ missing_of rules.now early player) }
{
    add(slips, Slip::Missing(MissingLine::Pass(player)))?;
    push_exchanges(slips, player)?;
    push_penalties(slips, rules, early, player)
}

/// Adds the bonus for a number of words.
fn push_bonus(
    slips: &mut Vec<Slip>,
    rules: &Rules,
    player: Seat,
    words: u8,
) -> Result<(), AllocError>
    requires { words ≤ 8 }
    ensures { OnOk result (slips.new.items ≡ slips.old.items ++ missing_bonus rules.now player words) }
{
    let line = MissingLine::Challenge {
        player,
        score: bonus_for(rules, words),
        several: words > 1,
    };
    add(slips, Slip::Missing(line))
}

/// Adds a bonus, for each number of words.
#[tactic(auto, unfolding(crate::specs::MissingLines::missing_bonuses))]
fn push_bonuses(slips: &mut Vec<Slip>, rules: &Rules, player: Seat) -> Result<(), AllocError>
    ensures { OnOk result (slips.new.items ≡ slips.old.items ++ missing_bonuses rules.now player) }
{
    for words in 0..WORDS {
        push_bonus(slips, rules, player, words + 1)?;
    }
    Ok(())
}

/// Adds the lines that may follow a play of a player.
fn push_after_play(slips: &mut Vec<Slip>, rules: &Rules, player: Seat) -> Result<(), AllocError>
    ensures { OnOk result (slips.new.items ≡ slips.old.items ++ missing_of_play rules.now player) }
{
    add(slips, Slip::Missing(MissingLine::Withdrawal(player)))?;
    push_bonuses(slips, rules, player)
}

/// Adds the lines that may follow the event before, if it is a play.
fn push_after(
    slips: &mut Vec<Slip>,
    rules: &Rules,
    before: Option<&Event>,
) -> Result<(), AllocError>
    ensures { OnOk result (slips.new.items ≡ slips.old.items ++ missing_following rules.now (option_copied before.entry)) }
{
    let Some(event) = before else {
        return Ok(());
    };
    match &event.kind {
        EventKind::Play { .. } => push_after_play(slips, rules, event.player),
        _ => Ok(()),
    }
}

/// Whether one of the events is a turn.
fn has_turn(events: &[Event]) -> bool
    ensures { result ≡ list_any is_played events.now }
{
    events.iter().any(|event| is_turn(&event.kind, None, false))
}

/// Adds all lines that may be missing before a place, judged by the game there.
#[tactic(auto, unfolding(crate::specs::MissingLines::missing_slips))]
pub(crate) fn push_missing(
    slips: &mut Vec<Slip>,
    rules: &Rules,
    game: &Machine,
    events: &[Event],
    place: usize,
) -> Result<(), AllocError>
    requires { place ≤ length events.now }
    ensures { OnOk result (slips.new.items ≡ slips.old.items ++ missing_slips rules.now (state_of game.now) events.now place) }
{
    let early = has_turn(&events[place..]);
    push_of(slips, rules, early, Seat::First)?;
    push_of(slips, rules, early, Seat::Second)?;
    push_after(slips, rules, event_before(events, place))?;
    let rest = rest_tiles(rules, game.board(), &events[..place], &events[place..]);
    push_missing_rest(slips, game.finished(), game.out(), &rest)
}
