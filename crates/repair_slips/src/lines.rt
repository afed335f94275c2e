//! What may be wrong with one event.
ghost use Rattle.std.specs.Prelude.{◌≡◌, ◌+◌, ◌++◌, ◌<◌, length, OnOk, Some, take, drop};
ghost use Rattle.std.specs.Option.{option_copied};
ghost use Rattle.game_turns.specs.Machines.{state_of};
ghost use Rattle.repair_slips.specs.Rests.{rest_tiles, rest_for};
ghost use Rattle.repair_slips.specs.Lines.{play_slips, pass_slips, unknown_slips, kind_slips, board_slips, states_rack, slips_of_rack, rack_slips, event_before, repeats, extra_slip, extra_line, swapped_lines, line_slips, event_slips};

use crate::adding::add;
use crate::amounts::{push_bonuses, push_exchanges, push_numbers, push_penalties};
use crate::laying::push_laying;
use crate::misreadings::push_misreadings;
use crate::positions::push_positions;
use crate::rests::{push_rest, rest_tiles};
use crate::spellings::push_spellings;
use crate::tiles::{push_extra_tiles, push_other_tiles, push_tiles};
use game_turns::Machine;
use gcg_read::{Event, EventKind, same_seat};
use ref_board::Square;
use ref_tiles::{Counts, Rules, Symbol};
use repair_changes::{CodeSlip, Slip, TilesOf};
use std::alloc::AllocError;

/// Adds what may be wrong with a play, judged only by its line.
fn push_play(slips: &mut Vec<Slip>, at: Square, word: &[Symbol]) -> Result<(), AllocError>
    ensures { OnOk result (slips.new.items ≡ slips.old.items ++ play_slips at word.now) }
{
    push_positions(slips, at)?;
    push_spellings(slips, word)
}

/// Adds what a pass may have been.
fn push_pass(slips: &mut Vec<Slip>) -> Result<(), AllocError>
    ensures { OnOk result (slips.new.items ≡ slips.old.items ++ pass_slips) }
{
    push_exchanges(slips)?;
    add(slips, Slip::Code(CodeSlip::Withdrawal))
}

/// Adds what an exchange of unknown tiles may have been.
fn push_unknown(slips: &mut Vec<Slip>, number: u8) -> Result<(), AllocError>
    ensures { OnOk result (slips.new.items ≡ slips.old.items ++ unknown_slips number) }
{
    push_numbers(slips, number)?;
    add(slips, Slip::Code(CodeSlip::Pass))
}

/// Adds what may be wrong with what happened, judged only by the line.
fn push_kind(slips: &mut Vec<Slip>, rules: &Rules, event: &Event) -> Result<(), AllocError>
    ensures { OnOk result (slips.new.items ≡ slips.old.items ++ kind_slips rules.now event.now event.now.kind) }
{
    match &event.kind {
        EventKind::Play { at, word, .. } => push_play(slips, *at, word.as_slice()),
        EventKind::Pass => push_pass(slips),
        EventKind::Exchange(tiles) => push_tiles(slips, TilesOf::Exchange, tiles),
        EventKind::ExchangeUnknown(number) => push_unknown(slips, *number),
        EventKind::Withdraw => add(slips, Slip::Code(CodeSlip::Pass)),
        EventKind::Challenge => push_bonuses(slips, rules, event.score),
        EventKind::Time => push_penalties(slips, rules, event.score),
        EventKind::LastRack(tiles) => push_tiles(slips, TilesOf::LastRack, tiles),
    }
}

/// Adds the rest in place of the tiles of a last rack.
fn push_rest_for(
    slips: &mut Vec<Slip>,
    rules: &Rules,
    game: &Machine,
    events: &[Event],
    place: usize,
    tiles: &Counts,
) -> Result<(), AllocError>
    requires { place < length events.now }
    ensures { OnOk result (slips.new.items ≡ slips.old.items
        ++ rest_for tiles.now (rest_tiles rules.now (state_of game.now).board (take place events.now) (drop (place + 1) events.now))) }
{
    let rest = rest_tiles(rules, game.board(), &events[..place], &events[place + 1..]);
    push_rest(slips, tiles, &rest)
}

/// Adds what may be wrong with it, judged by the board before the line, and by the lines before and after.
fn push_by_board(
    slips: &mut Vec<Slip>,
    rules: &Rules,
    game: &Machine,
    events: &[Event],
    place: usize,
    kind: &EventKind,
) -> Result<(), AllocError>
    requires { place < length events.now }
    ensures { OnOk result (slips.new.items ≡ slips.old.items
        ++ board_slips rules.now (state_of game.now) (take place events.now) (drop (place + 1) events.now) kind.now) }
{
    match kind {
        EventKind::Play { at, dir, word } => {
            push_laying(slips, game.board(), *dir, *at, word.as_slice())
        }
        EventKind::LastRack(tiles) => push_rest_for(slips, rules, game, events, place, tiles),
        _ => Ok(()),
    }
}

/// Whether the line of an event states the rack of a turn.
fn states_rack(kind: &EventKind) -> bool
    ensures { result ≡ states_rack kind.now }
{
    match kind {
        EventKind::Play { .. }
        | EventKind::Pass
        | EventKind::Exchange(_)
        | EventKind::ExchangeUnknown(_) => true,
        EventKind::Withdraw | EventKind::Challenge | EventKind::Time | EventKind::LastRack(_) =>
            false,
    }
}

/// Adds what may be wrong with a stated rack.
fn push_stated(slips: &mut Vec<Slip>, tiles: &Counts) -> Result<(), AllocError>
    ensures { OnOk result (slips.new.items ≡ slips.old.items ++ slips_of_rack (Some tiles.now)) }
{
    push_other_tiles(slips, TilesOf::Rack, tiles)?;
    push_extra_tiles(slips, TilesOf::Rack, tiles)?;
    add(slips, Slip::NoRack)
}

/// Adds what may be wrong with the rack that the line of a turn states.
fn push_rack(slips: &mut Vec<Slip>, event: &Event) -> Result<(), AllocError>
    ensures { OnOk result (slips.new.items ≡ slips.old.items ++ rack_slips event.now) }
{
    if !states_rack(&event.kind) {
        return Ok(());
    }
    match &event.rack {
        Some(tiles) => push_stated(slips, tiles),
        None => Ok(()),
    }
}

/// The event before a place, if there is one.
#[tactic(auto, using(game_turns::proofs::PlaceLaws::copied_get))]
pub(crate) fn event_before(events: &[Event], place: usize) -> Option<&Event>
    ensures { option_copied result ≡ event_before events.now place }
{
    if place == 0 {
        None
    } else {
        events.get(place - 1)
    }
}

/// Whether an event has the player, the score and the total of the one before it.
fn repeats(event: &Event, before: Option<&Event>) -> bool
    ensures { result ≡ repeats event.now (option_copied before.entry) }
{
    match before {
        Some(before) => {
            same_seat(event.player, before.player)
                && event.score.value() == before.score.value()
                && event.total.value() == before.total.value()
        }
        None => false,
    }
}

/// What is wrong with a line that should not be there and does not repeat the one before it.
fn extra_slip(kind: &EventKind) -> Slip
    ensures { result ≡ extra_slip kind.now }
{
    match kind {
        EventKind::Pass => Slip::ExtraPass,
        _ => Slip::Extra,
    }
}

/// Adds that the line should not be there.
fn push_extra(
    slips: &mut Vec<Slip>,
    event: &Event,
    before: Option<&Event>,
) -> Result<(), AllocError>
    ensures { OnOk result (slips.new.items ≡ slips.old.items ++ extra_line event.now (option_copied before.entry)) }
{
    if repeats(event, before) {
        add(slips, Slip::Repeated)
    } else {
        add(slips, extra_slip(&event.kind))
    }
}

/// Adds that the line is in the place of the next one, or of the one after that.
#[tactic(auto, unfolding(crate::specs::Lines::swapped_lines))]
fn push_swapped(slips: &mut Vec<Slip>, events: &[Event], place: usize) -> Result<(), AllocError>
    requires { place < length events.now }
    ensures { OnOk result (slips.new.items ≡ slips.old.items ++ swapped_lines events.now place) }
{
    let following = events.len() - place;
    if following > 1 {
        add(slips, Slip::Swapped)?;
    }
    if following > 2 {
        add(slips, Slip::SwappedOver)?;
    }
    Ok(())
}

/// Adds what may be wrong with any line.
fn push_line_slips(
    slips: &mut Vec<Slip>,
    events: &[Event],
    place: usize,
    event: &Event,
) -> Result<(), AllocError>
    requires { place < length events.now }
    ensures { OnOk result (slips.new.items ≡ slips.old.items ++ line_slips events.now place event.now) }
{
    add(slips, Slip::OtherPlayer)?;
    push_extra(slips, event, event_before(events, place))?;
    push_swapped(slips, events, place)
}

/// Adds all that may be wrong with an event at a place, judged by the game before it.
#[tactic(auto, unfolding(crate::specs::Lines::event_slips))]
pub(crate) fn push_event(
    slips: &mut Vec<Slip>,
    rules: &Rules,
    game: &Machine,
    events: &[Event],
    place: usize,
    event: &Event,
) -> Result<(), AllocError>
    requires { place < length events.now }
    ensures { OnOk result (slips.new.items ≡ slips.old.items ++ event_slips rules.now (state_of game.now) events.now place event.now) }
{
    push_kind(slips, rules, event)?;
    push_by_board(slips, rules, game, events, place, &event.kind)?;
    push_rack(slips, event)?;
    push_line_slips(slips, events, place, event)?;
    push_misreadings(slips, event)
}
