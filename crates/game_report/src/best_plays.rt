//! The best play of a turn, as the line of its event gives it.
ghost use Rattle.std.specs.{Prelude.{◌≡◌, ◌++◌, ◌∷◌, OnOk, option_map}, Fmt.{signed_decimal}};
ghost use Rattle.ref_play.specs.{Legality.{IsLegal}, Notations.{notation_of}, Best.{IsAnnotation}};
ghost use Rattle.game_turns.specs.{Machines.{state_of}, Passing.{rules_in}};
ghost use Rattle.lex_check.specs.Pairs.{list_in};
ghost use Rattle.game_report.specs.{Beside.{StandsBeside}, BestPlays.{is_judged, full_rack, notation_text, best_text, ReportsByRack, ReportsBest, Appends}};
ghost use Rattle.game_notes.specs.{Following.{board_of, Follows}, Latest.{AreBests}};

use game_notes::{Follow, LatestBests};
use game_turns::{Machine, Passed};
use gcg_read::{Event, EventKind, Seat};
use gcg_write::play_text;
use lex_check::Checked;
use ref_board::Board;
use ref_play::{Play, notation};
use ref_tiles::{Counts, Rules};
use std::alloc::AllocError;
use text_decimals::push_number;

/// Whether the line of an event shows the rack of a turn, if this player, or none, is out before it.
pub fn is_judged(kind: &EventKind, out: Option<Seat>) -> bool
    ensures { result ≡ is_judged out kind.now }
{
    match kind {
        EventKind::Play { .. } | EventKind::Exchange(_) | EventKind::ExchangeUnknown(_) => true,
        EventKind::Pass => out.is_none(),
        EventKind::Withdraw | EventKind::Challenge | EventKind::Time | EventKind::LastRack(_) =>
            false,
    }
}

/// The rack that a line states, if it has as many tiles as its player holds.
pub fn full_rack(machine: &Machine, event: &Event) -> Option<Counts>
    ensures { result ≡ full_rack (state_of machine.now) event.now }
{
    let rack = event.rack?;
    if rack.total() == machine.rack_size(event.player) {
        Some(rack)
    } else {
        None
    }
}

/// Appends the notation of a play and its score.
pub fn push_scored(
    text: &mut Vec<u8>,
    board: &Board,
    play: &Play,
    score: i32,
) -> Result<(), AllocError>
    requires { IsLegal board.now play.now.tiles.items }
    ensures { OnOk result (text.new.items ≡ text.old.items
        ++ (notation_text (notation_of board.now play.now.tiles.items) ++ 32 ∷ signed_decimal score)) }
{
    let written = notation(board, play);
    play_text(written.at, written.dir, written.word.as_slice(), text)?;
    text.push(b' ')?;
    push_number(text, score)
}

/// Appends the best play by a rack on the board, or that there is none.
fn push_best_play(
    text: &mut Vec<u8>,
    rules: &Rules,
    pair: &Checked<'_>,
    follow: &Follow,
    latest: &mut LatestBests,
    rack: &Counts,
) -> Result<(), AllocError>
    requires follows { Follows rules.now (list_in pair.now) follow.now }
    requires latest { AreBests rules.now (list_in pair.now) latest.old }
    ensures best { OnOk result (Appends (ReportsByRack rules.now (list_in pair.now) (board_of follow.now) (Some rack.now)) text.old.items text.new.items) }
    ensures latest { AreBests rules.now (list_in pair.now) latest.new }
{
    match latest.best(follow, rules, pair, rack) {
        Some((play, score)) => {
            text.extend_from_slice(b" best ")?;
            push_scored(text, follow.board(), &play, score)
        }
        None => text.extend_from_slice(b" best none"),
    }
}

/// Appends what the line of an event says of the best play; `machine` is before the event, and `follow` has its board. It searches only if the best play
/// of the board and the rack is not one of the latest.
pub fn push_best(
    text: &mut Vec<u8>,
    passed: &Passed<'_>,
    pair: &Checked<'_>,
    machine: &Machine,
    follow: &Follow,
    latest: &mut LatestBests,
    event: &Event,
) -> Result<(), AllocError>
    requires stands { StandsBeside (rules_in passed.now) (list_in pair.now) (state_of machine.now) follow.now }
    requires latest { AreBests (rules_in passed.now) (list_in pair.now) latest.old }
    ensures best { OnOk result (Appends (ReportsBest (rules_in passed.now) (list_in pair.now) (state_of machine.now) event.now)
        text.old.items text.new.items) }
    ensures latest { AreBests (rules_in passed.now) (list_in pair.now) latest.new }
{
    if !is_judged(&event.kind, machine.out()) {
        return Ok(());
    }
    match full_rack(machine, event) {
        Some(rack) => push_best_play(text, passed.rules(), pair, follow, latest, &rack),
        None => text.extend_from_slice(b" best -"),
    }
}
