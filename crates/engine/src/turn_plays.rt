//! The best plays before a line of a record.
ghost use Rattle.std.specs.Prelude.{◌≡◌, ◌≤◌, Some, None, length, IfOk, IfSome};
ghost use Rattle.std.specs.Option.{option_copied};
ghost use Rattle.game_report.specs.TopPlays.{ReportsFirst};
ghost use Rattle.lex_check.specs.Pairs.{list_in};
ghost use Rattle.engine_stages.specs.declared.verdicts.Verdict.TheVariants as verdict;
ghost use Rattle.engine.specs.TopBefore.{rack_asked, shown_rack, given_rack, ByRackAsked, ByPlaceAsked, IsToppedBefore};

use crate::boards::{bad_line, place_asked};
use crate::judging::illegal;
use crate::topping::bad_rack;
use engine_stages::{AskedGame, Decision, GameFault, GameQuestion, Verdict};
use game_report::best_lines;
use game_turns::board_before;
use gcg_read::{Event, read_rack};
use ref_board::Board;
use ref_tiles::Counts;
use std::alloc::{AllocError, Global};

/// The best plays by a rack on the board before a line of the record.
#[derive(Clone, Copy, Debug)]
pub struct TurnPlays {
    /// The tiles of the rack; without them the rack is the one that the line shows.
    pub rack: Option<Counts>,
    /// The greatest number of plays that are given.
    pub number: usize,
    /// The line; without one the board is that after the last event.
    pub before: Option<u32>,
    ghost few: { number ≤ 100 },
}

/// The question by the bytes of a rack, or without them; none if the bytes are not a rack.
pub(crate) fn turn_plays(
    rack: Option<&[u8]>,
    number: usize,
    before: Option<u32>,
) -> Option<TurnPlays>
    requires { number ≤ 100 }
    ensures rack { IfSome result (λ question. given_rack (option_copied rack.entry) ≡ Some question.rack) }
    ensures number { IfSome result (λ question. question.number ≡ number) }
    ensures before { IfSome result (λ question. question.before ≡ before) }
    ensures none { result ≡ None → given_rack (option_copied rack.entry) ≡ None }
{
    let rack = match rack {
        None => None,
        Some(bytes) => Some(read_rack(bytes)?),
    };
    Some(TurnPlays {
        rack,
        number,
        before,
    })
}

/// The rack of an event, if it shows one.
pub fn shown_rack(event: Option<&Event>) -> Option<Counts>
    ensures { result ≡ shown_rack (option_copied event.entry) }
{
    match event {
        Some(event) => event.rack,
        None => None,
    }
}

/// The rack of a question: the given one, or else that of the event.
pub fn rack_asked(given: Option<Counts>, event: Option<&Event>) -> Option<Counts>
    ensures { result ≡ rack_asked given (option_copied event.entry) }
{
    match given {
        Some(rack) => Some(rack),
        None => shown_rack(event),
    }
}

/// The best plays by a rack on a board.
fn report_first(
    alloc: Global,
    asked: &AskedGame<'_>,
    board: &Board,
    rack: &Counts,
    number: usize,
) -> Result<Decision, AllocError>
    requires { number ≤ 100 }
    ensures { IfOk result (λ d. (d.verdict ≡ verdict.Done) × ReportsFirst number asked.now.rules.now (list_in asked.now.pair.now) board.now rack.now d.report.items) }
{
    let report = best_lines(alloc, asked.rules, asked.pair, board, rack, number)?;
    Ok(Decision {
        verdict: Verdict::Done,
        report,
        fault: None,
    })
}

/// The best plays by a rack on the board before a place, or the verdict that an event before it is not allowed.
fn report_before(
    alloc: Global,
    asked: &AskedGame<'_>,
    place: usize,
    rack: &Counts,
    number: usize,
) -> Result<Decision, AllocError>
    requires number { number ≤ 100 }
    requires place { place ≤ length asked.now.record.now.events }
    ensures { IfOk result (λ d. ByRackAsked number asked.now.rules.now (list_in asked.now.pair.now) asked.now.record.now place (Some rack.now) d.verdict d.report.items) }
{
    let events = asked.record.events.as_slice();
    match board_before(asked.rules, events, asked.pair.list(), place) {
        Ok(board) => report_first(alloc, asked, &board, rack, number),
        Err((line, fault)) => illegal(alloc, line, GameFault::Rule(fault)),
    }
}

/// The same by the rack of the question; if there is none, that is the verdict.
fn report_by_rack(
    alloc: Global,
    asked: &AskedGame<'_>,
    place: usize,
    question: &TurnPlays,
) -> Result<Decision, AllocError>
    requires { place ≤ length asked.now.record.now.events }
    ensures { IfOk result (λ d. ByPlaceAsked question.now.number asked.now.rules.now (list_in asked.now.pair.now) asked.now.record.now question.now.rack (Some place) d.verdict d.report.items) }
{
    match rack_asked(question.rack, asked.record.events.as_slice().get(place)) {
        Some(rack) => report_before(alloc, asked, place, &rack, question.number),
        None => bad_rack(alloc),
    }
}

/// The same before the line of the question; if there is none, that is the verdict.
fn report_by_line(
    alloc: Global,
    asked: &AskedGame<'_>,
    question: &TurnPlays,
) -> Result<Decision, AllocError>
    ensures { IfOk result (λ d. IsToppedBefore question.now.number question.now.before asked.now.rules.now (list_in asked.now.pair.now) question.now.rack asked.now.record.now d.verdict d.report.items) }
{
    match place_asked(asked.record.events.as_slice(), question.before) {
        Some(place) => report_by_rack(alloc, asked, place, question),
        None => bad_line(alloc),
    }
}

impl GameQuestion for TurnPlays {
    ghost use Rattle.engine.specs.TopBefore.{IsToppedBefore};
    ghost use Rattle.engine.specs.laws.TurnPlays.{topped_before_own};

    ghost is_decided = { λ question rules words game v report. IsToppedBefore question.number question.before rules words question.rack game v report };

    fn decide(&self, alloc: Global, asked: &AskedGame<'_>) -> Result<Decision, AllocError> {
        report_by_line(alloc, asked, self)
    }

    ghost own = { λ question rules words game v report is. topped_before_own question.number question.before rules words question.rack game v report is };
}
