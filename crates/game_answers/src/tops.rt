//! The best plays before a line of a record, as a value.
ghost use Rattle.std.specs.Prelude.{◌≡◌, ◌≤◌, IfOk, Some, length};
ghost use Rattle.io_devices.specs.Devices.{HasRoom};
ghost use Rattle.gcg_read.specs.Records.{most_bytes};
ghost use Rattle.lex_check.specs.Pairs.{list_in};
ghost use Rattle.engine_stages.specs.Stages.{IsRead};
ghost use Rattle.engine.specs.Boards.{place_asked};
ghost use Rattle.game_answers.specs.Tops.{verdict_of, AreFoundBy, AreFoundAt, AreTopPlays, AreTopPlaysOf};

use crate::plays::{ScoredPlay, best_plays};
use engine::{TurnPlays, place_asked, rack_asked};
use engine_stages::{AskedGame, Decision, GameFault, RunFault, Verdict, read_text, record_from};
use game_turns::{RuleFault, board_before};
use gcg_read::MAX_BYTES;
use io_devices::Input;
use lex_check::Checked;
use ref_tiles::{Counts, Rules};
use std::alloc::{AllocError, Global};

/// What is found for a question about the best plays before a line.
#[derive(Drop)]
pub enum FoundPlays {
    /// The best plays by a rack.
    Plays {
        /// The rack.
        rack: Counts,
        /// The plays, best first.
        plays: Vec<ScoredPlay>,
    },
    /// The rules do not allow an event before the line.
    Refused {
        /// The line of the first such event.
        line: u32,
        /// Why.
        fault: RuleFault,
    },
    /// No rack is given, and the line shows none.
    NoRack,
    /// The record has no event on the line or after it.
    NoLine,
}

impl FoundPlays {
    /// The verdict that goes with it.
    pub fn verdict(&self) -> Verdict
        ensures { result ≡ verdict_of self.now }
    {
        match self {
            FoundPlays::Plays { .. } => Verdict::Done,
            FoundPlays::Refused { line, fault } => Verdict::Illegal {
                line: *line,
                fault: GameFault::Rule(*fault),
            },
            FoundPlays::NoRack => Verdict::BadRack,
            FoundPlays::NoLine => Verdict::BadLine,
        }
    }
}

/// What is found before a place by a rack.
fn found_by(
    alloc: Global,
    asked: &AskedGame<'_>,
    place: usize,
    rack: &Counts,
    number: usize,
) -> Result<FoundPlays, AllocError>
    requires number { number ≤ 100 }
    requires place { place ≤ length asked.now.record.now.events }
    ensures { IfOk result (AreFoundBy number asked.now.rules.now (list_in asked.now.pair.now) asked.now.record.now.events place (Some rack.now)) }
{
    let events = asked.record.events.as_slice();
    match board_before(asked.rules, events, asked.pair.list(), place) {
        Ok(board) => Ok(FoundPlays::Plays {
            rack: *rack,
            plays: best_plays(alloc, asked.rules, asked.pair, &board, rack, number)?,
        }),
        Err((line, fault)) => Ok(FoundPlays::Refused { line, fault }),
    }
}

/// What is found before a place by the rack of the question.
fn found_at(
    alloc: Global,
    asked: &AskedGame<'_>,
    place: usize,
    question: &TurnPlays,
) -> Result<FoundPlays, AllocError>
    requires { place ≤ length asked.now.record.now.events }
    ensures { IfOk result (AreFoundAt question.now.number asked.now.rules.now (list_in asked.now.pair.now) question.now.rack asked.now.record.now.events (Some place)) }
{
    match rack_asked(question.rack, asked.record.events.as_slice().get(place)) {
        Some(rack) => found_by(alloc, asked, place, &rack, question.number),
        None => Ok(FoundPlays::NoRack),
    }
}

/// What is found before the line of the question.
fn found_on_line(
    alloc: Global,
    asked: &AskedGame<'_>,
    question: &TurnPlays,
) -> Result<FoundPlays, AllocError>
    ensures { IfOk result (AreFoundAt question.now.number asked.now.rules.now (list_in asked.now.pair.now) question.now.rack asked.now.record.now.events
        (place_asked asked.now.record.now.events question.now.before)) }
{
    match place_asked(asked.record.events.as_slice(), question.before) {
        Some(place) => found_at(alloc, asked, place, question),
        None => Ok(FoundPlays::NoLine),
    }
}

/// What is found in a record for a question about the best plays before a line.
#[tactic(auto, using(crate::proofs::TopLaws::reports_plays))]
fn find_plays(
    alloc: Global,
    asked: &AskedGame<'_>,
    question: &TurnPlays,
) -> Result<FoundPlays, AllocError>
    ensures { IfOk result (AreTopPlays question.now.number question.now.before asked.now.rules.now (list_in asked.now.pair.now) question.now.rack asked.now.record.now) }
{
    let found = found_on_line(alloc, asked, question)?;
    Ok(found)
}

/// What is found in the record of a text, or the verdict that it is not a record.
fn plays_from(
    alloc: Global,
    rules: &Rules,
    pair: &Checked<'_>,
    text: &[u8],
    question: &TurnPlays,
) -> Result<Result<FoundPlays, Decision>, AllocError>
    ensures { IfOk result (AreTopPlaysOf question.now.number question.now.before rules.now (list_in pair.now) question.now.rack text.now) }
{
    let written = match record_from(alloc, text)? {
        Ok(record) => record,
        Err(decision) => return Ok(Err(decision)),
    };
    let record = &written;
    let asked = AskedGame {
        rules,
        pair,
        record,
    };
    let found = find_plays(alloc, &asked, question)?;
    Ok(Ok(found))
}

/// Reads the record of a game, and finds the best plays before a line of it: what [`run_top_before`](engine::run_top_before) finds, as a
/// value. Or the verdict that names the first fault of the record.
///
/// The input is read to its end, or to one byte past 1 MiB and no further.
///
/// The report that is written only from it is the one that `run_top_before` gives.
///
/// # Errors
///
/// `ReadFailed` comes only if the input failed; `NoMemory` if memory was refused.
pub fn top_plays<G: Input>(
    alloc: Global,
    rules: &Rules,
    pair: &Checked<'_>,
    game: &mut G,
    question: &TurnPlays,
) -> Result<Result<FoundPlays, Decision>, RunFault>
    requires { HasRoom (G.device game.old) }
    ensures { IsRead most_bytes (G.device game.old) (G.device game.new)
        (AreTopPlaysOf question.now.number question.now.before rules.now (list_in pair.now) question.now.rack) result }
{
    let text = read_text(alloc, game, MAX_BYTES)?;
    Ok(plays_from(alloc, rules, pair, &text, question)?)
}
