//! The board of a record as a text, by the bytes of its inputs.
ghost use Rattle.std.specs.Prelude.{◌≡◌, ◌≤◌, ◌∷◌, [], length, IfOk, IfSome};
ghost use Rattle.io_devices.specs.Devices.{HasRoom};
ghost use Rattle.engine_stages.specs.declared.verdicts.Verdict.TheVariants as verdict;
ghost use Rattle.engine.specs.Boards.{place_asked, IsShown, IsShownAt, IsBoarded, IsBoardedByText};
ghost use Rattle.engine_stages.specs.Reports as reports;
ghost use Rattle.engine_stages.specs.Runs.{Decides, IsRun};
ghost use Rattle.engine_stages.specs.Sources.{rules_source, game_source};
ghost use Rattle.engine_stages.specs.Reporting.{IsReported};

use engine_stages::{Decision, InputFault, RunFault, Verdict, finish, read_record, read_rules};
use game_board::{board_text, lay_plays, place_of_line};
use gcg_read::{Event, Record};
use io_devices::{Input, Output};
use ref_tiles::Rules;
use std::alloc::{AllocError, Global};

/// The verdict that no event is on the line or after it.
pub(crate) fn bad_line(alloc: Global) -> Result<Decision, AllocError>
    ensures { IfOk result (λ d. IsReported verdict.BadLine reports.bad_line_line d.verdict d.report.items) }
{
    Decision::refused(alloc, InputFault::Line)
}

/// The place of a line, or the end of the events; none if every event is before the line.
pub fn place_asked(events: &[Event], before: Option<u32>) -> Option<usize>
    ensures place { result ≡ place_asked events.now before }
    ensures within { IfSome result (λ place. place ≤ length events.now) }
{
    match before {
        None => Some(events.len()),
        Some(line) => place_of_line(events, line),
    }
}

/// The board before a place of a record.
#[tactic(auto, using(crate::proofs::ShownBoards::shown))]
pub fn show_board(
    alloc: Global,
    rules: &Rules,
    game: &Record,
    place: usize,
) -> Result<Decision, AllocError>
    requires { place ≤ length game.now.events }
    ensures { IfOk result (λ d. IsShown rules.now game.now place d.verdict d.report.items) }
{
    let laying = lay_plays(game.events.as_slice(), place);
    let report = board_text(alloc, rules, game, &laying)?;
    Ok(Decision {
        verdict: Verdict::Done,
        report,
        fault: None,
    })
}

/// The board before a line of a record, or after its last event.
fn report_board(
    alloc: Global,
    rules: &Rules,
    game: &Record,
    before: Option<u32>,
) -> Result<Decision, AllocError>
    ensures { IfOk result (λ d. IsShownAt rules.now game.now (place_asked game.now.events before) d.verdict d.report.items) }
{
    match place_asked(game.events.as_slice(), before) {
        Some(place) => show_board(alloc, rules, game, place),
        None => bad_line(alloc),
    }
}

/// Reads a record, and gives its board.
fn decide_board<G: Input>(
    alloc: Global,
    rules: &Rules,
    before: Option<u32>,
    game: &mut G,
) -> Result<Decision, RunFault>
    requires { HasRoom (G.device game.old) }
    ensures { Decides (game_source (G.device game.old) (G.device game.new) ∷ []) (IsBoarded rules.now before) result }
{
    let record = match read_record(alloc, game)? {
        Ok(record) => record,
        Err(decision) => return Ok(decision),
    };
    Ok(report_board(alloc, rules, &record, before)?)
}

/// Writes the board of a record before the first event on a line or after it, or without a line after the last event, as a
/// text. That no line of it has more than 80 bytes is tested.
///
/// The record is read to its end, or to one byte past 1 MiB and no further. Its plays are laid one after the other, up to that
/// event or to the first play whose text or placement has a fault; no other rule is checked. The text says which board it is,
/// each square by the tile that it has or by its premium, both players with the last totals that are written for them, the
/// rack of the line, and the tiles that are not on the board. If no event is on the line or after it, the verdict is
/// `BadLine`. What is written is made in memory before the first write.
///
/// # Errors
///
/// `ReadFailed` and `WriteFailed` come only if that device failed, or a write took no byte; `NoMemory` if memory
/// was refused. After `WriteFailed` a prefix of the text was written, after the other two nothing.
pub fn run_board<G: Input, O: Output>(
    alloc: Global,
    game: &mut G,
    before: Option<u32>,
    out: &mut O,
    rules: &Rules,
) -> Result<Verdict, RunFault>
    requires game { HasRoom (G.device game.old) }
    requires out { HasRoom (O.device out.old) }
    ensures { IsRun (game_source (G.device game.old) (G.device game.new) ∷ []) (IsBoarded rules.now before) (O.device out.old) (O.device out.new) result }
{
    let decided = decide_board(alloc, rules, before, game);
    finish(out, decided)
}

/// Writes the board of a record as [`run_board`] does, by the rules that a text states.
///
/// The rules text is read before the record, as [`run_ruled`](crate::run_ruled) reads it; if it gives no rules, that is the
/// verdict, and the record is not read.
///
/// # Errors
///
/// `ReadFailed` and `WriteFailed` come only if that device failed, or a write took no byte; `NoMemory` if memory
/// was refused. After `WriteFailed` a prefix of the text was written, after the other two nothing.
pub fn run_board_ruled<R: Input, G: Input, O: Output>(
    alloc: Global,
    rules_text: &mut R,
    game: &mut G,
    before: Option<u32>,
    out: &mut O,
) -> Result<Verdict, RunFault>
    requires rules_text { HasRoom (R.device rules_text.old) }
    requires game { HasRoom (G.device game.old) }
    requires out { HasRoom (O.device out.old) }
    ensures { IsRun (rules_source (R.device rules_text.old) (R.device rules_text.new) ∷ game_source (G.device game.old) (G.device game.new) ∷ [])
        (IsBoardedByText before) (O.device out.old) (O.device out.new) result }
{
    let rules = match read_rules(alloc, rules_text) {
        Ok(Ok(rules)) => rules,
        Ok(Err(decision)) => return finish(out, Ok(decision)),
        Err(fault) => return Err(fault),
    };
    let decided = decide_board(alloc, &rules, before, game);
    finish(out, decided)
}
