//! The lines of the best plays on the board after a record.
ghost use Rattle.std.specs.Prelude.{◌≡◌, ◌≤◌, ◌++◌, IfOk, OnOk, map, take};
ghost use Rattle.ref_play.specs.Legality.{IsLegal};
ghost use Rattle.gen_sinks.specs.Sinks.{seen_pair};
ghost use Rattle.game_turns.specs.Passing.{rules_in, record_in};
ghost use Rattle.game_notes.specs.Following.{board_of, Follows};
ghost use Rattle.game_report.specs.TopPlays.{play_line, top_text, AreLegal, board_after, ReportsFirst, ReportsTop};
ghost use Rattle.lex_check.specs.Pairs.{list_in};

use crate::best_plays::push_scored;
use crate::replaying::follow_event;
use game_notes::{Follow, top_many};
use game_turns::{Machine, Passed};
use gen_sinks::Top;
use lex_check::Checked;
use ref_board::Board;
use ref_play::Play;
use ref_tiles::{Counts, Rules};
use std::alloc::{AllocError, Global};

/// The board after the last event of a record that passed, with its cross-sets. A play that is the last event stands.
#[tactic(auto, using(crate::proofs::BesideLaws::board_at_the_end, crate::proofs::BesideLaws::follows_at))]
fn follow_all(passed: &Passed<'_>, pair: &Checked<'_>) -> Follow
    ensures board { board_of result ≡ board_after (rules_in passed.now) (record_in passed.now).events }
    ensures follows { Follows (rules_in passed.now) (list_in pair.now) result }
{
    let mut machine = Machine::new(passed.rules());
    let mut follow = Follow::new(passed.rules(), pair);
    for place in 0..passed.record().events.len() {
        follow_event(passed, pair, &mut machine, &mut follow, place);
    }
    follow
}

/// Appends the line of a play.
fn push_play_line(text: &mut Vec<u8>, board: &Board, scored: &(Play, i32)) -> Result<(), AllocError>
    requires { IsLegal board.now scored.now.0.tiles.items }
    ensures { OnOk result (text.new.items ≡ text.old.items ++ play_line board.now (seen_pair scored.now)) }
{
    push_scored(text, board, &scored.0, scored.1)?;
    text.push(b'\n')?;
    Ok(())
}

/// The lines of plays, one `NOTATION SCORE` for each, in their order; `none` if there are none.
///
/// It fails only if memory was refused.
fn top_lines(alloc: Global, board: &Board, plays: &[(Play, i32)]) -> Result<Vec<u8>, AllocError>
    requires { AreLegal board.now plays.now }
    ensures { IfOk result (λ text. text.items ≡ top_text board.now (map seen_pair plays.now)) }
{
    if plays.is_empty() {
        return Vec::from_slice(alloc, b"none\n");
    }
    let mut text = Vec::new(alloc);
    for scored in plays {
        push_play_line(&mut text, board, scored)?;
    }
    Ok(text)
}

/// The ten best plays by a rack on the board after a record that passed, by its rules and by the words of a pair, one line
/// `NOTATION SCORE` for each: the greatest score first, and plays of equal score by their notations; `none` if there is no
/// legal play with words of the list.
///
/// It fails only if memory was refused.
pub fn top_report(
    alloc: Global,
    passed: &Passed<'_>,
    pair: &Checked<'_>,
    rack: &Counts,
) -> Result<Vec<u8>, AllocError>
    ensures { IfOk result (λ text. ReportsTop (rules_in passed.now) (list_in pair.now)
        (board_after (rules_in passed.now) (record_in passed.now).events) rack.now text.items) }
{
    let follow = follow_all(passed, pair);
    let plays = follow.top(passed.rules(), pair, rack);
    top_lines(alloc, follow.board(), plays.items())
}

/// The greatest number of plays that [`best_lines`] gives.
pub const MOST_PLAYS: usize = 100;

/// Up to this number of plays come from a search that keeps no more, since a search that keeps fewer plays can leave out more.
const FEW: usize = 10;

/// The first `number` of some plays.
fn first_of(plays: &[(Play, i32)], number: usize) -> &[(Play, i32)]
    ensures { result.now ≡ take number plays.now }
{
    if plays.len() > number {
        &plays[..number]
    } else {
        plays
    }
}

/// The lines of the first `number` of some plays.
fn front_lines(
    alloc: Global,
    board: &Board,
    plays: &[(Play, i32)],
    number: usize,
) -> Result<Vec<u8>, AllocError>
    requires { AreLegal board.now plays.now }
    ensures { IfOk result (λ text. text.items ≡ top_text board.now (take number (map seen_pair plays.now))) }
{
    top_lines(alloc, board, first_of(plays, number))
}

/// The best `number` plays by a rack on a board, by some rules and by the words of a pair, one line `NOTATION SCORE` for each,
/// as [`top_report`] gives ten.
///
/// It fails only if memory was refused.
pub fn best_lines(
    alloc: Global,
    rules: &Rules,
    pair: &Checked<'_>,
    board: &Board,
    rack: &Counts,
    number: usize,
) -> Result<Vec<u8>, AllocError>
    requires { number ≤ 100 }
    ensures { IfOk result (λ text. ReportsFirst number rules.now (list_in pair.now) board.now rack.now text.items) }
{
    if number <= FEW {
        let few: Top<FEW> = top_many(rules, pair, board, rack);
        return front_lines(alloc, board, few.items(), number);
    }
    let many: Top<MOST_PLAYS> = top_many(rules, pair, board, rack);
    front_lines(alloc, board, many.items(), number)
}
