//! The best plays by a rack, as values.
ghost use Rattle.std.specs.Prelude.{◌≡◌, ◌≤◌, IfOk, map, take};
ghost use Rattle.ref_play.specs.Legality.{IsLegal};
ghost use Rattle.gen_sinks.specs.Sinks.{seen_pair};
ghost use Rattle.lex_check.specs.Pairs.{list_in};
ghost use Rattle.game_report.specs.TopPlays.{AreLegal};
ghost use Rattle.game_answers.specs.Plays.{reported_play, play_on, ArePlaysOn, AreBestPlays};

use game_notes::top_many;
use gen_sinks::Top;
use lex_check::Checked;
use ref_board::Board;
use ref_play::{Notation, Play, notation};
use ref_tiles::{Counts, Rules};
use std::alloc::{AllocError, Global};

/// A play with its score.
#[derive(Drop)]
pub struct ScoredPlay {
    /// How it is written.
    pub written: Notation,
    /// What it scores.
    pub score: i32,
}

/// A play on a board with its score.
fn scored_play(board: &Board, scored: &(Play, i32)) -> ScoredPlay
    requires { IsLegal board.now scored.now.0.tiles.items }
    ensures { reported_play result ≡ play_on board.now (seen_pair scored.now) }
{
    ScoredPlay {
        written: notation(board, &scored.0),
        score: scored.1,
    }
}

/// Plays on a board with their scores, in their order.
fn scored_plays(
    alloc: Global,
    board: &Board,
    plays: &[(Play, i32)],
) -> Result<Vec<ScoredPlay>, AllocError>
    requires { AreLegal board.now plays.now }
    ensures { IfOk result (λ kept. ArePlaysOn board.now (map seen_pair plays.now) kept.items) }
{
    let mut kept = Vec::new(alloc);
    for scored in plays {
        kept.push(scored_play(board, scored))?;
    }
    Ok(kept)
}

/// The first `number` of some plays.
fn first_of(plays: &[(Play, i32)], number: usize) -> &[(Play, i32)]
    ensures { result.now ≡ take number plays.now }
{
    if plays.len() > number {
        &plays[..number]
    } else {
        plays
    }
}

/// The first `number` of some plays on a board, with their scores.
fn front_plays(
    alloc: Global,
    board: &Board,
    plays: &[(Play, i32)],
    number: usize,
) -> Result<Vec<ScoredPlay>, AllocError>
    requires { AreLegal board.now plays.now }
    ensures { IfOk result (λ kept. ArePlaysOn board.now (take number (map seen_pair plays.now)) kept.items) }
{
    scored_plays(alloc, board, first_of(plays, number))
}

/// Up to this number of plays come from a search that keeps no more, since a search that keeps fewer plays can leave out more.
const FEW: usize = 10;

/// The greatest number of plays that [`best_plays`] gives.
const MANY: usize = 100;

/// The best `number` plays by a rack on a board, by some rules and by the words of a pair: the greatest score first, and plays of equal
/// score by their notations. There are fewer if the rack allows fewer plays.
///
/// It fails only if memory was refused.
pub fn best_plays(
    alloc: Global,
    rules: &Rules,
    pair: &Checked<'_>,
    board: &Board,
    rack: &Counts,
    number: usize,
) -> Result<Vec<ScoredPlay>, AllocError>
    requires { number ≤ 100 }
    ensures { IfOk result (λ plays. AreBestPlays number rules.now (list_in pair.now) board.now rack.now plays.items) }
{
    if number <= FEW {
        let few: Top<FEW> = top_many(rules, pair, board, rack);
        return front_plays(alloc, board, few.items(), number);
    }
    let many: Top<MANY> = top_many(rules, pair, board, rack);
    front_plays(alloc, board, many.items(), number)
}
