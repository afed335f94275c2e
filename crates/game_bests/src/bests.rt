//! The best play of a turn, as a value.
ghost use Rattle.std.specs.Prelude.{Some, option_map};
ghost use Rattle.ref_play.specs.Best.{IsAnnotation};
ghost use Rattle.ref_play.specs.Legality.{IsLegal};
ghost use Rattle.game_turns.specs.Machines.{state_of};
ghost use Rattle.gen_sinks.specs.Sinks.{seen, seen_pair};
ghost use Rattle.lex_check.specs.Pairs.{list_in};
ghost use Rattle.game_notes.specs.Following.{Follows};
ghost use Rattle.game_bests.specs.Bests.{IsBestPlay, IsBestByRack, IsTurnBest};

use game_notes::{Follow, annotate, cross_sets};
use game_report::{full_rack, is_judged};
use game_turns::Machine;
use gcg_read::Event;
use lex_check::Checked;
use ref_board::Board;
use ref_play::{Notation, Play, notation};
use ref_tiles::{Counts, Rules};

/// The best play of a turn.
#[derive(Drop)]
pub struct BestPlay {
    /// How it is written.
    pub written: Notation,
    /// What it scores.
    pub score: i32,
    /// How many points more than the turn it would have given.
    pub more: i64,
}

/// What is said of the best play of an event.
#[derive(Drop)]
pub enum TurnBest {
    /// The event is not a turn.
    NoTurn,
    /// The line does not show the whole rack.
    NotShown,
    /// There is no legal play with words of the list.
    NoPlay,
    /// This is the best play.
    Best(BestPlay),
}

/// A play as the best one of a turn that gave `gave` points.
fn best_play(board: &Board, play: &Play, score: i32, gave: i32) -> BestPlay
    requires { IsLegal board.now play.now.tiles.items }
    ensures { IsBestPlay board.now gave (seen play.now score) result }
{
    BestPlay {
        written: notation(board, play),
        score,
        more: score as i64 - gave as i64,
    }
}

/// The best play by a rack on a board, with its score. The cross-sets are those of `follow` if it follows this board; otherwise they are
/// computed anew.
fn annotate_on(
    rules: &Rules,
    pair: &Checked<'_>,
    board: &Board,
    follow: &Follow,
    rack: &Counts,
) -> Option<(Play, i32)>
    requires { Follows rules.now (list_in pair.now) follow.now }
    ensures { IsAnnotation rules.now (list_in pair.now) board.now rack.now (option_map seen_pair result) }
{
    if follow.board() == board {
        return follow.annotate(rules, pair, rack);
    }
    let cross = cross_sets(rules, pair, board);
    let mut own = *board;
    annotate(rules, pair, &mut own, rack, &cross)
}

/// The best play by a rack on a board, for a turn that gave `gave` points.
fn best_by_rack(
    rules: &Rules,
    pair: &Checked<'_>,
    board: &Board,
    follow: &Follow,
    rack: &Counts,
    gave: i32,
) -> TurnBest
    requires { Follows rules.now (list_in pair.now) follow.now }
    ensures { IsBestByRack rules.now (list_in pair.now) board.now gave (Some rack.now) result }
{
    match annotate_on(rules, pair, board, follow, rack) {
        Some((play, score)) => TurnBest::Best(best_play(board, &play, score, gave)),
        None => TurnBest::NoPlay,
    }
}

/// What is said of the best play of an event that gave `gave` points; `machine` is before the event. If `follow` has the board of the
/// machine, its cross-sets need not be computed anew.
#[tactic(auto, using(crate::proofs::BestLaws::shown_best, crate::proofs::BestLaws::hidden_best, crate::proofs::BestLaws::idle_best))]
pub fn best_of_turn(
    rules: &Rules,
    pair: &Checked<'_>,
    machine: &Machine,
    follow: &Follow,
    event: &Event,
    gave: i32,
) -> TurnBest
    requires { Follows rules.now (list_in pair.now) follow.now }
    ensures { IsTurnBest rules.now (list_in pair.now) (state_of machine.now) event.now gave result }
{
    if !is_judged(&event.kind, machine.out()) {
        return TurnBest::NoTurn;
    }
    match full_rack(machine, event) {
        Some(rack) => best_by_rack(rules, pair, machine.board(), follow, &rack, gave),
        None => TurnBest::NotShown,
    }
}
