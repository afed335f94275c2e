//! Every legal, valid play that a rack allows on a board.
ghost use Rattle.std.specs.{Prelude.{◌≡◌, ℕ, ◌<◌, List, false, All, IsOk}, List.{flat_map}};
ghost use Rattle.lex_list.specs.RotatedPaths.{StandsFor};
ghost use Rattle.ref_play.specs.Best.{Given, AreAll};
ghost use Rattle.gen_cross.specs.Values.{IsRight};
ghost use Rattle.gen_line.specs.Walk.{Took};
ghost use Rattle.gen_sinks.specs.Sinks.{IsFor};
ghost use Rattle.gen_moves.specs.{Laws.{AreLong}, Reporting.{both_cells}, Bounds.{HasScores}, Starts.{IsGood, given_from}};

use crate::anchors::{all_bounds, rack_worth};
use crate::fronts::{after_olds, front_of};
use crate::lines::all_cells;
use crate::passing::passes;
use crate::places::line_places;
use crate::reporting::LinePlays;
use crate::spots::Spot;
use crate::starts::{STARTS, Start, all_starts, best_first};
use gen_cross::Cross;
use gen_line::{Cell, walk_anchor};
use gen_sinks::{NoMemory, Sink};
use lex_file::PathLex;
use ref_board::{Board, Dir, SIDE};
use ref_tiles::{Counts, KINDS, Rules};

/// What searches for plays: a board with its rules and cross-sets, a rack and a lexicon.
#[derive(Drop)]
struct Finder<'a, L> {
    rules: &'a Rules,
    board: &'a Board,
    cross: &'a Cross,
    /// The cells of the lines across.
    across: &'a [[Cell; SIDE]; SIDE],
    /// The cells of the lines down.
    down: &'a [[Cell; SIDE]; SIDE],
    /// The number of tiles of each kind on the rack.
    rack: &'a [u8; KINDS],
    lex: &'a L,
}

impl<L: PathLex> Finder<'_, L> {
    /// The cells of a line.
    fn cells(&self, dir: Dir, line: usize) -> &[Cell; SIDE]
        requires { line < SIDE }
        ensures { result.now ≡ both_cells self.now.across.now self.now.down.now dir line }
    {
        match dir {
            Dir::Across => &self.across[line],
            Dir::Down => &self.down[line],
        }
    }

    /// Searches for the plays of one start, and gives them to a sink. It is never inlined into its caller, since its arrays are set
    /// to zero each time that it is called.
    #[inline(never)]
    fn walk_start<S: Sink>(&self, start: &Start, sink: &mut S) -> Result<(), NoMemory>
        requires scores { HasScores self.now.rules.now self.now.board.now self.now.cross.now }
        requires sink { IsFor (S.made_for sink.old) self.now.board.now }
        requires good { IsGood self.now.rules.now self.now.board.now (L.language self.now.lex.now)
            (both_cells self.now.across.now self.now.down.now) self.now.rack.now start.now }
        ensures made_for { S.made_for sink.new ≡ S.made_for sink.old }
        ensures took { Took (S.add (S.made_for sink.old)) (S.items sink.old)
            (given_from self.now.rules.now self.now.board.now (L.language self.now.lex.now)
            (both_cells self.now.across.now self.now.down.now) self.now.rack.now start.now) (S.items sink.new) result }
        ensures steady { S.grows ≡ false → IsOk result }
    {
        let Start {
            dir,
            line,
            place,
            ..
        } = *start;
        let cells = self.cells(dir, line);
        let Some(at) = front_of(self.lex, cells, place + 1) else {
            return Ok(());
        };
        let last = after_olds(cells, place + 1) - 1;
        let spot = Spot {
            board: self.board,
            dir,
            line,
        };
        let places = line_places(self.rules, self.board, self.cross, dir, line);
        let plays = LinePlays {
            rules: self.rules,
            spot: &spot,
            places: &places,
        };
        walk_anchor(self.lex, at, cells, place, last, self.rack, &plays, sink)
    }

    /// Gives a sink the plays of all starts, one after another. Those of a start are not searched for if none of them would change
    /// what the sink has.
    fn from_starts<S: Sink>(&self, starts: &[Start; STARTS], sink: &mut S) -> Result<(), NoMemory>
        requires scores { HasScores self.now.rules.now self.now.board.now self.now.cross.now }
        requires sink { IsFor (S.made_for sink.old) self.now.board.now }
        requires good { All (IsGood self.now.rules.now self.now.board.now (L.language self.now.lex.now)
            (both_cells self.now.across.now self.now.down.now) self.now.rack.now) starts.now }
        ensures made_for { S.made_for sink.new ≡ S.made_for sink.old }
        ensures took { Took (S.add (S.made_for sink.old)) (S.items sink.old)
            (flat_map (given_from self.now.rules.now self.now.board.now (L.language self.now.lex.now)
            (both_cells self.now.across.now self.now.down.now) self.now.rack.now) starts.now) (S.items sink.new) result }
        ensures steady { S.grows ≡ false → IsOk result }
    {
        for number in 0..STARTS {
            let start = &starts[number];
            if passes(sink, start.dir, start.bound) {
                continue;
            }
            self.walk_start(start, sink)?;
        }
        Ok(())
    }
}

/// Gives a sink every play that is legal on a board, forms only listed words and has its tiles on a rack: each once, with its
/// score, and no others. A play of one tile is given in the direction of its notation.
///
/// The lexicon must stand for a list of words of two letters or more, and the cross-sets must be those of the board. A sink that
/// was made for a board must have been made for this one. The board stays as it was.
///
/// With `Best` or `Top<N>` it succeeds. An anchor or a move that a sink skips by its bound would not change what it keeps. That the greatest bounds
/// come first is not proved, since nothing but the time depends on it.
///
/// # Errors
///
/// Memory ran out in the sink. It then has a front of the plays.
pub fn generate<L: PathLex, S: Sink>(
    rules: &Rules,
    board: &mut Board,
    cross: &Cross,
    rack: &Counts,
    lex: &L,
    sink: &mut S,
) -> Result<(), NoMemory>
    ghost words: { List (List ℕ) }
    requires lexicon { StandsFor (L.language lex.now) words }
    requires long { AreLong words }
    requires cross { IsRight rules.now words board.old cross.now }
    requires sink { IsFor (S.made_for sink.old) board.old }
    ensures all { (all : List Given) × AreAll rules.now words board.old rack.now all
        × Took (S.add (S.made_for sink.old)) (S.items sink.old) all (S.items sink.new) result }
    ensures made_for { S.made_for sink.new ≡ S.made_for sink.old }
    ensures steady { S.grows ≡ false → IsOk result }
    ensures board { board.new ≡ board.old }
{
    board.law_of_squares();
    let across = all_cells(board, cross, Dir::Across);
    let down = all_cells(board, cross, Dir::Down);
    let numbers = rack.numbers();
    let worth = rack_worth(rules, &numbers);
    let starts = best_first(all_starts(
        &all_bounds(rules, board, cross, Dir::Across, &across, &numbers, worth),
        &all_bounds(rules, board, cross, Dir::Down, &down, &numbers, worth),
    ));
    let finder = Finder {
        rules,
        board,
        cross,
        across: &across,
        down: &down,
        rack: &numbers,
        lex,
    };
    finder.from_starts(&starts, sink)
}
