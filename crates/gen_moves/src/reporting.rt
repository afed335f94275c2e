//! The moves of a line, given to a sink as plays with their scores.
use crate::entries::line_tiles;
use crate::passing::passes;
use crate::places::Place;
use crate::spots::Spot;
use crate::tallies::tally_of;
use gen_line::Taker;
use gen_sinks::{NoMemory, Sink};
use ref_board::SIDE;
use ref_play::score;
use ref_tiles::Rules;

/// What makes plays of the moves of a line, each with its score, and gives them to a sink. What the sink does not need to see is
/// left out before its play is made.
#[derive(Drop)]
pub struct LinePlays<'a> {
    pub rules: &'a Rules,
    pub spot: &'a Spot<'a>,
    /// What each place of the line adds to a score.
    pub places: &'a [Place; SIDE],
}

impl<S: Sink> Taker<S> for LinePlays<'_> {
    ghost use Rattle.std.specs.Prelude.{List, Option};
    ghost use Rattle.ref_tiles.specs.declared.tiles.Tile.{Tile};
    ghost use Rattle.ref_play.specs.Best.{Given};
    ghost use Rattle.gen_sinks.specs.Sinks.{IsFor};
    ghost use Rattle.gen_moves.specs.Reporting.{IsFitMove, report};
    ghost use Rattle.gen_moves.specs.Bounds.{place_in};
    ghost use Rattle.gen_moves.specs.Tallies.{AreSmall, IsTallied};

    ghost Items = { List Given };

    ghost items = { S.items };

    ghost Purpose = { Option (List (Option Tile)) };

    ghost made_for = { S.made_for };

    ghost can_take = { λ plays board entries.
        (IsFor board plays.spot.now.board.now × AreSmall (place_in plays.places.now))
        × (IsFitMove plays.spot.now.board.now plays.spot.now.dir plays.spot.now.line entries
        × IsTallied plays.rules.now plays.spot.now.board.now plays.spot.now.dir plays.spot.now.line (place_in plays.places.now) entries) };

    ghost report = { λ plays board items entries. report plays.rules.now plays.spot.now.board.now plays.spot.now.dir plays.spot.now.line (S.add board) items entries };

    ghost grows = { S.grows };

    fn take(&self, fresh: &[u8; SIDE], sink: &mut S) -> Result<(), NoMemory> {
        let tiles = line_tiles(fresh);
        if passes(
            sink,
            self.spot.dir,
            tally_of(self.rules, self.places, &tiles),
        ) {
            return Ok(());
        }
        let Some(play) = self.spot.play_of(&tiles) else {
            return Ok(());
        };
        let points = score(self.rules, self.spot.board, &play);
        sink.take(&play, points)
    }
}
