//! The best plays that were found latest, which need not be searched for again.
ghost use Rattle.std.specs.Prelude.{◌≡◌, ℕ, List, IfSome, option_map};
ghost use Rattle.ref_tiles.specs.declared.rulebook.Rules.{Rules};
ghost use Rattle.ref_play.specs.Best.{IsAnnotation};
ghost use Rattle.lex_check.specs.Pairs.{list_in};
ghost use Rattle.gen_sinks.specs.Sinks.{seen_pair};
ghost use Rattle.game_notes.specs.Following.{board_of, Follows};
ghost use Rattle.game_notes.specs.Latest.{IsFound, AreBests};

use crate::following::Follow;
use lex_check::Checked;
use ref_board::Board;
use ref_play::Play;
use ref_tiles::{Counts, Rules};

/// What a search found for a board and a rack.
#[derive(Drop)]
struct FoundBest {
    board: Board,
    rack: Counts,
    /// The best play with its score; none if there is no play.
    best: Option<(Play, i32)>,
}

/// The best plays of the two boards and racks that were searched latest. While the board of a game stays the same, these are the racks of its two
/// players.
#[derive(Drop)]
pub struct LatestBests {
    newer: Option<FoundBest>,
    older: Option<FoundBest>,
}

/// A copy of a best play and its score.
fn copy_best(best: &Option<(Play, i32)>) -> Option<(Play, i32)>
    ensures { result ≡ best.now }
{
    match best {
        Some((play, score)) => Some((play.copy(), *score)),
        None => None,
    }
}

/// What was found for a board and a rack, if this is it.
fn best_for(found: &Option<FoundBest>, board: &Board, rack: &Counts) -> Option<Option<(Play, i32)>>
    ensures { (rules : Rules) (list : List (List ℕ)) → IfSome found.now (IsFound rules list)
        → IfSome result (λ best. IsAnnotation rules list board.now rack.now (option_map seen_pair best)) }
{
    let found = found.as_ref()?;
    if found.board == *board && found.rack == *rack {
        Some(copy_best(&found.best))
    } else {
        None
    }
}

impl LatestBests {
    /// Nothing was found yet.
    pub fn new() -> LatestBests
        ensures { (rules : Rules) (list : List (List ℕ)) → AreBests rules list result }
    {
        LatestBests {
            newer: None,
            older: None,
        }
    }

    /// What is kept for a board and a rack.
    fn find(&self, board: &Board, rack: &Counts) -> Option<Option<(Play, i32)>>
        ensures { (rules : Rules) (list : List (List ℕ)) → AreBests rules list self.now
            → IfSome result (λ best. IsAnnotation rules list board.now rack.now (option_map seen_pair best)) }
    {
        match best_for(&self.newer, board, rack) {
            Some(best) => Some(best),
            None => best_for(&self.older, board, rack),
        }
    }

    /// Keeps what was found, in place of the older of the two.
    fn keep(&mut self, found: FoundBest)
        ensures { (rules : Rules) (list : List (List ℕ)) → AreBests rules list self.old → IsFound rules list found → AreBests rules list self.new }
    {
        self.older = self.newer.take();
        self.newer = Some(found);
    }

    /// The best play that a rack allows on the board of `follow`, with its score; none if there is no play. It is the one that [`Follow::annotate`]
    /// gives, but it is searched for only if it is not one of the latest two.
    ///
    /// How often it searches is not proved.
    pub fn best(
        &mut self,
        follow: &Follow,
        rules: &Rules,
        pair: &Checked<'_>,
        rack: &Counts,
    ) -> Option<(Play, i32)>
        requires follows { Follows rules.now (list_in pair.now) follow.now }
        requires latest { AreBests rules.now (list_in pair.now) self.old }
        ensures best { IsAnnotation rules.now (list_in pair.now) (board_of follow.now) rack.now (option_map seen_pair result) }
        ensures latest { AreBests rules.now (list_in pair.now) self.new }
    {
        if let Some(best) = self.find(follow.board(), rack) {
            return best;
        }
        let best = follow.annotate(rules, pair, rack);
        self.keep(FoundBest {
            board: *follow.board(),
            rack: *rack,
            best: copy_best(&best),
        });
        best
    }
}
