//! The score sheet of a page.
ghost use Rattle.std.specs.Prelude.{◌≡◌, ◌≤◌, List, length, IfOk};
ghost use Rattle.gcg_read.specs.declared.events.Event.{Event};
ghost use Rattle.lex_check.specs.Pairs.{list_in};
ghost use Rattle.game_walk.specs.Walks.{IsWalk};
ghost use Rattle.page_answers.specs.Sheets.{parts_of, IsPageSheet};

use game_corrections::Standing;
use game_walk::Walk;
use gcg_read::{Points, Record};
use lex_check::Checked;
use ref_tiles::Rules;
use sheet_scores::{Picture, Position, ScoreSheet, SheetRow, score_sheet};
use std::alloc::{AllocError, Global};

/// The score sheet of a record, apart from its players and its events, which are in the record.
#[derive(Drop)]
pub struct PageSheet {
    /// The last total that is written for the first player, if there is one.
    pub first_total: Option<Points>,
    /// The same for the other player.
    pub second_total: Option<Points>,
    /// Who has the greater of these totals.
    pub standing: Standing,
    /// What it says of each event, in their order.
    pub rows: Vec<SheetRow>,
    /// How many points more the best plays of the first player would have given in all; none exactly if that is 2^64 or more.
    pub first_gains: Option<u64>,
    /// The same for the other player.
    pub second_gains: Option<u64>,
    /// The boards after the events, up to the first whose play cannot be laid.
    pub boards: Vec<Picture>,
    /// What is said of each of these boards.
    pub positions: Vec<Position>,
    /// The board in view.
    pub shown: Picture,
}

/// A score sheet apart from its players and its events.
fn parts_of(sheet: ScoreSheet<'_>) -> PageSheet
    ensures { result ≡ parts_of sheet.entry }
{
    let ScoreSheet {
        first_total,
        second_total,
        standing,
        rows,
        first_gains,
        second_gains,
        boards,
        positions,
        shown,
        ..
    } = sheet;
    PageSheet {
        first_total,
        second_total,
        standing,
        rows,
        first_gains,
        second_gains,
        boards,
        positions,
        shown,
    }
}

/// The score sheet of a record by a walk over its events, with the board at a place in view.
#[tactic(auto, using(crate::proofs::SheetLaws::parts_are))]
pub(crate) fn page_sheet(
    alloc: Global,
    rules: &Rules,
    pair: &Checked<'_>,
    game: &Record,
    walk: &Walk,
    place: usize,
) -> Result<PageSheet, AllocError>
    requires { place ≤ length game.now.events }
    ensures { IfOk result (λ sheet. (right : List Event) → IsWalk rules.now (list_in pair.now) game.now.events right walk.now
        → IsPageSheet rules.now (list_in pair.now) game.now right place sheet) }
{
    let sheet = score_sheet(alloc, rules, pair, game, walk, place)?;
    Ok(parts_of(sheet))
}
