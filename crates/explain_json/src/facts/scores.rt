//! Facts about a score, as trees.
ghost use Rattle.std.specs.Prelude.{◌≡◌, IfOk, map};
ghost use Rattle.json_trees.specs.Trees.{view};
ghost use Rattle.json_trees.specs.Values.{array_of};
ghost use Rattle.explain_json.specs.Scores.{elsewhere_object, last_rack_object, score_object, scores_object, spot_object, total_fits_object};

use crate::fact_parts::square_tree;
use explain_clues::Spot;
use explain_facts::ScoreFact;
use gcg_read::Seat;
use json_base::{direction_of, number_of, tiles_tree};
use json_trees::{Tree, array, bool_tree, count_tree, integer_tree, name_tree, object, size_tree};
use ref_tiles::Counts;
use std::alloc::{AllocError, Global};

/// A place where a play begins.
fn spot_tree(alloc: Global, spot: &Spot) -> Result<Tree, AllocError>
    ensures { IfOk result (λ tree. view tree ≡ spot_object spot.now) }
{
    let square = square_tree(alloc, spot.at)?;
    let fields = vec![in alloc;
        ("square", square),
        ("direction", name_tree(direction_of(spot.dir))),
    ]?;
    Ok(object(fields))
}

/// Places where a play begins.
fn spots_array(alloc: Global, spots: &[Spot]) -> Result<Tree, AllocError>
    ensures { IfOk result (λ tree. view tree ≡ array_of (map spot_object spots.now)) }
{
    let mut trees = Vec::new(alloc);
    for spot in spots {
        trees.push(spot_tree(alloc, spot)?)?;
    }
    Ok(array(trees))
}

/// A fact of this name about the right score and the one that is written.
fn scores_fact(
    alloc: Global,
    name: &'static str,
    right: i32,
    written: i32,
) -> Result<Tree, AllocError>
    ensures { IfOk result (λ tree. view tree ≡ scores_object name.now right written) }
{
    let fields = vec![in alloc;
        ("name", name_tree(name)),
        ("right", integer_tree(right)),
        ("written", integer_tree(written)),
    ]?;
    Ok(object(fields))
}

/// The score of a last rack.
fn last_rack(
    alloc: Global,
    player: Seat,
    is_doubled: bool,
    tiles: &Counts,
    right: i32,
    written: i32,
) -> Result<Tree, AllocError>
    ensures { IfOk result (λ tree. view tree ≡ last_rack_object player is_doubled tiles.now right written) }
{
    let tiles = tiles_tree(alloc, tiles)?;
    let fields = vec![in alloc;
        ("name", name_tree("LastRackScore")),
        ("player", count_tree(number_of(player))),
        ("rack", tiles),
        ("right", integer_tree(right)),
        ("written", integer_tree(written)),
        ("doubled", bool_tree(is_doubled)),
    ]?;
    Ok(object(fields))
}

/// Where the same letters have the written score.
fn elsewhere(alloc: Global, written: i32, spots: &[Spot], others: usize) -> Result<Tree, AllocError>
    ensures { IfOk result (λ tree. view tree ≡ elsewhere_object written spots.now others) }
{
    let spots = spots_array(alloc, spots)?;
    let fields = vec![in alloc;
        ("name", name_tree("ElsewhereScore")),
        ("written", integer_tree(written)),
        ("places", spots),
        ("more_places", size_tree(others)),
    ]?;
    Ok(object(fields))
}

/// That the written total is right with the right score.
fn total_fits(alloc: Global, points: i32, all: i32) -> Result<Tree, AllocError>
    ensures { IfOk result (λ tree. view tree ≡ total_fits_object points all) }
{
    let fields = vec![in alloc;
        ("name", name_tree("TotalFits")),
        ("score", integer_tree(points)),
        ("right", integer_tree(all)),
    ]?;
    Ok(object(fields))
}

/// A fact.
pub fn score_tree(alloc: Global, fact: &ScoreFact) -> Result<Tree, AllocError>
    ensures { IfOk result (λ tree. view tree ≡ score_object fact.now) }
{
    match fact {
        ScoreFact::Play { right, written } => scores_fact(alloc, "PlayScore", *right, *written),
        ScoreFact::Pass { right, written } => scores_fact(alloc, "PassScore", *right, *written),
        ScoreFact::Exchange { right, written } => scores_fact(
            alloc,
            "ExchangeScore",
            *right,
            *written,
        ),
        ScoreFact::Withdrawal { right, written } => scores_fact(
            alloc,
            "WithdrawalScore",
            *right,
            *written,
        ),
        ScoreFact::LastRack {
            player,
            is_doubled,
            tiles,
            right,
            written,
        } => last_rack(alloc, *player, *is_doubled, tiles, *right, *written),
        ScoreFact::Other { right, written } => scores_fact(alloc, "OtherScore", *right, *written),
        ScoreFact::Elsewhere {
            written,
            spots,
            others,
        } => elsewhere(alloc, *written, spots.as_slice(), *others),
        ScoreFact::TotalFits { score, total } => total_fits(alloc, *score, *total),
    }
}
