//! An answer as a tree.
ghost use Rattle.std.specs.Prelude.{◌≡◌, IfOk, map, option_map};
ghost use Rattle.json_trees.specs.Trees.{view};
ghost use Rattle.json_trees.specs.Values.{array_of, object_of};
ghost use Rattle.repair_json.specs.Answers.{alone_value, answer_object, faulty_fields, pair_with, pairs_value, repairs_value, settled_value, sound_fields, to_go_by, reported_pair, reported_repair};
ghost use Rattle.repair_json.specs.Sheets.{sheet_object};

use crate::chains::chain_or_null;
use crate::changes::repair_tree;
use crate::evidence::evidence_tree;
use crate::pairs::pair_tree;
use crate::sheets::sheet_tree;
use draft_numbers::count_written;
use engine_stages::Verdict;
use gcg_drafts::Missing;
use gcg_read::{Event, Players, Record};
use gcg_unread::UnreadLine;
use json_base::{ending_tree, fault_line_tree, fault_tree, item_at, unread_array, verdict_name};
use json_trees::{
    Tree, array, bool_tree, name_tree, null_tree, object, push_if, size_tree, wide_tree,
    with_field_if,
};
use repair_answers::{Faulty, NumbersAlone, RepairAnswer, Reported, SheetRepair};
use repair_pairs::{Chain, Pair, Pairs};
use repair_single::Repair;
use std::alloc::{AllocError, Global};

/// What stays wrong if the numbers alone are corrected; null if the record is no game then.
fn alone_tree(
    alloc: Global,
    events: &[Event],
    lacks: &[Missing],
    alone: &Option<NumbersAlone>,
) -> Result<Tree, AllocError>
    ensures { IfOk result (λ tree. view tree ≡ alone_value events.now lacks.now alone.now) }
{
    match alone {
        Some(alone) => {
            let numbers = count_written(lacks, events.len());
            evidence_tree(alloc, &alone.remains, numbers)
        }
        None => Ok(null_tree()),
    }
}

/// Whether a deal was found then.
fn settled_tree(alone: &Option<NumbersAlone>) -> Tree
    ensures { view result ≡ settled_value alone.now }
{
    match alone {
        Some(alone) => bool_tree(alone.is_game),
        None => null_tree(),
    }
}

/// The repair that a line tells, with those that share the line.
fn reported_repair(
    alloc: Global,
    game: &Record,
    lacks: &[Missing],
    repairs: &[Repair],
    reported: &Reported,
) -> Result<Option<Tree>, AllocError>
    ensures { IfOk result (λ tree. option_map view tree ≡ reported_repair game.now lacks.now repairs.now reported.now) }
{
    let players = &game.players;
    let events = game.events.as_slice();
    match item_at(repairs, reported.first) {
        Some(repair) => {
            let others = reported.others.as_slice();
            let tree = repair_tree(alloc, players, events, lacks, repairs, repair, others)?;
            Ok(Some(tree))
        }
        None => Ok(None),
    }
}

/// The repairs, one for each line.
#[tactic(auto, using(std::proofs::lemmas::Grind::common_steps, json_trees::proofs::Lists::kept))]
fn repairs_array(
    alloc: Global,
    game: &Record,
    lacks: &[Missing],
    repairs: &[Repair],
    lines: &[Reported],
) -> Result<Tree, AllocError>
    ensures { IfOk result (λ tree. view tree ≡ repairs_value game.now lacks.now repairs.now lines.now) }
{
    let mut trees = Vec::new(alloc);
    for reported in lines {
        push_if(
            &mut trees,
            reported_repair(alloc, game, lacks, repairs, reported)?,
        )?;
    }
    Ok(array(trees))
}

/// A pair, with those that share its line.
fn pair_with(
    alloc: Global,
    game: &Record,
    pairs: &Pairs,
    others: &[usize],
    pair: &Pair,
) -> Result<Option<Tree>, AllocError>
    ensures { IfOk result (λ tree. option_map view tree ≡ pair_with game.now pairs.now others.now pair.now) }
{
    let reported = pairs.reported.as_slice();
    match item_at(pairs.heads.as_slice(), pair.head) {
        Some(head) => Ok(Some(pair_tree(alloc, game, reported, head, pair, others)?)),
        None => Ok(None),
    }
}

/// The pair that a line tells, with those that share the line.
fn reported_pair(
    alloc: Global,
    game: &Record,
    pairs: &Pairs,
    reported: &Reported,
) -> Result<Option<Tree>, AllocError>
    ensures { IfOk result (λ tree. option_map view tree ≡ reported_pair game.now pairs.now reported.now) }
{
    match item_at(pairs.reported.as_slice(), reported.first) {
        Some(pair) => pair_with(alloc, game, pairs, reported.others.as_slice(), pair),
        None => Ok(None),
    }
}

/// The pairs, one for each line.
#[tactic(auto, using(std::proofs::lemmas::Grind::common_steps, json_trees::proofs::Lists::kept))]
fn pairs_array(
    alloc: Global,
    game: &Record,
    pairs: &Pairs,
    lines: &[Reported],
) -> Result<Tree, AllocError>
    ensures { IfOk result (λ tree. view tree ≡ pairs_value game.now pairs.now lines.now) }
{
    let mut trees = Vec::new(alloc);
    for reported in lines {
        push_if(&mut trees, reported_pair(alloc, game, pairs, reported)?)?;
    }
    Ok(array(trees))
}

/// The slips of the whole sheet.
fn sheets_array(
    alloc: Global,
    players: &Players,
    repairs: &[SheetRepair],
) -> Result<Tree, AllocError>
    ensures { IfOk result (λ tree. view tree ≡ array_of (map (sheet_object players.now) repairs.now)) }
{
    let mut trees = Vec::new(alloc);
    for repair in repairs {
        trees.push(sheet_tree(alloc, players, repair)?)?;
    }
    Ok(array(trees))
}

/// How many numbers of a draft there are to go by, if it is one: its lines lack these.
fn to_go_by(lacks: &[Missing]) -> Option<Tree>
    ensures { option_map view result ≡ to_go_by lacks.now }
{
    if lacks.is_empty() {
        return None;
    }
    Some(wide_tree(count_written(lacks, lacks.len())))
}

/// What repairs an illegal record, or an illegal draft whose lines lack these numbers.
fn faulty_tree(
    alloc: Global,
    game: &Record,
    lacks: &[Missing],
    verdict: &Verdict,
    faulty: &Faulty,
    chain: &Option<Chain>,
    unread: &[UnreadLine],
) -> Result<Tree, AllocError>
    ensures { IfOk result (λ tree. view tree ≡ object_of (faulty_fields game.now lacks.now verdict.now faulty.now chain.now unread.now)) }
{
    let fault = fault_tree(alloc, verdict)?;
    let alone = alone_tree(alloc, game.events.as_slice(), lacks, &faulty.alone)?;
    let reported = faulty.found.reported.as_slice();
    let repairs = repairs_array(alloc, game, lacks, reported, faulty.lines.as_slice())?;
    let pairs = pairs_array(alloc, game, &faulty.pairs, faulty.pair_lines.as_slice())?;
    let chain = chain_or_null(alloc, game, chain)?;
    let sheets = sheets_array(alloc, &game.players, faulty.sheets.as_slice())?;
    let unread = unread_array(alloc, unread)?;
    let fields = vec![in alloc;
        ("verdict", name_tree(verdict_name(verdict))),
        ("line", fault_line_tree(verdict)),
        ("fault", fault),
        ("ending", ending_tree(verdict)),
        ("numbers_alone", alone),
        ("repairs", repairs),
        ("pairs", pairs),
        ("chain", chain),
        ("left", size_tree(faulty.found.remaining.len())),
        ("tried", wide_tree(faulty.tried)),
        ("untried", wide_tree(faulty.untried)),
        ("numbers_alone_settled", settled_tree(&faulty.alone)),
        ("sheet_slips", sheets),
        ("unread_lines", unread),
    ]?;
    let fields = with_field_if(fields, "to_go_by", to_go_by(lacks))?;
    Ok(object(fields))
}

/// That a record, or a draft whose lines lack these numbers, is not illegal, so that nothing repairs it.
fn sound_tree(
    alloc: Global,
    lacks: &[Missing],
    verdict: &Verdict,
    unread: &[UnreadLine],
) -> Result<Tree, AllocError>
    ensures { IfOk result (λ tree. view tree ≡ object_of (sound_fields lacks.now verdict.now unread.now)) }
{
    let fault = fault_tree(alloc, verdict)?;
    let unread = unread_array(alloc, unread)?;
    let fields = vec![in alloc;
        ("verdict", name_tree(verdict_name(verdict))),
        ("line", fault_line_tree(verdict)),
        ("fault", fault),
        ("ending", ending_tree(verdict)),
        ("numbers_alone", null_tree()),
        ("repairs", array(Vec::new(alloc))),
        ("pairs", array(Vec::new(alloc))),
        ("chain", null_tree()),
        ("left", null_tree()),
        ("tried", null_tree()),
        ("untried", null_tree()),
        ("numbers_alone_settled", null_tree()),
        ("sheet_slips", array(Vec::new(alloc))),
        ("unread_lines", unread),
    ]?;
    let fields = with_field_if(fields, "to_go_by", to_go_by(lacks))?;
    Ok(object(fields))
}

/// What repairs a record, or a draft whose lines lack these numbers: its verdict; if it is illegal, its repairs with their evidence; the lines that are not read;
/// and of a draft how many numbers there are to go by.
///
/// # Errors
///
/// Memory was refused.
pub fn answer_tree(
    alloc: Global,
    game: &Record,
    lacks: &[Missing],
    answer: &RepairAnswer,
    unread: &[UnreadLine],
) -> Result<Tree, AllocError>
    ensures { IfOk result (λ tree. view tree ≡ answer_object game.now lacks.now answer.now unread.now) }
{
    match &answer.faulty {
        Some(faulty) => faulty_tree(
            alloc,
            game,
            lacks,
            &answer.verdict,
            faulty,
            &answer.chain,
            unread,
        ),
        None => sound_tree(alloc, lacks, &answer.verdict, unread),
    }
}
