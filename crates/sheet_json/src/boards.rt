//! The board of a record as a tree.
ghost use Rattle.std.specs.Prelude.{◌≡◌, ◌<◌, ◌∷◌, [], IfOk, map, option_map};
ghost use Rattle.json_trees.specs.Trees.{view};
ghost use Rattle.json_trees.specs.Values.{array_of, object_of};
ghost use Rattle.sheet_json.specs.Boards.{board_fields, board_object, kind_object, kinds_to, laid_fault, laid_line, off_at, off_object, player_object, row_value};

use engine_stages::Verdict;
use game_answers::{RowMarks, ShownBoard};
use gcg_read::Player;
use gcg_unread::UnreadLine;
use json_base::{
    bare_fault_tree, given_tree, item_at, rack_tree, tile_tree, unread_array, verdict_tree,
};
use json_trees::{
    Tree, array, count_or_null, integer_tree, name_tree, null_tree, object, push_if, size_tree,
    text_tree,
};
use ref_play::PlayFault;
use ref_tiles::{KINDS, Kind};
use std::alloc::{AllocError, Global};

/// The fault of a play that cannot be laid; null if every play can.
fn laid_fault(alloc: Global, fault: Option<PlayFault>) -> Result<Tree, AllocError>
    ensures { IfOk result (λ tree. view tree ≡ laid_fault fault) }
{
    match fault {
        Some(fault) => bare_fault_tree(alloc, fault.name()),
        None => Ok(null_tree()),
    }
}

/// The line of a play that cannot be laid; null if every play can.
fn laid_line(fault: Option<PlayFault>, line: Option<u32>) -> Tree
    ensures { view result ≡ laid_line fault line }
{
    match fault {
        Some(_) => count_or_null(line),
        None => null_tree(),
    }
}

/// The rows of a board.
fn rows_array(alloc: Global, rows: &[RowMarks]) -> Result<Tree, AllocError>
    ensures { IfOk result (λ tree. view tree ≡ array_of (map row_value rows.now)) }
{
    let mut trees = Vec::new(alloc);
    for row in rows {
        trees.push(text_tree(alloc, row.as_slice())?)?;
    }
    Ok(array(trees))
}

/// A player, with the last total that is written.
fn player_tree(alloc: Global, player: &Player, total: i32) -> Result<Tree, AllocError>
    ensures { IfOk result (λ tree. view tree ≡ player_object player.now total) }
{
    let nick = given_tree(alloc, player.nick.as_bytes())?;
    let full = given_tree(alloc, player.full.as_bytes())?;
    let fields = vec![in alloc;
        ("nick", nick),
        ("name", full),
        ("total", integer_tree(total)),
    ]?;
    Ok(object(fields))
}

/// The two players.
fn players_array(alloc: Global, board: &ShownBoard) -> Result<Tree, AllocError>
    ensures { IfOk result (λ tree. view tree ≡ array_of (player_object board.now.players.first board.now.first
        ∷ player_object board.now.players.second board.now.second ∷ [])) }
{
    let first = player_tree(alloc, &board.players.first, board.first)?;
    let second = player_tree(alloc, &board.players.second, board.second)?;
    let trees = vec![in alloc; first, second]?;
    Ok(array(trees))
}

/// How many tiles of the kind with this number are not on the board.
fn kind_tree(alloc: Global, kind: usize, number: usize) -> Result<Tree, AllocError>
    requires { kind < 27 }
    ensures { IfOk result (λ tree. view tree ≡ kind_object kind number) }
{
    let tile = tile_tree(alloc, Kind::at(kind))?;
    let fields = vec![in alloc; ("tile", tile), ("number", size_tree(number))]?;
    Ok(object(fields))
}

/// The same, if that number is known.
fn off_at(alloc: Global, off: &[usize], kind: usize) -> Result<Option<Tree>, AllocError>
    requires { kind < 27 }
    ensures { IfOk result (λ tree. option_map view tree ≡ off_at off.now kind) }
{
    match item_at(off, kind) {
        Some(number) => Ok(Some(kind_tree(alloc, kind, *number)?)),
        None => Ok(None),
    }
}

/// The kinds of tiles by their bytes, with how many of each are not on the board.
#[tactic(auto, using(std::proofs::lemmas::Grind::common_steps, repair_json::proofs::Ranges::filter_map_range_more), unfolding(crate::specs::Boards::kinds_to))]
fn kinds_array(alloc: Global, off: &[usize]) -> Result<Tree, AllocError>
    ensures { IfOk result (λ tree. view tree ≡ array_of (kinds_to off.now 27)) }
{
    let mut trees = Vec::new(alloc);
    for kind in 0..KINDS {
        push_if(&mut trees, off_at(alloc, off, kind)?)?;
    }
    Ok(array(trees))
}

/// The tiles that are not on the board.
fn off_tree(alloc: Global, number: usize, off: &[usize]) -> Result<Tree, AllocError>
    ensures { IfOk result (λ tree. view tree ≡ off_object number off.now) }
{
    let kinds = kinds_array(alloc, off)?;
    let fields = vec![in alloc; ("number", size_tree(number)), ("kinds", kinds)]?;
    Ok(object(fields))
}

/// A board: the fault is that of the play that cannot be laid, and the line that of its event.
fn shown_tree(alloc: Global, board: &ShownBoard, unread: &[UnreadLine]) -> Result<Tree, AllocError>
    ensures { IfOk result (λ tree. view tree ≡ object_of (board_fields board.now unread.now)) }
{
    let fault = laid_fault(alloc, board.fault)?;
    let rows = rows_array(alloc, board.rows.as_slice())?;
    let players = players_array(alloc, board)?;
    let rack = rack_tree(alloc, &board.rack)?;
    let off = off_tree(alloc, board.off_in_all, board.off.as_slice())?;
    let unread = unread_array(alloc, unread)?;
    let fields = vec![in alloc;
        ("verdict", name_tree("ok")),
        ("line", laid_line(board.fault, board.line)),
        ("fault", fault),
        ("before", count_or_null(board.line)),
        ("rows", rows),
        ("players", players),
        ("rack", rack),
        ("off_board", off),
        ("unread_lines", unread),
    ]?;
    Ok(object(fields))
}

/// The board of a record with the lines that are not read, or that there is no event on the line.
pub fn board_tree(
    alloc: Global,
    shown: &Option<ShownBoard>,
    unread: &[UnreadLine],
) -> Result<Tree, AllocError>
    ensures { IfOk result (λ tree. view tree ≡ board_object shown.now unread.now) }
{
    match shown {
        Some(board) => shown_tree(alloc, board, unread),
        None => verdict_tree(alloc, &Verdict::BadLine),
    }
}
