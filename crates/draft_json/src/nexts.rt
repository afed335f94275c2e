//! What the next line of a draft is about as a tree.
ghost use Rattle.std.specs.Prelude.{◌≡◌, IfOk};
ghost use Rattle.json_trees.specs.Trees.{view};
ghost use Rattle.draft_json.specs.Nexts.{next_object, seat_value, side_object, sides_value, stopped_fault, stopped_line, stopped_word};

use draft_answers::{DraftNext, NextSide};
use engine_stages::GameFault;
use game_walk::Refusal;
use gcg_read::{Player, Seat};
use json_base::{game_fault_tree, given_tree, number_of};
use json_trees::{
    Tree, array, bool_tree, count_tree, integer_tree, name_tree, null_tree, object, size_tree,
};
use std::alloc::{AllocError, Global};

/// Whether the rules refuse a line.
fn stopped_name(stopped: &Option<Refusal>) -> &'static str
    ensures { result.now ≡ stopped_word stopped.now }
{
    match stopped {
        None => "ok",
        Some(_) => "illegal",
    }
}

/// The line that the rules refuse; null if there is none.
fn stopped_line(stopped: &Option<Refusal>) -> Tree
    ensures { view result ≡ stopped_line stopped.now }
{
    match stopped {
        None => null_tree(),
        Some(refusal) => count_tree(refusal.line),
    }
}

/// The fault of the line that the rules refuse; null if there is none.
fn stopped_fault(alloc: Global, stopped: &Option<Refusal>) -> Result<Tree, AllocError>
    ensures { IfOk result (λ tree. view tree ≡ stopped_fault stopped.now) }
{
    match stopped {
        None => Ok(null_tree()),
        Some(refusal) => game_fault_tree(alloc, &GameFault::Rule(refusal.why)),
    }
}

/// The number of a player; null if it is none of the two.
fn seat_tree(player: Option<Seat>) -> Tree
    ensures { view result ≡ seat_value player }
{
    match player {
        None => null_tree(),
        Some(player) => count_tree(number_of(player)),
    }
}

/// A player before the next line.
fn side_tree(alloc: Global, player: &Player, side: &NextSide) -> Result<Tree, AllocError>
    ensures { IfOk result (λ tree. view tree ≡ side_object player.now side.now) }
{
    let nick = given_tree(alloc, player.nick.as_bytes())?;
    let full = given_tree(alloc, player.full.as_bytes())?;
    let fields = vec![in alloc;
        ("nick", nick),
        ("name", full),
        ("total", integer_tree(side.total)),
        ("tiles", size_tree(side.rack)),
    ]?;
    Ok(object(fields))
}

/// Both players before the next line.
fn sides_array(alloc: Global, draft: &DraftNext) -> Result<Tree, AllocError>
    ensures { IfOk result (λ tree. view tree ≡ sides_value draft.now) }
{
    let players = &draft.record.players;
    let first = side_tree(alloc, &players.first, &draft.next.first)?;
    let second = side_tree(alloc, &players.second, &draft.next.second)?;
    let trees = vec![in alloc; first, second]?;
    Ok(array(trees))
}

/// What the next line of a draft is about: whose turn it is, what the players have, and how many tiles are in the bag. If the rules refuse a line, the next
/// one is that line, and its fault is given.
///
/// It fails only if memory runs out.
pub fn next_tree(alloc: Global, draft: &DraftNext) -> Result<Tree, AllocError>
    ensures { IfOk result (λ tree. view tree ≡ next_object draft.now) }
{
    let fault = stopped_fault(alloc, &draft.stopped)?;
    let players = sides_array(alloc, draft)?;
    let fields = vec![in alloc;
        ("verdict", name_tree(stopped_name(&draft.stopped))),
        ("line", stopped_line(&draft.stopped)),
        ("fault", fault),
        ("complete", bool_tree(draft.next.complete)),
        ("turn", seat_tree(draft.next.turn)),
        ("out", seat_tree(draft.next.out)),
        ("players", players),
        ("bag", size_tree(draft.next.bag)),
    ]?;
    Ok(object(fields))
}
