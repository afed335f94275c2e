//! Judged games as trees.
ghost use Rattle.std.specs.Prelude.{◌≡◌, ◌∷◌, [], IfOk};
ghost use Rattle.json_trees.specs.Trees.{view};
ghost use Rattle.json_trees.specs.Values.{array_of};
ghost use Rattle.game_json.specs.Games.{answers_in, judged_object, remaining_first, remaining_second, player_object};

use crate::events::events_array;
use game_answers::{EventAnswer, GameAnswers, JudgedGame};
use gcg_read::Player;
use gcg_unread::UnreadLine;
use json_base::{ending_tree, fault_line_tree, fault_tree, given_tree, unread_array, verdict_name};
use json_trees::{Tree, array, large_count_or_null, name_tree, object};
use std::alloc::{AllocError, Global};

/// A player, with the points that were left.
fn player_tree(alloc: Global, player: &Player, remaining: Option<u64>) -> Result<Tree, AllocError>
    ensures { IfOk result (λ tree. view tree ≡ player_object player.now remaining) }
{
    let nick = given_tree(alloc, player.nick.as_bytes())?;
    let full = given_tree(alloc, player.full.as_bytes())?;
    let fields = vec![in alloc;
        ("nick", nick),
        ("name", full),
        ("left", large_count_or_null(remaining)),
    ]?;
    Ok(object(fields))
}

/// The points that the first player left.
fn remaining_first(answers: &Option<GameAnswers>) -> Option<u64>
    ensures { result ≡ remaining_first answers.now }
{
    match answers {
        Some(answers) => answers.remaining_first,
        None => None,
    }
}

/// The points that the second player left.
fn remaining_second(answers: &Option<GameAnswers>) -> Option<u64>
    ensures { result ≡ remaining_second answers.now }
{
    match answers {
        Some(answers) => answers.remaining_second,
        None => None,
    }
}

/// What is answered for the events.
fn answers_in(answers: &Option<GameAnswers>) -> &[EventAnswer]
    ensures { result.now ≡ answers_in answers.now }
{
    match answers {
        Some(answers) => answers.events.as_slice(),
        None => &[],
    }
}

/// The two players.
fn players_array(alloc: Global, game: &JudgedGame) -> Result<Tree, AllocError>
    ensures { IfOk result (λ tree. view tree ≡ array_of (player_object game.now.players.first (remaining_first game.now.answers)
        ∷ player_object game.now.players.second (remaining_second game.now.answers) ∷ [])) }
{
    let first = player_tree(alloc, &game.players.first, remaining_first(&game.answers))?;
    let second = player_tree(alloc, &game.players.second, remaining_second(&game.answers))?;
    let trees = vec![in alloc; first, second]?;
    Ok(array(trees))
}

/// A judged game: the verdict, the players, each event as it is written with what is answered for it, and the lines that are not read.
pub fn judged_tree(
    alloc: Global,
    game: &JudgedGame,
    unread: &[UnreadLine],
) -> Result<Tree, AllocError>
    ensures { IfOk result (λ tree. view tree ≡ judged_object game.now unread.now) }
{
    let fault = fault_tree(alloc, &game.verdict)?;
    let players = players_array(alloc, game)?;
    let events = events_array(
        alloc,
        &game.players,
        game.events.as_slice(),
        answers_in(&game.answers),
    )?;
    let unread = unread_array(alloc, unread)?;
    let fields = vec![in alloc;
        ("verdict", name_tree(verdict_name(&game.verdict))),
        ("line", fault_line_tree(&game.verdict)),
        ("fault", fault),
        ("ending", ending_tree(&game.verdict)),
        ("players", players),
        ("events", events),
        ("unread_lines", unread),
    ]?;
    Ok(object(fields))
}
