//! Players, and who of them is ahead, as trees.
ghost use Rattle.std.specs.Prelude.{◌≡◌, IfOk};
ghost use Rattle.json_trees.specs.Trees.{view};
ghost use Rattle.json_base.specs.Players.{player_object, players_value, standing_object};

use crate::names::number_of;
use crate::values::given_tree;
use game_corrections::Standing;
use gcg_read::{Player, Players};
use json_trees::{Tree, array, count_tree, integer_tree, null_tree, object};
use std::alloc::{AllocError, Global};

/// A player.
fn player_tree(alloc: Global, player: &Player) -> Result<Tree, AllocError>
    ensures { IfOk result (λ tree. view tree ≡ player_object player.now) }
{
    let nick = given_tree(alloc, player.nick.as_bytes())?;
    let full = given_tree(alloc, player.full.as_bytes())?;
    let fields = vec![in alloc; ("nick", nick), ("name", full)]?;
    Ok(object(fields))
}

/// The two players.
pub fn players_array(alloc: Global, players: &Players) -> Result<Tree, AllocError>
    ensures { IfOk result (λ tree. view tree ≡ players_value players.now) }
{
    let first = player_tree(alloc, &players.first)?;
    let second = player_tree(alloc, &players.second)?;
    let trees = vec![in alloc; first, second]?;
    Ok(array(trees))
}

/// Who is ahead.
pub fn standing_tree(alloc: Global, standing: &Standing) -> Result<Tree, AllocError>
    ensures { IfOk result (λ tree. view tree ≡ standing_object standing.now) }
{
    match standing {
        Standing::Even => {
            let fields = vec![in alloc; ("player", null_tree()), ("by", integer_tree(0))]?;
            Ok(object(fields))
        }
        Standing::Ahead(player, by) => {
            let number = count_tree(number_of(*player));
            let fields = vec![in alloc; ("player", number), ("by", integer_tree(*by))]?;
            Ok(object(fields))
        }
    }
}
