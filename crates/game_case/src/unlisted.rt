//! How many phonies of a record stand: plays with a word that is not in the list.
ghost use Rattle.std.specs.Prelude.{◌≡◌, ◌≤◌, not, if◌then◌else◌};
ghost use Rattle.game_turns.specs.Passing.{rules_in, record_in, list_in};
ghost use Rattle.game_walk.specs.Rows.{HaveRows};
ghost use Rattle.game_case.specs.Archiving.{unlisted_plays};

use game_turns::Passed;
use game_walk::Row;

/// 1 for a play that stands with a word that is not in the list, and otherwise 0.
fn unlisted_here(row: &Row) -> usize
    ensures number { result ≡ (if not row.now.listed then 1 else 0) }
    ensures few { result ≤ 1 }
{
    if row.listed { 0 } else { 1 }
}

/// How many plays of a record that passed stand with a word that is not in its list, by its rows.
pub fn unlisted_plays(passed: &Passed<'_>, rows: &[Row]) -> usize
    requires { HaveRows (rules_in passed.now) (list_in passed.now) (record_in passed.now).events rows.now }
    ensures { result ≡ unlisted_plays (rules_in passed.now) (list_in passed.now) (record_in passed.now).events }
{
    let mut plays = 0;
    for place in 0..rows.len() {
        plays += unlisted_here(&rows[place]);
    }
    plays
}
