//! A record that passed, by the walk over it.
ghost use Rattle.std.specs.Prelude.{◌≡◌, ◌↔◌, IsSome, IfSome};
ghost use Rattle.game_turns.specs.Passing.{rules_in, record_in, list_in};
ghost use Rattle.game_turns.specs.Places.{AreAllowed};
ghost use Rattle.game_walk.specs.Walks.{IsWalkOf};

use game_turns::Passed;
use game_walk::Walk;
use gcg_read::Record;
use lex_list::WordList;
use ref_tiles::Rules;

/// A record that was walked over, if the rules allow each of its events.
#[tactic(auto, using(crate::proofs::Passed::not_allowed, crate::proofs::Passed::all_allowed, crate::proofs::Passed::went_through))]
pub fn passed_by<'a>(
    rules: &'a Rules,
    list: &'a WordList,
    record: &'a Record,
    walk: &Walk,
) -> Option<Passed<'a>>
    requires { IsWalkOf rules.now list.now record.now.events walk.now }
    ensures passed { IsSome result ↔ AreAllowed rules.now list.now record.now.events }
    ensures rules { IfSome result (λ passed. rules_in passed ≡ rules.now) }
    ensures record { IfSome result (λ passed. record_in passed ≡ record.now) }
    ensures list { IfSome result (λ passed. list_in passed ≡ list.now) }
{
    if walk.refused.is_some() {
        return None;
    }
    let complete = walk.end().finished();
    Some(Passed::of_allowed(rules, record, list, complete))
}
