//! The best of the choices that were tried.
ghost use Rattle.std.specs.Prelude.{◌≡◌, ◌+◌, length, All, Option, Some, slice_get};
ghost use Rattle.std.specs.Option.{option_copied};
ghost use Rattle.game_turns.specs.Places.{AreAllowed, is_finished};
ghost use Rattle.compare_repaired.specs.Repaired.{AreGames, HasBest, cost_of, cost_at};
ghost use Rattle.compare_repaired.specs.Least.{IsLeastTo};

use crate::ahead::{cost_of, is_ahead, is_settled};
use crate::repaired::{BestRepair, RepairedChoice, first_of};
use game_corrections::take;
use game_turns::{Machine, law_of_tallies};
use gcg_read::Events;
use lex_list::WordList;
use ref_tiles::Rules;
use repair_single::Repair;

/// The cheapest of some first repairs.
#[derive(Clone, Copy)]
pub(crate) struct Least {
    /// The number of its choice.
    index: usize,
    /// What it costs.
    pub(crate) cost: u128,
}

/// What the first repair of a choice costs, if it has one.
fn first_cost(repair: Option<&Repair>) -> Option<u128>
    ensures { result ≡ cost_of (option_copied repair.entry) }
{
    match repair {
        Some(repair) => Some(cost_of(repair)),
        None => None,
    }
}

/// The same for the choice with a number.
fn cost_at(tried: &[RepairedChoice], index: usize) -> Option<u128>
    ensures { result ≡ cost_at tried.now index }
{
    match tried.get(index) {
        Some(choice) => first_cost(first_of(choice)),
        None => None,
    }
}

/// The cheaper of the cheapest before a place and what the first repair there costs, if there is one.
#[tactic(auto, using(crate::proofs::Least::none_here, crate::proofs::Least::first_here, crate::proofs::Least::dearer_here, crate::proofs::Least::cheaper_here))]
fn lesser(tried: &[RepairedChoice], index: usize, least: Option<Least>) -> Option<Least>
    requires { IsLeastTo tried.now index least }
    ensures { IsLeastTo tried.now (index + 1) result }
{
    let Some(cost) = cost_at(tried, index) else {
        return least;
    };
    match least {
        Some(before) => {
            if before.cost <= cost {
                least
            } else {
                Some(Least { index, cost })
            }
        }
        None => Some(Least { index, cost }),
    }
}

/// The cheapest of the first repairs of some choices.
#[tactic(auto, using(crate::proofs::Least::none_before))]
pub(crate) fn least_of(tried: &[RepairedChoice]) -> Option<Least>
    ensures { IsLeastTo tried.now (length tried.now) result }
{
    let mut least = None;
    for index in 0..tried.len() {
        least = lesser(tried, index, least);
    }
    least
}

/// Whether the last racks are in after the last event, if the rules allow each event.
fn is_finished(rules: &Rules, list: &WordList, right: &Events) -> bool
    requires { AreAllowed rules.now list.now right.now }
    ensures { result ≡ is_finished rules.now right.now }
{
    law_of_tallies();
    let mut machine = Machine::new(rules);
    for place in 0..right.len() {
        if take(&mut machine, right, place, list).is_err() {
            unreachable!()
        }
    }
    machine.finished()
}

/// The best of some choices, if one has a repair.
#[tactic(auto, using(crate::proofs::Least::none_best, crate::proofs::Least::no_choice, crate::proofs::Least::no_repair, crate::proofs::Least::best_is))]
pub(crate) fn best_of(
    rules: &Rules,
    list: &WordList,
    tried: &[RepairedChoice],
) -> Option<BestRepair>
    requires { AreGames rules.now list.now tried.now }
    ensures { HasBest rules.now tried.now result }
{
    let Some(least) = least_of(tried) else {
        return None;
    };
    let Some(choice) = tried.get(least.index) else {
        return None;
    };
    let Some(repair) = first_of(choice) else {
        return None;
    };
    let complete = is_finished(rules, list, &repair.right);
    let ahead = is_ahead(repair, tried);
    let settled = is_settled(tried);
    Some(BestRepair {
        index: least.index,
        complete,
        ahead,
        settled,
    })
}
