//! The sentences of facts.

use crate::challenges::push_challenge_fact;
use crate::deals::push_deal_fact;
use crate::orders::push_order_fact;
use crate::play_faults::push_play_fact;
use crate::racks::push_rack_fact;
use crate::readings::push_reading_fact;
use crate::rulings::push_ruling_fact;
use crate::scores::push_score_fact;
use crate::tiles::push_tile_fact;
use crate::totals::push_total_fact;
use crate::turns::push_turn_fact;
use crate::wholes::push_game_fact;
use explain_answers::Explanation;
use explain_facts::Fact;
use gcg_read::Players;
use std::alloc::AllocError;

/// Appends the facts of an explanation, one after the other, with the names of these players.
pub fn push_facts(
    text: &mut Vec<u8>,
    players: &Players,
    reported: &Explanation,
) -> Result<(), AllocError> {
    for fact in reported.facts.as_slice() {
        push_fact(text, players, fact)?;
    }
    Ok(())
}

/// Appends a fact.
fn push_fact(text: &mut Vec<u8>, players: &Players, fact: &Fact) -> Result<(), AllocError> {
    match fact {
        Fact::Game(fact) => push_game_fact(text, players, fact),
        Fact::Ruling(fact) => push_ruling_fact(text, fact),
        Fact::Turn(fact) => push_turn_fact(text, players, fact),
        Fact::Order(fact) => push_order_fact(text, players, fact),
        Fact::Play(fact) => push_play_fact(text, fact),
        Fact::Score(fact) => push_score_fact(text, players, fact),
        Fact::Reading(fact) => push_reading_fact(text, fact),
        Fact::Total(fact) => push_total_fact(text, players, fact),
        Fact::Challenge(fact) => push_challenge_fact(text, players, fact),
        Fact::Tile(fact) => push_tile_fact(text, players, fact),
        Fact::Rack(fact) => push_rack_fact(text, players, fact),
        Fact::Deal(fact) => push_deal_fact(text, players, fact),
    }
}
