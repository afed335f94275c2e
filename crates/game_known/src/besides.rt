//! The best plays of a game, event by event: a board with its cross-sets is kept while one goes through the game, and is updated only if a search needs it.
ghost use Rattle.std.specs.Prelude.{◌≡◌, ◌<◌, ◌≤◌, length};
ghost use Rattle.game_turns.specs.Machines.{state_of};
ghost use Rattle.lex_check.specs.Pairs.{list_in};
ghost use Rattle.game_notes.specs.Following.{Follows};
ghost use Rattle.game_bests.specs.Bests.{IsTurnBest};
ghost use Rattle.game_known.specs.Besides.{IsBeside};
ghost use Rattle.game_known.specs.Known.{AreKnown};

use crate::known::KnownBests;
use crate::turns::{find_best_of_turn, known_best_of_turn};
use game_bests::TurnBest;
use game_notes::Follow;
use game_turns::{Machine, legal_play, withdraws};
use gcg_read::{Event, EventKind};
use lex_check::Checked;
use ref_tiles::Rules;

/// Lays the play of the event at a place, if there is one that the next event does not take back.
fn lay(rules: &Rules, pair: &Checked<'_>, events: &[Event], place: usize, follow: &mut Follow)
    requires place { place < length events.now }
    requires follows { Follows rules.now (list_in pair.now) follow.old }
    ensures { Follows rules.now (list_in pair.now) follow.new }
{
    let EventKind::Play { at, dir, word } = &events[place].kind else {
        return;
    };
    if withdraws(events.get(place + 1)) {
        return;
    }
    if let Ok(play) = legal_play(follow.board(), *at, *dir, word.as_slice()) {
        follow.apply(rules, pair, &play);
    }
}

/// Lays the plays of the events from one place to before another.
fn lay_all(
    rules: &Rules,
    pair: &Checked<'_>,
    events: &[Event],
    from: usize,
    to: usize,
    follow: &mut Follow,
)
    requires to { to ≤ length events.now }
    requires follows { Follows rules.now (list_in pair.now) follow.old }
    ensures { Follows rules.now (list_in pair.now) follow.new }
{
    for place in from..to {
        lay(rules, pair, events, place, follow);
    }
}

/// A board with its cross-sets that is kept while one goes through a game: the plays of its first events are laid on it.
#[derive(Drop)]
pub struct Beside {
    follow: Follow,
    /// How many events it has taken.
    place: usize,
}

impl Beside {
    /// The empty board, before the first event.
    pub fn new(rules: &Rules, pair: &Checked<'_>) -> Beside
        ensures { IsBeside rules.now (list_in pair.now) result }
    {
        Beside {
            follow: Follow::new(rules, pair),
            place: 0,
        }
    }

    /// Lays the plays of the events before a place, as far as they are not laid yet.
    fn catch_up(&mut self, rules: &Rules, pair: &Checked<'_>, events: &[Event], place: usize)
        requires place { place ≤ length events.now }
        requires beside { IsBeside rules.now (list_in pair.now) self.old }
        ensures { IsBeside rules.now (list_in pair.now) self.new }
    {
        lay_all(rules, pair, events, self.place, place, &mut self.follow);
        self.place = place;
    }

    /// What is said of the best play of an event that gave `gave` points, by a search; `machine` is before the event, and `place` is its place among
    /// the events of the game.
    fn find_best_at(
        &mut self,
        rules: &Rules,
        pair: &Checked<'_>,
        machine: &Machine,
        events: &[Event],
        place: usize,
        event: &Event,
        gave: i32,
        known: &mut KnownBests,
    ) -> TurnBest
        requires place { place < length events.now }
        requires beside { IsBeside rules.now (list_in pair.now) self.old }
        requires known { AreKnown rules.now (list_in pair.now) known.old }
        ensures beside { IsBeside rules.now (list_in pair.now) self.new }
        ensures known { AreKnown rules.now (list_in pair.now) known.new }
        ensures best { IsTurnBest rules.now (list_in pair.now) (state_of machine.now) event.now gave result }
    {
        self.catch_up(rules, pair, events, place);
        find_best_of_turn(rules, pair, machine, &self.follow, event, gave, known)
    }

    /// What is said of the best play of an event that gave `gave` points; `machine` is before the event, and `place` is its place among the events of
    /// the game. It searches only for what is not known, and what is found is known from then on.
    ///
    /// It is what `best_of_turn` says, whatever the table has. How often something is known, and that the table never grows, is not proved.
    pub fn best_at(
        &mut self,
        rules: &Rules,
        pair: &Checked<'_>,
        machine: &Machine,
        events: &[Event],
        place: usize,
        event: &Event,
        gave: i32,
        known: &mut KnownBests,
    ) -> TurnBest
        requires place { place < length events.now }
        requires beside { IsBeside rules.now (list_in pair.now) self.old }
        requires known { AreKnown rules.now (list_in pair.now) known.old }
        ensures beside { IsBeside rules.now (list_in pair.now) self.new }
        ensures known { AreKnown rules.now (list_in pair.now) known.new }
        ensures best { IsTurnBest rules.now (list_in pair.now) (state_of machine.now) event.now gave result }
    {
        if let Some(best) = known_best_of_turn(known, machine, event, gave) {
            return best;
        }
        self.find_best_at(rules, pair, machine, events, place, event, gave, known)
    }
}
