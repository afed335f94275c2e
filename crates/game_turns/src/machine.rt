//! The machine of the turns, and what it says about a game.
ghost use Rattle.std.specs.Prelude.{◌≡◌, [], false, option_map};
ghost use Rattle.ref_play.specs.Words.{items_of};
ghost use Rattle.game_turns.specs.Seats.{side_of};
ghost use Rattle.game_turns.specs.Tallies.{tally};
ghost use Rattle.game_turns.specs.LatestEvents.{FitRacks, HoldsLatest, latest_tiles, latest_words, standing_words};

use crate::latest::LatestEvent;
use crate::sides::{Side, Sides};
use gcg_read::{Points, Seat};
use ref_board::Board;
use ref_play::{Play, Word};
use ref_tiles::Rules;

/// The turns of one game, event by event: the board, what the players have, the bag and whose turn it is.
#[derive(Drop)]
pub struct Machine {
    pub(crate) rules: Rules,
    pub(crate) board: Board,
    pub(crate) sides: Sides,
    pub(crate) bag: usize,
    pub(crate) mover: Option<Seat>,
    pub(crate) zero_run: u8,
    pub(crate) out: Option<Seat>,
    pub(crate) idle_pass: bool,
    pub(crate) complete: bool,
    pub(crate) latest: LatestEvent,
    ghost racks: { FitRacks sides latest },
    ghost tiles: { HoldsLatest board latest },
}

impl Machine {
    ghost use Rattle.game_turns.specs.Machines.{rules_of, state_of};

    /// The start of a game by these rules.
    #[tactic(auto, unfolding(crate::specs::Tallies::tally))]
    pub fn new(rules: &Rules) -> Machine
        ensures rules { rules_of result ≡ rules.now }
        ensures state { state_of result ≡ tally rules.now false [] }
    {
        Machine {
            rules: *rules,
            board: Board::empty(),
            sides: Sides::new(),
            bag: rules.counts.total() - 14,
            mover: None,
            zero_run: 0,
            out: None,
            idle_pass: false,
            complete: false,
            latest: LatestEvent::Other,
        }
    }

    /// The board, with a play that awaits its withdrawal.
    pub fn board(&self) -> &Board
        ensures { result.now ≡ (state_of self.now).board }
    {
        &self.board
    }

    /// The number of tiles on a player's rack.
    pub fn rack_size(&self, player: Seat) -> usize
        ensures { result ≡ (side_of (state_of self.now).sides player).rack }
    {
        self.sides.of(player).rack
    }

    /// The number of tiles in the bag.
    pub fn bag_size(&self) -> usize
        ensures { result ≡ (state_of self.now).bag }
    {
        self.bag
    }

    /// A player's total.
    pub fn total(&self, player: Seat) -> i32
        ensures { result ≡ (side_of (state_of self.now).sides player).total }
    {
        self.sides.of(player).total.value()
    }

    /// Whether the game is complete: the last racks are in.
    pub fn finished(&self) -> bool
        ensures { result ≡ (state_of self.now).complete }
    {
        self.complete
    }

    /// The player who is out: the one whose play emptied the rack while the bag was empty.
    pub fn out(&self) -> Option<Seat>
        ensures { result ≡ (state_of self.now).out }
    {
        self.out
    }

    /// The number of turns since the latest play that stands, up to the limit of the rules.
    pub fn idle_turns(&self) -> usize
        ensures { result ≡ (state_of self.now).zero_run }
    {
        self.zero_run as usize
    }

    /// Whether a last rack of this player stands.
    pub fn has_ended(&self, player: Seat) -> bool
        ensures { result ≡ (side_of (state_of self.now).sides player).ended }
    {
        self.sides.of(player).ended
    }

    /// Whether a time penalty of this player stands.
    pub fn is_timed(&self, player: Seat) -> bool
        ensures { result ≡ (side_of (state_of self.now).sides player).timed }
    {
        self.sides.of(player).timed
    }

    /// The new tiles of the latest event if it is a play, and those that it took back if it is a
    /// withdrawal.
    pub fn last_play(&self) -> Option<&Play>
        ensures { option_map (λ play. play.now.tiles.items) result ≡ latest_tiles (state_of self.now).latest }
    {
        match &self.latest {
            LatestEvent::Played(laid) => Some(&laid.play),
            LatestEvent::TakenBack(play) => Some(play),
            LatestEvent::Other => None,
        }
    }

    /// The words that the latest event forms if it is a play, in the order of `words`; otherwise none.
    pub fn latest_words(&self) -> &[Word]
        ensures { items_of result.now ≡ latest_words (state_of self.now).latest }
    {
        match &self.latest {
            LatestEvent::Played(laid) => &laid.words,
            LatestEvent::TakenBack(_) | LatestEvent::Other => &[],
        }
    }

    /// The words that the latest event forms if it is a play that stands, in the order of `words`; otherwise none.
    pub fn standing_words(&self) -> &[Word]
        ensures { items_of result.now ≡ standing_words (state_of self.now).latest }
    {
        match &self.latest {
            LatestEvent::Played(laid) if laid.stands => &laid.words,
            LatestEvent::Played(_) | LatestEvent::TakenBack(_) | LatestEvent::Other => &[],
        }
    }
}
