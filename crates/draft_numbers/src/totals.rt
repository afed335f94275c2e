//! What the players have, as the sheet of a draft goes on.
ghost use Rattle.std.specs.Prelude.{◌≡◌, pos};
ghost use Rattle.gcg_read.specs.Numerals.{IsPoints};
ghost use Rattle.draft_numbers.specs.Numbers.{total_after};
ghost use Rattle.draft_numbers.specs.Numbers as numbers;

use game_walk::Numbers;
use gcg_drafts::Missing;
use gcg_read::{Event, Points, Seat};

/// No points.
fn no_points() -> Points
    ensures { result ≡ pos 0 }
{
    Points::new(0).unwrap()
}

/// The total that a player has after a line with this score, if it is missing.
fn total_after(had: Points, score: Points) -> Points
    ensures { result ≡ total_after had score }
{
    match Points::new(had.value() + score.value()) {
        Some(total) => total,
        None => had,
    }
}

/// The total of a line. If it is missing, it is what its player had and its score; and if that is missing too, the right score.
pub(crate) fn total_on(missing: Missing, had: Points, written: &Event, right: &Numbers) -> Points
    ensures { result ≡ numbers.total_on missing had written.now right.now }
{
    match missing {
        Missing::Nothing => written.total,
        Missing::Total => total_after(had, written.score),
        Missing::Both => total_after(had, right.score),
    }
}

/// What each player has: the last total, as the sheet goes on.
#[derive(Drop)]
pub(crate) struct Had {
    /// The first player.
    first: Points,
    /// The second.
    second: Points,
}

impl Had {
    ghost use Rattle.draft_numbers.specs.Having.{totals_of};
    ghost use Rattle.draft_numbers.specs.Numbers.{nothing, had_of, following};

    /// Before the first line.
    pub(crate) fn nothing() -> Had
        ensures { totals_of result ≡ nothing }
    {
        Had {
            first: no_points(),
            second: no_points(),
        }
    }

    /// What a player has.
    pub(crate) fn of(&self, player: Seat) -> Points
        ensures { result ≡ had_of (totals_of self.now) player }
    {
        match player {
            Seat::First => self.first,
            Seat::Second => self.second,
        }
    }

    /// Notes the total of a line.
    pub(crate) fn note(&mut self, player: Seat, total: Points)
        ensures { totals_of self.new ≡ following (totals_of self.old) player total }
    {
        match player {
            Seat::First => self.first = total,
            Seat::Second => self.second = total,
        }
    }
}
