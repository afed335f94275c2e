//! The most that the tiles of a move score, added up place by place.
ghost use Rattle.std.specs.Prelude.{◌≡◌, ◌≤◌, ◌+◌, ◌-◌, ◌*◌, ◌||◌, ℕ, nat_le, not, is_some, if◌then◌else◌};
ghost use Rattle.ref_play.specs.Scores.{points_on};
ghost use Rattle.gen_moves.specs.LineTiles.{new_tile};
ghost use Rattle.gen_moves.specs.Bounds.{IsSmall, one_if, place_in};
ghost use Rattle.gen_moves.specs.Tallies.{AreSmall, IsSmallTally, LiesOn, tally};

use crate::entries::LineTiles;
use crate::places::Place;
use ref_board::SIDE;
use ref_play::{RACK, points_on};
use ref_tiles::{Rules, Tile};

/// What the places of a stretch add up to.
#[derive(Clone, Copy)]
pub struct Tally {
    /// The points of the letters of its word, with their premiums.
    pub letters: u64,
    /// The product of the word premiums.
    pub word: u64,
    /// The score of the cross words.
    pub crosses: u64,
    /// The number of new tiles.
    pub free: u64,
}

impl Tally {
    /// The tally of no places.
    fn none() -> Tally
        ensures letters { result.letters ≡ 0 }
        ensures word { result.word ≡ 1 }
        ensures crosses { result.crosses ≡ 0 }
        ensures free { result.free ≡ 0 }
    {
        Tally {
            letters: 0,
            word: 1,
            crosses: 0,
            free: 0,
        }
    }

    /// The tally with one more place, on which there is an old tile, or a new one with a number of points.
    fn with(&self, place: &Place, points: u64) -> Tally
        requires small { IsSmallTally (SIDE - 1) self.now }
        requires place { IsSmall place.now }
        requires points { points ≤ 99 }
        ensures letters { result.letters ≡ self.now.letters + (place.now.old + place.now.letter * points) }
        ensures word { result.word ≡ self.now.word * place.now.word }
        ensures crosses { result.crosses ≡ self.now.crosses + (place.now.side + place.now.cross * points) }
        ensures free { result.free ≡ self.now.free + one_if place.now.free }
    {
        Tally {
            letters: self.letters + (place.old + place.letter * points),
            word: self.word * place.word,
            crosses: self.crosses + (place.side + place.cross * points),
            free: self.free + u64::from(place.free),
        }
    }

    /// The score that it adds up to.
    fn score(&self, bonus: u16) -> u64
        requires { IsSmallTally SIDE self.now }
        ensures { result ≡ self.now.letters * self.now.word + self.now.crosses + (if nat_le 7 self.now.free then bonus else 0) }
    {
        let on_top = if self.free >= RACK as u64 {
            u64::from(bonus)
        } else {
            0
        };
        self.letters * self.word + self.crosses + on_top
    }
}

/// The points of a new tile, if there is one; a blank has none.
fn points_of_tile(rules: &Rules, tile: &Option<Tile>) -> u64
    ensures points { result ≡ points_on rules.now tile.now }
    ensures limit { result ≤ 99 }
{
    u64::from(points_on(rules, *tile))
}

/// Whether a place has an old tile or a new one.
fn is_laid(place: &Place, tile: &Option<Tile>) -> bool
    ensures { result ≡ (not place.now.free || is_some tile.now) }
{
    !place.free || tile.is_some()
}

/// The most that the move of some new tiles scores: what the stretch in which they lie adds up to.
pub fn tally_of(rules: &Rules, places: &[Place; SIDE], tiles: &LineTiles) -> u64
    requires { AreSmall (place_in places.now) }
    ensures { (first len : ℕ) → LiesOn (place_in places.now) (new_tile tiles.now) first len
        → result ≡ tally rules.now (place_in places.now) (new_tile tiles.now) first len }
{
    let mut tally = Tally::none();
    for place in 0..SIDE {
        if is_laid(&places[place], &tiles[place]) {
            tally = tally.with(&places[place], points_of_tile(rules, &tiles[place]));
        } else {
            if tally.free > 0 {
                return tally.score(rules.bonus);
            }
            tally = Tally::none();
        }
    }
    tally.score(rules.bonus)
}
