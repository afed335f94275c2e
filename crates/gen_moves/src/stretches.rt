//! Sums over stretches of places, and the bounds that they give.
ghost use Rattle.std.specs.Prelude.{◌≡◌, ◌<◌, ◌≤◌, ◌+◌, ◌-◌, ◌*◌, ℕ, nat_le, if◌then◌else◌};
ghost use Rattle.gen_moves.specs.Closing.{open_in};
ghost use Rattle.gen_moves.specs.Bounds.{IsSmall, IsSmallSum, IsSum, IsBoundFrom, place_in, one_if, least};

use crate::places::Place;
use ref_board::SIDE;

/// What the places of a stretch add together.
#[derive(Clone, Copy)]
pub struct Sum {
    /// The points of the old tiles.
    pub old: u64,
    /// The product of the word premiums.
    pub word: u64,
    /// The score of the old tiles of the cross words.
    pub side: u64,
    /// The greatest letter premium.
    pub letter: u64,
    /// The greatest factor of a cross word.
    pub cross: u64,
    /// The number of free places.
    pub free: u64,
    /// The sum of the letter premiums above one.
    pub letters: u64,
    /// The sum of the factors of cross words.
    pub crosses: u64,
}

/// The smaller of two numbers.
fn lesser(one: u64, other: u64) -> u64
    ensures least { result ≡ least one other }
    ensures limit { result ≤ one }
{
    if one <= other { one } else { other }
}

/// The greater of two numbers.
fn greater(one: u64, other: u64) -> u64
    ensures first { one ≤ result }
    ensures second { other ≤ result }
    ensures limit { (most : ℕ) → one ≤ most → other ≤ most → result ≤ most }
{
    if one < other { other } else { one }
}

impl Sum {
    /// The sum of no places.
    fn none() -> Sum
        ensures sum { (places : ℕ → Place) (first : ℕ) → IsSum places first 0 result }
        ensures small { IsSmallSum 0 result }
    {
        Sum {
            old: 0,
            word: 1,
            side: 0,
            letter: 0,
            cross: 0,
            free: 0,
            letters: 0,
            crosses: 0,
        }
    }

    /// The sum with one more place.
    fn with(&self, place: &Place) -> Sum
        requires small { IsSmallSum (SIDE - 1) self.now }
        requires place { IsSmall place.now }
        ensures old { result.old ≡ self.now.old + place.now.old }
        ensures word { result.word ≡ self.now.word * place.now.word }
        ensures side { result.side ≡ self.now.side + place.now.side }
        ensures free { result.free ≡ self.now.free + one_if place.now.free }
        ensures letters { result.letters ≡ self.now.letters + (place.now.letter - 1) }
        ensures crosses { result.crosses ≡ self.now.crosses + place.now.cross }
        ensures letter_before { self.now.letter ≤ result.letter }
        ensures letter { place.now.letter ≤ result.letter }
        ensures letter_limit { result.letter ≤ 3 }
        ensures cross_before { self.now.cross ≤ result.cross }
        ensures cross { place.now.cross ≤ result.cross }
        ensures cross_limit { result.cross ≤ 9 }
    {
        Sum {
            old: self.old + place.old,
            word: self.word * place.word,
            side: self.side + place.side,
            letter: greater(self.letter, place.letter),
            cross: greater(self.cross, place.cross),
            free: self.free + u64::from(place.free),
            letters: self.letters + place.letter.saturating_sub(1),
            crosses: self.crosses + place.cross,
        }
    }

    /// The bound of the plays of a stretch with this sum.
    fn bound(&self, points: u64, ones: u64, bonus: u64) -> u64
        requires small { IsSmallSum SIDE self.now }
        requires points { points ≤ 2000000 }
        requires ones { ones ≤ 2000000 }
        requires bonus { bonus ≤ 65535 }
        ensures { result ≡
            (self.now.old + (least self.now.letters ((self.now.letter - 1) * ones) + least ones self.now.free) + self.now.letter * points)
            * self.now.word
            + (self.now.side + least self.now.crosses (self.now.cross * ones) + self.now.cross * points)
            + (if nat_le 7 self.now.free then bonus else 0) }
    {
        let more = lesser(self.letters, self.letter.saturating_sub(1) * ones);
        let letters = self.old + (more + lesser(ones, self.free)) + self.letter * points;
        let crosses = self.side + lesser(self.crosses, self.cross * ones) + self.cross * points;
        let on_top = if self.free >= 7 { bonus } else { 0 };
        letters * self.word + crosses + on_top
    }
}

/// An upper bound for the plays whose stretch begins at a place: the bound of the longest stretch with seven free places and no
/// place on which no tile can be laid.
pub fn longest(
    places: &[Place; SIDE],
    opens: &[bool; SIDE],
    first: usize,
    points: u64,
    ones: u64,
    bonus: u64,
) -> u64
    requires first { first < SIDE }
    requires small { (i : ℕ) → i < SIDE → IsSmall (place_in places.now i) }
    requires points { points ≤ 2000000 }
    requires ones { ones ≤ 2000000 }
    requires bonus { bonus ≤ 65535 }
    ensures { IsBoundFrom bonus points ones (place_in places.now) (open_in opens.now) first result }
{
    let mut sum = Sum::none();
    for place in first..SIDE {
        if sum.free == 7 && places[place].free {
            return sum.bound(points, ones, bonus);
        }
        if !opens[place] {
            return sum.bound(points, ones, bonus);
        }
        sum = sum.with(&places[place]);
    }
    sum.bound(points, ones, bonus)
}
