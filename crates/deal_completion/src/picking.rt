//! Tiles that are taken from others: those of a list first, and then tiles that are not reserved.
ghost use Rattle.std.specs.Prelude.{◌≡◌, ℕ, ◌+◌, ◌-◌, ◌<◌, ◌≤◌, nat_lt, sum, find, slice_index, slice_set, IfSome};
ghost use Rattle.deal_steps.specs.Piles.{kinds};
ghost use Rattle.deal_completion.specs.Completion.{with_one, with_next, pick_listed, pick};
ghost use Rattle.deal_completion.specs.Taking.{HasRoomIn, next_spare, pick_spare, times_of};

use ref_tiles::{Counts, KINDS};

/// Tiles that are taken from others.
#[derive(Clone, Copy)]
pub struct Pick {
    /// Those that were taken.
    pub taken: Counts,
    /// Those that are left.
    pub remaining: Counts,
}

/// How often each kind is in a list.
#[tactic(auto, using(crate::proofs::PickLoops::times_more, crate::proofs::PickLoops::times_are))]
fn times_of(list: &[u8]) -> [usize; KINDS]
    ensures { result ≡ times_of list.now }
{
    let mut times = [0; KINDS];
    for kind in list {
        let kind = usize::from(*kind);
        if kind < KINDS {
            times[kind] += 1;
        }
    }
    times
}

/// One more tile of a kind.
#[tactic(auto, using(crate::proofs::PickLoops::sum_more))]
fn one_more(tiles: &Counts, kind: usize) -> Counts
    requires kind { kind < 27 }
    requires room { slice_index tiles.now kind < 255 }
    ensures more { result ≡ slice_set tiles.now kind (slice_index tiles.now kind + 1) }
    ensures total { sum result ≡ sum tiles.now + 1 }
{
    let mut numbers = tiles.numbers();
    numbers[kind] += 1;
    Counts::of(numbers)
}

/// One fewer tile of a kind.
fn one_less(tiles: &Counts, kind: usize) -> Counts
    requires kind { kind < 27 }
    requires there { 0 < slice_index tiles.now kind }
    ensures { result ≡ slice_set tiles.now kind (slice_index tiles.now kind - 1) }
{
    let mut numbers = tiles.numbers();
    numbers[kind] -= 1;
    Counts::of(numbers)
}

/// The first kind of which more are left than are reserved.
#[tactic(auto, using(crate::proofs::PickLoops::find_past, crate::proofs::PickLoops::find_here, crate::proofs::PickLoops::find_end), unfolding(deal_steps::specs::Piles::kinds))]
fn first_spare(times: &[usize; KINDS], remaining: &Counts) -> Option<usize>
    ensures first { result ≡ find (λ k. nat_lt (slice_index times.now k) (slice_index remaining.now k)) kinds }
    ensures below { IfSome result (λ k. k < 27) }
    ensures there { IfSome result (λ k. 0 < slice_index remaining.now k) }
{
    let numbers = remaining.numbers();
    for kind in 0..KINDS {
        if times[kind] < usize::from(numbers[kind]) {
            return Some(kind);
        }
    }
    None
}

/// The first kind that is left.
#[tactic(auto, using(crate::proofs::PickLoops::find_past, crate::proofs::PickLoops::find_here, crate::proofs::PickLoops::find_end), unfolding(deal_steps::specs::Piles::kinds))]
fn first_remaining(remaining: &Counts) -> Option<usize>
    ensures first { result ≡ find (λ k. nat_lt 0 (slice_index remaining.now k)) kinds }
    ensures below { IfSome result (λ k. k < 27) }
    ensures there { IfSome result (λ k. 0 < slice_index remaining.now k) }
{
    let numbers = remaining.numbers();
    for kind in 0..KINDS {
        if 0 < numbers[kind] {
            return Some(kind);
        }
    }
    None
}

/// The first kind of which more are left than are reserved, otherwise the first kind that is left.
fn next_spare(times: &[usize; KINDS], remaining: &Counts) -> Option<usize>
    ensures next { result ≡ next_spare times.now remaining.now }
    ensures below { IfSome result (λ k. k < 27) }
    ensures there { IfSome result (λ k. 0 < slice_index remaining.now k) }
{
    match first_spare(times, remaining) {
        Some(kind) => Some(kind),
        None => first_remaining(remaining),
    }
}

impl Pick {
    /// Takes one more tile of a kind.
    #[tactic(auto, using(crate::proofs::PickLoops::one_room), unfolding(crate::specs::Completion::with_one))]
    fn take_one(&mut self, kind: usize)
        requires kind { kind < 27 }
        requires there { 0 < slice_index self.old.remaining kind }
        requires room { HasRoomIn self.old }
        ensures taken { self.new ≡ with_one self.old kind }
        ensures total { sum self.new.taken ≡ sum self.old.taken + 1 }
        ensures room { HasRoomIn self.new }
    {
        self.taken = one_more(&self.taken, kind);
        self.remaining = one_less(&self.remaining, kind);
    }

    /// Takes the tiles of a list in order, each if it is there, up to a number of tiles.
    fn take_listed(&mut self, list: &[u8], number: usize)
        requires room { HasRoomIn self.old }
        ensures taken { self.new ≡ pick_listed list.now number self.old }
        ensures room { HasRoomIn self.new }
    {
        let mut more = number.saturating_sub(self.taken.total());
        for kind in list {
            if more == 0 {
                return;
            }
            let remaining = self.remaining.numbers();
            let kind = usize::from(*kind);
            if kind < KINDS && 0 < remaining[kind] {
                self.take_one(kind);
                more -= 1;
            }
        }
    }

    /// Takes one more tile that is not reserved, as long as there are any.
    fn take_next(&mut self, times: &[usize; KINDS])
        requires room { HasRoomIn self.old }
        ensures taken { self.new ≡ with_next self.old (next_spare times.now self.old.remaining) }
        ensures room { HasRoomIn self.new }
    {
        if let Some(kind) = next_spare(times, &self.remaining) {
            self.take_one(kind);
        }
    }

    /// Takes a number of further tiles.
    fn take_more(&mut self, times: &[usize; KINDS], more: usize)
        requires room { HasRoomIn self.old }
        ensures taken { self.new ≡ pick_spare times.now more self.old }
        ensures room { HasRoomIn self.new }
    {
        for _ in 0..more {
            self.take_next(times);
        }
    }
}

/// Takes a number of tiles from others: those of a list first, and then tiles that are not reserved.
#[tactic(auto, unfolding(crate::specs::Completion::pick))]
pub fn pick_tiles(list: &[u8], reserved: &[u8], number: usize, tiles: &Counts) -> Pick
    ensures { result ≡ pick list.now reserved.now number tiles.now }
{
    tiles.law_of_numbers();
    let mut pick = Pick {
        taken: Counts::new(),
        remaining: *tiles,
    };
    pick.take_listed(list, number);
    let more = number.saturating_sub(pick.taken.total());
    pick.take_more(&times_of(reserved), more);
    pick
}
