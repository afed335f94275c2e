//! What the players had before a line, and how many numbers of the line are wrong by that.
ghost use Rattle.std.specs.Prelude.{◌≡◌, ◌≤◌, ◌<◌, ◌+◌, pos, Some, length, slice_get};
ghost use Rattle.std.specs.Option.{unwrap_or};
ghost use Rattle.gcg_read.specs.Numerals.{IsPoints};
ghost use Rattle.gcg_read.specs.declared.events.Event.{Event};
ghost use Rattle.game_walk.specs.Numbers.{numbers_in};
ghost use Rattle.game_corrections.specs.LastTotals.{last_total};
ghost use Rattle.repair_single.specs.Sums.{next_had, had_of, count_scores, count_sums, known_sums, count_numbers};

use game_corrections::{is_right_sum, last_total};
use game_walk::{Numbers, numbers_in};
use gcg_read::{Event, Events, Points, Seat, same_seat};

/// A line of a sheet: whose it is, and its numbers.
#[derive(Drop)]
pub(crate) struct Line {
    /// The player.
    pub(crate) player: Seat,
    /// The score and the total.
    pub(crate) numbers: Numbers,
}

/// The line of the event at a place.
pub(crate) fn line_at(events: &Events, place: usize) -> Line
    requires { place < length events.now }
    ensures player { (e : Event) → slice_get events.now place ≡ Some e → result.player ≡ e.player }
    ensures numbers { (e : Event) → slice_get events.now place ≡ Some e → result.numbers ≡ numbers_in e }
{
    let event = &events.as_slice()[place];
    Line {
        player: event.player,
        numbers: numbers_in(event),
    }
}

/// 1 if a score is wrong, 0 if it is right.
fn count_scores(written: &Numbers, right: &Numbers) -> usize
    ensures number { result ≡ count_scores written.now.score right.now.score }
    ensures few { result ≤ 1 }
{
    if written.score.value() == right.score.value() {
        0
    } else {
        1
    }
}

/// 1 if a total is wrong, by what its player had, 0 if it is right.
fn count_sums(had: i32, written: &Numbers, right: &Numbers) -> usize
    requires { IsPoints had }
    ensures number { result ≡ count_sums had written.now right.now }
    ensures few { result ≤ 1 }
{
    let due = Some(right.total.value());
    if is_right_sum(written.total, had, written.score, due) {
        0
    } else {
        1
    }
}

/// How many numbers of a line are wrong, by what its player had.
pub(crate) fn wrong_numbers(had: i32, written: &Numbers, right: &Numbers) -> usize
    requires { IsPoints had }
    ensures { result ≡ count_scores written.now.score right.now.score + count_sums had written.now right.now }
{
    count_scores(written, right) + count_sums(had, written, right)
}

/// The same if it is not known what the player had: 0, since the total may be right.
fn known_sums(had: Option<Points>, written: &Numbers, right: &Numbers) -> usize
    ensures number { result ≡ known_sums had written.now right.now }
    ensures few { result ≤ 1 }
{
    match had {
        Some(had) => count_sums(had.value(), written, right),
        None => 0,
    }
}

/// How many numbers of a line are wrong, as far as that is known. Those of the missing line count as right.
fn count_numbers(is_missing: bool, had: Option<Points>, written: &Numbers, right: &Numbers) -> usize
    ensures { result ≡ count_numbers is_missing had written.now right.now }
{
    if is_missing {
        return 0;
    }
    count_scores(written, right) + known_sums(had, written, right)
}

/// What a player has after a line. After the missing one that is not known.
fn next_had(
    had: Option<Points>,
    owner: Seat,
    total: Points,
    player: Seat,
    is_missing: bool,
) -> Option<Points>
    ensures { result ≡ next_had had owner total player is_missing }
{
    if !same_seat(owner, player) {
        return had;
    }
    if is_missing {
        return None;
    }
    Some(total)
}

/// What a player has after some events: the last total, or 0.
fn had_after(events: &[Event], player: Seat) -> Points
    ensures { result ≡ unwrap_or (last_total player events.now) (pos 0) }
{
    match last_total(events, player) {
        Some(total) => total,
        None => Points::new(0).unwrap(),
    }
}

/// What the players had before a line.
#[derive(Drop)]
pub(crate) struct Had {
    /// What the first player had; none if that is not known.
    pub(crate) first: Option<Points>,
    /// What the second player had; none if that is not known.
    pub(crate) second: Option<Points>,
}

impl Had {
    ghost use Rattle.std.specs.Prelude.{Some, pos};
    ghost use Rattle.gcg_read.specs.declared.events.Seat.TheVariants.{First, Second};

    /// After these events.
    pub(crate) fn after(events: &[Event]) -> Had
        ensures first { result.first ≡ Some (unwrap_or (last_total First events.now) (pos 0)) }
        ensures second { result.second ≡ Some (unwrap_or (last_total Second events.now) (pos 0)) }
    {
        Had {
            first: Some(had_after(events, Seat::First)),
            second: Some(had_after(events, Seat::Second)),
        }
    }

    /// What a player had.
    fn of(&self, player: Seat) -> Option<Points>
        ensures { result ≡ had_of self.now.first self.now.second player }
    {
        match player {
            Seat::First => self.first,
            Seat::Second => self.second,
        }
    }

    /// Notes one more line, and returns how many of its numbers are wrong, as far as that is known.
    pub(crate) fn note(&mut self, line: &Line, right: &Line, is_missing: bool) -> usize
        ensures first { self.new.first ≡ next_had self.old.first line.now.player line.now.numbers.total First is_missing }
        ensures second { self.new.second ≡ next_had self.old.second line.now.player line.now.numbers.total Second is_missing }
        ensures many { result ≡ count_numbers is_missing (had_of self.old.first self.old.second line.now.player) line.now.numbers right.now.numbers }
    {
        let many = count_numbers(
            is_missing,
            self.of(line.player),
            &line.numbers,
            &right.numbers,
        );
        let total = line.numbers.total;
        self.first = next_had(self.first, line.player, total, Seat::First, is_missing);
        self.second = next_had(self.second, line.player, total, Seat::Second, is_missing);
        many
    }
}
