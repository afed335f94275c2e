//! Where a play comes among those that are kept.
ghost use Rattle.std.specs.Prelude.{◌≡◌, ◌<◌, ◌≤◌, ◌<ℤ◌, ℕ, ℤ, false, IsTrue, length, map, take, insert, slice_index_or};
ghost use Rattle.ref_play.specs.declared.plays.Play.{Play};
ghost use Rattle.ref_play.specs.Legality.{IsLegal};
ghost use Rattle.gen_sinks.specs.Sinks.{seen, seen_pair};
ghost use Rattle.gen_sinks.specs.Ranks.{ranks_before, put_in, in_turn};
ghost use Rattle.gen_sinks.specs.Skips.{AllAbove, IsBeforeDown, AllBeforeDown};
ghost use Rattle.gen_sinks.specs.Legals.{are_legal};

use arrayvec::ArrayVec;
use ref_board::{Board, Dir};
use ref_play::{Play, before, notation};

/// Whether a play ranks before another: it scores more, or scores as much and its notation comes first.
fn ranks_before(board: &Board, play: &Play, score: i32, other: &(Play, i32)) -> bool
    requires legal { IsLegal board.now play.now.tiles.items }
    requires other { IsLegal board.now other.now.0.tiles.items }
    ensures { result ≡ ranks_before board.now (seen play.now score) (seen_pair other.now) }
{
    let (second, points) = other;
    score > *points || (score == *points && before(board, play, second))
}

/// Whether a play ranks before none of those that are kept, best first, so that it comes after them: it does not rank before the last one.
fn comes_last(board: &Board, kept: &[(Play, i32)], play: &Play, score: i32) -> bool
    requires legal { IsLegal board.now play.now.tiles.items }
    requires kept { IsTrue (are_legal board.now kept.now) }
    requires turn { IsTrue (in_turn (ranks_before board.now) (map seen_pair kept.now)) }
    ensures { IsTrue result → (place : ℕ) (d : Play × ℤ) → place < length kept.now
        → ranks_before board.now (seen play.now score) (seen_pair (slice_index_or kept.now place d)) ≡ false }
{
    board.law_of_squares();
    let many = kept.len();
    if many == 0 {
        return true;
    }
    !ranks_before(board, play, score, &kept[many - 1])
}

/// The place of a play among those that are kept, best first: that of the first one before which it ranks, otherwise after them all.
pub fn place_of(board: &Board, kept: &[(Play, i32)], play: &Play, score: i32) -> usize
    requires legal { IsLegal board.now play.now.tiles.items }
    requires kept { IsTrue (are_legal board.now kept.now) }
    requires turn { IsTrue (in_turn (ranks_before board.now) (map seen_pair kept.now)) }
    ensures inside { result ≤ length kept.now }
    ensures place { put_in (ranks_before board.now) (seen play.now score) (map seen_pair kept.now)
        ≡ insert (map seen_pair kept.now) result (seen play.now score) }
{
    board.law_of_squares();
    if comes_last(board, kept, play, score) {
        return kept.len();
    }
    for place in 0..kept.len() {
        if ranks_before(board, play, score, &kept[place]) {
            return place;
        }
    }
    kept.len()
}

/// Whether a play scores more than a bound.
fn is_above(scored: &(Play, i32), bound: i32) -> bool
    ensures { IsTrue result → bound <ℤ scored.now.1 }
{
    let (_, score) = scored;
    *score > bound
}

/// Whether each of some plays scores more than a bound.
pub fn all_above(kept: &[(Play, i32)], bound: i32) -> bool
    ensures { IsTrue result → AllAbove bound kept.now }
{
    for place in 0..kept.len() {
        if !is_above(&kept[place], bound) {
            return false;
        }
    }
    true
}

/// Whether a play scores more than a bound, or scores as much and is written across.
fn is_before_down(board: &Board, scored: &(Play, i32), bound: i32) -> bool
    requires legal { IsLegal board.now scored.now.0.tiles.items }
    ensures { IsTrue result → IsBeforeDown board.now bound scored.now }
{
    let (play, score) = scored;
    if *score > bound {
        return true;
    }
    *score == bound && matches!(notation(board, play).dir, Dir::Across)
}

/// Whether each of some plays does.
pub fn all_before_down(board: &Board, kept: &[(Play, i32)], bound: i32) -> bool
    requires kept { IsTrue (are_legal board.now kept.now) }
    ensures { IsTrue result → AllBeforeDown board.now bound kept.now }
{
    board.law_of_squares();
    for place in 0..kept.len() {
        if !is_before_down(board, &kept[place], bound) {
            return false;
        }
    }
    true
}

/// Puts a play in its place, if that is among the first N. The last one leaves if there is no room for it.
pub fn put_at<const N: usize>(
    kept: &mut ArrayVec<(Play, i32), N>,
    place: usize,
    scored: (Play, i32),
)
    requires { place ≤ length kept.old.items }
    ensures { kept.new.items ≡ take N (insert kept.old.items place scored) }
{
    if !kept.is_full() {
        kept.insert(place, scored);
        return;
    }
    if place < N {
        kept.pop();
        kept.insert(place, scored);
    }
}
