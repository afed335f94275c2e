//! The rows of a score sheet.
ghost use Rattle.std.specs.Prelude.{◌≡◌, ◌<◌, ◌+ℤ◌, ℕ, List, Some, length, slice_get, IfOk, OnOk};
ghost use Rattle.std.specs.Option.{option_copied};
ghost use Rattle.ref_tiles.specs.declared.rulebook.Rules.{Rules};
ghost use Rattle.gcg_read.specs.Numerals.{IsPoints};
ghost use Rattle.gcg_read.specs.declared.events.Event.{Event};
ghost use Rattle.lex_check.specs.Pairs.{list_in};
ghost use Rattle.game_turns.specs.Tallies.{tally_at};
ghost use Rattle.game_known.specs.Besides.{IsBeside};
ghost use Rattle.game_known.specs.Known.{AreKnown};
ghost use Rattle.game_walk.specs.Walks.{IsWalk};
ghost use Rattle.sheet_scores.specs.Unders.{known_under};
ghost use Rattle.sheet_scores.specs.Rows.{should_be, known_if, total_should_be, numbers_after, HasNumbersAt, IsBeforeAt, IsBestAt, IsNotedAt, IsSheetRowAt, AreSheetRows};

use crate::boards::is_taken_back;
use crate::gains::given_by;
use crate::unders::cells_under;
use game_bests::TurnBest;
use game_corrections::{due, had_before, is_right_sum};
use game_known::{Beside, KnownBests};
use game_turns::{Machine, SpelledWord, unlisted_of};
use game_walk::{Numbers, Row, Stop, Walk};
use gcg_read::{Event, Points};
use lex_check::Checked;
use lex_list::WordList;
use ref_tiles::{Rules, Tile};
use std::alloc::{AllocError, Global};

/// How many best plays are kept while the rows of a sheet are made.
const KEPT_BESTS: usize = 64;

/// What a score sheet says of an event besides its line.
#[derive(Drop)]
pub struct SheetRow {
    /// What the score should be, if it is wrong.
    pub score: Option<Points>,
    /// What the total should be, if it is wrong: neither the player's last total and the score, as they are written, nor the right one.
    pub total: Option<i32>,
    /// What is said of the best play, if the rules allow the events before it with their right numbers.
    pub best: Option<TurnBest>,
    /// What is on the squares of the best play before the event, if there is one.
    pub under: Vec<Option<Tile>>,
    /// Whether the rules allow the event and those before it with their right numbers.
    pub allowed: bool,
    /// The words of a play that stands which are not in the list, if the event is allowed.
    pub unlisted: Vec<SpelledWord>,
    /// Whether the next event takes it back.
    pub taken_back: bool,
}

/// What a number should be, if it is wrong.
fn should_be(written: Points, right: Points) -> Option<Points>
    ensures { result ≡ should_be written right }
{
    if written.value() == right.value() {
        None
    } else {
        Some(right)
    }
}

/// The right total of an event, if it and those before it are allowed.
fn known_if(allowed: bool, right: Points) -> Option<i32>
    ensures { result ≡ known_if allowed right }
{
    if allowed { Some(right.value()) } else { None }
}

/// The sum of what a player had and a score.
fn sum_of(had: i32, score: Points) -> i32
    requires { IsPoints had }
    ensures { result ≡ had +ℤ score }
{
    had + score.value()
}

/// What the total of an event should be, if it is wrong.
fn total_should_be(had: i32, event: &Event, right: Option<i32>) -> Option<i32>
    requires { IsPoints had }
    ensures { result ≡ total_should_be had event.now right }
{
    if is_right_sum(event.total, had, event.score, right) {
        None
    } else {
        Some(due(sum_of(had, event.score), right))
    }
}

/// The row of a walk at a place.
#[tactic(auto, using(crate::proofs::WalkRows::copied_row))]
fn row_there(walk: &Walk, place: usize) -> Option<&Row>
    ensures { option_copied result ≡ slice_get walk.now.rows.items place }
{
    walk.rows.as_slice().get(place)
}

/// The numbers of an event for which a walk has no row: those with which it is refused, if the walk stops at it, and otherwise its
/// own.
fn numbers_after(stopped: &Option<Stop>, is_next: bool, event: &Event) -> Numbers
    ensures { result ≡ numbers_after stopped.now is_next event.now }
{
    match (stopped, is_next) {
        (Some(stop), true) => stop.numbers,
        _ => Numbers {
            score: event.score,
            total: event.total,
        },
    }
}

/// The score and the total that the event at a place should have; its own if the rules do not say.
fn right_numbers(walk: &Walk, place: usize, event: &Event) -> Numbers
    ensures { (rules : Rules) (list : List (List ℕ)) (written right : List Event) → IsWalk rules list written right walk.now
        → slice_get written place ≡ Some event.now → HasNumbersAt right place result }
{
    match row_there(walk, place) {
        Some(row) => row.right,
        None => {
            let rows = walk.rows.as_slice();
            numbers_after(&walk.stopped, place == rows.len(), event)
        }
    }
}

/// The game before the event at a place, if the rules allow those before it with their right numbers.
fn game_before(walk: &Walk, place: usize) -> Option<&Machine>
    ensures { (rules : Rules) (list : List (List ℕ)) (written right : List Event) → IsWalk rules list written right walk.now
        → place < length written → IsBeforeAt rules list right place result }
{
    if place == 0 {
        return Some(&walk.start);
    }
    match row_there(walk, place - 1) {
        Some(row) => Some(&row.following),
        None => None,
    }
}

/// What is said of the best play of an event.
#[derive(Drop)]
struct BestThere {
    best: Option<TurnBest>,
    /// What is on the squares of the best play before the event, if there is one.
    under: Vec<Option<Tile>>,
}

/// What is said of the best play of the event at a place, which gave `gave` points.
fn best_at(
    alloc: Global,
    rules: &Rules,
    pair: &Checked<'_>,
    events: &[Event],
    walk: &Walk,
    beside: &mut Beside,
    known: &mut KnownBests,
    place: usize,
    event: &Event,
    gave: i32,
) -> Result<BestThere, AllocError>
    requires place { place < length events.now }
    requires beside { IsBeside rules.now (list_in pair.now) beside.old }
    requires known { AreKnown rules.now (list_in pair.now) known.old }
    ensures beside { OnOk result (IsBeside rules.now (list_in pair.now) beside.new) }
    ensures known { OnOk result (AreKnown rules.now (list_in pair.now) known.new) }
    ensures best { IfOk result (λ there. (written right : List Event) → IsWalk rules.now (list_in pair.now) written right walk.now → place < length written
        → IsBestAt rules.now (list_in pair.now) right place event.now gave there.best
        × (there.under.items ≡ known_under (tally_at rules.now right place).board there.best)) }
{
    match game_before(walk, place) {
        Some(machine) => {
            let best = beside.best_at(rules, pair, machine, events, place, event, gave, known);
            let under = cells_under(alloc, machine.board(), &best)?;
            Ok(BestThere {
                best: Some(best),
                under,
            })
        }
        None => Ok(BestThere {
            best: None,
            under: Vec::new(alloc),
        }),
    }
}

/// What is noted after an event.
#[derive(Drop)]
struct Noted {
    /// Whether it and those before it are allowed.
    allowed: bool,
    /// The words of a play that stands which are not in the list.
    unlisted: Vec<SpelledWord>,
}

/// What is noted after the event at a place.
fn noted_at(alloc: Global, list: &WordList, walk: &Walk, place: usize) -> Result<Noted, AllocError>
    ensures { IfOk result (λ noted. (rules : Rules) (written right : List Event) → IsWalk rules list.now written right walk.now
        → place < length written → IsNotedAt rules list.now right place noted.allowed noted.unlisted.items) }
{
    let Some(row) = row_there(walk, place) else {
        return Ok(Noted {
            allowed: false,
            unlisted: Vec::new(alloc),
        });
    };
    let unlisted = unlisted_of(alloc, list, row.following.standing_words())?;
    Ok(Noted {
        allowed: true,
        unlisted,
    })
}

/// The row of the event at a place.
fn row_at(
    alloc: Global,
    rules: &Rules,
    pair: &Checked<'_>,
    events: &[Event],
    walk: &Walk,
    beside: &mut Beside,
    known: &mut KnownBests,
    place: usize,
) -> Result<SheetRow, AllocError>
    requires place { place < length events.now }
    requires beside { IsBeside rules.now (list_in pair.now) beside.old }
    requires known { AreKnown rules.now (list_in pair.now) known.old }
    ensures beside { OnOk result (IsBeside rules.now (list_in pair.now) beside.new) }
    ensures known { OnOk result (AreKnown rules.now (list_in pair.now) known.new) }
    ensures row { IfOk result (λ row. (right : List Event) → IsWalk rules.now (list_in pair.now) events.now right walk.now
        → IsSheetRowAt rules.now (list_in pair.now) events.now right place row) }
{
    let event = &events[place];
    let right = right_numbers(walk, place, event);
    let taken_back = is_taken_back(events, place);
    let gave = given_by(taken_back, right.score);
    let there = best_at(
        alloc, rules, pair, events, walk, beside, known, place, event, gave,
    )?;
    let noted = noted_at(alloc, pair.list(), walk, place)?;
    let had = had_before(events, event.player, place);
    let due = known_if(noted.allowed, right.total);
    Ok(SheetRow {
        score: should_be(event.score, right.score),
        total: total_should_be(had, event, due),
        best: there.best,
        under: there.under,
        allowed: noted.allowed,
        unlisted: noted.unlisted,
        taken_back,
    })
}

/// The rows of a score sheet, one for each event in order, by a walk over the events.
///
/// It fails only if memory runs out.
pub fn rows_of(
    alloc: Global,
    rules: &Rules,
    pair: &Checked<'_>,
    events: &[Event],
    walk: &Walk,
) -> Result<Vec<SheetRow>, AllocError>
    ensures { IfOk result (λ rows. (right : List Event) → IsWalk rules.now (list_in pair.now) events.now right walk.now
        → AreSheetRows rules.now (list_in pair.now) events.now right (length events.now) rows.items) }
{
    let mut beside = Beside::new(rules, pair);
    let mut known = KnownBests::new(alloc, KEPT_BESTS)?;
    let mut rows = Vec::new(alloc);
    for place in 0..events.len() {
        let row = row_at(
            alloc,
            rules,
            pair,
            events,
            walk,
            &mut beside,
            &mut known,
            place,
        )?;
        rows.push(row)?;
    }
    Ok(rows)
}
