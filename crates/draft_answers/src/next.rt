//! What the line after the last one of a draft is about.
ghost use Rattle.std.specs.Prelude.{◌≡◌, ◌≤◌, ◌<◌, IfOk, List, ℕ, Ok, length, slice_get};
ghost use Rattle.ref_tiles.specs.declared.rulebook.Rules.{Rules as Rulebook};
ghost use Rattle.gcg_read.specs.declared.events.Event.{Event as Happened};
ghost use Rattle.lex_check.specs.Pairs.{list_in};
ghost use Rattle.game_turns.specs.Machines.{state_of};
ghost use Rattle.game_turns.specs.Seats.{side_of};
ghost use Rattle.game_turns.specs.Tallies.{tally_at};
ghost use Rattle.game_walk.specs.Walks.{IsWalk};
ghost use Rattle.gcg_read.specs.Records.{record_of};
ghost use Rattle.gcg_drafts.specs.Texts.{completed_text};
ghost use Rattle.draft_answers.specs.Nexts.{turn_of, IsNextSide, IsNextOf, IsNext, IsNextOfDraft};

use crate::faults::{DraftFault, reported_fault};
use game_turns::{Machine, is_turn, withdraws};
use game_walk::{Refusal, Walk, walk_and_correct};
use gcg_drafts::read_draft;
use gcg_read::{Event, Record, Seat, Why};
use lex_check::Checked;
use ref_tiles::Rules;
use std::alloc::{AllocError, Global};

/// What a player has before the next line.
#[derive(Clone, Copy)]
pub struct NextSide {
    /// The total so far.
    pub total: i32,
    /// The number of tiles on the rack.
    pub rack: usize,
}

/// What the next line is about.
#[derive(Clone, Copy)]
pub struct NextLine {
    /// Whose turn it is; none before the first turn, which may be either player's.
    pub turn: Option<Seat>,
    /// The player who is out, if one is.
    pub out: Option<Seat>,
    /// Whether the game is complete.
    pub complete: bool,
    /// The number of tiles in the bag.
    pub bag: usize,
    /// What the first player has.
    pub first: NextSide,
    /// What the other player has.
    pub second: NextSide,
}

/// What the next line of a draft is about.
#[derive(Drop)]
pub struct DraftNext {
    /// The record of the draft with its right numbers, as far as there are any.
    pub record: Record,
    /// The line that the rules refuse with any numbers, if there is one, and why. Then the next line is this one.
    pub stopped: Option<Refusal>,
    /// What is known before the next line.
    pub next: NextLine,
}

/// What a player has in a game.
fn side_in(machine: &Machine, player: Seat) -> NextSide
    ensures { IsNextSide (side_of (state_of machine.now).sides player) result }
{
    NextSide {
        total: machine.total(player),
        rack: machine.rack_size(player),
    }
}

/// Who is out at a place.
fn out_at(walk: &Walk, place: usize) -> Option<Seat>
    requires { place ≤ length walk.now.rows.items }
    ensures { (rules : Rulebook) (list : List (List ℕ)) (written right : List Happened) → IsWalk rules list written right walk.now → result ≡ (tally_at rules right place).out }
{
    match walk.before(place) {
        Some(machine) => machine.out(),
        None => None,
    }
}

/// Whether the event at a place is a turn.
fn is_turn_at(events: &[Event], walk: &Walk, place: usize) -> bool
    requires within { place < length events.now }
    requires walked { place ≤ length walk.now.rows.items }
    ensures { (rules : Rulebook) (list : List (List ℕ)) (written : List Happened) → IsWalk rules list written events.now walk.now
        → result ≡ turn_of rules events.now place (slice_get events.now place) }
{
    let out = out_at(walk, place);
    is_turn(&events[place].kind, out, withdraws(events.get(place + 1)))
}

/// Whose turn it is at a place, by the events before it: the opponent of the player of the latest turn, if there is one.
fn turn_at(events: &[Event], walk: &Walk, place: usize) -> Option<Seat>
    requires within { place ≤ length events.now }
    requires walked { place ≤ length walk.now.rows.items }
    ensures { (rules : Rulebook) (list : List (List ℕ)) (written : List Happened) → IsWalk rules list written events.now walk.now → result ≡ (tally_at rules events.now place).mover }
{
    let mut end = place;
    while end > 0 {
        if is_turn_at(events, walk, end - 1) {
            return Some(events[end - 1].player.other());
        }
        end -= 1;
    }
    None
}

/// The game after the last event that the rules allow with right numbers.
fn end_of(walk: &Walk) -> &Machine
    ensures { (rules : Rulebook) (list : List (List ℕ)) (written right : List Happened) → IsWalk rules list written right walk.now
        → state_of result.now ≡ tally_at rules right (length walk.now.rows.items) }
{
    let rows = walk.rows.as_slice();
    let many = rows.len();
    if many == 0 {
        return &walk.start;
    }
    &rows[many - 1].following
}

/// What is known after the last event that the rules allow with right numbers.
fn next_of(events: &[Event], walk: &Walk) -> NextLine
    requires within { length walk.now.rows.items ≤ length events.now }
    ensures { (rules : Rulebook) (list : List (List ℕ)) (written : List Happened) → IsWalk rules list written events.now walk.now
        → IsNextOf (tally_at rules events.now (length walk.now.rows.items)) result }
{
    let machine = end_of(walk);
    let rows = walk.rows.as_slice();
    NextLine {
        turn: turn_at(events, walk, rows.len()),
        out: machine.out(),
        complete: machine.finished(),
        bag: machine.bag_size(),
        first: side_in(machine, Seat::First),
        second: side_in(machine, Seat::Second),
    }
}

/// What the next line of a record is about.
fn next_in(
    alloc: Global,
    rules: &Rules,
    pair: &Checked<'_>,
    game: Record,
) -> Result<DraftNext, AllocError>
    ensures { IfOk result (λ d. (text : List ℕ) → record_of (completed_text text) ≡ Ok game → IsNext rules.now (list_in pair.now) text d) }
{
    let mut right = game;
    let walk = walk_and_correct(alloc, rules, pair.list(), &mut right.events)?;
    let next = next_of(right.events.as_slice(), &walk);
    Ok(DraftNext {
        record: right,
        stopped: walk.refused_for_good(),
        next,
    })
}

/// Reads a draft, corrects its events, and says what the line after the last one is about; or, if the rules refuse a line with any numbers, that line.
/// Or the first fault of the draft.
///
/// It fails only if memory runs out.
#[tactic(auto, using(crate::proofs::Sheets::no_draft))]
pub fn next_line(
    alloc: Global,
    rules: &Rules,
    pair: &Checked<'_>,
    text: &[u8],
) -> Result<Result<DraftNext, DraftFault>, AllocError>
    ensures { IfOk result (IsNextOfDraft rules.now (list_in pair.now) text.now) }
{
    match read_draft(alloc, text) {
        Ok(draft) => Ok(Ok(next_in(alloc, rules, pair, draft.record)?)),
        Err(fault) => {
            if fault.why == Why::NoMemory {
                return Err(AllocError);
            }
            Ok(Err(reported_fault(text, fault)))
        }
    }
}
