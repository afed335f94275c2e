//! What a step does with the tiles of a rack, by number.
ghost use Rattle.std.specs.Prelude.{◌≡◌, ◌<◌, ◌↔◌, IsTrue};
ghost use Rattle.gcg_read.specs.declared.events.Seat.TheVariants.{First, Second};
ghost use Rattle.deal_cuts.specs.Flowing.{AreSmall, IsSmall, flow_of, others_of, strays_of, gained_by, lost_by, BoardFollows};

use crate::reported::{coming, known_at, leaving, throws, unknown_at};
use crate::splits::{split_by, where_out, where_so};
use deal_steps::Step;
use gcg_read::Seat;
use ref_tiles::KINDS;

/// What passes through a rack from before a step to before the next, by numbers of tiles.
#[derive(Clone, Copy)]
pub struct Flow {
    /// The number of tiles on the rack.
    pub size: usize,
    /// The number of them that are known to be of the chosen kinds,
    pub known_in: usize,
    /// and the number known to be of others.
    pub known_beside: usize,
    /// The number of tiles of the chosen kinds that are known to leave it,
    pub remaining_in: usize,
    /// and the number of others.
    pub remaining_beside: usize,
    /// Whether these go to the bag and not to the board.
    pub to_bag: bool,
    /// The number of unknown tiles that are thrown to the bag.
    pub unknown: usize,
    /// The number of tiles of the chosen kinds that come back from the board.
    pub back_in: usize,
    /// The number of tiles that are drawn from the bag.
    pub drawn: usize,
}

/// No number of a step that is added up is greater.
const LIMIT: usize = 65536;

/// Whether the numbers of a step are small enough to be added up.
pub fn is_small(step: &Step) -> bool
    ensures { IsTrue result ↔ AreSmall step.now }
{
    step.first < LIMIT
        && step.second < LIMIT
        && step.bag < LIMIT
        && unknown_at(Seat::First, step) < LIMIT
        && unknown_at(Seat::Second, step) < LIMIT
}

/// What passes through a rack.
#[tactic(auto, unfolding(crate::specs::Flowing::flow_of))]
pub fn flow_of(chosen: &[bool; KINDS], seat: Seat, step: &Step, next: &Step) -> Flow
    requires step { AreSmall step.now }
    requires next { AreSmall next.now }
    ensures is { result ≡ flow_of chosen.now seat step.now next.now }
    ensures small { IsSmall result }
{
    let known = split_by(chosen, &known_at(seat, step));
    let remaining = split_by(chosen, &leaving(seat, step));
    let back = split_by(chosen, &coming(seat, step));
    let unknown = unknown_at(seat, step);
    let size = step.size_of(seat);
    let after = next.size_of(seat) + remaining.within + remaining.beside + unknown;
    let before = size + back.within + back.beside;
    Flow {
        size,
        known_in: known.within,
        known_beside: known.beside,
        remaining_in: remaining.within,
        remaining_beside: remaining.beside,
        to_bag: throws(&step.act),
        unknown,
        back_in: back.within,
        drawn: after.saturating_sub(before),
    }
}

/// The tiles of a rack, except those that are known to leave it.
#[tactic(auto, unfolding(crate::specs::Flowing::others_of))]
fn others_of(flow: &Flow) -> usize
    requires { IsSmall flow.now }
    ensures is { result ≡ others_of flow.now }
    ensures small { result < 65536 }
{
    flow.size
        .saturating_sub(flow.remaining_in + flow.remaining_beside)
}

/// The number of these that get outside, by whether rack and bag are inside afterwards.
#[tactic(auto, unfolding(crate::specs::Flowing::strays_of))]
fn strays_of(flow: &Flow, stays: bool, bag: bool) -> usize
    requires { IsSmall flow.now }
    ensures is { result ≡ strays_of flow.now stays bag }
    ensures small { result < 131072 }
{
    let kept = others_of(flow).saturating_sub(flow.unknown);
    where_so(!stays, kept) + where_so(!bag, flow.unknown)
}

/// The least number of tiles that come in by a rack, by whether it was inside.
#[tactic(auto, unfolding(crate::specs::Flowing::gained_by))]
pub fn gained_by(flow: &Flow, was: bool, stays: bool, bag: bool) -> usize
    requires { IsSmall flow.now }
    ensures is { result ≡ gained_by flow.now was stays bag }
    ensures small { result < 32768 }
{
    let kept = flow.known_in.saturating_sub(flow.remaining_in);
    let brought = kept.saturating_sub(strays_of(flow, stays, bag));
    where_so(!was, brought)
        + where_so(flow.to_bag && bag, flow.remaining_in)
        + where_so(stays, flow.back_in)
}

/// The greatest number that get out.
#[tactic(auto, unfolding(crate::specs::Flowing::lost_by))]
pub fn lost_by(flow: &Flow, bag_was: bool, was: bool, stays: bool, bag: bool) -> usize
    requires { IsSmall flow.now }
    ensures is { result ≡ lost_by flow.now bag_was was stays bag }
    ensures small { result < 1048576 }
{
    let beside = flow.known_beside.saturating_sub(flow.remaining_beside);
    let within = others_of(flow).saturating_sub(beside);
    let lost = flow.remaining_in + strays_of(flow, stays, bag).min(within);
    where_so(was, lost) + where_out(bag_was, stays, flow.drawn)
}

/// Whether the board before the next step is as a step leaves it, counting tiles of the chosen kinds.
#[tactic(auto, unfolding(crate::specs::Flowing::BoardFollows))]
pub fn board_follows(
    chosen: &[bool; KINDS],
    step: &Step,
    next: &Step,
    first: &Flow,
    second: &Flow,
) -> bool
    requires first { first.now ≡ flow_of chosen.now First step.now next.now }
    requires second { second.now ≡ flow_of chosen.now Second step.now next.now }
    requires first_small { IsSmall first.now }
    requires second_small { IsSmall second.now }
    ensures { IsTrue result ↔ BoardFollows chosen.now step.now next.now }
{
    let before = split_by(chosen, &step.board).within;
    let after = split_by(chosen, &next.board).within;
    let remaining = where_so(!throws(&step.act), first.remaining_in + second.remaining_in);
    after + (first.back_in + second.back_in) == before + remaining
}
