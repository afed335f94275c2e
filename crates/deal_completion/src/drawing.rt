//! Draws from the bag, and what a player throws when the tiles are not known.
ghost use Rattle.std.specs.Prelude.{◌≡◌, IfOk};
ghost use Rattle.deal_completion.specs.Completion.{draw, exchange, chosen};
ghost use Rattle.deal_completion.specs.Taking.{HasRoomToDraw, MayThrow};

use crate::hands::Hands;
use crate::picking::pick_tiles;
use crate::wanting::want_list;
use deal_steps::{Step, joined};
use gcg_read::Seat;
use ref_tiles::Counts;
use std::alloc::{AllocError, Global};

/// A player draws a number of tiles before the steps to come.
#[tactic(auto, using(crate::proofs::DealLaws::drawn_room), unfolding(crate::specs::Completion::draw))]
pub fn draw(
    alloc: Global,
    seat: Seat,
    number: usize,
    steps: &[Step],
    hands: &Hands,
) -> Result<Hands, AllocError>
    requires { HasRoomToDraw seat hands.now }
    ensures { IfOk result (λ after. after ≡ draw seat number steps.now hands.now) }
{
    hands.bag.law_of_numbers();
    let other = seat.other();
    let list = want_list(alloc, seat, steps, hands.racks.of(seat))?;
    let reserved = want_list(alloc, other, steps, hands.racks.of(other))?;
    let pick = pick_tiles(&list, &reserved, number, &hands.bag);
    let after = Hands {
        bag: pick.remaining,
        racks: hands.racks,
    };
    Ok(after.with_tiles(seat, &pick.taken))
}

/// An exchange of these tiles before the steps to come.
#[tactic(auto, using(crate::proofs::DealLaws::off_room, crate::proofs::DealLaws::bag_room), unfolding(crate::specs::Completion::exchange))]
pub fn exchange(
    alloc: Global,
    seat: Seat,
    thrown: &Counts,
    steps: &[Step],
    hands: &Hands,
) -> Result<Hands, AllocError>
    requires { MayThrow seat thrown.now hands.now }
    ensures { IfOk result (λ after. after ≡ exchange seat thrown.now steps.now hands.now) }
{
    hands.bag.law_of_numbers();
    let off = hands.without_tiles(seat, thrown);
    let after = draw(alloc, seat, thrown.total(), steps, &off)?;
    Ok(Hands {
        bag: joined(&after.bag, thrown),
        racks: after.racks,
    })
}

/// The tiles that a player throws when the line states only their number, before the steps to come.
#[tactic(auto, unfolding(crate::specs::Completion::chosen))]
pub fn chosen(
    alloc: Global,
    seat: Seat,
    number: usize,
    steps: &[Step],
    rack: &Counts,
) -> Result<Counts, AllocError>
    ensures { IfOk result (λ thrown. thrown ≡ chosen seat number steps.now rack.now) }
{
    let list = want_list(alloc, seat, steps, &Counts::new())?;
    let kept = rack.total().saturating_sub(number);
    Ok(pick_tiles(&list, &[], kept, rack).remaining)
}
