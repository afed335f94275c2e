//! What a player's later lines ask for beyond what the player has.
ghost use Rattle.std.specs.Prelude.{◌≡◌, ◌++◌, replicate, OnOk, IfOk};
ghost use Rattle.deal_steps.specs.Steps.{needed, remaining_by, remaining_in, ends_epoch};
ghost use Rattle.deal_completion.specs.Completion.{lacking, want_list};

use deal_steps::{Act, Motion, Step, greater, used_by, without};
use gcg_read::{Seat, same_seat};
use ref_tiles::Counts;
use std::alloc::{AllocError, Global};

/// What a player's rack must have at a step, if it is a moment of that player.
fn needed(seat: Seat, step: &Step) -> Option<Counts>
    ensures { result ≡ needed seat step.now }
{
    match &step.act {
        Act::Turns { shown, motion } => {
            if same_seat(step.player, seat) {
                Some(greater(shown, &used_by(motion)))
            } else {
                None
            }
        }
        Act::Ends { holder, tiles } => {
            if same_seat(*holder, seat) {
                Some(*tiles)
            } else {
                None
            }
        }
        Act::TakesBack(_) | Act::Rests => None,
    }
}

/// The known tiles that leave a rack with a turn.
fn remaining_by(motion: &Motion) -> Counts
    ensures { result ≡ remaining_by motion.now }
{
    match motion {
        Motion::Lays { used, .. } => *used,
        Motion::Throws(tiles) => *tiles,
        Motion::Keeps | Motion::Tries(_) | Motion::ThrowsUnknown(_) => Counts::new(),
    }
}

/// The known tiles that leave a player's rack at a step.
fn remaining_in(seat: Seat, step: &Step) -> Counts
    ensures { result ≡ remaining_in seat step.now }
{
    match &step.act {
        Act::Turns { motion, .. } if same_seat(step.player, seat) => remaining_by(motion),
        Act::Turns { .. } | Act::TakesBack(_) | Act::Ends { .. } | Act::Rests => Counts::new(),
    }
}

/// Whether a player throws unknown tiles.
fn ends_epoch(seat: Seat, step: &Step) -> bool
    ensures { result ≡ ends_epoch seat step.now }
{
    match &step.act {
        Act::Turns {
            motion: Motion::ThrowsUnknown(_),
            ..
        } => same_seat(step.player, seat),
        Act::Turns { .. } | Act::TakesBack(_) | Act::Ends { .. } | Act::Rests => false,
    }
}

/// Appends a kind to a list a number of times.
#[tactic(auto, using(crate::proofs::WantLaws::push_more, crate::proofs::WantLaws::push_all))]
fn push_times(list: &mut Vec<u8>, kind: u8, number: u8) -> Result<(), AllocError>
    ensures { OnOk result (list.new.items ≡ list.old.items ++ replicate number kind) }
{
    for _ in 0..number {
        list.push(kind)?;
    }
    Ok(())
}

/// Appends to a list the kinds of which there are more in the first than in the second.
fn push_lacking(list: &mut Vec<u8>, asked: &Counts, have: &Counts) -> Result<(), AllocError>
    ensures { OnOk result (list.new.items ≡ list.old.items ++ lacking asked.now have.now) }
{
    let wanted = asked.numbers();
    let there = have.numbers();
    for kind in 0..27 {
        let place = usize::from(kind);
        push_times(list, kind, wanted[place].saturating_sub(there[place]))?;
    }
    Ok(())
}

/// What a player with a rack wants for the steps to come, in order.
pub fn want_list(
    alloc: Global,
    seat: Seat,
    steps: &[Step],
    rack: &Counts,
) -> Result<Vec<u8>, AllocError>
    ensures { IfOk result (λ list. list.items ≡ want_list seat steps.now rack.now) }
{
    rack.law_of_numbers();
    let mut list = Vec::new(alloc);
    let mut rest = *rack;
    for step in steps {
        if let Some(asked) = needed(seat, step) {
            push_lacking(&mut list, &asked, &rest)?;
            if ends_epoch(seat, step) {
                return Ok(list);
            }
            rest = without(&greater(&rest, &asked), &remaining_in(seat, step));
        }
    }
    Ok(list)
}
