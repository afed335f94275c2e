//! Whether a cut holds.
ghost use Rattle.std.specs.Prelude.{◌≡◌, ◌≤◌, true, take, length, vec_len};
ghost use Rattle.deal_cuts.specs.Cutting.{HasNoDeal, AreInside, Carries, AreTooMany};
ghost use Rattle.deal_cuts.specs.Flowing.{AreSmall, BoardFollows, at_least, carried_to, IsOver, IsCut};

use crate::cuts::{Cut, Places};
use crate::flows::{board_follows, flow_of, gained_by, is_small, lost_by};
use crate::reported::known_at;
use crate::splits::{split_by, where_out, where_so};
use deal_steps::Step;
use gcg_read::Seat;
use ref_tiles::{KINDS, Rules};

/// The greatest number of tiles that is counted.
const MOST: usize = 4_294_967_296;

/// The least number of tiles of the chosen kinds in the places before a step.
fn at_least(chosen: &[bool; KINDS], places: &Places, rules: &Rules, step: &Step) -> usize
    ensures inside { AreInside chosen.now places.now rules.now step.now result }
    ensures is { AreSmall step.now → result ≡ at_least chosen.now places.now rules.now step.now }
    ensures small { result ≤ 4294967296 }
{
    if !is_small(step) {
        return 0;
    }
    let all = split_by(chosen, &rules.counts).within;
    let laid = split_by(chosen, &step.board).within;
    let outside = where_so(!places.bag, step.bag)
        + where_so(!places.first, step.first)
        + where_so(!places.second, step.second);
    all.saturating_sub(laid).saturating_sub(outside)
}

/// The least number in some places before the next step, given a least number in others before a step.
fn carried(
    chosen: &[bool; KINDS],
    step: &Step,
    next: &Step,
    from: &Places,
    to: &Places,
    inside: usize,
) -> usize
    requires { inside ≤ 4294967296 }
    ensures carries { Carries chosen.now step.now next.now from.now to.now inside result }
    ensures is { AreSmall step.now → AreSmall next.now → BoardFollows chosen.now step.now next.now → result ≡ carried_to chosen.now step.now next.now from.now to.now inside }
    ensures small { result ≤ 4294967296 }
{
    if !is_small(step) || !is_small(next) {
        return 0;
    }
    let first = flow_of(chosen, Seat::First, step, next);
    let second = flow_of(chosen, Seat::Second, step, next);
    if !board_follows(chosen, step, next, &first, &second) {
        return 0;
    }
    step.board.law_of_numbers();
    let gained = gained_by(&first, from.first, to.first, to.bag)
        + gained_by(&second, from.second, to.second, to.bag);
    let lost = lost_by(&first, from.bag, from.first, to.first, to.bag)
        + lost_by(&second, from.bag, from.second, to.second, to.bag);
    let rest = step.bag.saturating_sub(first.drawn + second.drawn);
    let out = lost + where_out(from.bag, to.bag, rest);
    (inside + gained).saturating_sub(out).min(MOST)
}

/// Whether more are in the places before a step than there can be.
fn are_too_many(
    chosen: &[bool; KINDS],
    places: &Places,
    rules: &Rules,
    step: &Step,
    inside: usize,
) -> bool
    requires { inside ≤ 4294967296 }
    ensures none { result ≡ true → AreTooMany chosen.now places.now rules.now step.now inside }
    ensures found { AreSmall step.now → IsOver chosen.now places.now rules.now step.now inside → result ≡ true }
{
    if !is_small(step) {
        return false;
    }
    let first = split_by(chosen, &known_at(Seat::First, step));
    let second = split_by(chosen, &known_at(Seat::Second, step));
    let all = split_by(chosen, &rules.counts).within;
    let laid = split_by(chosen, &step.board).within;
    let room = where_so(places.bag, step.bag)
        + where_so(places.first, step.first)
        + where_so(places.second, step.second);
    let taken = inside
        + where_so(places.first, first.beside)
        + where_so(places.second, second.beside);
    let shown = laid
        + inside
        + where_so(!places.first, first.within)
        + where_so(!places.second, second.within);
    room < taken || all < shown
}

/// Whether more tiles of the chosen kinds are somewhere than there can be, by the places of the cut before each step.
fn shows_too_many(rules: &Rules, steps: &[Step], cut: &Cut) -> bool
    requires same { length steps.now ≡ vec_len cut.now.places }
    ensures none { result ≡ true → HasNoDeal rules.now steps.now }
    ensures found { IsCut rules.now steps.now cut.now.kinds cut.now.places.items → result ≡ true }
{
    rules.counts.law_of_numbers();
    let count = cut.places.len();
    if count == 0 {
        return false;
    }
    let last = count - 1;
    let mut inside = at_least(&cut.kinds, &cut.places[0], rules, &steps[0]);
    for place in 0..last {
        inside = carried(
            &cut.kinds,
            &steps[place],
            &steps[place + 1],
            &cut.places[place],
            &cut.places[place + 1],
            inside,
        );
    }
    are_too_many(&cut.kinds, &cut.places[last], rules, &steps[last], inside)
}

/// Whether a cut proves that no racks fit the steps of a game.
///
/// A cut has places before each of the first steps, and depends only on these steps: so no racks fit even these.
///
/// Nothing is required of the steps: if a board is not the one that the step before leaves, or a number is too large to be added up, nothing is
/// inside.
pub fn rules_out(rules: &Rules, steps: &[Step], cut: &Cut) -> bool
    ensures front { result ≡ true → HasNoDeal rules.now (take (vec_len cut.now.places) steps.now) }
    ensures whole { result ≡ true → HasNoDeal rules.now steps.now }
    ensures found { IsCut rules.now steps.now cut.now.kinds cut.now.places.items → result ≡ true }
{
    let count = cut.places.len();
    if steps.len() < count {
        return false;
    }
    let (front, _) = steps.split_at(count);
    shows_too_many(rules, front, cut)
}
