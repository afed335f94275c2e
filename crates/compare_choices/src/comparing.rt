//! The comparison of two sheets.
ghost use Rattle.std.specs.Prelude.{◌≡◌, ◌<◌, IfOk, OnOk};
ghost use Rattle.compare_alignments.specs.Merging.{count_choices, count_with_own_racks};
ghost use Rattle.compare_choices.specs.Finds.{IsFoundTo};
ghost use Rattle.compare_choices.specs.Comparisons.{flipped, AreFlips, FlipsOf, IsStopOf, IsFurthestTo, IsFurthestBy, further, IsComparison};

use crate::best::Best;
use crate::corrections::{Correction, Stopped, correct};
use crate::finds::Find;
use crate::sheets::Sheets;
use crate::trials::{Trial, what_comes_of};
use compare_alignments::{NumbersOf, count_choices, count_varied, count_with_own_racks};
use lex_list::WordList;
use ref_tiles::Rules;
use std::alloc::{AllocError, Global};

/// A choice that makes no game, and where its correction stops.
#[derive(Clone, Copy)]
pub struct Stop {
    /// The choice.
    pub choice: usize,
    /// Where it stops.
    pub stopped: Stopped,
}

/// The comparison of two sheets.
#[derive(Drop)]
pub struct Comparison {
    /// The best of all choices.
    pub find: Find,
    /// The result of the best choice with the other line or the other rack of an item, for each item that is varied; none if no choice is known to
    /// make a game.
    pub flips: Vec<Trial>,
    /// If no choice is known to make a game, the furthest stop of the choices that the rules refuse.
    pub furthest: Option<Stop>,
}

/// A choice with the other line, or the other rack, of the item with a number.
fn flipped(choice: usize, number: usize) -> usize
    requires { number < 12 }
    ensures { result ≡ flipped choice number }
{
    choice ^ (1 << number)
}

/// The best of all choices.
fn find_best(
    alloc: Global,
    rules: &Rules,
    list: &WordList,
    sheets: &Sheets,
) -> Result<Find, AllocError>
    ensures { IfOk result (IsFoundTo rules.now list.now sheets.now (count_choices sheets.now.pairs.items)) }
{
    let mut found = Find::new(alloc);
    for choice in 0..count_choices(sheets.pairs.as_slice()) {
        found.try_choice(alloc, rules, list, sheets, choice)?;
    }
    Ok(found)
}

/// The results of a choice with the other line or the other rack of each item.
fn flips_of(
    alloc: Global,
    rules: &Rules,
    list: &WordList,
    sheets: &Sheets,
    choice: usize,
) -> Result<Vec<Trial>, AllocError>
    ensures { IfOk result (λ flips. AreFlips rules.now list.now sheets.now choice flips.items) }
{
    let mut flips = Vec::new(alloc);
    for number in 0..count_varied(sheets.pairs.as_slice()) {
        let flip = what_comes_of(alloc, rules, list, sheets, flipped(choice, number))?;
        flips.push(flip)?;
    }
    Ok(flips)
}

/// The same for the best choice, if there is one.
fn flips_by(
    alloc: Global,
    rules: &Rules,
    list: &WordList,
    sheets: &Sheets,
    best: &Option<Best>,
) -> Result<Vec<Trial>, AllocError>
    ensures { IfOk result (λ flips. FlipsOf rules.now list.now sheets.now best.now flips.items) }
{
    match best {
        Some(best) => flips_of(alloc, rules, list, sheets, best.choice),
        None => Ok(Vec::new(alloc)),
    }
}

/// Where the correction of a choice stops; none if the rules allow each of its events.
#[tactic(auto, using(crate::proofs::FurthestStops::allowed_by))]
fn stop_of(
    alloc: Global,
    rules: &Rules,
    list: &WordList,
    sheets: &Sheets,
    choice: usize,
) -> Result<Option<Stop>, AllocError>
    ensures { IfOk result (IsStopOf rules.now list.now sheets.now choice) }
{
    let written = sheets.events(alloc, NumbersOf::Taken, choice)?;
    match correct(alloc, rules, list, written)? {
        Correction::Stops(stopped) => Ok(Some(Stop { choice, stopped })),
        Correction::Right(_) => Ok(None),
    }
}

/// The stop of two that is further, or the first.
fn further(first: Option<Stop>, second: Option<Stop>) -> Option<Stop>
    ensures { result ≡ further first second }
{
    match (first, second) {
        (Some(one), Some(other)) => {
            if other.stopped.place > one.stopped.place {
                second
            } else {
                first
            }
        }
        (None, _) => second,
        (_, None) => first,
    }
}

/// The furthest stop of the choices that the rules refuse and that take each rack from the player's own sheet: the rules do not look at stated racks.
#[tactic(auto, using(crate::proofs::FurthestStops::furthest_more, crate::proofs::FurthestStops::furthest_start))]
fn furthest(
    alloc: Global,
    rules: &Rules,
    list: &WordList,
    sheets: &Sheets,
) -> Result<Option<Stop>, AllocError>
    ensures { IfOk result (IsFurthestTo rules.now list.now sheets.now (count_with_own_racks sheets.now.pairs.items)) }
{
    let mut found = None;
    for choice in 0..count_with_own_racks(sheets.pairs.as_slice()) {
        let stop = stop_of(alloc, rules, list, sheets, choice)?;
        found = further(found, stop);
    }
    Ok(found)
}

/// The same, if no choice is known to make a game.
fn furthest_by(
    alloc: Global,
    rules: &Rules,
    list: &WordList,
    sheets: &Sheets,
    best: &Option<Best>,
) -> Result<Option<Stop>, AllocError>
    ensures { IfOk result (IsFurthestBy rules.now list.now sheets.now best.now) }
{
    match best {
        Some(_) => Ok(None),
        None => furthest(alloc, rules, list, sheets),
    }
}

/// Compares two sheets of one game: tries each choice of their lines and racks.
///
/// It fails only if memory runs out.
///
/// The best choice makes a game with its right numbers, and least is wrong on both sheets with it. Each other choice makes no game, costs more, or is
/// listed as being as good or left open. For each item that is varied it says what becomes of the best choice with the other line or rack; and if no
/// choice is known to make a game, where the one that goes furthest stops.
pub fn compare(
    alloc: Global,
    rules: &Rules,
    list: &WordList,
    sheets: &Sheets,
) -> Result<Comparison, AllocError>
    ensures { IfOk result (IsComparison rules.now list.now sheets.now) }
{
    let find = find_best(alloc, rules, list, sheets)?;
    let flips = flips_by(alloc, rules, list, sheets, &find.best)?;
    let furthest = furthest_by(alloc, rules, list, sheets, &find.best)?;
    Ok(Comparison {
        find,
        flips,
        furthest,
    })
}
