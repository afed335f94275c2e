//! A score that is not the right one, and where it would be right.
ghost use Rattle.std.specs.Prelude.{◌≡◌, ◌-◌, true, All, OnOk, IfOk, IfSome, Some, take, length, filter};
ghost use Rattle.gcg_read.specs.declared.events.EventKind.TheVariants as kind;
ghost use Rattle.game_turns.specs.Checks.{fault_in};
ghost use Rattle.game_turns.specs.Machines.{state_of};
ghost use Rattle.game_turns.specs.declared.faults.RuleFault.TheVariants as fault;
ghost use Rattle.explain_facts.specs.Moments.{moment_of};
ghost use Rattle.explain_facts.specs.Facts.{IsTrue};
ghost use Rattle.explain_facts.specs.FaultFacts.{is_fact_of, begin_with};
ghost use Rattle.explain_facts.specs.Elsewhere.{is_listed_at, standing, places};

use crate::facts::{Fact, ScoreFact};
use crate::moving::standing_spots;
use crate::readings::report_slips;
use crate::scenes::{Scene, report, report_all, report_some};
use explain_clues::{Spot, scoring_spots};
use game_turns::{all_listed, legal_play};
use gcg_read::{EventKind, Text};
use lex_list::WordList;
use ref_board::{Board, Dir, Square};
use ref_play::words;
use ref_tiles::Symbol;
use std::alloc::{AllocError, Global};

/// The maximum number of places that are named.
const NAMED: usize = 3;

/// The score of an event.
#[tactic(auto, using(crate::proofs::Numbers::score_reported))]
pub(crate) fn score_fact(scene: &Scene<'_>, right: i32) -> Fact
    requires fails { fault_in scene.now.rules.now scene.now.list.now (state_of scene.now.machine.now) scene.now.event.now ≡ Some (fault.WrongScore right) }
    ensures reported { IsTrue (moment_of scene.now) result }
    ensures named { is_fact_of (fault.WrongScore right) result ≡ true }
{
    let written = scene.event.score.value();
    match &scene.event.kind {
        EventKind::Play { .. } => Fact::Score(ScoreFact::Play { right, written }),
        EventKind::Pass => Fact::Score(ScoreFact::Pass { right, written }),
        EventKind::Exchange(_) => Fact::Score(ScoreFact::Exchange { right, written }),
        EventKind::ExchangeUnknown(_) => Fact::Score(ScoreFact::Exchange { right, written }),
        EventKind::Withdraw => Fact::Score(ScoreFact::Withdrawal { right, written }),
        EventKind::LastRack(tiles) => Fact::Score(ScoreFact::LastRack {
            player: scene.event.player,
            is_doubled: scene.machine.out().is_some(),
            tiles: *tiles,
            right,
            written,
        }),
        EventKind::Challenge => Fact::Score(ScoreFact::Other { right, written }),
        EventKind::Time => Fact::Score(ScoreFact::Other { right, written }),
    }
}

/// Whether each word that a text forms at a spot is in the word list.
#[tactic(auto, unfolding(crate::specs::Elsewhere::is_listed_at))]
fn is_listed_at(board: &Board, list: &WordList, word: &[Symbol], spot: &Spot) -> bool
    ensures { result ≡ is_listed_at board.now list.now word.now spot.now }
{
    match legal_play(board, spot.at, spot.dir, word) {
        Ok(play) => all_listed(list, &words(board, &play)),
        Err(_) => false,
    }
}

/// The spots at which each word that a text forms is in the word list.
fn listed_spots(
    alloc: Global,
    board: &Board,
    list: &WordList,
    word: &[Symbol],
    spots: &[Spot],
) -> Result<Vec<Spot>, AllocError>
    ensures { IfOk result (λ listed. listed.items ≡ filter (is_listed_at board.now list.now word.now) spots.now) }
{
    let mut listed = Vec::new(alloc);
    for spot in spots {
        if is_listed_at(board, list, word, spot) {
            listed.push(*spot)?;
        }
    }
    Ok(listed)
}

/// Where the text of a play has the written score and stands with the rest of the record.
#[tactic(auto, unfolding(crate::specs::Elsewhere::standing))]
fn standing(alloc: Global, scene: &Scene<'_>, word: &Text) -> Result<Vec<Spot>, AllocError>
    ensures { IfOk result (λ spots. spots.items ≡ standing (moment_of scene.now) word.now) }
{
    let board = scene.machine.board();
    let score = scene.event.score;
    let spots = scoring_spots(alloc, scene.rules, board, word.as_slice(), score)?;
    standing_spots(alloc, scene, word, spots.as_slice())
}

/// Of these spots those at which each word is in the word list, if there is one, otherwise all.
#[tactic(auto, unfolding(crate::specs::Elsewhere::places))]
fn places(alloc: Global, scene: &Scene<'_>, word: &Text) -> Result<Vec<Spot>, AllocError>
    ensures { IfOk result (λ spots. spots.items ≡ places (moment_of scene.now) word.now) }
{
    let board = scene.machine.board();
    let spots = standing(alloc, scene, word)?;
    let listed = listed_spots(alloc, board, scene.list, word.as_slice(), spots.as_slice())?;
    if listed.is_empty() {
        return Ok(spots);
    }
    Ok(listed)
}

/// The first of some spots, and the number of others.
#[derive(Drop)]
struct Named {
    spots: Vec<Spot>,
    others: usize,
}

/// The spots that are named, and the number of others.
fn first_named(alloc: Global, spots: &[Spot]) -> Result<Named, AllocError>
    ensures { IfOk result (λ n. (n.spots.items ≡ take 3 spots.now) × (n.others ≡ length spots.now - 3)) }
{
    let many = spots.len().min(NAMED);
    Ok(Named {
        spots: Vec::from_slice(alloc, &spots[..many])?,
        others: spots.len() - many,
    })
}

/// Where the text of a play has the written score and stands with the rest of the record, if it does so anywhere.
#[tactic(auto, using(crate::proofs::Plays::of_play, crate::proofs::Places::all_score, crate::proofs::Places::all_stand))]
pub(crate) fn elsewhere(
    alloc: Global,
    scene: &Scene<'_>,
    at: Square,
    dir: Dir,
    word: &Text,
) -> Result<Option<Fact>, AllocError>
    requires { scene.now.event.now.kind ≡ kind.Play at dir word.now }
    ensures { IfOk result (λ fact. IfSome fact (IsTrue (moment_of scene.now))) }
{
    let spots = places(alloc, scene, word)?;
    if spots.is_empty() {
        return Ok(None);
    }
    let named = first_named(alloc, spots.as_slice())?;
    Ok(Some(Fact::Score(ScoreFact::Elsewhere {
        written: scene.event.score.value(),
        spots: named.spots,
        others: named.others,
    })))
}

/// That the written total is the right one with the right score.
fn fitting_total(scene: &Scene<'_>, right: i32) -> Option<Fact>
    requires fails { fault_in scene.now.rules.now scene.now.list.now (state_of scene.now.machine.now) scene.now.event.now ≡ Some (fault.WrongScore right) }
    ensures { IfSome result (IsTrue (moment_of scene.now)) }
{
    let sum = scene.machine.total(scene.event.player).checked_add(right)?;
    if scene.event.total.value() != sum {
        return None;
    }
    Some(Fact::Score(ScoreFact::TotalFits {
        score: right,
        total: sum,
    }))
}

/// Adds where the text of a play has the written score and stands with the rest of the record; if it does so nowhere, that the written
/// total is the right one with the right score, if this is so.
fn report_place_or_total(
    alloc: Global,
    facts: &mut Vec<Fact>,
    scene: &Scene<'_>,
    at: Square,
    dir: Dir,
    word: &Text,
    right: i32,
) -> Result<(), AllocError>
    requires reported { All (IsTrue (moment_of scene.now)) facts.old.items }
    requires play { scene.now.event.now.kind ≡ kind.Play at dir word.now }
    requires fails { fault_in scene.now.rules.now scene.now.list.now (state_of scene.now.machine.now) scene.now.event.now ≡ Some (fault.WrongScore right) }
    ensures { OnOk result (All (IsTrue (moment_of scene.now)) facts.new.items) }
{
    match elsewhere(alloc, scene, at, dir, word)? {
        Some(fact) => report(facts, scene, fact),
        None => report_some(facts, scene, fitting_total(scene, right)),
    }
}

/// For a play, with which other tile and in which other place it would have the written score, or that the written total is right.
fn score_hints(alloc: Global, scene: &Scene<'_>, right: i32) -> Result<Vec<Fact>, AllocError>
    requires fails { fault_in scene.now.rules.now scene.now.list.now (state_of scene.now.machine.now) scene.now.event.now ≡ Some (fault.WrongScore right) }
    ensures { IfOk result (λ facts. All (IsTrue (moment_of scene.now)) facts.items) }
{
    let mut facts = Vec::new(alloc);
    let EventKind::Play { at, dir, word } = &scene.event.kind else {
        return Ok(facts);
    };
    report_slips(alloc, &mut facts, scene, *at, *dir, word.as_slice(), true)?;
    report_place_or_total(alloc, &mut facts, scene, *at, *dir, word, right)?;
    Ok(facts)
}

/// The score of an event, and for a play, with which other tile and in which other place it would have the written score, or that
/// the written total is right.
#[tactic(auto, using(crate::proofs::Beginnings::begins, crate::proofs::Beginnings::goes_on))]
pub(crate) fn score_facts(
    alloc: Global,
    scene: &Scene<'_>,
    right: i32,
) -> Result<Vec<Fact>, AllocError>
    requires fails { fault_in scene.now.rules.now scene.now.list.now (state_of scene.now.machine.now) scene.now.event.now ≡ Some (fault.WrongScore right) }
    ensures reported { IfOk result (λ facts. All (IsTrue (moment_of scene.now)) facts.items) }
    ensures first { IfOk result (λ facts. begin_with (fault.WrongScore right) facts.items ≡ true) }
{
    let mut hints = score_hints(alloc, scene, right)?;
    let mut facts = Vec::new(alloc);
    report(&mut facts, scene, score_fact(scene, right))?;
    report_all(&mut facts, scene, &mut hints)?;
    Ok(facts)
}
