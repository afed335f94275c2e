//! The entry of one game of many, by a word list and a lexicon that were read before.
ghost use Rattle.std.specs.Prelude.{◌≡◌, IfOk, None};
ghost use Rattle.game_turns.specs.Passing.{rules_in, record_in, list_in};
ghost use Rattle.game_turns.specs.Places.{AreAllowed};
ghost use Rattle.game_walk.specs.Refusals.{IsReportedRefusal};
ghost use Rattle.game_walk.specs.Rows.{HaveRows};
ghost use Rattle.game_walk.specs.Walks.{GoesThrough, IsWalkOf};
ghost use Rattle.lex_check.specs.Pairs as pairs;
ghost use Rattle.game_case.specs.declared.findings.Finding.TheVariants as finding;
ghost use Rattle.engine_stages.specs.declared.verdicts.GameFault.TheVariants as game;
ghost use Rattle.game_case.specs.Archiving.{IsFinding, AreUnlisted, IsEntry};
ghost use Rattle.game_case.specs.WalkedEntries.{IsWalkedFrom};

use crate::findings::Finding;
use crate::settling::settle_passed;
use crate::unlisted::unlisted_plays;
use engine_stages::{GameFault, game_from};
use game_turns::{Passed, RuleFault};
use game_walk::{Refusal, Row, Walk, walk_as_written};
use gcg_read::{ReadFault, Record};
use lex_check::Checked;
use ref_tiles::Rules;
use std::alloc::{AllocError, Global};

/// The entry of a game in an archive.
#[derive(Drop)]
pub struct Entry {
    /// The record of the game.
    pub record: Record,
    /// What is found of it.
    pub finding: Finding,
    /// How many of its plays stand with a word that is not in the list; none if some event is not allowed.
    pub unlisted: Option<usize>,
}

/// What is found of a record that passed, or that it has no event.
#[tactic(auto, using(crate::proofs::FoundGames::with_events))]
fn find_passed(alloc: Global, passed: &Passed<'_>) -> Result<Finding, AllocError>
    requires { AreAllowed (rules_in passed.now) (list_in passed.now) (record_in passed.now).events }
    ensures { IfOk result (IsFinding (rules_in passed.now) (list_in passed.now) (record_in passed.now)) }
{
    if passed.record().events.is_empty() {
        return Ok(Finding::NoGame);
    }
    let found = settle_passed(alloc, passed)?;
    Ok(found)
}

/// What is found of a record, and how many of its plays stand with a word that is not in the list, if every event is allowed.
#[derive(Drop)]
pub(crate) struct Found {
    pub finding: Finding,
    pub unlisted: Option<usize>,
}

/// What is found of a record with an event that is not allowed.
fn faulty(line: u32, fault: RuleFault) -> Found
    ensures finding { result.finding ≡ finding.Illegal line (game.Rule fault) }
    ensures unlisted { result.unlisted ≡ None }
{
    Found {
        finding: Finding::Illegal {
            line,
            fault: GameFault::Rule(fault),
        },
        unlisted: None,
    }
}

/// What is found of a record in which every event is allowed, by its rows.
fn allowed(alloc: Global, passed: &Passed<'_>, rows: &[Row]) -> Result<Found, AllocError>
    requires allowed { AreAllowed (rules_in passed.now) (list_in passed.now) (record_in passed.now).events }
    requires rows { HaveRows (rules_in passed.now) (list_in passed.now) (record_in passed.now).events rows.now }
    ensures found { IfOk result (λ f. IsFinding (rules_in passed.now) (list_in passed.now) (record_in passed.now) f.finding) }
    ensures unlisted { IfOk result (λ f. AreUnlisted (rules_in passed.now) (list_in passed.now) (record_in passed.now).events f.unlisted) }
{
    let finding = find_passed(alloc, passed)?;
    let plays = unlisted_plays(passed, rows);
    Ok(Found {
        finding,
        unlisted: Some(plays),
    })
}

/// What is found of a record, by its first refusal; if there is none, by a walk that went through it.
#[tactic(auto, using(game_turns::proofs::PlaceLaws::first_not_allowed, crate::proofs::FoundGames::refused))]
pub(crate) fn find(
    alloc: Global,
    rules: &Rules,
    pair: &Checked<'_>,
    game: &Record,
    refused: Option<Refusal>,
    walk: &Walk,
) -> Result<Found, AllocError>
    requires reported { IsReportedRefusal rules.now (pairs.list_in pair.now) game.now.events refused }
    requires walked { refused ≡ None → GoesThrough rules.now (pairs.list_in pair.now) game.now.events walk.now }
    ensures found { IfOk result (λ f. IsFinding rules.now (pairs.list_in pair.now) game.now f.finding) }
    ensures unlisted { IfOk result (λ f. AreUnlisted rules.now (pairs.list_in pair.now) game.now.events f.unlisted) }
{
    match refused {
        Some(refusal) => Ok(faulty(refusal.line, refusal.why)),
        None => {
            let complete = walk.end().finished();
            let passed = Passed::of_allowed(rules, game, pair.list(), complete);
            allowed(alloc, &passed, walk.rows.as_slice())
        }
    }
}

/// The entry of a record, and the walk over its events.
#[derive(Drop)]
pub(crate) struct Walked {
    pub entry: Entry,
    pub walk: Walk,
}

/// Walks over a record, and makes its entry.
fn walk_record(
    alloc: Global,
    rules: &Rules,
    pair: &Checked<'_>,
    game: Record,
) -> Result<Walked, AllocError>
    ensures entry { IfOk result (λ w. IsEntry rules.now (pairs.list_in pair.now) w.entry) }
    ensures walk { IfOk result (λ w. IsWalkOf rules.now (pairs.list_in pair.now) w.entry.record.events w.walk) }
    ensures game { IfOk result (λ w. w.entry.record ≡ game) }
{
    let mut game = game;
    let walk = walk_as_written(alloc, rules, pair.list(), &mut game.events)?;
    let found = find(alloc, rules, pair, &game, walk.refused, &walk)?;
    let entry = Entry {
        record: game,
        finding: found.finding,
        unlisted: found.unlisted,
    };
    Ok(Walked { entry, walk })
}

/// The entry of the record of a text with the walk over it, or the fault of the record.
pub(crate) fn walked_from(
    alloc: Global,
    rules: &Rules,
    pair: &Checked<'_>,
    text: &[u8],
) -> Result<Result<Walked, ReadFault>, AllocError>
    ensures { IfOk result (IsWalkedFrom rules.now (pairs.list_in pair.now) text.now) }
{
    match game_from(alloc, text)? {
        Ok(record) => {
            let walked = walk_record(alloc, rules, pair, record)?;
            Ok(Ok(walked))
        }
        Err(fault) => Ok(Err(fault)),
    }
}
