//! A record with no change except to its numbers.
ghost use Rattle.std.specs.Prelude.{◌≡◌, ◌++◌, filter, IfOk, OnOk};
ghost use Rattle.game_turns.specs.Unlisted.{letters_in};
ghost use Rattle.game_turns.specs.Passing.{rules_in, record_in, list_in};
ghost use Rattle.game_turns.specs.Places.{AreAllowed};
ghost use Rattle.game_walk.specs.Walks.{GoesThrough};
ghost use Rattle.repair_single.specs.Remaining.{is_on_line, words_of_rows};
ghost use Rattle.repair_answers.specs.Unchanged.{IsFound, IsUnchanged, AreRemaining, HasOtherNumbers};

use crate::numbers_alone::NumbersAlone;
use deal_cuts::law_of_fronts;
use game_corrections::{WrongNumber, law_of_points};
use game_deal::{RackFinding, law_of_bounds, settle_racks};
use game_turns::{Passed, SpelledWord, unlisted_of};
use game_walk::{Audited, Row, Walk, audit, numbers_of, renumber};
use gcg_read::Record;
use lex_list::WordList;
use ref_tiles::Rules;
use repair_single::Remains;
use std::alloc::{AllocError, Global};

/// Whether a number is on a line, and not the last total of a player, which the lines give too.
fn is_on_line(number: &WrongNumber) -> bool
    ensures { result ≡ is_on_line number.now }
{
    match number {
        WrongNumber::Score { .. } | WrongNumber::Sum { .. } => true,
        WrongNumber::Total { .. } => false,
    }
}

/// Keeps only the numbers that are on a line.
fn keep_lines(wrong: &mut Vec<WrongNumber>)
    ensures { wrong.new.items ≡ filter is_on_line wrong.old.items }
{
    wrong.retain(|number| is_on_line(number));
}

/// Appends words to others.
#[tactic(auto, using(repair_single::proofs::Weighing::letters_joined))]
fn push_words(words: &mut Vec<SpelledWord>, mut more: Vec<SpelledWord>) -> Result<(), AllocError>
    ensures { OnOk result (letters_in words.new.items ≡ letters_in words.old.items ++ letters_in more.items) }
{
    words.append(&mut more)?;
    Ok(())
}

/// The words of some rows that stand and are not in the list.
fn unlisted_words(
    alloc: Global,
    list: &WordList,
    rows: &[Row],
) -> Result<Vec<SpelledWord>, AllocError>
    ensures { IfOk result (λ words. letters_in words.items ≡ words_of_rows list.now rows.now) }
{
    let mut words = Vec::new(alloc);
    for row in rows {
        let more = unlisted_of(alloc, list, row.following.standing_words())?;
        push_words(&mut words, more)?;
    }
    Ok(words)
}

/// What is left of an audit, without the last totals.
fn remaining_of(alloc: Global, list: &WordList, audited: Audited) -> Result<Remains, AllocError>
    ensures { IfOk result (AreRemaining list.now audited.wrong.items audited.walk.rows.items) }
{
    let unlisted = unlisted_words(alloc, list, audited.walk.rows.as_slice())?;
    let mut wrong = audited.wrong;
    keep_lines(&mut wrong);
    Ok(Remains { wrong, unlisted })
}

/// Whether a deal was found of the racks of a record that passed; none if no deal yields them.
#[tactic(auto, using(game_deal::proofs::Outcomes::a_game, game_deal::proofs::Outcomes::none_past, game_deal::proofs::Outcomes::none_by, game_deal::proofs::FoundRacks::remains_open))]
fn is_dealt(alloc: Global, passed: &Passed<'_>) -> Result<Option<bool>, AllocError>
    requires { AreAllowed (rules_in passed.now) (list_in passed.now) (record_in passed.now).events }
    ensures { IfOk result (IsFound (rules_in passed.now) (list_in passed.now) (record_in passed.now).events) }
{
    law_of_bounds();
    law_of_fronts();
    match settle_racks(alloc, passed)? {
        RackFinding::Dealt => Ok(Some(true)),
        RackFinding::Unknown => Ok(Some(false)),
        RackFinding::PastBound(_) => Ok(None),
        RackFinding::NoDeal { .. } => Ok(None),
    }
}

/// Whether a deal was found of the racks of a record of which the rules allow each event, by the walk that went through it; none if no deal yields them.
fn settled(
    alloc: Global,
    rules: &Rules,
    list: &WordList,
    game: &Record,
    walk: &Walk,
) -> Result<Option<bool>, AllocError>
    requires allowed { AreAllowed rules.now list.now game.now.events }
    requires walked { GoesThrough rules.now list.now game.now.events walk.now }
    ensures { IfOk result (IsFound rules.now list.now game.now.events) }
{
    let complete = walk.end().finished();
    let passed = Passed::of_allowed(rules, game, list, complete);
    is_dealt(alloc, &passed)
}

/// What is wrong with a record, as [`unchanged`] says. Afterwards the record has its right numbers.
fn with_right_numbers(
    alloc: Global,
    rules: &Rules,
    list: &WordList,
    game: &mut Record,
) -> Result<Option<NumbersAlone>, AllocError>
    ensures alone { IfOk result (IsUnchanged rules.now list.now game.old.events) }
    ensures others { OnOk result (HasOtherNumbers game.old game.new) }
{
    let audited = audit(alloc, rules, list, &mut game.events)?;
    if audited.walk.stopped.is_some() {
        return Ok(None);
    }
    law_of_points(game.events.as_slice());
    let Some(is_game) = settled(alloc, rules, list, game, &audited.walk)? else {
        return Ok(None);
    };
    let right = numbers_of(alloc, game.events.as_slice())?;
    let remains = remaining_of(alloc, list, audited)?;
    Ok(Some(NumbersAlone {
        remains,
        right,
        is_game,
    }))
}

/// What is wrong with a record if only its numbers are: once they are corrected, the rules allow each event, and no racks are ruled out. `None`
/// if more is wrong. Afterwards the record is as it was.
///
/// It fails only if memory runs out.
pub(crate) fn unchanged(
    alloc: Global,
    rules: &Rules,
    list: &WordList,
    game: &mut Record,
) -> Result<Option<NumbersAlone>, AllocError>
    ensures alone { IfOk result (IsUnchanged rules.now list.now game.old.events) }
    ensures same { OnOk result (game.new ≡ game.old) }
{
    let written = numbers_of(alloc, game.events.as_slice())?;
    let alone = with_right_numbers(alloc, rules, list, game)?;
    renumber(&mut game.events, written.as_slice());
    Ok(alone)
}
