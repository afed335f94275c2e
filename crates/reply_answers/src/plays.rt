//! The best plays that a request asks for.
ghost use Rattle.std.specs.Prelude.{◌≡◌, ◌≤◌, IfOk, option_map};
ghost use Rattle.std.specs.Option.{option_copied};
ghost use Rattle.lex_check.specs.Pairs.{list_in};
ghost use Rattle.engine_stages.specs.declared.verdicts.Verdict.TheVariants as verdict;
ghost use Rattle.engine_stages.specs.Reports.{bad_rack_line};
ghost use Rattle.engine_stages.specs.Reporting.{IsReported};
ghost use Rattle.engine.specs.TopBefore.{given_rack};
ghost use Rattle.game_answers.specs.Tops.{AreTopPlaysOf};
ghost use Rattle.reply_answers.specs.Given.{FailsForMemoryAlone, read_of};
ghost use Rattle.reply_answers.specs.Plays.{bytes_named, number_asked, ArePlaysBy};

use crate::records::GivenRecord;
use engine::TurnPlays;
use engine_stages::{Decision, InputFault, RunFault};
use game_answers::{FoundPlays, top_plays};
use game_report::MOST_PLAYS;
use gcg_read::read_rack;
use lex_check::Checked;
use lex_rulings::push_capitals;
use ref_tiles::{Counts, Rules};
use std::alloc::{AllocError, Global};

/// How many plays are given if no number is requested.
const USUAL_PLAYS: usize = 10;

/// How many plays are requested.
fn number_asked(number: Option<u32>) -> usize
    ensures number { result ≡ number_asked number }
    ensures few { result ≤ 100 }
{
    match number {
        None => USUAL_PLAYS,
        Some(number) => (number as usize).min(MOST_PLAYS),
    }
}

/// The bytes of a rack that is named, with its letters as capitals; none if none is named.
fn rack_in_capitals(alloc: Global, rack: Option<&str>) -> Result<Option<Vec<u8>>, AllocError>
    ensures { IfOk result (λ named. option_map (λ tiles. tiles.items) named ≡ bytes_named (option_copied rack.entry)) }
{
    let Some(rack) = rack else {
        return Ok(None);
    };
    let mut tiles = Vec::new(alloc);
    push_capitals(&mut tiles, rack.as_bytes())?;
    Ok(Some(tiles))
}

/// The rack that is named, if one is; `None` if what is named is not a rack.
fn named_rack(alloc: Global, rack: Option<&str>) -> Result<Option<Option<Counts>>, AllocError>
    ensures { IfOk result (λ given. given ≡ given_rack (bytes_named (option_copied rack.entry))) }
{
    let Some(tiles) = rack_in_capitals(alloc, rack)? else {
        return Ok(Some(None));
    };
    match read_rack(&tiles) {
        Some(rack) => Ok(Some(Some(rack))),
        None => Ok(None),
    }
}

/// The verdict that a rack is not one.
fn no_rack(alloc: Global) -> Result<Decision, AllocError>
    ensures { IfOk result (λ d. IsReported verdict.BadRack bad_rack_line d.verdict d.report.items) }
{
    Decision::refused(alloc, InputFault::Rack)
}

/// What is found in a record for a question.
#[tactic(auto, using(crate::proofs::Reading::means_read))]
fn plays_by(
    alloc: Global,
    rules: &Rules,
    pair: &Checked<'_>,
    game: &[u8],
    question: &TurnPlays,
) -> Result<Result<FoundPlays, Decision>, RunFault>
    ensures found { IfOk result (AreTopPlaysOf question.now.number question.now.before rules.now (list_in pair.now) question.now.rack (read_of game.now)) }
    ensures memory { FailsForMemoryAlone result }
{
    let mut input = GivenRecord::new(game);
    top_plays(alloc, rules, pair, &mut input, question)
}

/// The best plays before a line of a record, by a rack, whose letters may be lower case, or by that of the line: what `top --json` finds.
#[tactic(auto, using(crate::proofs::PlayLaws::by_rack, crate::proofs::PlayLaws::by_none))]
pub fn plays_in(
    alloc: Global,
    rules: &Rules,
    pair: &Checked<'_>,
    game: &[u8],
    line: Option<u32>,
    rack: Option<&str>,
    number: Option<u32>,
) -> Result<Result<FoundPlays, Decision>, RunFault>
    ensures found { IfOk result (ArePlaysBy (number_asked number) line rules.now (list_in pair.now) (given_rack (bytes_named (option_copied rack.entry))) (read_of game.now)) }
    ensures memory { FailsForMemoryAlone result }
{
    let Some(rack) = named_rack(alloc, rack)? else {
        return Ok(Err(no_rack(alloc)?));
    };
    let question = TurnPlays {
        rack,
        number: number_asked(number),
        before: line,
    };
    plays_by(alloc, rules, pair, game, &question)
}
