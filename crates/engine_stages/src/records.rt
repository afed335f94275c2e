//! Questions about the game of a record.
ghost use Rattle.std.specs.Prelude.{ℕ, List, [], ◌∷◌, IfOk, refl};
ghost use Rattle.io_devices.specs.Devices.{HasRoom};
ghost use Rattle.ref_tiles.specs.declared.rulebook.Rules.{Rules};
ghost use Rattle.gcg_read.specs.declared.records.Record.{Record};
ghost use Rattle.lex_check.specs.Pairs.{list_in};
ghost use Rattle.engine_stages.specs.declared.verdicts.Verdict.{Verdict};
ghost use Rattle.engine_stages.specs.Reading.{ReadsNoMore, ReadsRecord};
ghost use Rattle.engine_stages.specs.Runs.{Decides};
ghost use Rattle.engine_stages.specs.Sources.{game_source};
ghost use Rattle.engine_stages.specs.laws.Sparing.{record_later};
ghost use Rattle.engine_stages.specs.Reporting.{IsOwn};

use crate::decisions::Decision;
use crate::faults::RunFault;
use crate::meanings::read_record;
use crate::questions::{Given, Question};
use gcg_read::Record;
use io_devices::Input;
use lex_check::Checked;
use ref_tiles::Rules;
use std::alloc::{AllocError, Global};

/// A game that a question is about: its record, with the rules and the word list and lexicon by which it is judged.
#[derive(Clone, Copy)]
pub struct AskedGame<'a> {
    /// The rules.
    pub rules: &'a Rules,
    /// The word list with its lexicon.
    pub pair: &'a Checked<'a>,
    /// The record.
    pub record: &'a Record,
}

/// A question about the game of a record, by rules and by a word list with its lexicon. Its answer is a decision.
pub trait GameQuestion {
    // What is decided by rules, the words of a list and a record: a verdict and its report.
    ghost is_decided: { Self → Rules → List (List ℕ) → Record → Verdict → List ℕ → Type 0 };

    /// What is decided on a record.
    fn decide(&self, alloc: Global, asked: &AskedGame<'_>) -> Result<Decision, AllocError>
        ensures { IfOk result (λ d. is_decided self.now asked.now.rules.now (list_in asked.now.pair.now) asked.now.record.now d.verdict d.report.items) };

    // No decision is that an input is bad.
    ghost own: { (question : Self) (rules : Rules) (words : List (List ℕ)) (game : Record) (v : Verdict) (report : List ℕ) → is_decided question rules words game v report → IsOwn v };
}

/// Reads the record of a game, and decides a question about it by a word list and its lexicon.
///
/// # Errors
///
/// If the input failed or memory was refused. `ReadFailed` comes only if the count of failures of that input rose, and `NoMemory` only if it did not.
pub fn decide_by_pair<Q: GameQuestion, G: Input>(
    alloc: Global,
    question: &Q,
    rules: &Rules,
    pair: &Checked<'_>,
    game: &mut G,
) -> Result<Decision, RunFault>
    requires { HasRoom (G.device game.old) }
    ensures { Decides (game_source (G.device game.old) (G.device game.new) ∷ [])
        (ReadsRecord (λ r. ReadsNoMore (Q.is_decided question.now rules.now (list_in pair.now) r))) result }
{
    let record = match read_record(alloc, game)? {
        Ok(record) => record,
        Err(decision) => return Ok(decision),
    };
    let asked = AskedGame {
        rules,
        pair,
        record: &record,
    };
    Ok(question.decide(alloc, &asked)?)
}

impl<S, W, G: Input, Q: GameQuestion> Question<S, W, G> for Q {
    type Answer = Decision;

    ghost sources = { λ old new. game_source (G.device old) (G.device new) ∷ [] };

    ghost is_ready = { λ game. HasRoom (G.device game) };

    ghost is_answer = { λ question rules words d. ReadsRecord (λ r. ReadsNoMore (Q.is_decided question rules words r)) };

    fn answer(
        &self,
        alloc: Global,
        given: &Given<'_, S, W>,
        game: &mut G,
    ) -> Result<Decision, RunFault> {
        decide_by_pair(alloc, self, given.rules, given.pair, game)
    }

    ghost still = { λ game. (refl, tt) };

    ghost later = { λ question rules words d texts v report is. record_later (Q.is_decided question rules words) (λ r w reported given. Q.own question rules words r w reported given) texts v report is };
}
