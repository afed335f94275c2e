//! What is asked once the rules, the words and the lexicon are read, as a question.
ghost use Rattle.std.specs.Prelude.{map};
ghost use Rattle.reply_calls.specs.Found.{IsFoundOn};
ghost use Rattle.reply_calls.specs.Sheets.{HaveRoom, sheet_sources};
ghost use Rattle.reply_calls.specs.laws.Later.{found_later, still_sheets};

use crate::asking::Asking;
use crate::finding::find_on;
use engine_stages::{Decision, Given, Question, RunFault};
use io_devices::Input;
use std::alloc::Global;

/// What is asked of the sheets that are read.
#[derive(Clone, Copy)]
pub struct SheetsQuestion<'a, Q> {
    /// It.
    pub asking: &'a Q,
}

impl<S, W, G: Input, Q: Asking<S, W>> Question<S, W, Vec<G>> for SheetsQuestion<'_, Q> {
    type Answer = Result<Q::Reply, Decision>;

    ghost sources = { λ old new. sheet_sources (map G.device old.items) (map G.device new.items) };

    ghost is_ready = { λ sheets. HaveRoom (map G.device sheets.items) };

    ghost is_answer = { λ question rules words found texts v report. IsFoundOn (Q.is_reply question.asking.now rules words) found texts v report };

    fn answer(
        &self,
        alloc: Global,
        given: &Given<'_, S, W>,
        sheets: &mut Vec<G>,
    ) -> Result<Result<Q::Reply, Decision>, RunFault> {
        find_on(alloc, given, self.asking, sheets)
    }

    ghost still = { λ sheets. still_sheets (map G.device sheets.items) };

    ghost later = { λ question rules words found texts v report is. found_later (Q.is_reply question.asking.now rules words) found texts v report is };
}
