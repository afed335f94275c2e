//! What can be asked once rules, a word list and its lexicon are read.
ghost use Rattle.std.specs.Prelude.{◌≡◌, ℕ, List};
ghost use Rattle.ref_tiles.specs.declared.rulebook.Rules.{Rules};
ghost use Rattle.lex_check.specs.Pairs.{list_in};
ghost use Rattle.engine_stages.specs.declared.verdicts.Verdict.{Verdict};
ghost use Rattle.engine_stages.specs.Runs.{Says, Gives, decisions, outcomes};
ghost use Rattle.engine_stages.specs.Sources.{Source, AreUntouched};
ghost use Rattle.engine_stages.specs.Reporting.{IsLater};

use crate::decisions::Decision;
use crate::faults::RunFault;
use lex_check::Checked;
use ref_tiles::Rules;
use std::alloc::Global;

/// An answer to a question, or that an input is bad.
pub trait Answer {
    // What an answer says: a verdict and its report.
    ghost says: { Says Self };

    /// The answer that an input is bad, by the decision that says so.
    fn bad_input(decision: Decision) -> Self
        ensures verdict { says.verdict result ≡ decision.verdict }
        ensures report { says.report result ≡ decision.report.items };
}

impl Answer for Decision {
    ghost says = { decisions };

    fn bad_input(decision: Decision) -> Decision {
        decision
    }
}

impl<A: Drop> Answer for Result<A, Decision> {
    ghost says = { outcomes };

    fn bad_input(decision: Decision) -> Result<A, Decision> {
        Err(decision)
    }
}

/// What was read before a question is asked.
#[derive(Drop)]
pub struct Given<'a, S, W> {
    /// The rules.
    pub rules: &'a Rules,
    /// The word list with its lexicon.
    pub pair: &'a Checked<'a>,
    /// The source of the rules.
    pub rules_source: &'a S,
    /// The input that had the words.
    pub words: &'a W,
}

/// A question, which is asked once rules, a word list and its lexicon are read. It may read more, such as a record: `G`.
pub trait Question<S, W, G> {
    /// The type of its answers.
    type Answer: Answer;

    // What it reads.
    ghost sources: { G → G → List Source };

    // Whether that can be read.
    ghost is_ready: { G → Type 0 };

    // What is an answer by rules and the words of a list, on the texts that the question reads.
    ghost is_answer: { Self → Rules → List (List ℕ) → Self.Answer → (texts : List (List ℕ)) → Verdict → (report : List ℕ) → Type 0 };

    /// The answer.
    fn answer(
        &self,
        alloc: Global,
        given: &Given<'_, S, W>,
        more: &mut G,
    ) -> Result<Self::Answer, RunFault>
        requires { is_ready more.old }
        ensures { Gives Self.Answer.says (sources more.old more.new) (is_answer self.now given.now.rules.now (list_in given.now.pair.now)) result };

    // What it reads is not touched before it is asked.
    ghost still: { (more : G) → AreUntouched (sources more more) };

    // No answer is that an input read earlier is bad.
    ghost later: { (question : Self) (rules : Rules) (words : List (List ℕ)) (x : Self.Answer) (texts : List (List ℕ)) (v : Verdict) (report : List ℕ)
        → is_answer question rules words x texts v report → IsLater v };
}
