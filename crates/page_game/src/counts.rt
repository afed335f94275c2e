//! How many games had each answer.
ghost use Rattle.std.specs.Prelude.{◌≡◌, ◌<◌, ◌+◌, ◌-◌, ◌++◌, ◌∷◌, ◌^◌, [], List};
ghost use Rattle.archive_lines.specs.declared.answers.Answer.{Answer};
ghost use Rattle.page_game.specs.Counts.{count_of, one_more, AreCountsOf};

use archive_lines::Answer;

/// How many games had each answer.
#[derive(Clone, Copy)]
pub struct AnswerCounts {
    /// How many are legal.
    pub legal: usize,
    /// How many are illegal.
    pub illegal: usize,
    /// Of how many it was not settled.
    pub unsettled: usize,
    /// How many files are not records.
    pub bad_record: usize,
    /// How many records have no event.
    pub no_game: usize,
    /// How many files were not read.
    pub unread: usize,
}

/// No game had any answer.
pub(crate) fn no_counts() -> AnswerCounts
    ensures { AreCountsOf [] result }
{
    AnswerCounts {
        legal: 0,
        illegal: 0,
        unsettled: 0,
        bad_record: 0,
        no_game: 0,
        unread: 0,
    }
}

/// How many games had an answer.
pub(crate) fn count_of(counts: &AnswerCounts, answer: Answer) -> usize
    ensures { result ≡ count_of counts.now answer }
{
    match answer {
        Answer::Legal => counts.legal,
        Answer::Illegal => counts.illegal,
        Answer::Unsettled => counts.unsettled,
        Answer::BadRecord => counts.bad_record,
        Answer::NoGame => counts.no_game,
        Answer::Unread => counts.unread,
    }
}

/// The number after this one; the greatest stays.
fn next(many: usize) -> usize
    ensures { many < 2 ^ 64 - 1 → result ≡ many + 1 }
{
    many.saturating_add(1)
}

/// The counts with one answer more, as long as fewer than 2^64 - 1 games had it.
fn one_more(counts: &AnswerCounts, answer: Answer) -> AnswerCounts
    ensures { count_of counts.now answer < 2 ^ 64 - 1 → result ≡ one_more counts.now answer }
{
    let mut more = *counts;
    match answer {
        Answer::Legal => more.legal = next(more.legal),
        Answer::Illegal => more.illegal = next(more.illegal),
        Answer::Unsettled => more.unsettled = next(more.unsettled),
        Answer::BadRecord => more.bad_record = next(more.bad_record),
        Answer::NoGame => more.no_game = next(more.no_game),
        Answer::Unread => more.unread = next(more.unread),
    }
    more
}

/// Counts one answer more, as long as fewer than 2^64 - 1 games had it.
pub(crate) fn count_more(counts: &AnswerCounts, answer: Answer) -> AnswerCounts
    ensures { (answers : List Answer) → AreCountsOf answers counts.now → count_of counts.now answer < 2 ^ 64 - 1
        → AreCountsOf (answers ++ answer ∷ []) result }
{
    one_more(counts, answer)
}
