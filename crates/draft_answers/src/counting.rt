//! How many numbers are put into a draft.
ghost use Rattle.std.specs.Prelude.{◌≡◌, count_by};
ghost use Rattle.draft_answers.specs.Counting.{is_missing, is_both, lacks_before};

use crate::filled::FilledDraft;
use game_board::place_of_line;
use game_walk::Refusal;
use gcg_drafts::Missing;
use gcg_read::Event;

/// How many numbers are put into a draft.
#[derive(Clone, Copy)]
pub struct PutIn {
    /// How many scores.
    pub scores: usize,
    /// How many totals.
    pub totals: usize,
}

/// Whether an event lacks its total.
pub(crate) fn is_missing(missing: Missing) -> bool
    ensures { result ≡ is_missing missing }
{
    match missing {
        Missing::Nothing => false,
        Missing::Total | Missing::Both => true,
    }
}

/// Whether an event lacks its score.
fn is_both(missing: Missing) -> bool
    ensures { result ≡ is_both missing }
{
    match missing {
        Missing::Nothing | Missing::Total => false,
        Missing::Both => true,
    }
}

/// How many events lack their total.
fn count_totals(lacks: &[Missing]) -> usize
    ensures { result ≡ count_by is_missing lacks.now }
{
    lacks.iter().filter(|missing| is_missing(**missing)).count()
}

/// How many events lack their score.
fn count_scores(lacks: &[Missing]) -> usize
    ensures { result ≡ count_by is_both lacks.now }
{
    lacks.iter().filter(|missing| is_both(**missing)).count()
}

/// What the events lack that come before the line on which the correction stops.
fn lacks_before<'a>(
    lacks: &'a [Missing],
    events: &[Event],
    stopped: &Option<Refusal>,
) -> &'a [Missing]
    ensures { result.now ≡ lacks_before lacks.now events.now stopped.now }
{
    let Some(refusal) = stopped else {
        return lacks;
    };
    match place_of_line(events, refusal.line) {
        Some(place) if place <= lacks.len() => &lacks[..place],
        _ => lacks,
    }
}

/// How many numbers are put into a draft: those that are missing, but for the events from the line on that the rules refuse with any numbers.
pub fn put_in(filled: &FilledDraft) -> PutIn
    ensures totals { result.totals ≡ count_by is_missing (lacks_before filled.now.lacks.items filled.now.answer.audit.entry.record.events filled.now.stopped) }
    ensures scores { result.scores ≡ count_by is_both (lacks_before filled.now.lacks.items filled.now.answer.audit.entry.record.events filled.now.stopped) }
{
    let events = filled.answer.audit.entry.record.events.as_slice();
    let lacks = lacks_before(filled.lacks.as_slice(), events, &filled.stopped);
    PutIn {
        scores: count_scores(lacks),
        totals: count_totals(lacks),
    }
}
