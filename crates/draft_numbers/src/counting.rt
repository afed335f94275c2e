//! How many numbers of a draft there are to go by.
ghost use Rattle.std.specs.Prelude.{◌≡◌, ◌+◌, count_by, slice_get};
ghost use Rattle.std.specs.Option.{option_copied};
ghost use Rattle.draft_numbers.specs.Counting.{lacks_total, lacks_score, count_missing, count_on, count_remaining_out, numbers_to_go_by, count_written};

use gcg_drafts::Missing;
use repair_changes::{Change, leaves_out, numbers_with};

/// Whether a line lacks its total.
fn lacks_total(missing: Missing) -> bool
    ensures { result ≡ lacks_total missing }
{
    match missing {
        Missing::Nothing => false,
        Missing::Total | Missing::Both => true,
    }
}

/// Whether a line lacks its score.
fn lacks_score(missing: Missing) -> bool
    ensures { result ≡ lacks_score missing }
{
    match missing {
        Missing::Nothing | Missing::Total => false,
        Missing::Both => true,
    }
}

/// How many totals are missing.
fn count_totals(lacks: &[Missing]) -> usize
    ensures { result ≡ count_by lacks_total lacks.now }
{
    lacks
        .iter()
        .filter(|missing| lacks_total(**missing))
        .count()
}

/// How many scores are missing.
fn count_scores(lacks: &[Missing]) -> usize
    ensures { result ≡ count_by lacks_score lacks.now }
{
    lacks
        .iter()
        .filter(|missing| lacks_score(**missing))
        .count()
}

/// How many numbers are missing.
fn count_missing(lacks: &[Missing]) -> u128
    ensures { result ≡ count_missing lacks.now }
{
    count_totals(lacks) as u128 + count_scores(lacks) as u128
}

/// How many numbers a line lacks, if something is said of it.
fn count_on(missing: Option<&Missing>) -> u128
    ensures { result ≡ count_on (option_copied missing.entry) }
{
    match missing {
        None | Some(Missing::Nothing) => 0,
        Some(Missing::Total) => 1,
        Some(Missing::Both) => 2,
    }
}

/// How many numbers are missing of a line that a change leaves out.
fn count_remaining_out(lacks: &[Missing], change: &Change) -> u128
    ensures { result ≡ count_remaining_out lacks.now change.now }
{
    if leaves_out(&change.slip) {
        count_on(lacks.get(change.place))
    } else {
        0
    }
}

/// How many numbers of a draft with so many events there are to go by with a change: those that a record has with it, without those that are missing. None is
/// missing of a line that is left out.
pub fn numbers_to_go_by(lacks: &[Missing], change: &Change, events: usize) -> u128
    ensures { result ≡ numbers_to_go_by lacks.now change.now events }
{
    let missing = count_missing(lacks).saturating_sub(count_remaining_out(lacks, change));
    numbers_with(&change.slip, events).saturating_sub(missing)
}

/// How many numbers of a draft with so many events are written.
pub fn count_written(lacks: &[Missing], events: usize) -> u128
    ensures { result ≡ count_written lacks.now events }
{
    (2 * events as u128).saturating_sub(count_missing(lacks))
}
