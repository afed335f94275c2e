//! The right numbers in the place of those that are missing.
ghost use Rattle.std.specs.Prelude.{◌≡◌, IfOk, length};
ghost use Rattle.std.specs.Option.{option_copied};
ghost use Rattle.draft_answers.specs.Filling.{filled_by, said, filled, has_missing};

use crate::counting::is_missing;
use game_walk::Numbers;
use gcg_drafts::Missing;
use std::alloc::{AllocError, Global};

/// The numbers of an event: those that are written, and the right ones in the place of those that are missing.
fn filled_by(missing: Missing, written: &Numbers, right: &Numbers) -> Numbers
    ensures { result ≡ filled_by missing written.now right.now }
{
    match missing {
        Missing::Nothing => *written,
        Missing::Total => Numbers {
            score: written.score,
            total: right.total,
        },
        Missing::Both => *right,
    }
}

/// What is said of an event: it lacks nothing, if nothing is said.
pub(crate) fn said(missing: Option<&Missing>) -> Missing
    ensures { result ≡ said (option_copied missing.entry) }
{
    match missing {
        None => Missing::Nothing,
        Some(missing) => *missing,
    }
}

/// The numbers of all events, by what each of them lacks.
#[tactic(auto, using(crate::proofs::Fills::one_more_filled, crate::proofs::Fills::all_filled))]
pub(crate) fn filled(
    alloc: Global,
    lacks: &[Missing],
    written: &[Numbers],
    right: &[Numbers],
) -> Result<Vec<Numbers>, AllocError>
    requires { length right.now ≡ length written.now }
    ensures { IfOk result (λ numbers. numbers.items ≡ filled lacks.now written.now right.now) }
{
    let mut numbers = Vec::new(alloc);
    for place in 0..written.len() {
        let missing = said(lacks.get(place));
        numbers.push(filled_by(missing, &written[place], &right[place]))?;
    }
    Ok(numbers)
}

/// Whether some event lacks a number.
pub fn has_missing(lacks: &[Missing]) -> bool
    ensures { result ≡ has_missing lacks.now }
{
    lacks.iter().any(|missing| is_missing(*missing))
}
