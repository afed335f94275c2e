//! What the line of a game says of its likely repair.
ghost use Rattle.std.specs.Prelude.{true, false, IfOk};
ghost use Rattle.archive_answers.specs.Lines.{has_repair, SaysChange, SaysLikely};

use archive_lines::LikelyFields;
use game_case::Case;
use gcg_about::Encoding;
use gcg_read::Record;
use repair_answers::Likely;
use repair_lines::{push_likely_change, push_likely_numbers};
use std::alloc::{AllocError, Global};

/// What a line says of a repair of a record. Names are read by the encoding of the record.
fn words_of(
    alloc: Global,
    game: &Record,
    likely: &Likely,
    encoding: Encoding,
) -> Result<LikelyFields, AllocError>
    ensures { IfOk result (SaysChange true) }
{
    let mut change = Vec::new(alloc);
    push_likely_change(&mut change, game, likely)?;
    let mut numbers = Vec::new(alloc);
    push_likely_numbers(&mut numbers, game, likely)?;
    Ok(LikelyFields {
        change: Some(encoding.text_of(alloc, change.as_slice())?),
        numbers_right: Some(encoding.text_of(alloc, numbers.as_slice())?),
    })
}

/// What the line of a case says of its likely repair: nothing if the text is not a record, or if there is none.
fn said_of(alloc: Global, case: &Case, likely: &Option<Likely>) -> Result<LikelyFields, AllocError>
    ensures { IfOk result (SaysChange (has_repair case.now.read likely.now)) }
{
    match (&case.read, likely) {
        (Ok(entry), Some(likely)) => {
            let encoding = Encoding::of(case.text.as_slice());
            words_of(alloc, &entry.record, likely, encoding)
        }
        (Ok(_), None) => Ok(LikelyFields::NONE),
        (Err(_), _) => Ok(LikelyFields::NONE),
    }
}

/// What the line of a case says of its likely repair, if that is asked for.
pub(crate) fn likely_said(
    alloc: Global,
    asked: bool,
    case: &Case,
    likely: &Option<Likely>,
) -> Result<Option<LikelyFields>, AllocError>
    ensures { IfOk result (SaysLikely asked (has_repair case.now.read likely.now)) }
{
    if asked {
        Ok(Some(said_of(alloc, case, likely)?))
    } else {
        Ok(None)
    }
}

/// What the line of a game without a likely repair says of it, if that is asked for.
pub(crate) fn none_said(asked: bool) -> Option<LikelyFields>
    ensures { SaysLikely asked false result }
{
    if asked {
        Some(LikelyFields::NONE)
    } else {
        None
    }
}
