//! A sheet with notes.
ghost use Rattle.std.specs.Prelude.{◌≡◌, IfOk};
ghost use Rattle.lex_check.specs.Pairs.{list_in};
ghost use Rattle.sheet_notes.specs.Notes.{IsAnnotatedSheet};
ghost use Rattle.reply_answers.specs.Annotated.{notes_asked};
ghost use Rattle.reply_answers.specs.Given.{FailsForMemoryAlone, read_of};

use crate::games::case_in;
use engine_stages::RunFault;
use lex_check::Checked;
use ref_tiles::Rules;
use sheet_notes::{AnnotatedSheet, annotated_sheet};
use std::alloc::Global;

/// How many best plays a note has.
fn notes_asked(number: Option<u32>) -> usize
    ensures { result ≡ notes_asked number }
{
    match number {
        None => 1,
        Some(number) => number as usize,
    }
}

/// A sheet with notes, each with at most so many best plays: what `annotate` finds.
pub fn annotated(
    alloc: Global,
    rules: &Rules,
    pair: &Checked<'_>,
    game: &[u8],
    number: Option<u32>,
) -> Result<AnnotatedSheet, RunFault>
    ensures annotated { IfOk result (IsAnnotatedSheet (notes_asked number) rules.now (list_in pair.now) (read_of game.now)) }
    ensures memory { FailsForMemoryAlone result }
{
    let case = case_in(alloc, rules, pair, game)?;
    Ok(annotated_sheet(alloc, rules, pair, case, notes_asked(number))?)
}
