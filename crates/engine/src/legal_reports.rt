//! The report of a legal game, as bytes.
ghost use Rattle.std.specs.Prelude.{IfOk};
ghost use Rattle.game_turns.specs.{Passing.{rules_in, record_in}, Places.{is_finished}};
ghost use Rattle.lex_check.specs.Pairs as pairs;
ghost use Rattle.engine.specs.LegalReports.{IsLegalReport};

use engine_stages::legal_line;
use game_report::push_event_lines;
use game_turns::Passed;
use lex_check::Checked;
use std::alloc::{AllocError, Global};

/// The verdict on a legal game, and then a line for each of its events.
pub fn legal_report(
    alloc: Global,
    passed: &Passed<'_>,
    pair: &Checked<'_>,
) -> Result<Vec<u8>, AllocError>
    ensures { IfOk result (λ text. IsLegalReport (rules_in passed.now) (pairs.list_in pair.now)
        (is_finished (rules_in passed.now) (record_in passed.now).events) (record_in passed.now) text.items) }
{
    let mut text = Vec::from_slice(alloc, legal_line(passed.complete()))?;
    push_event_lines(&mut text, passed, pair)?;
    Ok(text)
}
