//! The object of what explains a case.
ghost use Rattle.std.specs.Prelude.{◌≡◌, IfOk};
ghost use Rattle.std.specs.Option.{option_copied};
ghost use Rattle.json_trees.specs.Trees.{view};
ghost use Rattle.reply_texts.specs.Cases.{case_object, entry_object, is_no_game, likely_value, written_at, written_of};

use engine_stages::Verdict;
use explain_answers::Explanation;
use explain_clues::line_of;
use explain_json::explained_tree;
use game_case::{Case, Entry, Finding, case_verdict};
use gcg_read::Record;
use gcg_unread::UnreadLine;
use json_base::{bad_record_tree, no_game_tree};
use json_trees::{Tree, null_tree};
use repair_answers::Likely;
use repair_json::{single_tree, whole_tree};
use std::alloc::{AllocError, Global};

/// A line of a text, if it is named.
fn written_at(bytes: &[u8], line: Option<u32>) -> Option<&[u8]>
    ensures { option_copied result ≡ written_at bytes.now line }
{
    match line {
        Some(line) => line_of(bytes, line),
        None => None,
    }
}

/// The line that is explained, as it is in the file.
fn written_of<'t>(bytes: &'t [u8], reported: Option<&Explanation>) -> Option<&'t [u8]>
    ensures { option_copied result ≡ written_of bytes.now (option_copied reported.entry) }
{
    match reported {
        Some(reported) => written_at(bytes, reported.line),
        None => None,
    }
}

/// The likely repair of a record; null if there is none.
fn likely_tree(alloc: Global, game: &Record, likely: Option<&Likely>) -> Result<Tree, AllocError>
    ensures { IfOk result (λ tree. view tree ≡ likely_value game.now (option_copied likely.entry)) }
{
    match likely {
        Some(Likely::Change(repair)) => single_tree(alloc, game, repair),
        Some(Likely::Sheet(repair)) => whole_tree(alloc, &game.players, repair),
        None => Ok(null_tree()),
    }
}

/// Whether a record has no event.
fn is_no_game(finding: &Finding) -> bool
    ensures { result ≡ is_no_game finding.now }
{
    match finding {
        Finding::NoGame => true,
        Finding::Legal { .. } | Finding::Illegal { .. } | Finding::Unsettled => false,
    }
}

/// What explains a record with its verdict, or its event on the line or after it, with the lines that are not read.
fn entry_tree(
    alloc: Global,
    entry: &Entry,
    verdict: &Verdict,
    bytes: &[u8],
    reported: Option<&Explanation>,
    likely: Option<&Likely>,
    unread: &[UnreadLine],
) -> Result<Tree, AllocError>
    ensures { IfOk result (λ tree. view tree
        ≡ entry_object entry.now verdict.now bytes.now (option_copied reported.entry) (option_copied likely.entry) unread.now) }
{
    if is_no_game(&entry.finding) {
        return no_game_tree(alloc, unread);
    }
    let written = written_of(bytes, reported);
    let likely = likely_tree(alloc, &entry.record, likely)?;
    explained_tree(alloc, verdict, written, reported, likely, unread)
}

/// What explains a case or one of its lines, with the likely repair of its record, if that is given, and with its lines that are not read.
///
/// # Errors
///
/// It fails only if memory is refused.
pub fn case_tree(
    alloc: Global,
    case: &Case,
    reported: Option<&Explanation>,
    likely: Option<&Likely>,
    unread: &[UnreadLine],
) -> Result<Tree, AllocError>
    ensures { IfOk result (λ tree. view tree ≡ case_object case.now (option_copied reported.entry) (option_copied likely.entry) unread.now) }
{
    let verdict = case_verdict(case);
    match &case.read {
        Ok(entry) => {
            let bytes = case.text.as_slice();
            entry_tree(alloc, entry, &verdict, bytes, reported, likely, unread)
        }
        Err(fault) => bad_record_tree(alloc, *fault),
    }
}
