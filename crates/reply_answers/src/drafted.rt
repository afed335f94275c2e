//! What is found of a draft, with the record that it makes.
ghost use Rattle.std.specs.Prelude.{◌≡◌, IfOk, IfSome, is_some};
ghost use Rattle.lex_check.specs.Pairs.{list_in};
ghost use Rattle.reply_answers.specs.Drafted.{is_kept, IsKeptOf, IsFilledSheet};
ghost use Rattle.reply_answers.specs.Given.{FailsForMemoryAlone};

use draft_answers::{DraftFault, FilledDraft, fill_draft, is_out, out_text};
use engine_stages::RunFault;
use gcg_unread::{UnreadLine, unread_lines};
use lex_check::Checked;
use ref_tiles::Rules;
use std::alloc::{AllocError, Global};

/// A draft that is filled, with the record that it makes.
#[derive(Drop)]
pub struct FilledSheet {
    /// What is found of the draft, or its first fault.
    pub found: Result<FilledDraft, DraftFault>,
    /// The text of the record, if it is requested and to be written.
    pub kept: Option<Vec<u8>>,
    /// The lines of the draft that are not read although they look like events.
    pub unread: Vec<UnreadLine>,
}

/// The text of the record that a draft makes, if it is requested and to be written.
#[tactic(auto, using(crate::proofs::Drafting::kept))]
fn kept_of(
    alloc: Global,
    found: &Result<FilledDraft, DraftFault>,
    filled: bool,
) -> Result<Option<Vec<u8>>, AllocError>
    ensures asked { IfOk result (λ kept. is_some kept ≡ is_kept filled found.now) }
    ensures kept { IfOk result (λ kept. IfSome kept (λ out. IsKeptOf found.now out.items)) }
{
    match found {
        Ok(draft) if filled && is_out(draft) => Ok(Some(out_text(alloc, draft)?)),
        _ => Ok(None),
    }
}

/// What is found of a draft: what `fill` finds; and the text of the record, if it is requested and to be written.
#[tactic(auto, using(crate::proofs::Drafting::only_kept))]
pub fn filled_sheet(
    alloc: Global,
    rules: &Rules,
    pair: &Checked<'_>,
    draft: &[u8],
    filled: bool,
) -> Result<FilledSheet, RunFault>
    ensures filled { IfOk result (IsFilledSheet rules.now (list_in pair.now) draft.now filled) }
    ensures memory { FailsForMemoryAlone result }
{
    let found = fill_draft(alloc, rules, pair, draft)?;
    let kept = kept_of(alloc, &found, filled)?;
    let unread = unread_lines(alloc, draft)?;
    Ok(FilledSheet {
        found,
        kept,
        unread,
    })
}
