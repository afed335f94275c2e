//! The sentences of a page.

use explain_lines::push_reason;
use explain_records::{push_time_racks, push_unread_lines};
use page_answers::PagedCase;
use page_game::Shown;
use repair_lines::push_likely;
use sheet_audit::push_last_line;
use std::alloc::{AllocError, Global};

/// What a page says in sentences. They are those of `explain`, and the last line of `audit`.
#[derive(Drop)]
pub(crate) struct Sentences {
    /// Which lines are not read although they look like events, and why the verdict is what it is.
    pub reason: Vec<u8>,
    /// What should be there and what is, with the evidence, if there is a likely repair.
    pub likely: Vec<u8>,
    /// Who is ahead by the right numbers, and by the sheet if that is not the same, if a number is wrong and there is no likely repair.
    pub lead: Vec<u8>,
}

/// What the page of a case says in sentences.
///
/// It fails only if memory runs out.
pub(crate) fn sentences_of(
    alloc: Global,
    paged: &PagedCase,
    shown: &Shown<'_>,
) -> Result<Sentences, AllocError> {
    let contents = shown.contents;
    let players = &shown.game.players;
    let mut reason = Vec::new(alloc);
    push_unread_lines(alloc, &mut reason, paged.case.text.as_slice())?;
    push_time_racks(&mut reason, paged.case.text.as_slice())?;
    push_reason(&mut reason, players, contents.explanation.as_ref())?;
    let mut likely = Vec::new(alloc);
    push_likely(&mut likely, shown.game, paged.likely.as_ref())?;
    let mut lead = Vec::new(alloc);
    if let Some(audit) = &contents.audit {
        push_last_line(&mut lead, audit)?;
    }
    Ok(Sentences {
        reason,
        likely,
        lead,
    })
}
