//! Replies in words for people.
ghost use Rattle.std.specs.Prelude.{IfOk};
ghost use Rattle.reply_texts.specs.Words.{IsInWords};

use crate::audits::audit_words;
use crate::boards::board_words;
use crate::compared::compared_words;
use crate::drafted::{fault_words, filled_words, next_words};
use crate::explained::explained_words;
use crate::made::{annotated_words, paged_words};
use crate::objects::in_object;
use crate::repaired::repaired_words;
use crate::ruled::ruled_words;
use reply_answers::Reply;
use reply_calls::Printed;
use std::alloc::{AllocError, Global};

/// What is written of a reply in words. A reply that the program gives only as an object is one.
///
/// # Errors
///
/// It fails only if memory is refused.
pub fn in_words(alloc: Global, reply: &Reply) -> Result<Printed, AllocError>
    ensures { IfOk result (IsInWords reply.now) }
{
    match reply {
        Reply::Explained(explained) => explained_words(alloc, explained),
        Reply::Audited(sheet) => audit_words(alloc, sheet),
        Reply::Paged(paged) => paged_words(alloc, paged),
        Reply::Annotated(sheet) => annotated_words(alloc, sheet),
        Reply::Compared(found) => compared_words(alloc, found),
        Reply::Repaired(repaired) => repaired_words(alloc, repaired),
        Reply::Ruled(ruled) => ruled_words(alloc, ruled),
        Reply::Filled(sheet) => filled_words(alloc, sheet),
        Reply::Next(found) => next_words(alloc, found),
        Reply::NoDraft(fault) => fault_words(alloc, fault),
        Reply::Boarded(sheet) => board_words(alloc, sheet),
        Reply::Judged(_) | Reply::Found(_) | Reply::Checked(_) | Reply::Tidied(_) => {
            in_object(alloc, reply)
        }
    }
}
