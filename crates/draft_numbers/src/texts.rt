//! Events as a draft writes them.
ghost use Rattle.std.specs.Prelude.{◌≡◌, ◌<◌, ◌++◌, ◌∷◌, OnOk, length};
ghost use Rattle.std.specs.List.{HoldsAt};
ghost use Rattle.gcg_write.specs.Fields.{kind_text, score_text};
ghost use Rattle.draft_numbers.specs.Texts.{text_without};

use gcg_drafts::Missing;
use gcg_read::{Event, Record};
use gcg_write::{event_text, kind_text, score_text};
use std::alloc::AllocError;

/// Appends what happened, and the score.
fn push_scored(text: &mut Vec<u8>, event: &Event) -> Result<(), AllocError>
    ensures { OnOk result (text.new.items ≡ text.old.items ++ (kind_text event.now.kind ++ 32 ∷ score_text event.now.score)) }
{
    kind_text(&event.kind, text)?;
    text.push(b' ')?;
    score_text(event.score, text)
}

/// Appends what the line of the event at a place says after its rack, without the numbers that it lacks.
///
/// # Errors
///
/// Memory was refused.
pub fn push_event_text(
    text: &mut Vec<u8>,
    record: &Record,
    place: usize,
    missing: Missing,
) -> Result<(), AllocError>
    requires { place < length record.now.events }
    ensures { OnOk result (HoldsAt (λ event. text.new.items ≡ text.old.items ++ text_without missing event) record.now.events place) }
{
    let event = &record.events.as_slice()[place];
    match missing {
        Missing::Nothing => event_text(record, place, text),
        Missing::Total => push_scored(text, event),
        Missing::Both => kind_text(&event.kind, text),
    }
}
