//! The normal form of a record that is given as a text.
ghost use Rattle.std.specs.Prelude.{◌≡◌, IfOk};
ghost use Rattle.gcg_write.specs.Normal.{normal_of};
ghost use Rattle.reply_answers.specs.Given.{FailsForMemoryAlone, read_of};
ghost use Rattle.reply_answers.specs.Tidied.{IsTidiedOf};

use crate::records::GivenRecord;
use engine_stages::{Decision, RunFault, Verdict, read_text, record_from};
use gcg_read::{MAX_BYTES, Record};
use gcg_write::write;
use std::alloc::{AllocError, Global};

/// The normal form of a record.
fn normal_form(alloc: Global, game: &Record) -> Result<Vec<u8>, AllocError>
    ensures { IfOk result (λ text. text.items ≡ normal_of game.now) }
{
    let mut text = Vec::new(alloc);
    write(game, &mut text)?;
    Ok(text)
}

/// The normal form of the record of a text, or the verdict that the text is not a record.
#[tactic(auto, using(crate::proofs::TidyLaws::no_record, crate::proofs::TidyLaws::is_record))]
fn tidied_from(alloc: Global, text: &[u8]) -> Result<Decision, AllocError>
    ensures { IfOk result (IsTidiedOf text.now) }
{
    let record = match record_from(alloc, text)? {
        Ok(record) => record,
        Err(decision) => return Ok(decision),
    };
    let report = normal_form(alloc, &record)?;
    Ok(Decision {
        verdict: Verdict::Done,
        report,
        fault: None,
    })
}

/// The bytes that are read of a record.
#[tactic(auto, using(crate::proofs::Reading::text_read))]
pub fn bytes_read(alloc: Global, game: &[u8]) -> Result<Vec<u8>, RunFault>
    ensures text { IfOk result (λ text. text.items ≡ read_of game.now) }
    ensures memory { FailsForMemoryAlone result }
{
    let mut input = GivenRecord::new(game);
    read_text(alloc, &mut input, MAX_BYTES)
}

/// The normal form of a record, or the verdict that it is not one: what `tidy` writes.
#[tactic(auto, using(crate::proofs::TidyLaws::of_read))]
pub fn tidied(alloc: Global, game: &[u8]) -> Result<Decision, RunFault>
    ensures tidied { IfOk result (IsTidiedOf (read_of game.now)) }
    ensures memory { FailsForMemoryAlone result }
{
    let text = bytes_read(alloc, game)?;
    Ok(tidied_from(alloc, &text)?)
}
