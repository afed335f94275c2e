//! The forms in which a reply is written.
ghost use Rattle.std.specs.Prelude.{IfOk};
ghost use Rattle.cli_replies.specs.declared.forms.Form.TheVariants as form;
ghost use Rattle.cli_replies.specs.Forms.{IsWrittenAs};

use engine_stages::Decision;
use game_exits::Exit;
use reply_answers::{Reply, exit_of_reply};
use reply_calls::{Printed, Rendering};
use reply_texts::{each_in_words, in_object, in_words, refusal_object};
use std::alloc::{AllocError, Global};

/// The form in which a reply is written.
#[derive(Clone, Copy)]
pub enum Form {
    /// In words, for people.
    Words,
    /// In words, with a line for each word that is asked about.
    EachWord,
    /// As a JSON object, for programs.
    Object,
}

/// What was found, in words. A bad input is reported by its line.
fn words_of(alloc: Global, found: &Result<Reply, Decision>) -> Result<Printed, AllocError>
    ensures { IfOk result (IsWrittenAs form.Words found.now) }
{
    match found {
        Ok(reply) => in_words(alloc, reply),
        Err(decision) => Printed::of_bytes(alloc, decision.report.as_slice()),
    }
}

/// What was found, in words, with a line for each word that is asked about.
fn each_of(alloc: Global, found: &Result<Reply, Decision>) -> Result<Printed, AllocError>
    ensures { IfOk result (IsWrittenAs form.EachWord found.now) }
{
    match found {
        Ok(Reply::Ruled(ruled)) => each_in_words(alloc, ruled),
        Ok(reply) => in_words(alloc, reply),
        Err(decision) => Printed::of_bytes(alloc, decision.report.as_slice()),
    }
}

/// What was found, as an object.
fn object_of(alloc: Global, found: &Result<Reply, Decision>) -> Result<Printed, AllocError>
    ensures { IfOk result (IsWrittenAs form.Object found.now) }
{
    match found {
        Ok(reply) => in_object(alloc, reply),
        Err(decision) => Ok(Printed::report(refusal_object(alloc, decision)?)),
    }
}

impl Rendering<Reply> for Form {
    ghost use Rattle.reply_answers.specs.Exits.{status_of_reply};
    ghost use Rattle.cli_replies.specs.Forms.{IsWrittenAs};

    ghost shows = { λ form found printed. IsWrittenAs form found printed };

    ghost status = { status_of_reply };

    fn render(
        &self,
        alloc: Global,
        found: &Result<Reply, Decision>,
    ) -> Result<Printed, AllocError> {
        match self {
            Form::Words => words_of(alloc, found),
            Form::EachWord => each_of(alloc, found),
            Form::Object => object_of(alloc, found),
        }
    }

    fn exit(&self, reply: &Reply) -> Exit {
        exit_of_reply(reply)
    }
}
