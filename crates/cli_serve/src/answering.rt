//! The answer to a request: the exit status of the command of its name, and what that command prints of the same bytes.
ghost use Rattle.std.specs.Prelude.{◌≡◌, IfOk};
ghost use Rattle.lex_check.specs.Pairs.{list_in};
ghost use Rattle.game_exits.specs.Exits.{status_of};
ghost use Rattle.game_known.specs.Known.{AreKnown};
ghost use Rattle.reply_answers.specs.Exits.{status_of_reply};
ghost use Rattle.reply_texts.specs.Bodies.{object_in, text_in};
ghost use Rattle.reply_texts.specs.Objects.{object_of, IsText};
ghost use Rattle.cli_serve.specs.Responses.{IsAnswerTo};

use engine_stages::RunFault;
use game_exits::Exit;
use game_known::KnownBests;
use reply_answers::{Judges, Reply, exit_of_reply, reply_to};
use reply_requests::Request;
use reply_texts::{Body, as_object};
use std::alloc::{AllocError, Global};

/// An answer.
#[derive(Drop)]
pub struct Response {
    /// How the program would end after it.
    pub exit: Exit,
    /// What it has in addition to that.
    pub body: Body,
}

/// The answer that gives a reply.
fn response_of(alloc: Global, reply: &Reply) -> Result<Response, AllocError>
    ensures status { IfOk result (λ response. status_of response.exit ≡ status_of_reply reply.now) }
    ensures has_object { IfOk result (λ response. object_in response.body ≡ object_of reply.now) }
    ensures has_text { IfOk result (λ response. IsText reply.now (text_in response.body)) }
{
    let exit = exit_of_reply(reply);
    let body = as_object(alloc, reply)?;
    Ok(Response { exit, body })
}

/// The answer to a request. Best plays that are known are not looked for again.
///
/// # Errors
///
/// It fails only if memory is refused.
#[tactic(auto, using(crate::proofs::Responses::answered))]
pub fn answer_to(
    alloc: Global,
    judges: &Judges<'_>,
    request: &Request<'_>,
    known: &mut KnownBests,
) -> Result<Response, AllocError>
    requires { AreKnown judges.now.rules.now (list_in judges.now.pair.now) known.old }
    ensures known { AreKnown judges.now.rules.now (list_in judges.now.pair.now) known.new }
    ensures answer { IfOk result (λ response. IsAnswerTo judges.now.maker.now judges.now.rules.now (list_in judges.now.pair.now) request.now response.exit (object_in response.body) (text_in response.body)) }
{
    match reply_to(alloc, judges, request, known) {
        Ok(reply) => response_of(alloc, &reply),
        Err(RunFault::NoMemory | RunFault::ReadFailed | RunFault::WriteFailed) => Err(AllocError),
    }
}
