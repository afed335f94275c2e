//! Answers as lines.
ghost use Rattle.std.specs.Prelude.{◌≡◌, ◌++◌, [], codes, IfOk, OnOk, option_map};
ghost use Rattle.std.specs.Option.{option_copied};
ghost use Rattle.std.specs.String.{string_bytes};
ghost use Rattle.json_trees.specs.Texts.{json_line};
ghost use Rattle.json_trees.specs.Trees as trees;
ghost use Rattle.lex_check.specs.Pairs.{list_in};
ghost use Rattle.game_exits.specs.Exits.{status_of};
ghost use Rattle.game_known.specs.Known.{AreKnown};
ghost use Rattle.serde_json.specs.View.{view};
ghost use Rattle.reply_texts.specs.Bodies.{object_in, text_in};
ghost use Rattle.cli_serve.specs.AnswerLines.{IsIdText, IsAnswerLine, IsRefusedLine, IsRefusedWith, IsLineOf, IsLineOfText, answer_line, head, no_memory_line, object_part, refused_line, text_part};
ghost use Rattle.cli_serve.specs.Ready.{ready_object};
ghost use Rattle.reply_requests.specs.Said.{value_at};

use crate::answering::{Response, answer_to};
use game_exits::Exit;
use game_known::KnownBests;
use json_base::trouble_tree;
use json_trees::{
    Tree, bool_tree, line_of, name_tree, object, push_tree, size_tree, string_tree, text_tree,
};
use reply_answers::Judges;
use reply_requests::{Refusal, Request, id_in, request_in};
use reply_texts::Body;
use serde_json::Value;
use std::alloc::{AllocError, Global};
use text_decimals::push_number;

/// The id of an answer to a line that has none.
const NO_ID: &[u8] = b"null";

/// The answer to a line if there is no memory for its own answer.
pub const NO_MEMORY_LINE: &[u8] =
    b"{\"id\":null,\"status\":4,\"answer\":{\"verdict\":\"no memory\",\"line\":null,\"fault\":null,\"file\":null}}\n";

/// The line that says that requests can be asked, that the list has `words` words, and which version of the program answers.
pub fn ready_line(alloc: Global, words: usize, version: &'static str) -> Result<Vec<u8>, AllocError>
    ensures { IfOk result (λ line. line.items ≡ json_line (ready_object words version.now)) }
{
    let fields = vec![in alloc;
        ("ready", bool_tree(true)),
        ("words", size_tree(words)),
        ("version", name_tree(version)),
    ]?;
    let tree = object(fields);
    line_of(alloc, &tree)
}

/// Appends the beginning of the line of an answer.
fn push_head(out: &mut Vec<u8>, id: &[u8], exit: Exit) -> Result<(), AllocError>
    ensures { OnOk result (out.new.items ≡ out.old.items ++ head id.now (status_of exit)) }
{
    out.extend_from_slice(b"{\"id\":")?;
    out.extend_from_slice(id)?;
    out.extend_from_slice(b",\"status\":")?;
    push_number(out, exit.status() as usize)?;
    Ok(())
}

/// Appends the object of an answer, if it has one.
fn push_object(out: &mut Vec<u8>, object: Option<&Tree>) -> Result<(), AllocError>
    ensures { OnOk result (out.new.items ≡ out.old.items ++ object_part (option_map trees.view (option_copied object.entry))) }
{
    match object {
        None => Ok(()),
        Some(tree) => {
            out.extend_from_slice(b",\"answer\":")?;
            push_tree(out, tree)
        }
    }
}

/// Appends the text of an answer, if it has one. Bytes that are not UTF-8 are written as U+FFFD.
fn push_text(alloc: Global, out: &mut Vec<u8>, said: Option<&[u8]>) -> Result<(), AllocError>
    ensures { OnOk result (out.new.items ≡ out.old.items ++ text_part (option_copied said.entry)) }
{
    match said {
        None => Ok(()),
        Some(bytes) => {
            out.extend_from_slice(b",\"text\":")?;
            let tree = text_tree(alloc, bytes)?;
            push_tree(out, &tree)
        }
    }
}

/// Appends the line of an answer.
fn push_reported(
    alloc: Global,
    out: &mut Vec<u8>,
    id: &[u8],
    exit: Exit,
    body: &Body,
) -> Result<(), AllocError>
    ensures { OnOk result (out.new.items ≡ out.old.items ++ answer_line id.now (status_of exit) (object_in body.now) (text_in body.now)) }
{
    push_head(out, id, exit)?;
    push_object(out, body.object())?;
    push_text(alloc, out, body.text())?;
    out.extend_from_slice(b"}\n")
}

/// Appends the line that says why a line is not a request.
fn push_error(out: &mut Vec<u8>, id: &[u8], error: String) -> Result<(), AllocError>
    ensures { OnOk result (out.new.items ≡ out.old.items ++ refused_line id.now (string_bytes error)) }
{
    push_head(out, id, Exit::Usage)?;
    out.extend_from_slice(b",\"error\":")?;
    push_tree(out, &string_tree(error))?;
    out.extend_from_slice(b"}\n")
}

/// Appends the line that says that a line is not a request.
#[tactic(auto, using(crate::proofs::AnswerLines::refused_with))]
fn push_refused(
    alloc: Global,
    out: &mut Vec<u8>,
    id: &[u8],
    refusal: Refusal<'_>,
) -> Result<(), AllocError>
    ensures { OnOk result (IsRefusedWith id.now out.old.items out.new.items) }
{
    if refusal == Refusal::NoMemory {
        return Err(AllocError);
    }
    let Ok(error) = format!(in alloc; "{refusal}") else {
        return Err(AllocError);
    };
    push_error(out, id, error)
}

/// Appends the line that says that an object is not a request. Without a `do` its `id` does not count.
#[tactic(auto, using(crate::proofs::AnswerLines::refused_by))]
fn push_no_request(
    alloc: Global,
    out: &mut Vec<u8>,
    id: &[u8],
    refusal: Refusal<'_>,
) -> Result<(), AllocError>
    ensures { OnOk result (IsRefusedLine out.old.items out.new.items) }
{
    if refusal == Refusal::NoCommand {
        push_refused(alloc, out, NO_ID, refusal)
    } else {
        push_refused(alloc, out, id, refusal)
    }
}

/// Appends the line of this answer.
fn push_response(
    alloc: Global,
    out: &mut Vec<u8>,
    id: &[u8],
    response: &Response,
) -> Result<(), AllocError>
    ensures { OnOk result (out.new.items ≡ out.old.items ++ answer_line id.now (status_of response.now.exit) (object_in response.now.body) (text_in response.now.body)) }
{
    push_reported(alloc, out, id, response.exit, &response.body)
}

/// Appends the line of the answer to a request.
fn push_answer(
    alloc: Global,
    out: &mut Vec<u8>,
    judges: &Judges<'_>,
    id: &[u8],
    request: &Request<'_>,
    known: &mut KnownBests,
) -> Result<(), AllocError>
    requires { AreKnown judges.now.rules.now (list_in judges.now.pair.now) known.old }
    ensures known { AreKnown judges.now.rules.now (list_in judges.now.pair.now) known.new }
    ensures line { OnOk result (IsAnswerLine judges.now.maker.now judges.now.rules.now (list_in judges.now.pair.now) request.now id.now out.old.items out.new.items) }
{
    match answer_to(alloc, judges, request, known) {
        Ok(response) => push_response(alloc, out, id, &response),
        Err(error) => Err(error),
    }
}

/// Appends the line of the answer to an object with this id, if it is a request; otherwise that it is not one.
#[tactic(auto, using(crate::proofs::AnswerLines::answered, crate::proofs::AnswerLines::refused))]
fn push_line_of(
    alloc: Global,
    out: &mut Vec<u8>,
    judges: &Judges<'_>,
    id: &[u8],
    object: &Value,
    known: &mut KnownBests,
) -> Result<(), AllocError>
    requires known { AreKnown judges.now.rules.now (list_in judges.now.pair.now) known.old }
    requires id { IsIdText (value_at (codes "id") (view object.now)) id.now }
    ensures known { AreKnown judges.now.rules.now (list_in judges.now.pair.now) known.new }
    ensures line { OnOk result (IsLineOf judges.now.maker.now judges.now.rules.now (list_in judges.now.pair.now) (view object.now) out.old.items out.new.items) }
{
    match request_in(alloc, object) {
        Ok(request) => push_answer(alloc, out, judges, id, &request, known),
        Err(refusal) => push_no_request(alloc, out, id, refusal),
    }
}

/// Appends that there is no memory for an answer.
fn push_no_memory(alloc: Global, out: &mut Vec<u8>, id: &[u8]) -> Result<(), AllocError>
    ensures { OnOk result (out.new.items ≡ out.old.items ++ no_memory_line id.now) }
{
    let body = Body::Object(trouble_tree(alloc, "no memory", None)?);
    push_reported(alloc, out, id, Exit::Broken, &body)
}

/// Makes the line of the answer to an object with this id, or the line that there is no memory for it.
#[tactic(auto, using(crate::proofs::AnswerLines::no_memory))]
fn make_answer(
    alloc: Global,
    out: &mut Vec<u8>,
    judges: &Judges<'_>,
    id: &[u8],
    object: &Value,
    known: &mut KnownBests,
) -> Result<(), AllocError>
    requires empty { out.old.items ≡ [] }
    requires known { AreKnown judges.now.rules.now (list_in judges.now.pair.now) known.old }
    requires id { IsIdText (value_at (codes "id") (view object.now)) id.now }
    ensures known { AreKnown judges.now.rules.now (list_in judges.now.pair.now) known.new }
    ensures line { OnOk result (IsLineOf judges.now.maker.now judges.now.rules.now (list_in judges.now.pair.now) (view object.now) [] out.new.items) }
{
    if push_line_of(alloc, out, judges, id, object, known).is_ok() {
        return Ok(());
    }
    out.clear();
    push_no_memory(alloc, out, id)
}

/// Makes the line of the answer to an object.
#[tactic(auto, using(crate::proofs::AnswerLines::id_refused, crate::proofs::AnswerLines::with_id, crate::proofs::AnswerLines::without_id))]
fn make_line_of(
    alloc: Global,
    out: &mut Vec<u8>,
    judges: &Judges<'_>,
    object: &Value,
    known: &mut KnownBests,
) -> Result<(), AllocError>
    requires empty { out.old.items ≡ [] }
    requires known { AreKnown judges.now.rules.now (list_in judges.now.pair.now) known.old }
    ensures known { AreKnown judges.now.rules.now (list_in judges.now.pair.now) known.new }
    ensures line { OnOk result (IsLineOf judges.now.maker.now judges.now.rules.now (list_in judges.now.pair.now) (view object.now) [] out.new.items) }
{
    match id_in(object) {
        Ok(Some(id)) => {
            let id = id.to_vec(alloc)?;
            make_answer(alloc, out, judges, id.as_slice(), object, known)
        }
        Ok(None) => make_answer(alloc, out, judges, NO_ID, object, known),
        Err(refusal) => push_refused(alloc, out, NO_ID, refusal),
    }
}

/// Makes the line that says that a line is not a request.
///
/// # Errors
///
/// It fails only if memory is refused.
#[tactic(auto, using(crate::proofs::AnswerLines::refused_first))]
pub fn make_refusal(
    alloc: Global,
    out: &mut Vec<u8>,
    refusal: Refusal<'_>,
) -> Result<(), AllocError>
    ensures { OnOk result (IsRefusedWith (codes "null") [] out.new.items) }
{
    out.clear();
    push_refused(alloc, out, NO_ID, refusal)
}

/// Makes the line of the answer to a line. The words of an `error` and the text of a page are not promised.
///
/// # Errors
///
/// It fails only if memory is refused, even for the line that says so.
#[tactic(auto, using(crate::proofs::AnswerLines::of_text, crate::proofs::AnswerLines::no_text))]
pub fn make_line(
    alloc: Global,
    out: &mut Vec<u8>,
    judges: &Judges<'_>,
    line: &[u8],
    known: &mut KnownBests,
) -> Result<(), AllocError>
    requires { AreKnown judges.now.rules.now (list_in judges.now.pair.now) known.old }
    ensures known { AreKnown judges.now.rules.now (list_in judges.now.pair.now) known.new }
    ensures line { OnOk result (IsLineOfText judges.now.maker.now judges.now.rules.now (list_in judges.now.pair.now) line.now out.new.items) }
{
    out.clear();
    match Value::from_slice(alloc, line) {
        Ok(object) => make_line_of(alloc, out, judges, &object, known),
        Err(error) if error.is_memory() => Err(AllocError),
        Err(_) => push_refused(alloc, out, NO_ID, Refusal::NoJson),
    }
}
