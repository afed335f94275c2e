//! Objects that every command may write: that an input is bad, and why the program could not finish.

use crate::inputs::write;
use crate::sources::shown;
use crate::troubles::Trouble;
use engine_stages::Decision;
use game_exits::Exit;
use json_base::{push_refusal, push_trouble};
use std::alloc::{AllocError, Global};
use std::rt::Runtime;

/// Writes that an input is bad, as a JSON object.
pub fn refuse_in_json<'a, R: Runtime + AllocGlobal>(
    rt: &R,
    decision: &Decision,
) -> Result<Exit, Trouble<'a>> {
    let mut text = Vec::new(rt.alloc());
    if push_refusal(rt.alloc(), &mut text, decision).is_err() {
        return Err(Trouble::NoMemory);
    }
    write(rt, text.as_slice())?;
    Ok(Exit::from(decision.verdict))
}

/// The object that says why the program could not finish.
fn trouble_text(alloc: Global, trouble: &Trouble<'_>) -> Result<Vec<u8>, AllocError> {
    let mut text = Vec::new(alloc);
    match trouble {
        Trouble::ReadFailed(name, _) => {
            push_trouble(alloc, &mut text, "read failed", Some(shown(name)))?;
        }
        Trouble::WriteFailed(name, _) => {
            push_trouble(alloc, &mut text, "write failed", Some(shown(name)))?;
        }
        Trouble::NoMemory => push_trouble(alloc, &mut text, "no memory", None)?,
        Trouble::CannotOpen(name, _) => {
            push_trouble(alloc, &mut text, "cannot open", Some(shown(name)))?;
        }
    }
    Ok(text)
}

/// Writes why the program could not finish, as a JSON object, if standard output takes it. Standard error says it too.
fn report_trouble<R: Runtime + AllocGlobal>(rt: &R, trouble: &Trouble<'_>) {
    if let Ok(text) = trouble_text(rt.alloc(), trouble) {
        let _ = write(rt, text.as_slice());
    }
}

/// The result of a command that writes its answer as a JSON object; why it could not finish is written so too.
pub fn reported_in_json<'a, R: Runtime + AllocGlobal>(
    rt: &R,
    outcome: Result<Exit, Trouble<'a>>,
) -> Result<Exit, Trouble<'a>> {
    match outcome {
        Ok(exit) => Ok(exit),
        Err(trouble) => {
            report_trouble(rt, &trouble);
            Err(trouble)
        }
    }
}
