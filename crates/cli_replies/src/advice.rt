//! What standard error says in addition to an answer.

use cli_files::{
    SheetFile, Source, advise_bad_record, advise_no_game, advise_unread, has_game, is_record,
};
use game_exits::Exit;
use reply_requests::Task;
use std::rt::Runtime;

/// Whether the report on a bad record says itself what is wrong with it, or the text need not be a record.
fn says_why(task: Task<'_>) -> bool {
    match task {
        Task::Explain { .. } | Task::Fill { .. } | Task::Next => true,
        Task::Repair { draft, .. } => draft,
        _ => false,
    }
}

/// If a sheet is not a game, says why, in addition to the report on it, unless that says it itself. Says which lines are not read although they look like
/// events.
pub fn advise<R: Runtime + AllocGlobal>(
    rt: &R,
    name: &str,
    task: Task<'_>,
    exit: Exit,
    sheet: &SheetFile<Source<R>>,
) {
    let front = sheet.inner().front();
    if exit == Exit::BadInput {
        if is_record(rt.alloc(), front) {
            advise_no_game(rt, name, front);
        } else if !says_why(task) {
            advise_bad_record(rt, name, front);
        }
    }
    advise_unread(rt, name, front);
}

/// The same for the second of two sheets, if the first is a record with an event.
pub fn advise_second<R: Runtime + AllocGlobal>(
    rt: &R,
    name: &str,
    first: &SheetFile<Source<R>>,
    second: &SheetFile<Source<R>>,
) {
    if !has_game(rt.alloc(), first.inner().front()) {
        return;
    }
    let front = second.inner().front();
    if !has_game(rt.alloc(), front) {
        advise_bad_record(rt, name, front);
        advise_no_game(rt, name, front);
    }
    advise_unread(rt, name, front);
}

/// The same for the first of two sheets.
pub fn advise_first<R: Runtime + AllocGlobal>(rt: &R, name: &str, first: &SheetFile<Source<R>>) {
    let front = first.inner().front();
    if !has_game(rt.alloc(), front) {
        if is_record(rt.alloc(), front) {
            advise_no_game(rt, name, front);
        } else {
            advise_bad_record(rt, name, front);
        }
    }
    advise_unread(rt, name, front);
}

/// The same for one of two drafts: the report says itself what is wrong with a text that is none.
pub fn advise_draft<R: Runtime + AllocGlobal>(rt: &R, name: &str, draft: &SheetFile<Source<R>>) {
    let front = draft.inner().front();
    if is_record(rt.alloc(), front) && !has_game(rt.alloc(), front) {
        advise_no_game(rt, name, front);
    }
    advise_unread(rt, name, front);
}
