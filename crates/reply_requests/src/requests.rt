//! What an object requests.
ghost use Rattle.std.specs.Prelude.{◌≡◌, false, IfOk, IfErr, Some, codes};
ghost use Rattle.serde_json.specs.View.{view};
ghost use Rattle.reply_requests.specs.declared.commands.Command.TheVariants as command;
ghost use Rattle.reply_requests.specs.Asked.{line_said, number_asked, IsFlag, IsSheet, IsGame, IsRequestFor, IsRequestIn};
ghost use Rattle.reply_requests.specs.Reasons.{IsBadFor, IsBadSheet, IsBadGame, IsBadLine, IsBadNumber, IsNoFlag, IsReason, IsRefusedForMemoryAlone};

use crate::commands::Command;
use crate::members::{flag_in, name_in, number_in, other_key, text_in, texts_in};
use crate::refusals::Refusal;
use serde_json::Value;
use std::alloc::Global;

/// The greatest number of best plays, or of repairs, that a request may ask for.
pub const MOST_ASKED: u32 = 100;

/// A request. A game, or a sheet, is the text of a record.
#[derive(Drop)]
pub enum Request<'a> {
    /// To judge a game, and to search for a deal if `settle` says so; unless `best` says so, no best play is looked for.
    Judge {
        game: &'a [u8],
        settle: bool,
        best: bool,
    },
    /// To explain the verdict on a game, or the event on a line if one is named. Unless `likely` says so, no likely repair is looked for. If `lead`
    /// says so, it is also asked, where there is no likely repair, which bonus or penalty would explain the numbers, and who is ahead by the right ones.
    /// If `draft` says so, the text is that of a draft, and the sheet that it makes is explained.
    Explain {
        game: &'a [u8],
        line: Option<u32>,
        likely: bool,
        lead: bool,
        draft: bool,
    },
    /// To audit the sheet of a game, and to write the corrected record if `corrected` says so and it stands.
    Audit {
        game: &'a [u8],
        corrected: bool,
    },
    /// To show the board of a game, before a line if one is named. If `draft` says so, the text is that of a draft.
    Board {
        game: &'a [u8],
        line: Option<u32>,
        draft: bool,
    },
    /// To find the best `number` plays on the board of a game, before a line if one is named; by a rack, or by the one that the line
    /// shows.
    Top {
        game: &'a [u8],
        line: Option<u32>,
        rack: Option<&'a str>,
        number: Option<u32>,
    },
    /// To rule on words.
    Word {
        words: Vec<&'a str>,
    },
    /// To say how many words the list has, whose lexicon the file is.
    Check,
    /// To write the normal form of a record.
    Tidy {
        game: &'a [u8],
    },
    /// To write the page of a game; unless `likely` says so, without its likely repair.
    Page {
        game: &'a [u8],
        likely: bool,
    },
    /// To find what repairs a record, at most `number` repairs, and to write the repaired sheet if `repaired` says so and one repair is to be chosen. If
    /// `draft` says so, the text is that of a draft.
    Repair {
        game: &'a [u8],
        number: Option<u32>,
        repaired: bool,
        draft: bool,
    },
    /// To compare two sheets of one game, and to write the merged record if `merged` says so and one is ahead of all others. If `draft` says so, the texts
    /// are those of drafts.
    Compare {
        first: &'a [u8],
        second: &'a [u8],
        merged: bool,
        draft: bool,
    },
    /// To write a sheet with notes, each with at most `number` best plays.
    Annotate {
        game: &'a [u8],
        number: Option<u32>,
    },
    /// To fill a draft, and to write the record that it makes if `filled` says so and it is to be written.
    Fill {
        draft: &'a [u8],
        filled: bool,
    },
    /// To say what the next line of a draft is about.
    Next {
        draft: &'a [u8],
    },
}

/// The text of a record, by its key.
fn sheet_in<'a>(
    object: &'a Value,
    command: Command,
    key: &'static str,
) -> Result<&'a [u8], Refusal<'a>>
    ensures sheet { IfOk result (λ sheet. IsSheet key.now (view object.now) sheet.now) }
    ensures reason { IfErr result (IsBadSheet key.now command (view object.now)) }
{
    match text_in(object, key)? {
        Some(sheet) => Ok(sheet.as_bytes()),
        None => Err(Refusal::Missing(command, key)),
    }
}

/// The text of the record.
fn game_in<'a>(object: &'a Value, command: Command) -> Result<&'a [u8], Refusal<'a>>
    ensures game { IfOk result (λ game. IsGame (view object.now) game.now) }
    ensures reason { IfErr result (IsBadGame command (view object.now)) }
{
    sheet_in(object, command, "game")
}

/// How many best plays or repairs are asked for.
fn number_asked<'a>(object: &'a Value) -> Result<Option<u32>, Refusal<'a>>
    ensures number { IfOk result (λ number. number_asked (view object.now) ≡ Some number) }
    ensures reason { IfErr result (IsBadNumber (view object.now)) }
{
    number_in(object, "number", 1, MOST_ASKED)
}

/// The line that is named.
fn line_in<'a>(object: &'a Value) -> Result<Option<u32>, Refusal<'a>>
    ensures line { IfOk result (λ line. line_said (view object.now) ≡ Some line) }
    ensures reason { IfErr result (IsBadLine (view object.now)) }
{
    number_in(object, "line", 0, u32::MAX)
}

/// Whether the text is that of a draft.
fn is_draft<'a>(object: &'a Value) -> Result<bool, Refusal<'a>>
    ensures flag { IfOk result (IsFlag (codes "draft") false (view object.now)) }
    ensures reason { IfErr result (IsNoFlag (codes "draft") (view object.now)) }
{
    flag_in(object, "draft", false)
}

/// A request to judge a game.
fn judge_in<'a>(object: &'a Value) -> Result<Request<'a>, Refusal<'a>>
    ensures says { IfOk result (IsRequestFor command.Judge (view object.now)) }
    ensures reason { IfErr result (IsBadFor command.Judge (view object.now)) }
{
    Ok(Request::Judge {
        game: game_in(object, Command::Judge)?,
        settle: flag_in(object, "settle", false)?,
        best: flag_in(object, "best", true)?,
    })
}

/// A request to explain a game.
fn explain_in<'a>(object: &'a Value) -> Result<Request<'a>, Refusal<'a>>
    ensures says { IfOk result (IsRequestFor command.Explain (view object.now)) }
    ensures reason { IfErr result (IsBadFor command.Explain (view object.now)) }
{
    Ok(Request::Explain {
        game: game_in(object, Command::Explain)?,
        line: line_in(object)?,
        likely: flag_in(object, "likely", true)?,
        lead: false,
        draft: is_draft(object)?,
    })
}

/// A request to audit a sheet.
fn audit_in<'a>(object: &'a Value) -> Result<Request<'a>, Refusal<'a>>
    ensures says { IfOk result (IsRequestFor command.Audit (view object.now)) }
    ensures reason { IfErr result (IsBadFor command.Audit (view object.now)) }
{
    Ok(Request::Audit {
        game: game_in(object, Command::Audit)?,
        corrected: flag_in(object, "corrected", false)?,
    })
}

/// A request for a board.
fn board_in<'a>(object: &'a Value) -> Result<Request<'a>, Refusal<'a>>
    ensures says { IfOk result (IsRequestFor command.Board (view object.now)) }
    ensures reason { IfErr result (IsBadFor command.Board (view object.now)) }
{
    Ok(Request::Board {
        game: game_in(object, Command::Board)?,
        line: line_in(object)?,
        draft: is_draft(object)?,
    })
}

/// A request for best plays. Without a rack it names the line that shows one.
fn top_in<'a>(object: &'a Value) -> Result<Request<'a>, Refusal<'a>>
    ensures says { IfOk result (IsRequestFor command.Top (view object.now)) }
    ensures reason { IfErr result (IsBadFor command.Top (view object.now)) }
{
    let game = game_in(object, Command::Top)?;
    let line = line_in(object)?;
    let rack = text_in(object, "rack")?;
    let number = number_asked(object)?;
    if rack.is_none() && line.is_none() {
        return Err(Refusal::Missing(Command::Top, "rack or line"));
    }
    Ok(Request::Top {
        game,
        line,
        rack,
        number,
    })
}

/// A request about words.
fn word_in<'a>(alloc: Global, object: &'a Value) -> Result<Request<'a>, Refusal<'a>>
    ensures says { IfOk result (IsRequestFor command.Word (view object.now)) }
    ensures reason { IfErr result (IsBadFor command.Word (view object.now)) }
{
    match texts_in(alloc, object, "words")? {
        Some(words) if !words.is_empty() => Ok(Request::Word { words }),
        _ => Err(Refusal::Missing(Command::Word, "words")),
    }
}

/// A request for the normal form of a record.
fn tidy_in<'a>(object: &'a Value) -> Result<Request<'a>, Refusal<'a>>
    ensures says { IfOk result (IsRequestFor command.Tidy (view object.now)) }
    ensures reason { IfErr result (IsBadFor command.Tidy (view object.now)) }
{
    let game = game_in(object, Command::Tidy)?;
    Ok(Request::Tidy { game })
}

/// A request for the page of a game.
fn page_in<'a>(object: &'a Value) -> Result<Request<'a>, Refusal<'a>>
    ensures says { IfOk result (IsRequestFor command.Page (view object.now)) }
    ensures reason { IfErr result (IsBadFor command.Page (view object.now)) }
{
    Ok(Request::Page {
        game: game_in(object, Command::Page)?,
        likely: flag_in(object, "likely", true)?,
    })
}

/// A request for what repairs a record.
fn repair_in<'a>(object: &'a Value) -> Result<Request<'a>, Refusal<'a>>
    ensures says { IfOk result (IsRequestFor command.Repair (view object.now)) }
    ensures reason { IfErr result (IsBadFor command.Repair (view object.now)) }
{
    Ok(Request::Repair {
        game: game_in(object, Command::Repair)?,
        number: number_asked(object)?,
        repaired: flag_in(object, "repaired", false)?,
        draft: is_draft(object)?,
    })
}

/// A request to compare two sheets.
fn compare_in<'a>(object: &'a Value) -> Result<Request<'a>, Refusal<'a>>
    ensures says { IfOk result (IsRequestFor command.Compare (view object.now)) }
    ensures reason { IfErr result (IsBadFor command.Compare (view object.now)) }
{
    Ok(Request::Compare {
        first: sheet_in(object, Command::Compare, "first")?,
        second: sheet_in(object, Command::Compare, "second")?,
        merged: flag_in(object, "merged", false)?,
        draft: is_draft(object)?,
    })
}

/// A request for a sheet with notes.
fn annotate_in<'a>(object: &'a Value) -> Result<Request<'a>, Refusal<'a>>
    ensures says { IfOk result (IsRequestFor command.Annotate (view object.now)) }
    ensures reason { IfErr result (IsBadFor command.Annotate (view object.now)) }
{
    Ok(Request::Annotate {
        game: game_in(object, Command::Annotate)?,
        number: number_asked(object)?,
    })
}

/// A request to fill a draft.
fn fill_in<'a>(object: &'a Value) -> Result<Request<'a>, Refusal<'a>>
    ensures says { IfOk result (IsRequestFor command.Fill (view object.now)) }
    ensures reason { IfErr result (IsBadFor command.Fill (view object.now)) }
{
    Ok(Request::Fill {
        draft: sheet_in(object, Command::Fill, "draft")?,
        filled: flag_in(object, "filled", false)?,
    })
}

/// A request for what the next line of a draft is about.
fn next_in<'a>(object: &'a Value) -> Result<Request<'a>, Refusal<'a>>
    ensures says { IfOk result (IsRequestFor command.Next (view object.now)) }
    ensures reason { IfErr result (IsBadFor command.Next (view object.now)) }
{
    let draft = sheet_in(object, Command::Next, "draft")?;
    Ok(Request::Next { draft })
}

/// The request of an object that names a command.
fn request_for<'a>(
    alloc: Global,
    object: &'a Value,
    command: Command,
) -> Result<Request<'a>, Refusal<'a>>
    ensures says { IfOk result (IsRequestFor command (view object.now)) }
    ensures reason { IfErr result (IsBadFor command (view object.now)) }
{
    match command {
        Command::Judge => judge_in(object),
        Command::Explain => explain_in(object),
        Command::Audit => audit_in(object),
        Command::Board => board_in(object),
        Command::Top => top_in(object),
        Command::Word => word_in(alloc, object),
        Command::Check => Ok(Request::Check),
        Command::Tidy => tidy_in(object),
        Command::Page => page_in(object),
        Command::Repair => repair_in(object),
        Command::Compare => compare_in(object),
        Command::Annotate => annotate_in(object),
        Command::Fill => fill_in(object),
        Command::Next => next_in(object),
    }
}

/// The request of an object, or why it is not one.
///
/// An object is taken exactly if it names a command, has no key that the command does not have, and its values are of the kinds that the keys ask
/// for.
///
/// # Errors
///
/// The refusal is true of the object, or memory was refused. Which one is named if more than one would be true is tested.
#[tactic(auto, using(crate::proofs::Named::asks, crate::proofs::Refused::only_memory))]
pub fn request_in<'a>(alloc: Global, object: &'a Value) -> Result<Request<'a>, Refusal<'a>>
    ensures request { IfOk result (IsRequestIn (view object.now)) }
    ensures reason { IfErr result (IsReason (view object.now)) }
    ensures memory { IfErr result (IsRefusedForMemoryAlone (view object.now)) }
{
    let name = name_in(object)?;
    let Some(command) = Command::of_name(name) else {
        return Err(Refusal::NoSuchCommand(name));
    };
    if let Some(key) = other_key(object, command) {
        return Err(Refusal::NoSuchKey(command, key));
    }
    request_for(alloc, object, command)
}
