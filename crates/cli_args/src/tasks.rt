//! What is asked about the game of a record.

use crate::commands::{FEW_REPAIRS, GameCommand};
use crate::files::STANDARD_OUTPUT_NAME;
use clap::ArgMatches;
use reply_requests::Task;

/// What is asked about the game of a record.
#[derive(Clone, Copy)]
pub struct GameRequest<'a> {
    /// What is asked of it.
    pub asked: Asked<'a>,
    /// The output that is written in addition to the report, if there is one.
    pub out: Option<&'a str>,
}

/// What is asked of a game.
#[derive(Clone, Copy)]
pub enum Asked<'a> {
    /// This of the game of one sheet, or of a draft.
    OfOne(Task<'a>),
    /// To compare it with another sheet.
    WithAnother {
        /// The name of the other sheet.
        second: &'a str,
        /// Whether both are drafts.
        draft: bool,
    },
}

/// What the matches of a command about the game of a record ask for.
pub fn game_request_of<'a>(
    command: GameCommand,
    names: &ArgMatches<'a>,
) -> Option<GameRequest<'a>> {
    let out = out_of(command, names);
    let asked = asked_of(command, names, out.is_some())?;
    Some(GameRequest { asked, out })
}

/// The output that is written in addition to the report: the one that is named, or else standard output for a command that always writes a record.
fn out_of<'a>(command: GameCommand, names: &ArgMatches<'a>) -> Option<&'a str> {
    let otherwise = match command {
        GameCommand::Annotate => Some(STANDARD_OUTPUT_NAME),
        GameCommand::Fill if !names.get_flag("json") && !names.get_flag("next") => {
            Some(STANDARD_OUTPUT_NAME)
        }
        _ => None,
    };
    names
        .get_str("OUT")
        .or(names.get_str("corrected"))
        .or(names.get_str("repaired"))
        .or(names.get_str("merged"))
        .or(otherwise)
}

/// What is asked of a game; `kept` says whether a text is to be written to an output. In words it is also asked who is ahead.
fn asked_of<'a>(command: GameCommand, names: &ArgMatches<'a>, kept: bool) -> Option<Asked<'a>> {
    let task = match command {
        GameCommand::Judge => Task::Judge {
            settle: names.get_flag("settle"),
            best: true,
        },
        GameCommand::Audit => Task::Audit { corrected: kept },
        GameCommand::Fill if names.get_flag("next") => Task::Next,
        GameCommand::Fill => Task::Fill { filled: kept },
        GameCommand::Explain => Task::Explain {
            line: names.get_one::<u32>("LINE"),
            likely: true,
            lead: !names.get_flag("json"),
            draft: names.get_flag("draft"),
        },
        GameCommand::Repair => Task::Repair {
            number: Some(names.get_one::<u32>("number").unwrap_or(FEW_REPAIRS)),
            repaired: kept,
            draft: names.get_flag("draft"),
        },
        GameCommand::Compare => {
            return Some(Asked::WithAnother {
                second: names.get_str("SHEET2")?,
                draft: names.get_flag("draft"),
            });
        }
        GameCommand::Page => Task::Page { likely: true },
        GameCommand::Annotate => Task::Annotate {
            number: Some(names.get_one::<u32>("top").unwrap_or(1)),
        },
        GameCommand::Top => Task::Top {
            line: names.get_one::<u32>("before"),
            rack: names.get_str("RACK"),
            number: names.get_one::<u32>("number"),
        },
    };
    Some(Asked::OfOne(task))
}
